//! Lines read as commands, as one table, and printed again.

use fixed_box::{FBox, Fix, Point};
use live_table::{Group, Handle, Masks};
use ray_slabs::{Ray, Seg, WPoint};
use scene_words::{Command, LineFault, Version, print_command, read_command};
use std::test::Fail;

// One unit in raw units.
const ONE: Fix = 65536;

const EVERY_GROUP: u32 = 4294967295;

fn at(x: Fix, y: Fix, z: Fix) -> Point {
    Point { x, y, z }
}

fn masks(is: u32, sees: u32) -> Masks {
    Masks { is, sees }
}

// A box that nobody owns and that isn't fixed.
fn nobodys() -> Group {
    Group {
        owner: 0,
        fixed: false,
    }
}

fn ray(from: Point, dir: Point) -> Ray {
    Ray {
        from: WPoint::of(&from),
        dir: WPoint::of(&dir),
    }
}

fn seg(a: Point, b: Point) -> Seg {
    Seg {
        a: WPoint::of(&a),
        b: WPoint::of(&b),
    }
}

#[test]
fn lines_read_as_commands(rt: HostRuntime) -> Result<(), Fail> {
    let origin = at(0, 0, 0);
    let corner = at(ONE, 2 * ONE, 3 * ONE);
    let body = FBox::new(origin, corner).ok_or("the corners are inverted")?;
    let first = Handle {
        slot: 7,
        generation: 0,
    };
    let last = Handle {
        slot: 4294967295,
        generation: 4294967295,
    };
    let version = Version::One;
    let cases: [(&[u8], Result<Command, LineFault>); 31] = [
        (b"", Ok(Command::Blank)),
        (b" \t # scene 1", Ok(Command::Blank)),
        (b"scene 1", Ok(Command::Header { version })),
        (b"\tscene  1#x", Ok(Command::Header { version })),
        (
            b"add 0 0 0 1 2 3",
            Ok(Command::Add {
                body,
                masks: masks(1, EVERY_GROUP),
                group: nobodys(),
            }),
        ),
        (
            b"add 0 0 0 1 2 3 2",
            Ok(Command::Add {
                body,
                masks: masks(2, EVERY_GROUP),
                group: nobodys(),
            }),
        ),
        (
            b" add 0 0 0\t1 2 3 aB 000000Ab # a",
            Ok(Command::Add {
                body,
                masks: masks(171, 171),
                group: nobodys(),
            }),
        ),
        (
            b"move 007:00 0 0 0 1 2 3",
            Ok(Command::Move {
                handle: first,
                body,
            }),
        ),
        (
            b"move 7:0 0.00000 -0.00000 0.00000 1.00000 2.00000 3.00000",
            Ok(Command::Move {
                handle: first,
                body,
            }),
        ),
        (
            b"move  7:0\t0 0.0  0.000000000 1.000000 \t2.00001 3.000000001# 4",
            Ok(Command::Move {
                handle: first,
                body: FBox::new(origin, at(ONE, 2 * ONE + 1, 3 * ONE)).ok_or(
                    "the corners are inverted",
                )?,
            }),
        ),
        (
            b"move 7:0 0.00000  0.00000\t-0.00000 1.00000 \t2.00001 3.00000\t#",
            Ok(Command::Move {
                handle: first,
                body: FBox::new(origin, at(ONE, 2 * ONE + 1, 3 * ONE)).ok_or(
                    "the corners are inverted",
                )?,
            }),
        ),
        (
            b"add 0.00000 0.00000 0.00000 1.00000 2.00000 3.00000 aB 000000Ab",
            Ok(Command::Add {
                body,
                masks: masks(171, 171),
                group: nobodys(),
            }),
        ),
        (
            b"add -32768.00000 0.00000 0.00000 0000000001 2.00000 3.00000 2 \t",
            Ok(Command::Add {
                body: FBox::new(at(-32768 * ONE, 0, 0), corner).ok_or("the corners are inverted")?,
                masks: masks(2, EVERY_GROUP),
                group: nobodys(),
            }),
        ),
        (b"remove  7:0 #1", Ok(Command::Remove { handle: first })),
        (b"frame ", Ok(Command::Frame)),
        (
            b"move 4294967295:4294967295 0 0 0 1 2 3",
            Ok(Command::Move { handle: last, body }),
        ),
        (
            b"mask 7:0 AB 1",
            Ok(Command::Mask {
                handle: first,
                masks: masks(171, 1),
            }),
        ),
        (
            b"mask 0000000007:0000000000 00000001 ab",
            Ok(Command::Mask {
                handle: first,
                masks: masks(1, 171),
            }),
        ),
        (b"remove 7:0", Ok(Command::Remove { handle: first })),
        (
            b"remove 4294967295:4294967295",
            Ok(Command::Remove { handle: last }),
        ),
        (b"frame", Ok(Command::Frame)),
        (b"frame\t#1", Ok(Command::Frame)),
        (
            b"box 0 0 0 1 2 3",
            Ok(Command::BoxQ {
                body,
                mask: EVERY_GROUP,
            }),
        ),
        (b"box 0 0 0 1 2 3 2", Ok(Command::BoxQ { body, mask: 2 })),
        (
            b"point 1 2 3",
            Ok(Command::PointQ {
                at: corner,
                mask: EVERY_GROUP,
            }),
        ),
        (
            b"point 1 2 3 FFFFFFFF",
            Ok(Command::PointQ {
                at: corner,
                mask: EVERY_GROUP,
            }),
        ),
        (
            b"ray 0 0 0 1 2 3",
            Ok(Command::RayQ {
                ray: ray(origin, corner),
                mask: EVERY_GROUP,
                entry: false,
            }),
        ),
        (
            b"ray 0 0 0 1 2 3 0",
            Ok(Command::RayQ {
                ray: ray(origin, corner),
                mask: 0,
                entry: false,
            }),
        ),
        (
            b"seg 0 0 0 1 2 3",
            Ok(Command::SegQ {
                seg: seg(origin, corner),
                mask: EVERY_GROUP,
            }),
        ),
        (
            b"seg 0 0 0 1 2 3 80000000",
            Ok(Command::SegQ {
                seg: seg(origin, corner),
                mask: 2147483648,
            }),
        ),
        (
            b"seg 0 0 0 1 2 3 fedcba98",
            Ok(Command::SegQ {
                seg: seg(origin, corner),
                mask: 4275878552,
            }),
        ),
    ];
    for (line, want) in cases {
        assert_eq!(rt; read_command(Version::One, line), want);
    }
    Ok(())
}

#[test]
fn the_first_fault_is_answered(rt: HostRuntime) {
    let cases: [(&[u8], LineFault); 57] = [
        (b"scene", LineFault::Header),
        (b"move 7:0 0.0 0.0 0.0 1.0 2.0 32768.0", LineFault::Range),
        (b"move 7:0 0.0 0.0 0.0 1.0 2.0 3.0.0", LineFault::Number),
        (
            b"move 7:0 1.00000 0.00000 0.00000 0.99999 1.00000 1.00000",
            LineFault::Inverted,
        ),
        (
            b"add 0.0 0.0 0.0 1.0 1.0 1.0 1 123456789 #1",
            LineFault::Mask,
        ),
        (b"scene 3", LineFault::Header),
        (b"scene 01", LineFault::Header),
        (b"scene 1 x", LineFault::Header),
        (b"mov 0:0", LineFault::Word),
        (b"Add 0 0 0 1 1 1", LineFault::Word),
        (b"cast 0 0 0 1 1 1 0 0 0", LineFault::Word),
        (b"scene1", LineFault::Word),
        (b"frame 1", LineFault::Count),
        (b"add 1 0 0 0 1", LineFault::Count),
        (b"add x 0 0 0 1 1 1 1 1", LineFault::Count),
        (b"move 0:0 0 0 0 1 1", LineFault::Count),
        (b"move 0:0 0 0 0 1 1 1 1", LineFault::Count),
        (b"mask 0:0 1", LineFault::Count),
        (b"mask 0:0 1 1 1", LineFault::Count),
        (b"remove", LineFault::Count),
        (b"remove 0:0 0:0", LineFault::Count),
        (b"box 0 0 0 1 1", LineFault::Count),
        (b"box 0 0 0 1 1 1 1 1", LineFault::Count),
        (b"point 0 0", LineFault::Count),
        (b"point 0 0 0 1 1", LineFault::Count),
        (b"ray 0 0 0 1 1", LineFault::Count),
        (b"ray 0 0 0 1 1 1 1 1", LineFault::Count),
        (b"seg 0 0 0 1 1 # 1", LineFault::Count),
        (b"seg 0 0 0 1 1 1 1 1", LineFault::Count),
        (b"move 0-0 x 0 0 1 1 1", LineFault::Handle),
        (b"remove 4294967296:0", LineFault::Handle),
        (b"remove 0:4294967296", LineFault::Handle),
        (b"remove 00000000007:0", LineFault::Handle),
        (b"remove 7:00000000000", LineFault::Handle),
        (b"remove :0", LineFault::Handle),
        (b"remove 7", LineFault::Handle),
        (b"remove 7:", LineFault::Handle),
        (b"remove 7:0:0", LineFault::Handle),
        (b"add x 99999 0 1 1 1", LineFault::Number),
        (b"add 99999 x 0 1 1 1", LineFault::Range),
        (b"add 32767.999999 0 0 1 1 1", LineFault::Range),
        (b"add 32768 0 0 1 1 1", LineFault::Range),
        (b"add -32768.00001 0 0 1 1 1", LineFault::Range),
        (b"add 9999999999 0 0 1 1 1", LineFault::Range),
        (b"add +1 0 0 1 1 1", LineFault::Number),
        (b"add .5 0 0 1 1 1", LineFault::Number),
        (b"add 1. 0 0 1 1 1", LineFault::Number),
        (b"add 12345678901 0 0 1 1 1", LineFault::Number),
        (b"add 1.0000000001 0 0 1 1 1", LineFault::Number),
        (b"mask 0:0 g 1", LineFault::Mask),
        (b"mask 0:0 0x1 1", LineFault::Mask),
        (b"add 1 0 0 0 1 1 123456789", LineFault::Mask),
        (b"add 0 0 0 1 1 1 fixed", LineFault::Mask),
        (b"add 0 0 0 1 1 1 owner 5", LineFault::Mask),
        (b"ray 0 0 0 1 0 0 entry", LineFault::Mask),
        (b"move 0:0 1 0 0 0 1 1", LineFault::Inverted),
        (b"box 0 0 1.00001 1 1 1", LineFault::Inverted),
    ];
    for (line, want) in cases {
        assert_eq!(rt; read_command(Version::One, line), Err(want));
    }
}

#[test]
fn the_first_fault_of_version_2_is_answered(rt: HostRuntime) {
    let cases: [(&[u8], LineFault); 20] = [
        (b"scene 02", LineFault::Header),
        (b"add 0 0 0 1 1 1 owner x", LineFault::Owner),
        (b"add 0 0 0 1 1 1 owner 4294967296", LineFault::Owner),
        (b"add 0 0 0 1 1 1 owner 00000000001", LineFault::Owner),
        (b"add 0 0 0 1 1 1 owner fixed fixed", LineFault::Owner),
        (b"add 0 0 0 1 1 1 owner fixed", LineFault::Mask),
        (b"add 0 0 0 1 1 1 fixed owner 5", LineFault::Mask),
        (b"add 0 0 0 1 1 1 g owner x", LineFault::Mask),
        (b"add 0 0 0 1 1 1 owner 5 fixed fixed", LineFault::Count),
        (b"add 0 0 0 1 1 1 1 1 1 owner 5", LineFault::Count),
        (b"add 1 0 0 0 1 1 owner x", LineFault::Owner),
        (b"add 1 0 0 0 1 1 owner 5", LineFault::Inverted),
        (b"ray 0 0 0 1 0 0 entry 1", LineFault::Count),
        (b"ray 0 0 0 1 0 0 1 entry entry", LineFault::Count),
        (b"cast 1 0 0 0 1 1 0 0 0", LineFault::Inverted),
        (b"cast 0 0 0 1 1 1 0 0", LineFault::Count),
        (b"near 0 0 0 0", LineFault::Range),
        (b"near 0 0 0 8193 g", LineFault::Range),
        (b"near 0 0 0 00001", LineFault::Number),
        (b"mark 1", LineFault::Count),
    ];
    for (line, want) in cases {
        assert_eq!(rt; read_command(Version::Two, line), Err(want));
    }
}

#[test]
fn numbers_of_a_box_are_read_to_the_nearest_raw_number(rt: HostRuntime) -> Result<(), Fail> {
    let cases: [(&[u8], Fix, Fix); 5] = [
        (b"add -0.00001 0 0 1 1 1", -1, ONE),
        (b"add -0.000005 0 0 1 1 1", 0, ONE),
        (b"add -0 0 0 1 1 1", 0, ONE),
        (
            b"add 32767.99999 0 0 32767.99999 1 1",
            2147483647,
            2147483647,
        ),
        (b"add -32768 0 0 1 1 1", -2147483648, ONE),
    ];
    for (line, low, high) in cases {
        let body = FBox::new(at(low, 0, 0), at(high, ONE, ONE)).ok_or("the corners are inverted")?;
        let want = Ok(Command::Add {
            body,
            masks: masks(1, EVERY_GROUP),
            group: nobodys(),
        });
        assert_eq!(rt; read_command(Version::One, line), want);
    }
    Ok(())
}

#[test]
fn commands_print_as_lines(rt: HostRuntime) -> Result<(), Fail> {
    let body = FBox::new(at(0, 0, 0), at(ONE, ONE, ONE)).ok_or("the corners are inverted")?;
    let mut out = Vec::new(rt.alloc());
    let added = Command::Add {
        body,
        masks: masks(1, EVERY_GROUP),
        group: nobodys(),
    };
    print_command(&added, &mut out)?;
    print_command(&Command::Blank, &mut out)?;
    print_command(&Command::Frame, &mut out)?;
    let text = b"add 0.00000 0.00000 0.00000 1.00000 1.00000 1.00000 1 ffffffff\n\nframe\n";
    assert_eq!(rt; out.as_slice(), text.as_slice());
    Ok(())
}

#[test]
fn lines_are_printed_with_all_their_words(rt: HostRuntime) -> Result<(), Fail> {
    let cases: [(&[u8], &[u8]); 26] = [
        (b"", b"\n"),
        (b" \t # a comment", b"\n"),
        (b"scene\t1", b"scene 1\n"),
        (
            b"add 0 0 0 1 1 1",
            b"add 0.00000 0.00000 0.00000 1.00000 1.00000 1.00000 1 ffffffff\n",
        ),
        (
            b"add -1 -2.5 -3 1 1 1 00AB",
            b"add -1.00000 -2.50000 -3.00000 1.00000 1.00000 1.00000 ab ffffffff\n",
        ),
        (
            b"move 007:00 0 0 0 1 1 1",
            b"move 7:0 0.00000 0.00000 0.00000 1.00000 1.00000 1.00000\n",
        ),
        (
            b"move 4294967295:4294967295 -32768 -32768 -32768 -32768 -32768 -32768",
            b"move 4294967295:4294967295 -32768.00000 -32768.00000 -32768.00000 -32768.00000 -32768.00000 -32768.00000\n",
        ),
        (b"mask 7:1 10 0", b"mask 7:1 10 0\n"),
        (b"remove 8191:4294967295", b"remove 8191:4294967295\n"),
        (b"frame # the first", b"frame\n"),
        (
            b"box 0 0 0 1 1 1 F",
            b"box 0.00000 0.00000 0.00000 1.00000 1.00000 1.00000 f\n",
        ),
        (
            b"point 0.00001 -0.00001 32767.99999",
            b"point 0.00002 -0.00002 32767.99998 ffffffff\n",
        ),
        (
            b"ray 0 0 0 1 2 3 FEDCBA98",
            b"ray 0.00000 0.00000 0.00000 1.00000 2.00000 3.00000 fedcba98\n",
        ),
        (
            b"seg 1 2 3 0 0 0 80000000",
            b"seg 1.00000 2.00000 3.00000 0.00000 0.00000 0.00000 80000000\n",
        ),
        (b"scene 2", b"scene 2\n"),
        (
            b"add 0 0 0 1 1 1 owner 005",
            b"add 0.00000 0.00000 0.00000 1.00000 1.00000 1.00000 1 ffffffff owner 5\n",
        ),
        (
            b"add 0 0 0 1 1 1 owner 0 fixed",
            b"add 0.00000 0.00000 0.00000 1.00000 1.00000 1.00000 1 ffffffff fixed\n",
        ),
        (
            b"add 0 0 0 1 1 1 2 fixed# 1",
            b"add 0.00000 0.00000 0.00000 1.00000 1.00000 1.00000 2 ffffffff fixed\n",
        ),
        (
            b"add 0 0 0 1 1 1 2 F owner 4294967295 \tfixed",
            b"add 0.00000 0.00000 0.00000 1.00000 1.00000 1.00000 2 f owner 4294967295 fixed\n",
        ),
        (
            b"ray 0 0 0 1 2 3 entry",
            b"ray 0.00000 0.00000 0.00000 1.00000 2.00000 3.00000 ffffffff entry\n",
        ),
        (
            b"ray 0 0 0 1 2 3 A entry",
            b"ray 0.00000 0.00000 0.00000 1.00000 2.00000 3.00000 a entry\n",
        ),
        (
            b"cast -32768 -32768 -32768 -32768 -32768 -32768 -32768 -32768 -32768",
            b"cast -32768.00000 -32768.00000 -32768.00000 -32768.00000 -32768.00000 -32768.00000 -32768.00000 -32768.00000 -32768.00000 ffffffff\n",
        ),
        (
            b"near 0.5 0.5 0.5 0003 2",
            b"near 0.50000 0.50000 0.50000 3 2\n",
        ),
        (
            b"near 0 0 0 8192",
            b"near 0.00000 0.00000 0.00000 8192 ffffffff\n",
        ),
        (b"mark # 1", b"mark\n"),
        (b"back", b"back\n"),
    ];
    for (line, printed) in cases {
        let Ok(command) = read_command(Version::Two, line) else {
            return Err("the line is no command".into());
        };
        let mut out = Vec::new(rt.alloc());
        print_command(&command, &mut out)?;
        assert_eq!(rt; out.as_slice(), printed);
    }
    Ok(())
}
