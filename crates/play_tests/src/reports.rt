//! Scenes with their reports, upgrades, command lines that mean nothing, and how many lines, bytes and boxes there may be.

use crate::written::{
    Played, UPGRADED, Wanted, done, played_over, refused, written, written_by_all,
};
use box_tree::BoxTree;
use broad_index::{NoGate, PlainIndex};
use fixed_box::SLOTS;
use frame_player::Status;
use pair_report::Cause;
use std::alloc::{AllocError, Global};
use std::process::Abort;
use std::test::Fail;
use std::thread::Threads;
use test_gates::Threaded;

#[test]
fn scenes_give_their_reports(rt: HostRuntime) -> Result<(), Fail> {
    let rows = [
        (
            b"".as_slice(),
            b"refused 1 header\n".as_slice(),
            refused(1, Cause::Header),
        ),
        (b"\n\n", b"refused 3 header\n", refused(3, Cause::Header)),
        (b"frame\n", b"refused 1 header\n", refused(1, Cause::Header)),
        (b"scene 1\nframe\n", b"frame 1 0\nend 2 1 0\n", Status::Done),
        (
            b"scene 1\nadd 0 0 0 1 1 1\nadd 1 0 0 2 1 1\nframe\n",
            b"add 0:0\nadd 1:0\nframe 1 1\nbegin 0:0 1:0\nend 4 1 2\n",
            Status::Done,
        ),
        (
            b"scene 1\nadd 0 0 0 1 1 1\nadd 1.00002 0 0 2 1 1\nframe\n",
            b"add 0:0\nadd 1:0\nframe 1 0\nend 4 1 2\n",
            Status::Done,
        ),
        (
            b"scene 1\nadd 0 0 0 1 1 1\nadd 1.000007 0 0 2 1 1\nframe\n",
            b"add 0:0\nadd 1:0\nframe 1 1\nbegin 0:0 1:0\nend 4 1 2\n",
            Status::Done,
        ),
        (
            b"scene 1\nadd 0 0 0 1 1 1\nadd 1 0 0 2 1 1\nframe\nmove 1:0 5 0 0 6 1 1\nmove 1:0 1 0 0 2 1 1\nframe\n",
            b"add 0:0\nadd 1:0\nframe 1 1\nbegin 0:0 1:0\nframe 2 1\nstay 0:0 1:0\nend 7 2 2\n",
            Status::Done,
        ),
        (
            b"scene 1\nadd 0 0 0 1 1 1\nadd 1 0 0 2 1 1\nframe\nremove 0:0\nadd 0 0 0 1 1 1\nframe\n",
            b"add 0:0\nadd 1:0\nframe 1 1\nbegin 0:0 1:0\nadd 0:1\nframe 2 1\nbegin 0:1 1:0\nover 0:0 1:0\nend 7 2 2\n",
            Status::Done,
        ),
        (
            b"scene 1\nadd 0 0 0 1 1 1\nadd 1 0 0 2 1 1\nframe\nremove 0:0\nadd 0 0 0 1 1 1\nframe\n\
                move 0:0 9 9 9 9 9 9\nremove 77:0\nmask 007:00 1 1\nframe\n",
            b"add 0:0\nadd 1:0\nframe 1 1\nbegin 0:0 1:0\nadd 0:1\nframe 2 1\nbegin 0:1 1:0\nover 0:0 1:0\nstale 0:0\n\
                stale 77:0\nstale 7:0\nframe 3 1\nstay 0:1 1:0\nend 11 3 2\n",
            Status::Done,
        ),
        (
            b"scene 1\nadd 0 0 0 1 1 1 1 2\nadd 0 0 0 1 1 1 2 4\nframe\nmask 1:0 2 1\nframe\n",
            b"add 0:0\nadd 1:0\nframe 1 0\nframe 2 1\nbegin 0:0 1:0\nend 6 2 2\n",
            Status::Done,
        ),
        (
            b"scene 1\nadd -32768 -32768 -32768 32767.99999 32767.99999 32767.99999\nadd 5 5 5 5 5 5\nframe\n",
            b"add 0:0\nadd 1:0\nframe 1 1\nbegin 0:0 1:0\nend 4 1 2\n",
            Status::Done,
        ),
        (
            b"scene 1\nadd 1 2 3 1 2 3\nadd 1 2 3.00002 1 2 3.00002\nray 0 0 0 1 2 3\n",
            b"add 0:0\nadd 1:0\nray 1 0:0\nend 4 0 2\n",
            Status::Done,
        ),
        (
            b"scene 1\nadd 0 0 0 2 2 2\nray 1 1 1 0 0 0\nray 3 1 1 0 0 0\nray 0 2 1 1 0 0\n",
            b"add 0:0\nray 1 0:0\nray 0\nray 1 0:0\nend 5 0 1\n",
            Status::Done,
        ),
        (
            b"scene 1\nadd 10 0 0 11 1 1\nray 0 0.5 0.5 -1 0 0\nseg 0 0.5 0.5 9.99998 0.5 0.5\nseg 0 0.5 0.5 10 0.5 0.5\n",
            b"add 0:0\nray 0\nseg 0\nseg 1 0:0\nend 5 0 1\n",
            Status::Done,
        ),
        (
            b"scene 1\nadd -1 -1 -1 1 1 1\nseg -32768 -32768 -32768 32767.99999 32767.99999 32767.99999\n",
            b"add 0:0\nseg 1 0:0\nend 3 0 1\n",
            Status::Done,
        ),
        (
            b"scene 1\nadd 0 0 0 0 0 0\nadd 100 0 0 100 0 0\nadd -100 0 0 -100 0 0\nadd 0 100 0 0 100 0\n\
                add 0 0 100 0 0 100 2\nbox -32768 -32768 -32768 32767.99999 32767.99999 32767.99999\n\
                box -32768 -32768 -32768 32767.99999 32767.99999 32767.99999 1\n",
            b"add 0:0\nadd 1:0\nadd 2:0\nadd 3:0\nadd 4:0\nbox 5 0:0 1:0 2:0 3:0 4:0\nbox 4 0:0 1:0 2:0 3:0\nend 8 0 5\n",
            Status::Done,
        ),
        (
            b"scene 1\nadd 0 0 0 1 1 1\nframe\n\nadd 1 0 0 0 1 1\n",
            b"add 0:0\nframe 1 0\nrefused 5 inverted\n",
            refused(5, Cause::Inverted),
        ),
        (
            b"scene 1\n# floor, two crates, a player\nadd -100 -1 -100 100 0 100 1 6\nadd 2 0 2 3 1 3 2 7\n\
                add 2.5 1 2.5 3.5 2 3.5 2 7\nadd 10 0.5 10 10.8 2.3 10.8 4 3\nframe\nmove 3:0 3 0.5 3 3.8 2.3 3.8\n\
                ray 0 1.5 3 1 0 0 4\nframe\nremove 2:0\nframe\n",
            b"add 0:0\nadd 1:0\nadd 2:0\nadd 3:0\nframe 1 2\nbegin 0:0 1:0\nbegin 1:0 2:0\nray 1 3:0\nframe 2 4\n\
                stay 0:0 1:0\nstay 1:0 2:0\nbegin 1:0 3:0\nbegin 2:0 3:0\nframe 3 2\nstay 0:0 1:0\nstay 1:0 3:0\n\
                over 1:0 2:0\nover 2:0 3:0\nend 12 3 3\n",
            Status::Done,
        ),
        (
            b"\tscene  1\r\n#\xff\xfe\r\n add 0 0 0\t1 1 1 # a\r\nadd 1 0 0 2 1 1\r\nframe",
            b"add 0:0\nadd 1:0\nframe 1 1\nbegin 0:0 1:0\nend 5 1 2\n",
            Status::Done,
        ),
        (
            b"scene 3\nframe\n",
            b"refused 1 header\n",
            refused(1, Cause::Header),
        ),
        (
            b"scene 02\nframe\n",
            b"refused 1 header\n",
            refused(1, Cause::Header),
        ),
        (
            b"scene 2\nadd 0 0 0 1 1 1 owner 5\nadd 0 0 0 1 1 1 owner 5\nadd 0 0 0 1 1 1 fixed\nadd 0 0 0 1 1 1 owner 0 fixed\n\
                frame\n",
            b"add 0:0\nadd 1:0\nadd 2:0\nadd 3:0\nframe 1 4\nbegin 0:0 2:0\nbegin 0:0 3:0\nbegin 1:0 2:0\nbegin 1:0 3:0\nend 6 1 4\n",
            Status::Done,
        ),
        (
            b"scene 2\nadd 5 0 0 6 1 1\nadd 2 0 0 3 1 1\nadd 2 0 0 9 1 1\nray 0 0.5 0.5 1 0 0\nray 0 0.5 0.5 1 0 0 entry\n\
                ray 2.5 0.5 0.5 1 0 0 1 entry\n",
            b"add 0:0\nadd 1:0\nadd 2:0\nray 3 0:0 1:0 2:0\nray 3 1:0 2:0 0:0\nray 3 1:0 2:0 0:0\nend 7 0 3\n",
            Status::Done,
        ),
        (
            b"scene 2\nadd 10 0 0 11 1 1\nadd 5 0 0 6 1 1\ncast 0 0 0 1 1 1 20 0 0\ncast 0 0 0 1 1 1 3.99998 0 0\n\
                cast 0 0 0 1 1 1 4 0 0\n",
            b"add 0:0\nadd 1:0\ncast 2 1:0 0:0\ncast 0\ncast 1 1:0\nend 6 0 2\n",
            Status::Done,
        ),
        (
            b"scene 2\nadd 32767 0 0 32767 0 0\ncast 32000 0 0 32000 0 0 32767 0 0\ncast 0 0 0 0 0 0 -32768 0 0\n",
            b"add 0:0\ncast 1 0:0\ncast 0\nend 4 0 1\n",
            Status::Done,
        ),
        (
            b"scene 2\nadd 0 0 0 1 1 1\nadd 3 0 0 4 1 1\nadd -3 0 0 -2 1 1\nnear 0.5 0.5 0.5 2\nnear 0.5 0.5 0.5 8192\n\
                near 0.5 0.5 0.5 3 2\n",
            b"add 0:0\nadd 1:0\nadd 2:0\nnear 2 0:0 1:0\nnear 3 0:0 1:0 2:0\nnear 0\nend 7 0 3\n",
            Status::Done,
        ),
        (
            b"scene 2\nadd 32767.99999 -32766 -32768 32767.99999 -32766 -32768\nadd -32768 -32768 -32766 -32768 -32768 -32766\n\
                near -32768 -32768 -32768 1\n",
            b"add 0:0\nadd 1:0\nnear 1 1:0\nend 4 0 2\n",
            Status::Done,
        ),
        (
            b"scene 2\nadd 0 0 0 1 1 1\nadd 1 0 0 2 1 1\nframe\nmark\nremove 0:0\nadd 5 5 5 6 6 6\nframe\nback\nframe\nback\n",
            b"add 0:0\nadd 1:0\nframe 1 1\nbegin 0:0 1:0\nmark 1\nadd 0:1\nframe 2 0\nover 0:0 1:0\nback 0\nframe 2 1\n\
                stay 0:0 1:0\nnomark 0\nend 11 2 2\n",
            Status::Done,
        ),
        (
            b"scene 2\nmark\nmark\nmark\nmark\nmark\nmark\nmark\nmark\nmark\nmark\nmark\nmark\nmark\nmark\nmark\nmark\nmark\nmark\n\
                mark\nmark\nmark\nmark\nmark\nmark\nmark\nmark\nmark\nmark\nmark\nmark\nmark\nmark\nmark\nmark\nmark\nmark\nmark\n\
                mark\nmark\nmark\nmark\nmark\nmark\nmark\nmark\nmark\nmark\nmark\nmark\nmark\nmark\nmark\nmark\nmark\nmark\nmark\n\
                mark\nmark\nmark\nmark\nmark\nmark\nmark\nmark\nmark\n",
            b"mark 1\nmark 2\nmark 3\nmark 4\nmark 5\nmark 6\nmark 7\nmark 8\nmark 9\nmark 10\nmark 11\nmark 12\nmark 13\nmark 14\n\
                mark 15\nmark 16\nmark 17\nmark 18\nmark 19\nmark 20\nmark 21\nmark 22\nmark 23\nmark 24\nmark 25\nmark 26\nmark 27\n\
                mark 28\nmark 29\nmark 30\nmark 31\nmark 32\nmark 33\nmark 34\nmark 35\nmark 36\nmark 37\nmark 38\nmark 39\nmark 40\n\
                mark 41\nmark 42\nmark 43\nmark 44\nmark 45\nmark 46\nmark 47\nmark 48\nmark 49\nmark 50\nmark 51\nmark 52\nmark 53\n\
                mark 54\nmark 55\nmark 56\nmark 57\nmark 58\nmark 59\nmark 60\nmark 61\nmark 62\nmark 63\nmark 64\nnomark 64\n\
                end 66 0 0\n",
            Status::Done,
        ),
    ];
    for (scene, report, status) in rows {
        written_by_all(&rt, rt.alloc(), scene, Wanted { report, status })?;
    }
    Ok(())
}

#[test]
fn bad_lines_are_refused(rt: HostRuntime) -> Result<(), Fail> {
    let rows = [
        ("scene 1", "scene 1", "header", Cause::Header),
        ("scene 1", "mov 0:0", "word", Cause::Word),
        ("scene 1", "frame 1", "count", Cause::Count),
        ("scene 1", "add 1 0 0 0 1", "count", Cause::Count),
        ("scene 1", "move 0-0 x 0 0 1 1 1", "handle", Cause::Handle),
        ("scene 1", "remove 4294967296:0", "handle", Cause::Handle),
        ("scene 1", "add x 99999 0 1 1 1", "number", Cause::Number),
        ("scene 1", "add 99999 x 0 1 1 1", "range", Cause::Range),
        ("scene 1", "mask 0:0 g 1", "mask", Cause::Mask),
        ("scene 1", "add 1 0 0 0 1 1 123456789", "mask", Cause::Mask),
        (
            "scene 1",
            "move 0:0 1 0 0 0 1 1",
            "inverted",
            Cause::Inverted,
        ),
        ("scene 1", "add 0 0 0 1 1 1 fixed", "mask", Cause::Mask),
        ("scene 1", "ray 0 0 0 1 0 0 entry", "mask", Cause::Mask),
        ("scene 1", "cast 0 0 0 1 1 1 0 0 0", "word", Cause::Word),
        ("scene 1", "near 0 0 0 1", "word", Cause::Word),
        ("scene 1", "mark", "word", Cause::Word),
        ("scene 1", "back", "word", Cause::Word),
        ("scene 2", "scene 2", "header", Cause::Header),
        ("scene 2", "add 0 0 0 1 1 1 owner x", "owner", Cause::Owner),
        (
            "scene 2",
            "add 0 0 0 1 1 1 owner 4294967296",
            "owner",
            Cause::Owner,
        ),
        (
            "scene 2",
            "add 0 0 0 1 1 1 fixed owner 5",
            "mask",
            Cause::Mask,
        ),
        (
            "scene 2",
            "add 0 0 0 1 1 1 owner 5 fixed fixed",
            "count",
            Cause::Count,
        ),
        (
            "scene 2",
            "cast 1 0 0 0 1 1 0 0 0",
            "inverted",
            Cause::Inverted,
        ),
        ("scene 2", "near 0 0 0 0", "range", Cause::Range),
        ("scene 2", "near 0 0 0 9000", "range", Cause::Range),
        ("scene 2", "near 0 0 0 x", "number", Cause::Number),
        ("scene 2", "near 0 0 0 12345", "number", Cause::Number),
    ];
    for (header, line, word, cause) in rows {
        let mut scene = String::new(rt.alloc());
        writeln!(scene, "{header}\n{line}")?;
        let mut report = String::new(rt.alloc());
        writeln!(report, "refused 2 {word}")?;
        let wanted = Wanted {
            report: report.as_bytes(),
            status: refused(2, cause),
        };
        written_by_all(&rt, rt.alloc(), scene.as_bytes(), wanted)?;
    }
    Ok(())
}

// A comment line of `#` and so many bytes after the header.
fn commented(alloc: Global, bytes: u32, end: &str) -> Result<String, AllocError> {
    let mut scene = String::from_str(alloc, "scene 1\n#")?;
    for _ in 0..bytes {
        scene.push_str("x")?;
    }
    scene.push_str(end)?;
    Ok(scene)
}

#[test]
fn a_line_has_at_most_1024_bytes(rt: HostRuntime) -> Result<(), Fail> {
    let passes = b"end 2 0 0\n".as_slice();
    let rows = [
        (1023, "\n", passes, Status::Done),
        (1023, "\r\n", passes, Status::Done),
        (1024, "\n", b"refused 2 long\n", refused(2, Cause::Long)),
    ];
    for (bytes, end, report, status) in rows {
        let scene = commented(rt.alloc(), bytes, end)?;
        written_by_all(&rt, rt.alloc(), scene.as_bytes(), Wanted { report, status })?;
    }
    Ok(())
}

// An added box passes the endpoints that its own come to stand before, and a moved one those that it moves past.
#[test]
fn exchanges_are_told_at_each_frame(rt: HostRuntime) -> Result<(), Fail> {
    let words: [&[&str]; 3] = [
        &["play", "--exchanges"],
        &["play", "--exchanges", "--with", "sap"],
        &["play", "--workers", "4", "--with", "sap", "--exchanges"],
    ];
    for list in words {
        written(
            &rt,
            rt.alloc(),
            list,
            b"scene 1\nadd 0 0 0 1 1 1\nadd 1 0 0 2 1 1\nframe\nmove 0:0 3 0 0 4 1 1\nframe\n",
            done(
                b"add 0:0\nadd 1:0\nframe 1 1\nbegin 0:0 1:0\nexchanges 3\nframe 2 0\nover 0:0 1:0\nexchanges 3\nend 6 2 2\n",
            ),
        )?;
        // A way back brings the number at its mark again.
        written(
            &rt,
            rt.alloc(),
            list,
            b"scene 2\nadd 0 0 0 1 1 1\nadd 1 0 0 2 1 1\nframe\nmark\nremove 0:0\nadd 5 5 5 6 6 6\nframe\nback\nframe\nback\n",
            done(
                b"add 0:0\nadd 1:0\nframe 1 1\nbegin 0:0 1:0\nexchanges 3\nmark 1\nadd 0:1\nframe 2 0\nover 0:0 1:0\nexchanges 0\n\
                back 0\nframe 2 1\nstay 0:0 1:0\nexchanges 0\nnomark 0\nend 11 2 2\n",
            ),
        )?;
    }
    Ok(())
}

// Numbers, masks and ends of lines are written in one form, blank lines stay, and comments go. No box is kept, so none is too many.
#[test]
fn scenes_are_written_as_scenes_of_version_2(rt: HostRuntime) -> Result<(), Fail> {
    let rows = [
        (
            b"scene 1\n\nadd 0 0 0 1 1 1 # a\r\nframe".as_slice(),
            b"scene 2\n\nadd 0.00000 0.00000 0.00000 1.00000 1.00000 1.00000 1 ffffffff\nframe\n".as_slice(),
            Status::Done,
        ),
        (
            b"scene 1\nframe\nmov",
            b"scene 2\nframe\n",
            refused(3, Cause::Word),
        ),
        (b"", b"", refused(1, Cause::Header)),
        (
            b"scene 2\nadd 0 0 0 1 1 1 owner 5\nray 0 0 0 1 0 0 entry\ncast 0 0 0 1 1 1 -2 0 0 3\nnear 0 0 0 8\nmark\nback\n",
            b"scene 2\nadd 0.00000 0.00000 0.00000 1.00000 1.00000 1.00000 1 ffffffff owner 5\n\
            ray 0.00000 0.00000 0.00000 1.00000 0.00000 0.00000 ffffffff entry\n\
            cast 0.00000 0.00000 0.00000 1.00000 1.00000 1.00000 -2.00000 0.00000 0.00000 3\n\
            near 0.00000 0.00000 0.00000 8 ffffffff\nmark\nback\n",
            Status::Done,
        ),
    ];
    for (scene, report, status) in rows {
        written(&rt, rt.alloc(), UPGRADED, scene, Wanted { report, status })?;
        if status == Status::Done {
            written(&rt, rt.alloc(), UPGRADED, report, done(report))?;
        }
    }
    Ok(())
}

#[test]
fn other_command_lines_touch_nothing(rt: HostRuntime) -> Result<(), Fail> {
    let rows: [&[&str]; 39] = [
        &[],
        &["--help"],
        &["play", "play"],
        &["play", "--with"],
        &["play", "--with", "plane"],
        &["play", "--with", "plain", "--with", "plain"],
        &["play", "--workers"],
        &["play", "--workers", ""],
        &["play", "--workers", "004"],
        &["play", "--workers", "1x"],
        &["play", "--workers", "4", "--workers", "4"],
        &["play", "--with", "sap", "--with", "tree"],
        &["play", "--workers", "0"],
        &["play", "--workers", "17"],
        &["play", "--with", "grid", "--exchanges"],
        &["play", "--exchanges", "--with", "plain"],
        &["play", "--exchanges", "--exchanges"],
        &["play", "--exchanges", "4"],
        &["play", "--workers", "--exchanges"],
        &["play", "--with=tree"],
        &["drill"],
        &["drill", "1", "1"],
        &["drill", "1", "0", "1"],
        &["drill", "1", "8193", "1"],
        &["drill", "1", "00001", "1"],
        &["drill", "1", "1", "0"],
        &["drill", "1", "1", "101"],
        &["drill", "1", "1", "0001"],
        &["drill", "", "1", "1"],
        &["drill", "+1", "1", "1"],
        &["drill", "1x", "1", "1"],
        &["drill", "18446744073709551616", "1", "1"],
        &["drill", "000000000000000000001", "1", "1"],
        &["drill", "1", "1", "1", "1"],
        &["drill", "--with", "tree", "1", "1", "1"],
        &["drill", "1", "1", "1", "--with", "grid", "--exchanges"],
        &["upgrade", "--with", "tree"],
        &["upgrade", "upgrade"],
        &["play", "upgrade"],
    ];
    for words in rows {
        let wanted = Wanted {
            report: b"",
            status: Status::Usage,
        };
        written(&rt, rt.alloc(), words, b"scene 1\nframe\n", wanted)?;
    }
    Ok(())
}

fn played_within<R: Threads + Sync + Abort>(
    rt: &R,
    alloc: Global,
    scene: &[u8],
    wanted: Wanted,
) -> Result<(), Fail> {
    let one = Played {
        workers: 1,
        lines: 3,
        scene,
        wanted,
    };
    let plain = PlainIndex::new(alloc)?;
    played_over(rt, alloc, plain, &NoGate, one)?;
    let four = Played { workers: 4, ..one };
    let tree = BoxTree::new(alloc)?;
    played_over(rt, alloc, tree, &Threaded, four)
}

#[test]
fn a_scene_has_at_most_so_many_lines(rt: HostRuntime) -> Result<(), Fail> {
    let too_many = Wanted {
        report: b"frame 1 0\nframe 2 0\nrefused 4 lines\n",
        status: refused(4, Cause::Lines),
    };
    played_within(&rt, rt.alloc(), b"scene 1\nframe\nframe\nframe\n", too_many)?;
    played_within(
        &rt,
        rt.alloc(),
        b"scene 1\nframe\nframe\n",
        done(b"frame 1 0\nframe 2 0\nend 3 2 0\n"),
    )
}

// A scene of so many boxes, flat and apart, and of these lines, and the report of the boxes for which there is room.
fn put_crowd(
    scene: &mut String,
    report: &mut String,
    boxes: u32,
    later: (&str, &str),
) -> Result<(), AllocError> {
    scene.push_str("scene 1\n")?;
    for slot in 0..boxes {
        writeln!(scene, "add {slot} {slot} {slot} {slot} {slot} {slot}")?;
        if slot < SLOTS {
            writeln!(report, "add {slot}:0")?;
        }
    }
    scene.push_str(later.0)?;
    report.push_str(later.1)
}

// What is written of so many boxes, and then of these lines.
fn crowd_written<R: Threads + Sync + Abort>(
    rt: &R,
    alloc: Global,
    boxes: u32,
    later: (&str, &str),
    status: Status,
) -> Result<(), Fail> {
    let mut scene = String::new(alloc);
    let mut report = String::new(alloc);
    let made = put_crowd(&mut scene, &mut report, boxes, later);
    let wanted = Wanted {
        report: report.as_bytes(),
        status,
    };
    let done = made_written(rt, alloc, made, scene.as_bytes(), wanted);
    drop(report);
    drop(scene);
    done
}

// What is written of a scene that was made, with memory enough.
fn made_written<R: Threads + Sync + Abort>(
    rt: &R,
    alloc: Global,
    made: Result<(), AllocError>,
    scene: &[u8],
    wanted: Wanted,
) -> Result<(), Fail> {
    made?;
    written_by_all(rt, alloc, scene, wanted)
}

#[test]
fn so_many_boxes_live_and_no_more(rt: HostRuntime) -> Result<(), Fail> {
    let status = refused(8194, Cause::Full);
    crowd_written(&rt, rt.alloc(), 8193, ("", "refused 8194 full\n"), status)
}

#[test]
fn a_slot_that_is_free_again_takes_the_next_box(rt: HostRuntime) -> Result<(), Fail> {
    let later = (
        "remove 5:0\nadd 8192 8192 8192 8192 8192 8192\n",
        "add 5:1\nend 8195 0 8192\n",
    );
    crowd_written(&rt, rt.alloc(), 8192, later, Status::Done)
}
