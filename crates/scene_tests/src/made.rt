//! Made scenes against the reference of the generator.

use made_scene::drill_scene;
use rand_core::utils::NextWord;
use rand_pcg::Lcg64Xsh32;
use std::test::Fail;

#[test]
fn generator_gives_the_words_of_the_reference(rt: HostRuntime) {
    let mut generator = Lcg64Xsh32::new(42, 54);
    for word in [
        0xa15c02b7, 0x7b47f409, 0xba1d3330, 0x83d2f293, 0xbfa4784b, 0xcbed606e,
    ] {
        assert_eq!(rt; generator.next_word(), word);
    }
}

#[test]
fn scene_comes_behind_what_stands_there(rt: HostRuntime) -> Result<(), Fail> {
    let mut out = Vec::new(rt.alloc());
    out.extend_from_slice(b"# one box\n")?;
    drill_scene(rt.alloc(), 42, 1, 1, &mut out)?;
    assert_eq!(rt;
        str::from_utf8(&out)?,
        "# one box\n\
         scene 1\n\
         add 161.35941 123.28107 186.11406 169.25003 135.62482 196.95781 8 f\n\
         move 0:0 161.15433 123.25177 186.25664 169.04495 135.59552 197.10039\n\
         remove 0:0\n\
         add 191.77592 129.18748 230.12183 199.52592 133.70311 233.74683 2 f\n\
         box 191.77592 129.18748 230.12183 199.52592 133.70311 233.74683 ffffffff\n\
         point 191.77592 129.18748 230.12183 ffffffff\n\
         ray 0.00000 0.00000 0.00000 191.77592 129.18748 230.12183 ffffffff\n\
         seg 191.77592 129.18748 230.12183 191.77592 129.18748 230.12183 ffffffff\n\
         frame\n"
    );
    Ok(())
}

#[test]
fn scenes_have_these_lines(rt: HostRuntime) -> Result<(), Fail> {
    // the seed, the boxes and the frames of a scene, how many lines it has, and one of them by its number from 1 on
    let rows: [(u64, u32, u32, usize, usize, &str); 8] = [
        // the slot after the last is the first
        (
            7,
            3,
            9,
            94,
            73,
            "seg 236.64673 203.48936 39.33139 243.22386 141.73009 185.19907 ffffffff",
        ),
        // a slot that is replaced once more has the next generation
        (7, 3, 9, 94, 8, "remove 2:0"),
        (7, 3, 9, 94, 28, "remove 2:1"),
        (7, 3, 9, 94, 78, "remove 2:3"),
        (
            7,
            50,
            3,
            222,
            215,
            "move 49:0 89.25812 189.00291 244.44157 99.21124 199.14354 251.81657",
        ),
        (
            7,
            50,
            3,
            222,
            217,
            "add 42.13966 177.93437 32.16972 48.85841 184.70000 34.48222 1 7",
        ),
        (
            7,
            50,
            3,
            222,
            221,
            "seg 42.13966 177.93437 32.16972 38.02647 68.15909 46.39825 ffffffff",
        ),
        (7, 50, 3, 222, 222, "frame"),
    ];
    for &(seed, boxes, frames, lines, number, line) in &rows {
        let mut out = Vec::new(rt.alloc());
        drill_scene(rt.alloc(), seed, boxes, frames, &mut out)?;
        let text = str::from_utf8(&out)?;
        assert_eq!(rt; text.lines().count(), lines);
        assert_eq!(rt; text.lines().nth(number - 1), Some(line));
    }
    Ok(())
}
