//! Boxes alike: all of them are pairs, whichever structure searches.

use crate::written::{done, written};
use std::alloc::{AllocError, Global};
use std::process::Abort;
use std::test::Fail;
use std::thread::Threads;

// A line for each pair of slots from one on.
fn put_pairs(report: &mut String, word: &str, first: u32) -> Result<(), AllocError> {
    for a in first..300 {
        for b in a + 1..300 {
            writeln!(report, "{word} {a}:0 {b}:0")?;
        }
    }
    Ok(())
}

// 300 boxes alike and a frame, with the number of exchanges if it is told.
fn put_alike(
    scene: &mut String,
    report: &mut String,
    corners: &str,
    exchanges: &str,
) -> Result<(), AllocError> {
    scene.clear();
    scene.push_str("scene 1\n")?;
    report.clear();
    for slot in 0..300 {
        writeln!(scene, "add {corners}")?;
        writeln!(report, "add {slot}:0")?;
    }
    scene.push_str("frame\n")?;
    report.push_str("frame 1 44850\n")?;
    put_pairs(report, "begin", 0)?;
    report.push_str(exchanges)
}

// The first of them moves away, and another frame.
fn put_first_away(
    scene: &mut String,
    report: &mut String,
    first: &str,
    exchanges: &str,
) -> Result<(), AllocError> {
    writeln!(scene, "move 0:0 {first}\nframe")?;
    report.push_str("frame 2 44551\n")?;
    put_pairs(report, "stay", 1)?;
    for b in 1..300 {
        writeln!(report, "over 0:0 {b}:0")?;
    }
    report.push_str(exchanges)
}

// Boxes alike: where they stand, where the first then goes, and the numbers of exchanges if they are told.
#[derive(Clone, Copy)]
struct Alike<'a> {
    corners: &'a str,
    first: &'a str,
    exchanges: [&'a str; 2],
}

fn alike_written<R: Threads + Sync + Abort>(
    rt: &R,
    alloc: Global,
    words: &[&str],
    alike: &Alike,
    scene: &mut String,
    report: &mut String,
) -> Result<(), Fail> {
    put_alike(scene, report, alike.corners, alike.exchanges[0])?;
    report.push_str("end 302 1 300\n")?;
    written(rt, alloc, words, scene.as_bytes(), done(report.as_bytes()))?;
    put_alike(scene, report, alike.corners, alike.exchanges[0])?;
    put_first_away(scene, report, alike.first, alike.exchanges[1])?;
    report.push_str("end 304 2 300\n")?;
    written(rt, alloc, words, scene.as_bytes(), done(report.as_bytes()))
}

// What is written of boxes alike, before the first moves away and with that.
fn boxes_alike<R: Threads + Sync + Abort>(
    rt: &R,
    alloc: Global,
    words: &[&str],
    alike: &Alike,
) -> Result<(), Fail> {
    let mut scene = String::new(alloc);
    let mut report = String::new(alloc);
    let done = alike_written(rt, alloc, words, alike, &mut scene, &mut report);
    drop(report);
    drop(scene);
    done
}

#[test]
fn boxes_alike_are_all_pairs(rt: HostRuntime) -> Result<(), Fail> {
    let words: [&[&str]; 4] = [
        &["play", "--with", "plain"],
        &["play", "--with", "sap"],
        &["play", "--with", "tree", "--workers", "4"],
        &["play", "--with", "grid"],
    ];
    let near = Alike {
        corners: "0 0 0 1 1 1",
        first: "5 5 5 6 6 6",
        exchanges: ["", ""],
    };
    let at_the_end = Alike {
        corners: "32767 32767 32767 32767 32767 32767",
        first: "-32768 5 5 6 6 6",
        exchanges: ["", ""],
    };
    for list in words {
        boxes_alike(&rt, rt.alloc(), list, &near)?;
        boxes_alike(&rt, rt.alloc(), list, &at_the_end)?;
    }
    Ok(())
}

#[test]
fn boxes_alike_pass_one_another(rt: HostRuntime) -> Result<(), Fail> {
    let alike = Alike {
        corners: "0 0 0 1 1 1",
        first: "5 5 5 6 6 6",
        exchanges: ["exchanges 134550\n", "exchanges 2691\n"],
    };
    boxes_alike(&rt, rt.alloc(), &["play", "--exchanges"], &alike)
}
