//! Runs of queries that are answered together, threads that search, and scenes of many lines.

ghost use Rattle.std.specs.Prelude.{◌≡◌};

use crate::written::{Played, done, list_of, played_over, same_status, written};
use box_tree::BoxTree;
use broad_index::PlainIndex;
use frame_player::Status;
use job_runs::broadplay;
use play_io::{HonestSource, MemSink};
use std::alloc::{AllocError, Global};
use std::process::Abort;
use std::test::Fail;
use std::thread::Threads;
use test_gates::{Entries, Meeting};

fn put_frames(scene: &mut String, frames: u32) -> Result<(), AllocError> {
    scene.push_str("scene 1\n")?;
    for _ in 0..frames {
        scene.push_str("frame\n")?;
    }
    Ok(())
}

// The text goes out in pieces while the scene is played.
fn many_lines_pass<R: Threads + Sync + Abort>(
    rt: &R,
    alloc: Global,
    words: &[String],
    scene: &mut String,
) -> Result<(), Fail> {
    put_frames(scene, 200_000)?;
    let mut source = HonestSource::new(alloc, scene.as_bytes(), 3)?;
    let mut sink = MemSink::new(alloc, u32::MAX, &[])?;
    let answer = broadplay(rt, alloc, words, &mut source, &mut sink);
    same_status(rt, answer, Status::Done);
    ends_with(rt, sink.bytes(), b"frame 200000 0\nend 200001 200000 0\n");
    assert!(rt; sink.calls() > 30);
    Ok(())
}

fn ends_with(rt: &impl Abort, bytes: &[u8], end: &[u8]) {
    assert!(rt; bytes.ends_with(end));
}

#[test]
fn many_lines_pass_through_short_reads(rt: HostRuntime) -> Result<(), Fail> {
    let alloc = rt.alloc();
    let list = list_of(alloc, &["play"])?;
    let mut scene = String::new(alloc);
    let done = many_lines_pass(&rt, alloc, &list, &mut scene);
    drop(scene);
    drop(list);
    done
}

// More queries than are answered together, with a blank line and a move among them.
fn put_queries(scene: &mut String, report: &mut String) -> Result<(), AllocError> {
    scene.push_str("scene 1\nadd 0 0 0 1 1 1\n")?;
    report.push_str("add 0:0\n")?;
    for n in 0..600 {
        match n {
            300 => scene.push_str("\n# still here\n")?,
            400 => scene.push_str("move 0:0 5 5 5 6 6 6\n")?,
            _ => {}
        }
        scene.push_str("point 0 1 0\n")?;
        report.push_str(if n < 400 {
            "point 1 0:0\n"
        } else {
            "point 0\n"
        })?;
    }
    report.push_str("end 605 0 1\n")
}

fn written_by_some<R: Threads + Sync + Abort>(
    rt: &R,
    alloc: Global,
    scene: &mut String,
    report: &mut String,
) -> Result<(), Fail> {
    put_queries(scene, report)?;
    let words: [&[&str]; 3] = [
        &["play"],
        &["play", "--workers", "3"],
        &["play", "--workers", "16"],
    ];
    for list in words {
        written(rt, alloc, list, scene.as_bytes(), done(report.as_bytes()))?;
    }
    Ok(())
}

#[test]
fn a_long_run_of_queries_is_answered_whole(rt: HostRuntime) -> Result<(), Fail> {
    let alloc = rt.alloc();
    let mut scene = String::new(alloc);
    let mut report = String::new(alloc);
    let done = written_by_some(&rt, alloc, &mut scene, &mut report);
    drop(report);
    drop(scene);
    done
}

// A play by so many workers that is done.
fn played_by<'a>(workers: u32, scene: &'a [u8], report: &'a [u8]) -> Played<'a>
    ensures workers { result.workers ≡ workers }
    ensures lines { result.lines ≡ 999 }
{
    Played {
        workers,
        lines: 999,
        scene,
        wanted: done(report),
    }
}

// Blank lines and comments end no run of queries.
#[test]
fn two_threads_answer_two_queries(rt: HostRuntime) -> Result<(), Fail> {
    let gate = Meeting::new();
    let index = PlainIndex::new(rt.alloc())?;
    let scene = b"scene 1\nadd 0 0 0 1 1 1\npoint 0 0 0\n\n# next\npoint 9 9 9\n";
    let report = b"add 0:0\npoint 1 0:0\npoint 0\nend 6 0 1\n";
    played_over(&rt, rt.alloc(), index, &gate, played_by(2, scene, report))?;
    assert_eq!(rt; gate.met(), 2);
    Ok(())
}

#[test]
fn two_threads_seek_the_pairs_of_a_frame(rt: HostRuntime) -> Result<(), Fail> {
    let gate = Meeting::new();
    let index = BoxTree::new(rt.alloc())?;
    let scene = b"scene 1\nadd 0 0 0 1 1 1\nadd 1 0 0 2 1 1\nframe\n";
    let report = b"add 0:0\nadd 1:0\nframe 1 1\nbegin 0:0 1:0\nend 4 1 2\n";
    played_over(&rt, rt.alloc(), index, &gate, played_by(2, scene, report))?;
    assert_eq!(rt; gate.met(), 2);
    Ok(())
}

fn put_like_queries(scene: &mut String, report: &mut String) -> Result<(), AllocError> {
    scene.push_str("scene 1\n")?;
    for _ in 0..257 {
        scene.push_str("point 0 0 0\n")?;
        report.push_str("point 0\n")?;
    }
    report.push_str("end 258 0 0\n")
}

// A run of 257 queries is answered as 256 in a piece for each worker, and one.
#[test]
fn at_most_256_queries_are_a_run(rt: HostRuntime) -> Result<(), Fail> {
    let alloc = rt.alloc();
    let mut scene = String::new(alloc);
    let mut report = String::new(alloc);
    let done = entered_by_runs(&rt, alloc, &mut scene, &mut report);
    drop(report);
    drop(scene);
    done
}

fn entered_by_runs<R: Threads + Sync + Abort>(
    rt: &R,
    alloc: Global,
    scene: &mut String,
    report: &mut String,
) -> Result<(), Fail> {
    put_like_queries(scene, report)?;
    let gate = Entries::new();
    let index = PlainIndex::new(alloc)?;
    let play_of = played_by(16, scene.as_bytes(), report.as_bytes());
    played_over(rt, alloc, index, &gate, play_of)?;
    assert_eq!(rt; gate.counts(), [2, 1, 14]);
    Ok(())
}
