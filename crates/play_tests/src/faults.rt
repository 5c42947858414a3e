//! Reads and writes that fail: what was reported before stays, and the status says which failed.

use crate::written::{
    LEVEL, MARKED, PLAYED_BY_TREE, UPGRADED, Wanted, done, list_of, report_for, same_bytes,
    same_number, same_outcome, same_status,
};
use frame_player::Status;
use job_runs::broadplay;
use play_io::{HonestSink, HonestSource, MemSink, MemSource};
use std::alloc::Global;
use std::process::Abort;
use std::test::Fail;
use std::thread::Threads;

// What two structures write for a scene where calls of the source and of the sink fail, a byte at a time.
fn written_with_faults<R: Threads + Sync + Abort>(
    rt: &R,
    alloc: Global,
    scene: &[u8],
    failing: (&[u32], &[u32]),
    wanted: Wanted,
) -> Result<(), Fail> {
    for structure in ["sap", "tree"] {
        let list = list_of(alloc, &["play", "--with", structure, "--workers", "4"])?;
        let done = faulty_for(rt, alloc, &list, scene, failing, wanted);
        drop(list);
        done?;
    }
    Ok(())
}

fn faulty_for<R: Threads + Sync + Abort>(
    rt: &R,
    alloc: Global,
    words: &[String],
    scene: &[u8],
    failing: (&[u32], &[u32]),
    wanted: Wanted,
) -> Result<(), Fail> {
    let mut source = MemSource::new(alloc, scene, 1, failing.0)?;
    let mut sink = MemSink::new(alloc, 1, failing.1)?;
    let answer = broadplay(rt, alloc, words, &mut source, &mut sink);
    same_outcome(rt, sink.bytes(), answer, wanted);
    Ok(())
}

#[test]
fn faults_end_a_play(rt: HostRuntime) -> Result<(), Fail> {
    let none: &[u32] = &[];
    let cut = b"scene 1\nframe\nfra".as_slice();
    let whole = b"scene 1\nframe\n".as_slice();
    let rows = [
        (
            cut,
            [17].as_slice(),
            none,
            b"frame 1 0\n".as_slice(),
            Status::ReadFault,
        ),
        (whole, none, [0].as_slice(), b"", Status::WriteFault),
        (whole, none, [3].as_slice(), b"fra", Status::WriteFault),
        (
            whole,
            none,
            [20].as_slice(),
            b"frame 1 0\nend 2 1 0\n",
            Status::WriteFault,
        ),
        (
            whole,
            [14].as_slice(),
            [0].as_slice(),
            b"",
            Status::ReadFault,
        ),
        (
            whole,
            [14].as_slice(),
            none,
            b"frame 1 0\n",
            Status::ReadFault,
        ),
        (
            whole,
            [15].as_slice(),
            none,
            b"frame 1 0\nend 2 1 0\n",
            Status::Done,
        ),
    ];
    for (scene, reads, writes, report, status) in rows {
        let wanted = Wanted { report, status };
        written_with_faults(&rt, rt.alloc(), scene, (reads, writes), wanted)?;
    }
    Ok(())
}

// Blanks, comments of other bytes, ends of both kinds and a last line without one, read and written a byte at a time.
#[test]
fn a_scene_may_come_byte_by_byte(rt: HostRuntime) -> Result<(), Fail> {
    let none: &[u32] = &[];
    written_with_faults(
        &rt,
        rt.alloc(),
        b"\tscene  1\r\n#\xff\xfe\r\n add 0 0 0\t1 1 1 # a\r\nadd 1 0 0 2 1 1\r\nframe",
        (none, none),
        done(b"add 0:0\nadd 1:0\nframe 1 1\nbegin 0:0 1:0\nend 5 1 2\n"),
    )
}

// The bytes up to the last line feed but so many, with it.
fn lines_before(bytes: &[u8], but: usize) -> &[u8] {
    let mut rest = bytes;
    let mut left = but;
    'bytes: while let Some((last, front)) = rest.split_last() {
        if *last == b'\n' {
            if left == 0 {
                return rest;
            }
            left -= 1;
        }
        rest = front;
    }
    rest
}

// A scene where the read of such a number fails. A play knows no structure, so that one stands for all.
fn read_fails<R: Threads + Sync + Abort>(
    rt: &R,
    alloc: Global,
    words: &[String],
    scene: &[u8],
    k: u32,
    last: usize,
) -> Result<(), Fail> {
    let taken = scene.split_at((k as usize).min(scene.len())).0;
    let report = report_for(rt, alloc, words, lines_before(taken, 0))?;
    let done = read_fails_after(rt, alloc, words, scene, k, lines_before(&report, last));
    drop(report);
    done
}

fn read_fails_after<R: Threads + Sync + Abort>(
    rt: &R,
    alloc: Global,
    words: &[String],
    scene: &[u8],
    k: u32,
    report: &[u8],
) -> Result<(), Fail> {
    let mut source = MemSource::new(alloc, scene, 1, &[k])?;
    let mut sink = MemSink::new(alloc, 1024, &[])?;
    let answer = broadplay(rt, alloc, words, &mut source, &mut sink);
    same_status(rt, answer, Status::ReadFault);
    same_bytes(rt, sink.bytes(), report);
    same_number(rt, source.calls(), u64::from(k) + 1);
    Ok(())
}

// Each byte is a read of its own, and one more finds the end. A report ends with one last line, and a scene with none.
fn each_read_fails<R: Threads + Sync + Abort>(
    rt: &R,
    alloc: Global,
    words: &[String],
    scene: &[u8],
    last: usize,
) -> Result<(), Fail> {
    // The scene is shorter than so many bytes.
    for k in 0..1_000 {
        if k as usize > scene.len() {
            return Ok(());
        }
        read_fails(rt, alloc, words, scene, k, last)?;
    }
    Err("a scene without a fault".into())
}

#[test]
fn each_read_that_fails_ends_a_job(rt: HostRuntime) -> Result<(), Fail> {
    let rows = [
        (PLAYED_BY_TREE, LEVEL, 1),
        (PLAYED_BY_TREE, MARKED, 1),
        (UPGRADED, LEVEL, 0),
    ];
    for (words, scene, last) in rows {
        let list = list_of(rt.alloc(), words)?;
        let done = each_read_fails(&rt, rt.alloc(), &list, scene, last);
        drop(list);
        done?;
    }
    Ok(())
}

// A scene where the call of the sink of such a number fails, and whether the play came to its end.
fn write_fails<R: Threads + Sync + Abort>(
    rt: &R,
    alloc: Global,
    words: &[String],
    scene: &[u8],
    report: &[u8],
    k: u32,
) -> Result<bool, Fail> {
    let mut source = HonestSource::new(alloc, scene, 1024)?;
    let mut sink = MemSink::new(alloc, 1, &[k])?;
    let answer = broadplay(rt, alloc, words, &mut source, &mut sink);
    let written = (k as usize).min(report.len());
    same_bytes(rt, sink.bytes(), report.split_at(written).0);
    let done = answer == Status::Done;
    if !done {
        same_status(rt, answer, Status::WriteFault);
        same_number(rt, sink.calls(), u64::from(k) + 1);
    }
    Ok(done)
}

// The number of calls of the sink in a play without a fault is that of the report's bytes and one.
fn each_write_fails<R: Threads + Sync + Abort>(
    rt: &R,
    alloc: Global,
    words: &[String],
    scene: &[u8],
    report: &[u8],
) -> Result<(), Fail> {
    // The report is shorter than so many bytes, each of which is a write of its own before the flush.
    for k in 0..1_000 {
        if write_fails(rt, alloc, words, scene, report, k)? {
            assert_eq!(rt; k as usize, report.len() + 1);
            return Ok(());
        }
    }
    Err("a play without a fault".into())
}

fn each_write_fails_in_turn<R: Threads + Sync + Abort>(
    rt: &R,
    alloc: Global,
    words: &[String],
    scene: &[u8],
) -> Result<(), Fail> {
    let report = report_for(rt, alloc, words, scene)?;
    let done = each_write_fails(rt, alloc, words, scene, &report);
    drop(report);
    done
}

#[test]
fn each_write_that_fails_ends_a_job(rt: HostRuntime) -> Result<(), Fail> {
    let rows = [
        (PLAYED_BY_TREE, LEVEL),
        (PLAYED_BY_TREE, MARKED),
        (UPGRADED, LEVEL),
    ];
    for (words, scene) in rows {
        let list = list_of(rt.alloc(), words)?;
        let done = each_write_fails_in_turn(&rt, rt.alloc(), &list, scene);
        drop(list);
        done?;
    }
    Ok(())
}

// A read fails while answers are owed, and the sink fails on them.
#[test]
fn a_read_fault_stays_the_answer(rt: HostRuntime) -> Result<(), Fail> {
    let scene = b"scene 1\nadd 0 0 0 1 1 1\npoint 0 0 0\nbox 0 0 0 1 1 1\n".as_slice();
    let end = [scene.len() as u32];
    let rows = [
        (
            [].as_slice(),
            b"add 0:0\npoint 1 0:0\nbox 1 0:0\n".as_slice(),
        ),
        ([0].as_slice(), b""),
        ([9].as_slice(), b"add 0:0\np"),
    ];
    for (writes, report) in rows {
        let failing = (end.as_slice(), writes);
        let wanted = Wanted {
            report,
            status: Status::ReadFault,
        };
        written_with_faults(&rt, rt.alloc(), scene, failing, wanted)?;
    }
    Ok(())
}

// One read takes all that there is room for, and another finds the end.
fn read_at_once<R: Threads + Sync + Abort>(
    rt: &R,
    alloc: Global,
    words: &[String],
) -> Result<(), Fail> {
    let mut source = MemSource::new(alloc, LEVEL, u32::MAX, &[])?;
    let mut sink = HonestSink::new(alloc, 1024);
    let answer = broadplay(rt, alloc, words, &mut source, &mut sink);
    same_status(rt, answer, Status::Done);
    same_number(rt, source.calls(), 2);
    Ok(())
}

#[test]
fn a_short_scene_is_read_at_once(rt: HostRuntime) -> Result<(), Fail> {
    let list = list_of(rt.alloc(), &["play", "--with", "plain"])?;
    let done = read_at_once(&rt, rt.alloc(), &list);
    drop(list);
    done
}
