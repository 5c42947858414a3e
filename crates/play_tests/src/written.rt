//! What command lines and plays write for scenes in memory, beside what is wanted.

ghost use Rattle.std.specs.Prelude.{◌≡◌, ◌≤◌};
ghost use Rattle.broad_index.specs.Fresh.{IsFresh};
ghost use Rattle.scene_lines.specs.declared.TheConstants.{MOST_LINES};
ghost use Rattle.work_pieces.specs.declared.TheConstants.{MOST_WORKERS};

use box_tree::BoxTree;
use broad_index::{BroadPhase, Gate};
use frame_player::{Limits, Options, Status, play};
use hier_grid::HierGrid;
use job_runs::broadplay;
use pair_report::Cause;
use play_io::{HonestSink, HonestSource};
use scene_lines::MOST_LINES;
use std::alloc::{AllocError, Global};
use std::process::Abort;
use std::test::Fail;
use std::thread::Threads;
use test_gates::Threaded;

// Command lines.
pub const PLAYED_BY_TREE: &[&str] = &["play", "--with", "tree"];

pub const UPGRADED: &[&str] = &["upgrade"];

// A level with a floor, two crates and a player, and what is reported of it.
pub const LEVEL: &[u8] =
    b"scene 1\n# floor, two crates, a player\nadd -100 -1 -100 100 0 100 1 6\nadd 2 0 2 3 1 3 2 7\n\
    add 2.5 1 2.5 3.5 2 3.5 2 7\nadd 10 0.5 10 10.8 2.3 10.8 4 3\nframe\nmove 3:0 3 0.5 3 3.8 2.3 3.8\n\
    ray 0 1.5 3 1 0 0 4\nframe\nremove 2:0\nframe\n";

// Each command of version 2, and a way back behind a change of each kind.
pub const MARKED: &[u8] =
    b"scene 2\nadd 0 -1 0 8 0 8 1 6 fixed\nadd 2 0 2 3 1 3 2 7 owner 5\nadd 2.5 1 2.5 3.5 2 3.5 2 7 owner 5\nframe\nmark\n\
    move 1:0 3 0 2 4 1 3\nmask 2:0 2 4\nremove 2:0\nadd 1 0 2 2 1 3 2\nframe\nbox 0 0 0 8 2 8\npoint 3 0 2 2\n\
    ray 0 0.5 2.5 1 0 0 entry\nseg 0 0.5 2.5 8 0.5 2.5\ncast 0 0 2 1 1 3 8 0 0 2\nnear 4 4 4 2 2\nback\nframe\nback\n";

// What is to be written, and the status with which a job is to end.
#[derive(Clone, Copy)]
pub struct Wanted<'a> {
    pub report: &'a [u8],
    pub status: Status,
}

// A job that comes to its end.
pub fn done<'a>(report: &'a [u8]) -> Wanted<'a> {
    Wanted {
        report,
        status: Status::Done,
    }
}

pub fn refused(line: u32, cause: Cause) -> Status {
    Status::Refused { line, cause }
}

pub fn same_outcome(rt: &impl Abort, bytes: &[u8], status: Status, wanted: Wanted) {
    same_bytes(rt, bytes, wanted.report);
    same_status(rt, status, wanted.status);
}

// The words of a command line.
pub fn list_of(alloc: Global, words: &[&str]) -> Result<Vec<String>, AllocError> {
    let mut list = Vec::new(alloc);
    for word in words {
        list.push(String::from_str(alloc, word)?)?;
    }
    Ok(list)
}

pub fn same_bytes(rt: &impl Abort, bytes: &[u8], wanted: &[u8]) {
    assert_eq!(rt; bytes, wanted);
}

pub fn same_status(rt: &impl Abort, status: Status, wanted: Status) {
    assert_eq!(rt; status, wanted);
}

pub fn same_number(rt: &impl Abort, number: u64, wanted: u64) {
    assert_eq!(rt; number, wanted);
}

// What a command line writes for a scene. Reads and writes go in pieces of at most 7 bytes.
//
// Here as below, what owns values hands them to a function that borrows them: where a function may return, its proof drops
// each field of each value that it owns.
pub fn written<R: Threads + Sync + Abort>(
    rt: &R,
    alloc: Global,
    words: &[&str],
    scene: &[u8],
    wanted: Wanted,
) -> Result<(), Fail> {
    let list = list_of(alloc, words)?;
    let done = written_for(rt, alloc, &list, scene, wanted);
    drop(list);
    done
}

pub fn written_for<R: Threads + Sync + Abort>(
    rt: &R,
    alloc: Global,
    words: &[String],
    scene: &[u8],
    wanted: Wanted,
) -> Result<(), Fail> {
    let mut source = HonestSource::new(alloc, scene, 7)?;
    let mut sink = HonestSink::new(alloc, 7);
    let answer = broadplay(rt, alloc, words, &mut source, &mut sink);
    same_outcome(rt, sink.bytes(), answer, wanted);
    Ok(())
}

// What the tree and the grid write for a scene where four threads search, however little there is.
pub fn written_by_threads<R: Threads + Sync + Abort>(
    rt: &R,
    alloc: Global,
    scene: &[u8],
    wanted: Wanted,
) -> Result<(), Fail> {
    let play_of = Played {
        workers: 4,
        lines: MOST_LINES,
        scene,
        wanted,
    };
    let tree = BoxTree::new(alloc)?;
    played_over(rt, alloc, tree, &Threaded, play_of)?;
    let grid = HierGrid::new(alloc)?;
    played_over(rt, alloc, grid, &Threaded, play_of)
}

// What a structure writes for a scene, with so many workers each.
pub fn written_over<R: Threads + Sync + Abort>(
    rt: &R,
    alloc: Global,
    structure: &str,
    scene: &[u8],
    wanted: Wanted,
) -> Result<(), Fail> {
    for workers in ["1", "4", "16"] {
        let words = ["play", "--with", structure, "--workers", workers];
        written(rt, alloc, &words, scene, wanted)?;
    }
    Ok(())
}

// What each structure writes for a scene, and the tree and the grid where several threads search whatever there is.
pub fn written_by_all<R: Threads + Sync + Abort>(
    rt: &R,
    alloc: Global,
    scene: &[u8],
    wanted: Wanted,
) -> Result<(), Fail> {
    for structure in ["plain", "sap", "tree", "grid"] {
        written_over(rt, alloc, structure, scene, wanted)?;
    }
    written_by_threads(rt, alloc, scene, wanted)
}

// A play of at most so many lines, and what it writes.
#[derive(Clone, Copy)]
pub struct Played<'a> {
    pub workers: u32,
    pub lines: u32,
    pub scene: &'a [u8],
    pub wanted: Wanted<'a>,
}

// What a play over an index writes.
pub fn played_over<R: Threads + Sync + Abort, B: BroadPhase + Sync + Drop, G: Gate + Sync>(
    rt: &R,
    alloc: Global,
    index: B,
    gate: &G,
    play_of: Played,
) -> Result<(), Fail>
    requires fresh { IsFresh (B.bodies index) (B.spent index) (B.exchanges index) }
    requires workers { (1 ≤ play_of.workers) × (play_of.workers ≤ MOST_WORKERS) }
    requires lines { (1 ≤ play_of.lines) × (play_of.lines ≤ MOST_LINES) }
{
    let mut source = HonestSource::new(alloc, play_of.scene, 5)?;
    let mut sink = HonestSink::new(alloc, 5);
    let answer = play(
        rt,
        alloc,
        index,
        Options {
            workers: play_of.workers,
            exchanges: false,
        },
        Limits {
            lines: play_of.lines,
        },
        gate,
        &mut source,
        &mut sink,
    );
    same_outcome(rt, sink.bytes(), answer, play_of.wanted);
    Ok(())
}

// What is written of a scene that is read to its end.
pub fn report_of<R: Threads + Sync + Abort>(
    rt: &R,
    alloc: Global,
    structure: &str,
    scene: &[u8],
) -> Result<Vec<u8>, Fail> {
    let list = list_of(alloc, &["play", "--with", structure])?;
    let report = report_for(rt, alloc, &list, scene);
    drop(list);
    report
}

pub fn report_for<R: Threads + Sync + Abort>(
    rt: &R,
    alloc: Global,
    words: &[String],
    scene: &[u8],
) -> Result<Vec<u8>, Fail> {
    let mut source = HonestSource::new(alloc, scene, 1024)?;
    let mut sink = HonestSink::new(alloc, 1024);
    let answer = broadplay(rt, alloc, words, &mut source, &mut sink);
    came_to_an_end(rt, answer);
    Ok(Vec::from_slice(alloc, sink.bytes())?)
}

pub fn came_to_an_end(rt: &impl Abort, status: Status) {
    assert!(rt; matches!(status, Status::Done | Status::Refused { .. }));
}
