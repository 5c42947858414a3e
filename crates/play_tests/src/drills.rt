//! Tests of the drill: its summaries, by structure and by number of workers.

ghost use Rattle.std.specs.Prelude.{◌<◌, ◌≤◌};
ghost use Rattle.work_pieces.specs.declared.TheConstants.{MOST_WORKERS};

use crate::written::{
    Played, done, list_of, played_over, report_of, same_bytes, same_number, same_status,
};
use box_tree::BoxTree;
use broad_index::{BroadPhase, Gate, NoGate, PlainIndex};
use fixed_box::{FBox, NoMemory, SLOTS};
use frame_player::{Options, Status};
use hier_grid::HierGrid;
use job_runs::broadplay;
use made_scene::drill_scene;
use play_io::{HonestSink, MemSink, MemSource};
use scene_drill::{DrillJob, Load, drill};
use scene_lines::MOST_LINES;
use scene_words::{Command, Version, read_command};
use std::alloc::Global;
use std::process::Abort;
use std::test::Fail;
use std::thread::Threads;
use test_gates::{Meeting, Threaded};

// What a command line writes that reads nothing, with the status.
fn drilled<R: Threads + Sync + Abort>(
    rt: &R,
    alloc: Global,
    words: &[&str],
) -> Result<(Vec<u8>, Status), Fail> {
    let list = list_of(alloc, words)?;
    let done = drilled_for(rt, alloc, &list);
    drop(list);
    done
}

fn drilled_for<R: Threads + Sync + Abort>(
    rt: &R,
    alloc: Global,
    words: &[String],
) -> Result<(Vec<u8>, Status), Fail> {
    let mut source = MemSource::new(alloc, b"scene 1\nframe\n", 7, &[])?;
    let mut sink = HonestSink::new(alloc, 7);
    let answer = broadplay(rt, alloc, words, &mut source, &mut sink);
    same_number(rt, source.calls(), 0);
    Ok((Vec::from_slice(alloc, sink.bytes())?, answer))
}

// What a drill writes.
fn drill_written<R: Threads + Sync + Abort>(
    rt: &R,
    alloc: Global,
    words: &[&str],
    text: &[u8],
) -> Result<(), Fail> {
    let (summary, status) = drilled(rt, alloc, words)?;
    same_status(rt, status, Status::Done);
    same_bytes(rt, &summary, text);
    Ok(())
}

#[test]
fn one_box_meets_each_query_at_it(rt: HostRuntime) -> Result<(), Fail> {
    let counts = b"boxes 1\nframes 1\nadds 2\npairs 0\nbegin 0\nstay 0\nover 0\nhits 4\n";
    let with_exchanges =
        b"boxes 1\nframes 1\nadds 2\npairs 0\nbegin 0\nstay 0\nover 0\nhits 4\nexchanges 0\n";
    let rows: [(&[&str], &[u8]); 8] = [
        (&["drill", "42", "1", "1"], counts),
        (
            &[
                "drill",
                "42",
                "1",
                "1",
                "--with",
                "plain",
                "--workers",
                "16",
            ],
            counts,
        ),
        (&["drill", "42", "1", "1", "--with", "tree"], counts),
        (&["drill", "42", "1", "1", "--with", "grid"], counts),
        (&["drill", "42", "1", "1", "--exchanges"], with_exchanges),
        (
            &[
                "drill",
                "00042",
                "0001",
                "001",
                "--exchanges",
                "--with",
                "sap",
            ],
            with_exchanges,
        ),
        (&["drill", "0", "1", "1"], counts),
        (&["drill", "18446744073709551615", "1", "1"], counts),
    ];
    for (words, text) in rows {
        drill_written(&rt, rt.alloc(), words, text)?;
    }
    Ok(())
}

fn each_structure_writes<R: Threads + Sync + Abort>(
    rt: &R,
    alloc: Global,
    summary: &[u8],
) -> Result<(), Fail> {
    assert!(rt; summary.starts_with(b"boxes 2000\nframes 50\nadds 2050\npairs "));
    let rows = [
        ("sap", "1"),
        ("plain", "4"),
        ("sap", "4"),
        ("tree", "4"),
        ("grid", "4"),
    ];
    for (structure, workers) in rows {
        let words = [
            "drill",
            "7",
            "2000",
            "50",
            "--with",
            structure,
            "--workers",
            workers,
        ];
        drill_written(rt, alloc, &words, summary)?;
    }
    Ok(())
}

#[test]
fn each_structure_has_the_same_summary(rt: HostRuntime) -> Result<(), Fail> {
    let alloc = rt.alloc();
    let (plain, _) = drilled(&rt, alloc, &["drill", "7", "2000", "50", "--with", "plain"])?;
    let done = each_structure_writes(&rt, alloc, &plain);
    drop(plain);
    done
}

// What a drill's scene gives over each structure that is shared, and over the plain list whose queries are, where each piece
// has a thread of its own.
fn played_by_threads<R: Threads + Sync + Abort>(
    rt: &R,
    alloc: Global,
    workers: u32,
    scene: &[u8],
    report: &[u8],
) -> Result<(), Fail>
    requires { (1 ≤ workers) × (workers ≤ MOST_WORKERS) }
{
    let play_of = Played {
        workers,
        lines: MOST_LINES,
        scene,
        wanted: done(report),
    };
    let tree = BoxTree::new(alloc)?;
    played_over(rt, alloc, tree, &Threaded, play_of)?;
    let grid = HierGrid::new(alloc)?;
    played_over(rt, alloc, grid, &Threaded, play_of)?;
    let plain = PlainIndex::new(alloc)?;
    played_over(rt, alloc, plain, &Threaded, play_of)
}

// What threads write of a scene is what one writes.
fn threads_report<R: Threads + Sync + Abort>(
    rt: &R,
    alloc: Global,
    scene: &mut Vec<u8>,
) -> Result<(), Fail> {
    drill_scene(alloc, 7, 2000, 50, scene)?;
    let report = report_of(rt, alloc, "sap", scene)?;
    let done = played_by_some(rt, alloc, scene, &report);
    drop(report);
    done
}

fn played_by_some<R: Threads + Sync + Abort>(
    rt: &R,
    alloc: Global,
    scene: &[u8],
    report: &[u8],
) -> Result<(), Fail> {
    played_by_threads(rt, alloc, 4, scene, report)?;
    played_by_threads(rt, alloc, 16, scene, report)
}

#[test]
fn threads_give_a_drill_its_report(rt: HostRuntime) -> Result<(), Fail> {
    let alloc = rt.alloc();
    let mut scene = Vec::new(alloc);
    let done = threads_report(&rt, alloc, &mut scene);
    drop(scene);
    done
}

fn one_box_is_played<R: Threads + Sync + Abort>(
    rt: &R,
    alloc: Global,
    scene: &mut Vec<u8>,
) -> Result<(), Fail> {
    drill_scene(alloc, 42, 1, 1, scene)?;
    assert!(rt;
        scene.starts_with(
            b"scene 1\nadd 161.35941 123.28107 186.11406 169.25003 135.62482 196.95781 8 f\n\
            move 0:0 161.15433 123.25177 186.25664 169.04495 135.59552 197.10039\nremove 0:0\n"
        )
    );
    let report = report_of(rt, alloc, "sap", scene)?;
    same_bytes(
        rt,
        &report,
        b"add 0:0\nadd 0:1\nbox 1 0:1\npoint 1 0:1\nray 1 0:1\nseg 1 0:1\nframe 1 0\nend 10 1 1\n",
    );
    Ok(())
}

#[test]
fn a_drill_is_the_play_of_its_scene(rt: HostRuntime) -> Result<(), Fail> {
    let alloc = rt.alloc();
    let mut scene = Vec::new(alloc);
    let done = one_box_is_played(&rt, alloc, &mut scene);
    drop(scene);
    done
}

// A call of the sink fails, and what is written of a summary, eight bytes a write.
fn summary_fails<R: Threads + Sync + Abort>(
    rt: &R,
    alloc: Global,
    words: &[String],
    call: u32,
) -> Result<(), Fail> {
    let whole = b"boxes 1\nframes 1\nadds 2\npairs 0\nbegin 0\nstay 0\nover 0\nhits 4\n";
    let mut source = MemSource::new(alloc, b"", 7, &[])?;
    let mut sink = MemSink::new(alloc, 8, &[call])?;
    let answer = broadplay(rt, alloc, words, &mut source, &mut sink);
    same_status(rt, answer, Status::WriteFault);
    let written = (8 * call as usize).min(whole.len());
    same_bytes(rt, sink.bytes(), whole.split_at(written).0);
    same_number(rt, sink.calls(), u64::from(call) + 1);
    same_number(rt, source.calls(), 0);
    Ok(())
}

// Eight writes, and a flush.
fn summary_fails_in_turn<R: Threads + Sync + Abort>(
    rt: &R,
    alloc: Global,
    words: &[String],
) -> Result<(), Fail> {
    for call in 0..9 {
        summary_fails(rt, alloc, words, call)?;
    }
    Ok(())
}

#[test]
fn a_sink_that_fails_has_a_part_of_the_summary(rt: HostRuntime) -> Result<(), Fail> {
    let list = list_of(rt.alloc(), &["drill", "42", "1", "1"])?;
    let done = summary_fails_in_turn(&rt, rt.alloc(), &list);
    drop(list);
    done
}

// The four queries of a drill's frame and its two touched boxes are each two pieces.
#[test]
fn two_threads_play_a_drill(rt: HostRuntime) -> Result<(), Fail> {
    let alloc = rt.alloc();
    let gate = Meeting::new();
    let index = BoxTree::new(alloc)?;
    let load = Load {
        seed: 42,
        boxes: 2,
        frames: 1,
    };
    let options = Options {
        workers: 2,
        exchanges: false,
    };
    let job = DrillJob { load, options };
    let mut sink = HonestSink::new(alloc, 7);
    let answer = drill(&rt, alloc, index, job, &gate, &mut sink);
    assert_eq!(rt; answer, Status::Done);
    assert_eq!(rt; gate.met(), 4);
    Ok(())
}

// Puts a box under a slot of a grid, in place of the one that it has.
fn put(grid: &mut HierGrid, slot: u32, body: FBox) -> Result<(), NoMemory>
    requires { slot < SLOTS }
{
    if grid.cells().key_of(slot).is_some() {
        grid.shift(slot, body)
    } else {
        grid.add(slot, body)
    }
}

// Takes a slot out of a grid, if it is present.
fn remove(grid: &mut HierGrid, slot: u32)
    requires { slot < SLOTS }
{
    if grid.cells().key_of(slot).is_some() {
        grid.leave(slot);
    }
}

// A grid that a made scene's lines are applied to, with the slot that its next added box takes.
#[derive(Drop)]
struct Applied {
    grid: HierGrid,
    next: u32,
    fresh: u32,
}

impl Applied {
    // A box comes under the next slot.
    fn add(&mut self, body: &FBox) -> Result<(), NoMemory> {
        if self.next < SLOTS {
            put(&mut self.grid, self.next, *body)?;
            self.fresh = self.fresh.max(self.next.saturating_add(1));
            self.next = self.fresh;
        }
        Ok(())
    }

    // A slot has another box.
    fn shift(&mut self, slot: u32, body: &FBox) -> Result<(), NoMemory> {
        if slot < SLOTS {
            put(&mut self.grid, slot, *body)?;
        }
        Ok(())
    }

    // A slot has no box any more, and takes the next one.
    fn leave(&mut self, slot: u32) {
        if slot < SLOTS {
            remove(&mut self.grid, slot);
            self.next = slot;
        }
    }

    // Does what a command says.
    fn apply(&mut self, command: &Command) -> Result<(), NoMemory> {
        match command {
            Command::Add { body, .. } => self.add(body),
            Command::Move { handle, body } => self.shift(handle.slot, body),
            Command::Remove { handle } => {
                self.leave(handle.slot);
                Ok(())
            }
            _ => Ok(()),
        }
    }

    // The pairs at the end of a frame, and none at another command.
    fn pairs_at<R: Threads + Sync>(
        &mut self,
        rt: &R,
        alloc: Global,
        workers: u32,
        command: &Command,
    ) -> Result<u64, NoMemory>
        requires { (1 ≤ workers) × (workers ≤ MOST_WORKERS) }
    {
        if *command != Command::Frame {
            return Ok(0);
        }
        let mut found = Vec::new(alloc);
        self.grid.pairs_with(rt, workers, &Threaded, &mut found)?;
        Ok(found.len() as u64)
    }
}

// The pairs of all frames of a scene.
fn pairs_of<R: Threads + Sync>(
    rt: &R,
    alloc: Global,
    workers: u32,
    scene: &[u8],
    applied: &mut Applied,
) -> Result<u64, NoMemory>
    requires { (1 ≤ workers) × (workers ≤ MOST_WORKERS) }
{
    let mut pairs = 0u64;
    for line in scene.split(|byte| *byte == b'\n') {
        if let Ok(command) = read_command(Version::One, line) {
            applied.apply(&command)?;
            let found = applied.pairs_at(rt, alloc, workers, &command)?;
            pairs = pairs.wrapping_add(found);
        }
    }
    Ok(pairs)
}

// The comparisons of a grid over a made scene of 2,000 boxes are fewer than a tenth of those of all pairs, and no fewer
// than the pairs found.
fn compares_few<R: Threads + Sync + Abort>(
    rt: &R,
    alloc: Global,
    workers: u32,
    scene: &[u8],
) -> Result<(), Fail>
    requires { (1 ≤ workers) × (workers ≤ MOST_WORKERS) }
{
    let mut applied = Applied {
        grid: HierGrid::new(alloc)?,
        next: 0,
        fresh: 0,
    };
    let pairs = pairs_of(rt, alloc, workers, scene, &mut applied)?;
    let looked = applied.grid.looked();
    assert!(rt; 0 < pairs && pairs <= looked && looked < 9_995_000);
    Ok(())
}

fn compares_few_with_some<R: Threads + Sync + Abort>(
    rt: &R,
    alloc: Global,
    scene: &mut Vec<u8>,
) -> Result<(), Fail> {
    drill_scene(alloc, 7, 2_000, 50, scene)?;
    compares_few(rt, alloc, 1, scene)?;
    compares_few(rt, alloc, 2, scene)
}

#[test]
fn the_grid_compares_few_boxes_of_a_drill(rt: HostRuntime) -> Result<(), Fail> {
    let alloc = rt.alloc();
    let mut scene = Vec::new(alloc);
    let done = compares_few_with_some(&rt, alloc, &mut scene);
    drop(scene);
    done
}
