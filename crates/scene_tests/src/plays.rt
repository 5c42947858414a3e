//! Plays whose index runs out of memory in each of its calls in turn.

ghost use Rattle.std.specs.Prelude.{◌≤◌};
ghost use Rattle.work_pieces.specs.declared.TheConstants.{MOST_WORKERS};

mod failing_index;

use broad_index::NoGate;
use failing_index::FailingIndex;
use frame_player::{Limits, Options, Status, play};
use play_io::{HonestSink, HonestSource};
use std::alloc::Global;
use std::process::Abort;
use std::test::Fail;
use std::thread::Threads;

// A level with a floor, two crates and a player. Memory can run out in nine calls that a play of it makes of its index.
const LEVEL: &[u8] = b"scene 1\n\
    # floor, two crates, a player\n\
    add -100 -1 -100 100 0 100 1 6\n\
    add 2 0 2 3 1 3 2 7\n\
    add 2.5 1 2.5 3.5 2 3.5 2 7\n\
    add 10 0.5 10 10.8 2.3 10.8 4 3\n\
    frame\n\
    move 3:0 3 0.5 3 3.8 2.3 3.8\n\
    ray 0 1.5 3 1 0 0 4\n\
    frame\n\
    remove 2:0\n\
    frame\n";

const REPORT: &[u8] = b"add 0:0\n\
    add 1:0\n\
    add 2:0\n\
    add 3:0\n\
    frame 1 2\n\
    begin 0:0 1:0\n\
    begin 1:0 2:0\n\
    ray 1 3:0\n\
    frame 2 4\n\
    stay 0:0 1:0\n\
    stay 1:0 2:0\n\
    begin 1:0 3:0\n\
    begin 2:0 3:0\n\
    frame 3 2\n\
    stay 0:0 1:0\n\
    stay 1:0 3:0\n\
    over 1:0 2:0\n\
    over 2:0 3:0\n\
    end 12 3 3\n";

// Each command of version 2, and a way back behind a change of each kind. Memory can run out in four adds, a move, three frames,
// four queries, the search of a cast, one search or more for the nearest boxes, and two of the changes that are undone.
const MARKED: &[u8] = b"scene 2\n\
    add 0 -1 0 8 0 8 1 6 fixed\n\
    add 2 0 2 3 1 3 2 7 owner 5\n\
    add 2.5 1 2.5 3.5 2 3.5 2 7 owner 5\n\
    frame\n\
    mark\n\
    move 1:0 3 0 2 4 1 3\n\
    mask 2:0 2 4\n\
    remove 2:0\n\
    add 1 0 2 2 1 3 2\n\
    frame\n\
    box 0 0 0 8 2 8\n\
    point 3 0 2 2\n\
    ray 0 0.5 2.5 1 0 0 entry\n\
    seg 0 0.5 2.5 8 0.5 2.5\n\
    cast 0 0 2 1 1 3 8 0 0 2\n\
    near 4 4 4 2 2\n\
    back\n\
    frame\n\
    back\n";

const MARKED_REPORT: &[u8] = b"add 0:0\n\
    add 1:0\n\
    add 2:0\n\
    frame 1 1\n\
    begin 0:0 1:0\n\
    mark 1\n\
    add 2:1\n\
    frame 2 2\n\
    stay 0:0 1:0\n\
    begin 0:0 2:1\n\
    box 3 0:0 1:0 2:1\n\
    point 1 1:0\n\
    ray 2 2:1 1:0\n\
    seg 2 1:0 2:1\n\
    cast 2 2:1 1:0\n\
    near 2 1:0 2:1\n\
    back 0\n\
    frame 2 1\n\
    stay 0:0 1:0\n\
    nomark 0\n\
    end 20 2 3\n";

// What a play of a scene answers, with what it writes, where memory runs out in such a call of its index.
fn played_without_memory<R: Threads + Sync>(
    rt: &R,
    alloc: Global,
    workers: u32,
    scene: &[u8],
    failing: u32,
) -> Result<(Status, Vec<u8>), Fail>
    requires { (1 ≤ workers) × (workers ≤ MOST_WORKERS) }
{
    let index = FailingIndex::new(alloc, failing)?;
    let options = Options {
        workers,
        exchanges: false,
    };
    let limits = Limits { lines: 40 };
    let mut source = HonestSource::new(alloc, scene, 1024)?;
    let mut sink = HonestSink::new(alloc, 1024);
    let answer = play(
        rt,
        alloc,
        index,
        options,
        limits,
        &NoGate,
        &mut source,
        &mut sink,
    );
    Ok((answer, Vec::from_slice(alloc, sink.bytes())?))
}

// Memory runs out in each call of the index in turn, until it runs out in none, which are at least so many.
fn each_call_without_memory<R: Threads + Sync + Abort>(
    rt: &R,
    alloc: Global,
    workers: u32,
    scene: &[u8],
    report: &[u8],
    calls: u32,
) -> Result<(), Fail>
    requires { (1 ≤ workers) × (workers ≤ MOST_WORKERS) }
{
    for failing in 0..100 {
        let (answer, text) = played_without_memory(rt, alloc, workers, scene, failing)?;
        if answer == Status::Done {
            assert_eq!(rt; text.as_slice(), report);
            assert!(rt; failing >= calls);
            return Ok(());
        }
        assert_eq!(rt; answer, Status::NoMemory);
        assert!(rt; report.starts_with(&text));
    }
    Err("a play with memory enough".into())
}

#[test]
fn want_of_memory_in_an_index_ends_a_play(rt: HostRuntime) -> Result<(), Fail> {
    each_call_without_memory(&rt, rt.alloc(), 1, LEVEL, REPORT, 9)?;
    each_call_without_memory(&rt, rt.alloc(), 4, LEVEL, REPORT, 9)?;
    each_call_without_memory(&rt, rt.alloc(), 1, MARKED, MARKED_REPORT, 16)?;
    each_call_without_memory(&rt, rt.alloc(), 4, MARKED, MARKED_REPORT, 16)
}
