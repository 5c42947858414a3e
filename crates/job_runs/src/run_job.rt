//! The top call: a job is run over the structure that it names, from a source to a sink.

ghost use Rattle.std.specs.Prelude.{◌≡◌, ◌≢◌, ◌↔◌, ◌-◌, ◌^◌, ◌<◌, ◌≤◌, true, map, string_bytes, None};
ghost use Rattle.play_rules.specs.declared.status.Status.TheVariants.{Usage};
ghost use Rattle.play_rules.specs.Outcome.{ends};
ghost use Rattle.work_pieces.specs.declared.TheConstants.{MOST_WORKERS};
ghost use Rattle.named_index.specs.Structures.{counts};
ghost use Rattle.job_runs.specs.JobWords.{job, IsLoad};
ghost use Rattle.job_runs.specs.JobOutcome.{IsJobDone, IsTaskDone, is_drill, reads_nothing};

use crate::words::{Job, Task, read_words};
use box_tree::BoxTree;
use broad_index::{NoGate, PlainIndex};
use frame_player::{Limits, Status, play, upgrade};
use hier_grid::HierGrid;
use named_index::{Named, SkinTree, Structure};
use play_io::{Sink, Source};
use scene_drill::{DrillJob, Load, drill};
use scene_lines::MOST_LINES;
use std::alloc::Global;
use std::thread::Threads;
use sweep_prune::Sap;

/// Does what a command line asks for: plays the scene that a source has left, and writes its report; makes a scene,
/// plays it, and writes a summary of its report; or writes the scene that a source has left as one of version 2.
///
/// The report tells at each frame exactly the pairs of live boxes that meet and may, with what began, stayed and is
/// over since the last frame, and for each query exactly the boxes that meet it. Which report that is, is a function of
/// the scene's bytes, whatever pieces reads cut them into, and whichever structure and number of workers are named. The
/// first line that can't be read is refused. Otherwise the play stops early only where memory runs out, or the source or
/// the sink fails.
///
/// A drill reads nothing, and is never refused: its summary is a function of its seed and its numbers of boxes and
/// frames alone. What an upgrade writes has the report of the scene that it was given.
pub fn broadplay<R: Threads + Sync, S: Source, K: Sink>(
    rt: &R,
    alloc: Global,
    words: &[String],
    source: &mut S,
    sink: &mut K,
) -> Status
    requires source_count { S.faults source.old < 2 ^ 64 - 1 }
    requires sink_count { K.faults sink.old < 2 ^ 64 - 1 }

    // The command line has no meaning, and nothing was touched.
    ensures usage { (result ≡ Usage) ↔ (job (map string_bytes words.now) ≡ None) }
    ensures untouched { result ≡ Usage → (source.new ≡ source.old) × (sink.new ≡ sink.old) }
    ensures unread { reads_nothing (job (map string_bytes words.now)) ≡ true → source.new ≡ source.old }

    // How each status leaves the source and the sink.
    ensures outcome { IsJobDone (job (map string_bytes words.now))
        (ends (S.left source.old) (S.faults source.old) (K.written sink.old) (K.settled sink.old) (K.faults sink.old))
        (ends (S.left source.new) (S.faults source.new) (K.written sink.new) (K.settled sink.new) (K.faults sink.new)) result }
    // After a fault the sink isn't called again.
    ensures uncalled { K.faults sink.old ≡ 0 → K.since sink.new ≡ K.since sink.old }
{
    let Some(job) = read_words(words) else {
        return Status::Usage;
    };
    match job.structure {
        Structure::Plain => run_over::<R, PlainIndex, S, K>(rt, alloc, job, source, sink),
        Structure::Sap => run_over::<R, Sap, S, K>(rt, alloc, job, source, sink),
        Structure::Tree => run_over::<R, BoxTree, S, K>(rt, alloc, job, source, sink),
        Structure::Grid => run_over::<R, HierGrid, S, K>(rt, alloc, job, source, sink),
        Structure::Skin => run_over::<R, SkinTree, S, K>(rt, alloc, job, source, sink),
    }
}

// Does a job over the structure that it names, where there is memory to make it.
fn run_over<R: Threads + Sync, B: Named, S: Source, K: Sink>(
    rt: &R,
    alloc: Global,
    job: Job,
    source: &mut S,
    sink: &mut K,
) -> Status
    requires named { B.STRUCTURE ≡ job.structure }
    requires workers { (1 ≤ job.options.workers) × (job.options.workers ≤ MOST_WORKERS) }
    requires counted { job.options.exchanges ≡ true → counts job.structure ≡ true }
    requires load { IsLoad job.task }
    requires source_count { S.faults source.old < 2 ^ 64 - 1 }
    requires sink_count { K.faults sink.old < 2 ^ 64 - 1 }
    ensures unread { is_drill job.task ≡ true → source.new ≡ source.old }
    ensures outcome { IsTaskDone job.task job.options.exchanges
        (ends (S.left source.old) (S.faults source.old) (K.written sink.old) (K.settled sink.old) (K.faults sink.old))
        (ends (S.left source.new) (S.faults source.new) (K.written sink.new) (K.settled sink.new) (K.faults sink.new)) result }
    ensures uncalled { K.faults sink.old ≡ 0 → K.since sink.new ≡ K.since sink.old }
    ensures never_usage { result ≢ Usage }
{
    let limits = Limits { lines: MOST_LINES };
    match job.task {
        Task::Play => {
            let Ok(index) = B::made(alloc) else {
                return Status::NoMemory;
            };
            play(rt, alloc, index, job.options, limits, &NoGate, source, sink)
        }
        Task::Drill {
            seed,
            boxes,
            frames,
        } => {
            let Ok(index) = B::made(alloc) else {
                return Status::NoMemory;
            };
            let load = Load {
                seed,
                boxes,
                frames,
            };
            let drilled = DrillJob {
                load,
                options: job.options,
            };
            drill(rt, alloc, index, drilled, &NoGate, sink)
        }
        Task::Upgrade => upgrade(alloc, limits, source, sink),
    }
}
