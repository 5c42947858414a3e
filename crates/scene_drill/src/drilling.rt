//! The drill: a scene is made, played and summed up.

ghost use Rattle.std.specs.Prelude.{◌≡◌, ◌-◌, ◌^◌, ◌<◌, ◌≤◌, true, IfOk};
ghost use Rattle.broad_index.specs.Fresh.{IsFresh};
ghost use Rattle.fixed_box.specs.declared.TheConstants.{SLOTS};
ghost use Rattle.made_scene.specs.declared.TheConstants.{MOST_FRAMES};
ghost use Rattle.made_scene.specs.MadeScene.{made_text};
ghost use Rattle.scene_drill.specs.Drill.{output, drill_report, drill_text, IsDrilled};
ghost use Rattle.work_pieces.specs.declared.TheConstants.{MOST_WORKERS};

use crate::{DrillJob, Load, made_scene_is_played, put_summary};
use broad_index::{BroadPhase, Gate};
use fixed_box::{NoMemory, SLOTS};
use frame_player::{Limits, Options, play, write_all};
use made_scene::drill_scene;
use play_io::{HonestSink, HonestSource, Sink, SinkFault};
use play_rules::Status;
use scene_lines::MOST_LINES;
use std::alloc::Global;
use std::thread::Threads;

/// Makes the scene of a load, plays it through an index, and writes the summary of its report.
///
/// The scene and its report are kept in memory meanwhile, and nothing is written before the play has ended. A made scene
/// is never refused. Queries that follow one another are answered together, and the pairs of a frame are found, by up to
/// `job.options.workers` threads; the gate is entered at each piece of such a search. After a sink fault the sink isn't
/// called again.
pub fn drill<R: Threads + Sync, B: BroadPhase + Sync + Drop, G: Gate + Sync, K: Sink>(
    rt: &R,
    alloc: Global,
    index: B,
    job: DrillJob,
    gate: &G,
    sink: &mut K,
) -> Status
    requires fresh { IsFresh (B.bodies index) (B.spent index) (B.exchanges index) }
    requires workers { (1 ≤ job.options.workers) × (job.options.workers ≤ MOST_WORKERS) }
    requires shown { job.options.exchanges ≡ true → B.COUNTS ≡ true }
    requires boxes { (1 ≤ job.load.boxes) × (job.load.boxes ≤ SLOTS) }
    requires frames { (1 ≤ job.load.frames) × (job.load.frames ≤ MOST_FRAMES) }
    requires sink_count { K.faults sink.old < 2 ^ 64 - 1 }

    // How each status leaves the sink.
    ensures outcome { IsDrilled (drill_text job.load job.options.exchanges)
        (output (K.written sink.old) (K.settled sink.old) (K.faults sink.old))
        (output (K.written sink.new) (K.settled sink.new) (K.faults sink.new)) result }
    // After a fault the sink isn't called again.
    ensures uncalled { K.faults sink.old ≡ 0 → K.since sink.new ≡ K.since sink.old }
{
    let Ok(text) = summary_text(rt, alloc, index, job.load, job.options, gate) else {
        return Status::NoMemory;
    };
    match write_all(sink, &text) {
        Ok(()) => Status::Done,
        Err(SinkFault::Failed) => Status::WriteFault,
        Err(SinkFault::NoMemory) => Status::NoMemory,
    }
}

// The summary of the made scene's report.
fn summary_text<R: Threads + Sync, B: BroadPhase + Sync + Drop, G: Gate + Sync>(
    rt: &R,
    alloc: Global,
    index: B,
    load: Load,
    options: Options,
    gate: &G,
) -> Result<Vec<u8>, NoMemory>
    requires fresh { IsFresh (B.bodies index) (B.spent index) (B.exchanges index) }
    requires workers { (1 ≤ options.workers) × (options.workers ≤ MOST_WORKERS) }
    requires shown { options.exchanges ≡ true → B.COUNTS ≡ true }
    requires boxes { (1 ≤ load.boxes) × (load.boxes ≤ SLOTS) }
    requires frames { (1 ≤ load.frames) × (load.frames ≤ MOST_FRAMES) }
    ensures { IfOk result (λ text. text.items ≡ drill_text load options.exchanges) }
{
    let kept = made_report(rt, alloc, index, load, options, gate)?;
    let mut text = Vec::new(alloc);
    put_summary(
        load.boxes,
        load.frames,
        options.exchanges,
        kept.bytes(),
        &mut text,
    )?;
    Ok(text)
}

// The made scene's report, in memory.
fn made_report<R: Threads + Sync, B: BroadPhase + Sync + Drop, G: Gate + Sync>(
    rt: &R,
    alloc: Global,
    index: B,
    load: Load,
    options: Options,
    gate: &G,
) -> Result<HonestSink, NoMemory>
    requires fresh { IsFresh (B.bodies index) (B.spent index) (B.exchanges index) }
    requires workers { (1 ≤ options.workers) × (options.workers ≤ MOST_WORKERS) }
    requires shown { options.exchanges ≡ true → B.COUNTS ≡ true }
    requires boxes { (1 ≤ load.boxes) × (load.boxes ≤ SLOTS) }
    requires frames { (1 ≤ load.frames) × (load.frames ≤ MOST_FRAMES) }
    ensures { IfOk result (λ kept. kept.written ≡ drill_report load options.exchanges) }
{
    made_scene_is_played();
    let mut scene = made_source(alloc, load)?;
    let mut kept = HonestSink::new(alloc, u32::MAX);
    let limits = Limits { lines: MOST_LINES };
    match play(
        rt, alloc, index, options, limits, gate, &mut scene, &mut kept,
    ) {
        Status::Done => Ok(kept),
        Status::NoMemory => Err(NoMemory),
        Status::Refused { .. } | Status::Usage | Status::ReadFault | Status::WriteFault => {
            unreachable!()
        }
    }
}

// The made scene as a source. What it is made in is let go.
fn made_source(alloc: Global, load: Load) -> Result<HonestSource, NoMemory>
    requires boxes { (1 ≤ load.boxes) × (load.boxes ≤ SLOTS) }
    requires frames { (1 ≤ load.frames) × (load.frames ≤ MOST_FRAMES) }
    ensures { IfOk result (λ source. source.left ≡ made_text load.seed load.boxes load.frames) }
{
    let mut scene = Vec::new(alloc);
    drill_scene(alloc, load.seed, load.boxes, load.frames, &mut scene)?;
    HonestSource::new(alloc, &scene, u32::MAX)
}
