//! The play of a scene over any broad phase, from a source to a sink.

ghost use Rattle.std.specs.Prelude.{◌≡◌, ◌≢◌, ◌-◌, ◌^◌, ◌<◌, ◌≤◌, ◌++◌, [], true, false, length};
ghost use Rattle.std.specs.Prelude.{IfOk, IfErr, OnOk, OnErr, IfSome, option_map};
ghost use Rattle.broad_index.specs.Fresh.{IsFresh};
ghost use Rattle.scene_lines.specs.SceneLines.{lines};
ghost use Rattle.work_pieces.specs.declared.TheConstants.{MOST_WORKERS};
ghost use Rattle.play_rules.specs.declared.status.Status.TheVariants.{Usage};
ghost use Rattle.play_rules.specs.Outcome.{ends, IsOutcome, IsBegun};
ghost use Rattle.play_rules.specs.Play.{played, report};
ghost use Rattle.play_rules.specs.World.{opening};
ghost use Rattle.frame_player.specs.Reached.{IsTextOf};
ghost use Rattle.frame_player.specs.Ending.{IsCountedAs, last_line, status_of};
ghost use Rattle.frame_player.specs.Outlet.{IsSentBy, IsSaidBy, IsCutShortBy};
ghost use Rattle.frame_player.specs.Owed.{owed, IsRun};
ghost use Rattle.frame_player.specs.Player.{world_of, live_in};

use crate::ending::ended;
use crate::last::Last;
use crate::obeying::obey;
use crate::player::Player;
use crate::query_run::{QueryRun, settle};
use crate::report::Report;
use crate::setup::Setup;
use crate::step::{Step, next_step};
use crate::{Limits, Options, Status};
use broad_index::{BroadPhase, Gate};
use pair_report::Cause;
use play_io::{Sink, SinkFault, Source};
use play_rules::{count_laws, replies_begin_report, uncounted_law};
use scene_lines::{LineReader, MOST_LINES};
use std::alloc::Global;
use std::thread::Threads;

/// Plays the scene that a source has left through an index, and writes its report.
///
/// The text goes out in pieces of about 64 KiB while the scene is played, and is flushed once, at the end. Queries that
/// follow one another are answered together, and the pairs of a frame are found, by up to `options.workers` threads;
/// the gate is entered at each piece of such a search. A refused line is answered without reading further. After a read
/// fault the replies to the lines that had ended are written. After a sink fault the sink isn't called again.
pub fn play<R: Threads + Sync, B: BroadPhase + Sync + Drop, G: Gate + Sync, S: Source, K: Sink>(
    rt: &R,
    alloc: Global,
    index: B,
    options: Options,
    limits: Limits,
    gate: &G,
    source: &mut S,
    sink: &mut K,
) -> Status
    requires fresh { IsFresh (B.bodies index) (B.spent index) (B.exchanges index) }
    requires workers { (1 ≤ options.workers) × (options.workers ≤ MOST_WORKERS) }
    requires shown { options.exchanges ≡ true → B.COUNTS ≡ true }
    requires some_lines { 1 ≤ limits.lines }
    requires most_lines { limits.lines ≤ MOST_LINES }
    requires source_count { S.faults source.old < 2 ^ 64 - 1 }
    requires sink_count { K.faults sink.old < 2 ^ 64 - 1 }

    // How each status leaves the source and the sink.
    ensures outcome { IsOutcome (played options.exchanges limits.lines)
        (ends (S.left source.old) (S.faults source.old) (K.written sink.old) (K.settled sink.old) (K.faults sink.old))
        (ends (S.left source.new) (S.faults source.new) (K.written sink.new) (K.settled sink.new) (K.faults sink.new)) result }
    // After a fault the sink isn't called again.
    ensures uncalled { K.faults sink.old ≡ 0 → K.since sink.new ≡ K.since sink.old }
    ensures never_usage { result ≢ Usage }
{
    replies_begin_report();
    let Ok(mut player) = Player::new(alloc, index) else {
        return Status::NoMemory;
    };
    let mut run = QueryRun::new(alloc);
    let setup = Setup {
        rt,
        gate,
        options,
        limits,
    };
    let mut text = Vec::new(alloc);
    let mut out = Report {
        sink,
        text: &mut text,
    };
    match play_lines(&setup, &mut player, &mut run, source, &mut out) {
        Ok(last) => {
            let sent = finish(&setup, &player, &mut run, last, &mut out);
            ended(last.status(), sent)
        }
        Err(SinkFault::Failed) => Status::WriteFault,
        Err(SinkFault::NoMemory) => Status::NoMemory,
    }
}

// Plays the lines up to the last one, and answers how the reading ends. The end of the text is held, and answers may be
// owed still.
fn play_lines<R: Threads + Sync, B: BroadPhase + Sync + Drop, G: Gate + Sync, S: Source, K: Sink>(
    setup: &Setup<'_, R, G>,
    player: &mut Player<B>,
    run: &mut QueryRun,
    source: &mut S,
    out: &mut Report<'_, K>,
) -> Result<Last, SinkFault>
    requires opening { world_of player.old.version player.old.world ≡ opening }
    requires sound { player.old.world.spent ≡ false }
    requires shown { setup.now.options.exchanges ≡ true → B.COUNTS ≡ true }
    requires source_count { S.faults source.old < 2 ^ 64 - 1 }
    requires nothing { out.old.text.now.items ≡ [] }
    requires asked { run.old.asked.items ≡ [] }
    requires queries { run.old.queries.items ≡ [] }
    ensures same_sink { out.new.sink.ghost_name ≡ out.old.sink.ghost_name }
    ensures said { IfOk result (λ last. IsSaidBy K.written K.faults K.since out.old out.new
        (out.new.text.now.items ++ owed (live_in player.new.world) run.new)
        (λ all. IfSome (S.left source.old) (λ given.
        IsTextOf (played setup.now.options.exchanges setup.now.limits.lines) given (S.left source.new) (all ++ last_line last) (status_of last)))) }
    ensures count { IfOk result (λ last. IsCountedAs (S.faults source.old) (S.faults source.new) (status_of last)) }
    ensures sound { OnOk result (player.new.world.spent ≡ false) }
    ensures run { OnOk result (IsRun run.new) }
    ensures stopped { IfErr result (λ fault. IsCutShortBy K.written K.faults K.since out.old out.new fault
        (IfSome (S.left source.old) (λ given.
        IsBegun (K.written out.old.sink.now) (K.written out.new.sink.now)
        (report setup.now.options.exchanges setup.now.limits.lines (lines given true))))) }
    ensures unread { OnErr result (S.faults source.new ≡ S.faults source.old) }
{
    let mut reader = LineReader::new(player.alloc, setup.limits.lines)?;
    count_laws();
    uncounted_law();
    'lines: loop {
        let live = player.live();
        match next_step(&mut reader, source, player.version, live) {
            Step::Command(command) => obey(setup, player, run, &command, out)?,
            Step::Refused { line, cause } => return Ok(Last::Refused { line, cause }),
            Step::ReadFault => return Ok(Last::ReadFault),
            Step::End { lines } => {
                if player.version.is_none() {
                    return Ok(Last::Refused {
                        line: lines + 1,
                        cause: Cause::Header,
                    });
                }
                return Ok(Last::End {
                    lines,
                    frames: player.world.frames(),
                    live,
                });
            }
        }
    }
}

// Answers what is owed, and writes the rest of the text with the last line.
#[tactic(auto, using(crate::proofs::Sending::report_out_of_memory))]
fn finish<R: Threads + Sync, B: BroadPhase + Sync + Drop, G: Gate + Sync, K: Sink>(
    setup: &Setup<'_, R, G>,
    player: &Player<B>,
    run: &mut QueryRun,
    last: Last,
    out: &mut Report<'_, K>,
) -> Result<(), SinkFault>
    requires sound { player.now.world.spent ≡ false }
    requires run { IsRun run.old }
    ensures sent { IsSentBy K.written K.faults K.since out.old out.new
        ((out.old.text.now.items ++ owed (live_in player.now.world) run.old) ++ last_line last) [] result }
    ensures settled { OnOk result (K.settled out.new.sink.now ≡ option_map length (K.written out.new.sink.now)) }
{
    settle(setup, player, run, out)?;
    last.put(out.text)?;
    out.write_rest()
}
