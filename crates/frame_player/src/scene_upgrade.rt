//! A scene written as one of version 2, line by line.

ghost use Rattle.std.specs.Prelude.{◌≡◌, ◌≢◌, ◌++◌, ◌-◌, ◌^◌, ◌<◌, ◌≤◌, [], Bool, Option, true, IfOk, IfErr, IfSome, OnErr};
ghost use Rattle.scene_lines.specs.SceneLines.{lines};
ghost use Rattle.scene_words.specs.Printed.{line_of};
ghost use Rattle.scene_words.specs.Ranges.{IsPrintable};
ghost use Rattle.play_rules.specs.declared.status.Status.TheVariants.{Done, Usage};
ghost use Rattle.play_rules.specs.Course.{whole};
ghost use Rattle.play_rules.specs.Outcome.{ends, IsOutcome, IsBegun};
ghost use Rattle.play_rules.specs.Play.{report};
ghost use Rattle.play_rules.specs.Upgrade.{as_two, upgraded, version_after};
ghost use Rattle.frame_player.specs.Reached.{IsTextOf};
ghost use Rattle.frame_player.specs.Ending.{IsCountedAs};
ghost use Rattle.frame_player.specs.Outlet.{IsAppended, IsSaidBy, IsCutShortBy};

use crate::ending::ended;
use crate::report::Report;
use crate::step::{Step, next_step};
use crate::{Limits, Status};
use pair_report::Cause;
use play_io::{Sink, SinkFault, Source};
use play_rules::upgraded_plays_alike;
use scene_lines::{LineReader, MOST_LINES, line_laws};
use scene_words::{Command, Version, print_command};
use std::alloc::Global;

/// Writes the scene that a source has left as a scene of version 2, with each line in the form in which `print_command` has it:
/// the numbers as they are read, the masks written out, and no comments. Blank lines stay.
///
/// What is written is played as the scene that was given, whatever the options are. A line that is refused ends it, as in a play;
/// only room for one more box is no cause, since no box is kept. The text goes out in pieces of about 64 KiB, and memory doesn't
/// grow with the scene. After a read fault the lines that had ended are written. After a sink fault the sink isn't called again.
pub fn upgrade<S: Source, K: Sink>(
    alloc: Global,
    limits: Limits,
    source: &mut S,
    sink: &mut K,
) -> Status
    requires some_lines { 1 ≤ limits.lines }
    requires most_lines { limits.lines ≤ MOST_LINES }
    requires source_count { S.faults source.old < 2 ^ 64 - 1 }
    requires sink_count { K.faults sink.old < 2 ^ 64 - 1 }

    // How each status leaves the source and the sink.
    ensures outcome { IsOutcome (upgraded limits.lines)
        (ends (S.left source.old) (S.faults source.old) (K.written sink.old) (K.settled sink.old) (K.faults sink.old))
        (ends (S.left source.new) (S.faults source.new) (K.written sink.new) (K.settled sink.new) (K.faults sink.new)) result }
    // What was written has the same report.
    ensures alike { result ≡ Done → IfSome (S.left source.old) (λ given. (shows : Bool) →
        report shows limits.lines (lines (whole (upgraded limits.lines (lines given true))) true) ≡ report shows limits.lines (lines given true)) }
    // After a fault the sink isn't called again.
    ensures uncalled { K.faults sink.old ≡ 0 → K.since sink.new ≡ K.since sink.old }
    ensures never_usage { result ≢ Usage }
{
    upgraded_plays_alike();
    line_laws();
    let mut text = Vec::new(alloc);
    let mut out = Report {
        sink,
        text: &mut text,
    };
    match upgrade_lines(alloc, limits.lines, source, &mut out) {
        Ok(status) => {
            let sent = out.write_rest();
            ended(status, sent)
        }
        Err(SinkFault::Failed) => Status::WriteFault,
        Err(SinkFault::NoMemory) => Status::NoMemory,
    }
}

// Prints the lines up to the last one, and answers how the reading ends. The end of the text is held.
fn upgrade_lines<S: Source, K: Sink>(
    alloc: Global,
    limit: u32,
    source: &mut S,
    out: &mut Report<'_, K>,
) -> Result<Status, SinkFault>
    requires some_lines { 1 ≤ limit }
    requires most_lines { limit ≤ MOST_LINES }
    requires source_count { S.faults source.old < 2 ^ 64 - 1 }
    requires nothing { out.old.text.now.items ≡ [] }
    ensures same_sink { out.new.sink.ghost_name ≡ out.old.sink.ghost_name }
    ensures said { IfOk result (λ status. IsSaidBy K.written K.faults K.since out.old out.new out.new.text.now.items
        (λ all. IfSome (S.left source.old) (λ given. IsTextOf (upgraded limit) given (S.left source.new) all status))) }
    ensures count { IfOk result (λ status. IsCountedAs (S.faults source.old) (S.faults source.new) status) }
    ensures stopped { IfErr result (λ fault. IsCutShortBy K.written K.faults K.since out.old out.new fault
        (IfSome (S.left source.old) (λ given.
        IsBegun (K.written out.old.sink.now) (K.written out.new.sink.now) (whole (upgraded limit (lines given true)))))) }
    ensures unread { OnErr result (S.faults source.new ≡ S.faults source.old) }
    ensures never_usage { IfOk result (λ status. status ≢ Usage) }
{
    let mut reader = LineReader::new(alloc, limit)?;
    let mut version = None;
    'lines: loop {
        match next_step(&mut reader, source, version, 0) {
            Step::Command(command) => {
                version = version_after(version, &command);
                send_command(&as_two(&command), out)?;
            }
            Step::Refused { line, cause } => return Ok(Status::Refused { line, cause }),
            Step::ReadFault => return Ok(Status::ReadFault),
            Step::End { lines } => {
                if version.is_none() {
                    return Ok(Status::Refused {
                        line: lines + 1,
                        cause: Cause::Header,
                    });
                }
                return Ok(Status::Done);
            }
        }
    }
}

// The version that the last header has named.
fn version_after(version: Option<Version>, command: &Command) -> Option<Version>
    ensures { result ≡ version_after version command.now }
{
    match command {
        Command::Header { version } => Some(*version),
        Command::Blank
        | Command::Add { .. }
        | Command::Move { .. }
        | Command::Mask { .. }
        | Command::Remove { .. }
        | Command::Frame
        | Command::BoxQ { .. }
        | Command::PointQ { .. }
        | Command::RayQ { .. }
        | Command::SegQ { .. }
        | Command::Cast { .. }
        | Command::Near { .. }
        | Command::Mark
        | Command::Back => version,
    }
}

// The command as version 2 has it.
fn as_two(command: &Command) -> Command
    ensures two { result ≡ as_two command.now }
    ensures printable { IsPrintable command.now → IsPrintable result }
{
    match command {
        Command::Header { .. } => Command::Header {
            version: Version::Two,
        },
        Command::Blank
        | Command::Add { .. }
        | Command::Move { .. }
        | Command::Mask { .. }
        | Command::Remove { .. }
        | Command::Frame
        | Command::BoxQ { .. }
        | Command::PointQ { .. }
        | Command::RayQ { .. }
        | Command::SegQ { .. }
        | Command::Cast { .. }
        | Command::Near { .. }
        | Command::Mark
        | Command::Back => *command,
    }
}

// The line of a command.
#[tactic(auto, using(crate::proofs::Sending::report_out_of_memory))]
fn send_command<K: Sink>(command: &Command, out: &mut Report<'_, K>) -> Result<(), SinkFault>
    requires { IsPrintable command.now }
    ensures { IsAppended K.written K.faults K.since out.old out.new (line_of command.now) result }
{
    print_command(command, out.text)?;
    out.hand_on()
}
