//! The next step of a run over the lines of a scene: a command, or why there is none.

ghost use Rattle.std.specs.Prelude.{◌≡◌, ◌+◌, ◌-◌, ◌^◌, ◌<◌, ◌≤◌, [], length, true, false, option_map, Ok, IfOk, IfSome};
ghost use Rattle.scene_lines.specs.Reading.{coming};
ghost use Rattle.scene_lines.specs.SceneLines.{lines, past_line};
ghost use Rattle.scene_lines.specs.declared.TheConstants.{BUFFER_LEN};
ghost use Rattle.scene_words.specs.Ranges.{IsPrintable};
ghost use Rattle.play_rules.specs.Readable.{allowed_in, unless_full};
ghost use Rattle.frame_player.specs.Step.{step_for, IsStepOf, IsPast, IsAhead, IfCommand, IfEnd, OnCommand, OnRefused, OnStop, OnReadFault, UnlessReadFault};

use crate::allowed::{cause_for, reads_under, refusal};
use pair_report::Cause;
use play_io::Source;
use scene_lines::{LineReader, Next, line_laws};
use scene_words::{Command, LineFault, Version, read_command};

/// What comes next of a scene.
#[derive(Clone, Copy)]
pub enum Step {
    /// The next line, as a command that passes in its place.
    Command(Command),
    /// The next line is refused. Lines are numbered from 1.
    Refused { line: u32, cause: Cause },
    /// The input has ended, after so many lines.
    End { lines: u32 },
    /// A read failed, with no line ended among the bytes held.
    ReadFault,
}

/// Reads the next line of a scene as a command that passes. `version` is that of the last header, if one came, and `live` says how
/// many boxes are live.
///
/// The limit of lines comes first of the causes, then the length of the line, then what it says under its version, and at last
/// room for one more box. A caller with no boxes says 0 live ones. The source is read only if the bytes held don't settle
/// the answer; nothing is allocated.
///
/// After a command the reader stands behind its line, and may go on. Any other answer is the last: behind a refused line little
/// more is taken from the source than that line, and after `End` and `ReadFault` the bytes to come are as before.
#[inline(always)]
pub fn next_step<S: Source>(
    reader: &mut LineReader,
    source: &mut S,
    version: Option<Version>,
    live: u32,
) -> Step
    requires open { reader.old.ended ≡ false }
    requires countable { S.faults source.old < 2 ^ 64 - 1 }
    requires at_end { reader.old.over ≡ true → IfSome (S.left source.old) (λ left. left ≡ []) }

    // What the answer says of the lines that are coming.
    ensures says { UnlessReadFault result (IfSome (coming reader.old.held (S.left source.old))
        (λ bytes. IsStepOf version live reader.old.limit (reader.old.number + 1) bytes result)) }

    // A command, and what comes after its line.
    ensures allowed { IfCommand result (λ c. unless_full live (allowed_in version (Ok c)) ≡ Ok c) }
    ensures printable { IfCommand result IsPrintable }
    ensures rest { OnCommand result (coming reader.new.held (S.left source.new) ≡ option_map past_line (coming reader.old.held (S.left source.old))) }
    ensures number { OnCommand result (reader.new.number ≡ reader.old.number + 1) }
    ensures within { OnCommand result (reader.new.number ≤ reader.new.limit) }
    ensures open { OnCommand result (reader.new.ended ≡ false) }
    ensures past { OnCommand result (IfSome (coming reader.old.held (S.left source.old)) (λ bytes. IsPast bytes reader.new.over)) }

    // Little more is read than a line that is refused.
    ensures ahead { OnRefused result (IsAhead (coming reader.old.held (S.left source.old)) reader.new.held (S.left source.new)) }

    // If no line comes, the bytes stay. A read that fails leaves no line that ended.
    ensures kept { OnStop result (coming reader.new.held (S.left source.new) ≡ coming reader.old.held (S.left source.old)) }
    ensures counted { IfEnd result (λ lines. lines ≡ reader.old.number) }
    ensures fault { OnReadFault result (S.faults source.old < S.faults source.new) }
    ensures no_fault { UnlessReadFault result (S.faults source.new ≡ S.faults source.old) }
    ensures none_ended { OnReadFault result (lines reader.new.held false ≡ []) }
    ensures going_on { OnReadFault result (reader.old.over ≡ false) }

    // Always.
    ensures limit { reader.new.limit ≡ reader.old.limit }
    ensures small { length reader.new.held ≤ BUFFER_LEN }
    ensures over_stays { reader.old.over ≡ true → reader.new.over ≡ true }
    ensures over_at_end { reader.new.over ≡ true → IfSome (S.left source.new) (λ left. left ≡ []) }
{
    line_laws();
    match reader.next(source) {
        Next::Line => step_for(
            reader.number(),
            version,
            live,
            read_command(reads_under(version), reader.line()),
        ),
        Next::Long => Step::Refused {
            line: reader.number(),
            cause: Cause::Long,
        },
        Next::TooMany => Step::Refused {
            line: reader.number(),
            cause: Cause::Lines,
        },
        Next::End => Step::End {
            lines: reader.number(),
        },
        Next::ReadFault => Step::ReadFault,
    }
}

// What a line that said this comes to in its place.
#[inline(always)]
fn step_for(
    line: u32,
    version: Option<Version>,
    live: u32,
    said: Result<Command, LineFault>,
) -> Step
    ensures step { result ≡ step_for line (unless_full live (allowed_in version said)) }
    ensures printable { IfOk said IsPrintable → IfCommand result IsPrintable }
{
    match said {
        Ok(command) => match refusal(version, live, &command) {
            None => Step::Command(command),
            Some(cause) => Step::Refused { line, cause },
        },
        Err(fault) => Step::Refused {
            line,
            cause: cause_for(version, fault),
        },
    }
}
