//! Whether a command may stand where it stands, and the cause if it may not.

ghost use Rattle.std.specs.Prelude.{◌≡◌, Ok, Err};
ghost use Rattle.play_rules.specs.Readable.{allowed_in, cause_of, reads_under, unless_full};
ghost use Rattle.frame_player.specs.Step.{passes_unless};

use fixed_box::SLOTS;
use pair_report::Cause;
use scene_words::{Command, LineFault, Version};

// The version that a line is read under: that of the header, and before it version 1.
#[inline(always)]
pub(crate) fn reads_under(version: Option<Version>) -> Version
    ensures { result ≡ reads_under version }
{
    match version {
        None => Version::One,
        Some(version) => version,
    }
}

// Why a command doesn't pass where it stands. Before a header only a header and blank lines pass. Later no second header does, and
// no new box if so many are live that it has no slot. It looks at the command in its place, since a copy costs more than the
// question.
#[inline(always)]
pub(crate) fn refusal(version: Option<Version>, live: u32, command: &Command) -> Option<Cause>
    ensures { unless_full live (allowed_in version (Ok command.now)) ≡ passes_unless command.now result }
{
    match command {
        Command::Blank => None,
        Command::Header { .. } => match version {
            None => None,
            Some(_) => Some(Cause::Header),
        },
        Command::Add { .. } => match version {
            None => Some(Cause::Header),
            Some(_) if live >= SLOTS => Some(Cause::Full),
            Some(_) => None,
        },
        Command::Move { .. }
        | Command::Mask { .. }
        | Command::Remove { .. }
        | Command::Frame
        | Command::BoxQ { .. }
        | Command::PointQ { .. }
        | Command::RayQ { .. }
        | Command::SegQ { .. }
        | Command::Cast { .. }
        | Command::Near { .. }
        | Command::Mark
        | Command::Back => match version {
            None => Some(Cause::Header),
            Some(_) => None,
        },
    }
}

// The cause for which a line of a fault is refused: before a header, that it isn't one.
pub(crate) fn cause_for(version: Option<Version>, fault: LineFault) -> Cause
    ensures { allowed_in version (Err fault) ≡ Err result }
{
    match version {
        None => Cause::Header,
        Some(_) => cause_of(fault),
    }
}

// The cause of the same name.
fn cause_of(fault: LineFault) -> Cause
    ensures { result ≡ cause_of fault }
{
    match fault {
        LineFault::Header => Cause::Header,
        LineFault::Word => Cause::Word,
        LineFault::Count => Cause::Count,
        LineFault::Handle => Cause::Handle,
        LineFault::Number => Cause::Number,
        LineFault::Range => Cause::Range,
        LineFault::Mask => Cause::Mask,
        LineFault::Owner => Cause::Owner,
        LineFault::Inverted => Cause::Inverted,
    }
}
