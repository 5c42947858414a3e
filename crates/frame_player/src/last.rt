//! The last line of a report.

ghost use Rattle.std.specs.Prelude.{◌≡◌, ◌++◌, OnOk, OnErr};
ghost use Rattle.frame_player.specs.Ending.{last_line, status_of};

use fixed_box::NoMemory;
use pair_report::{Cause, put_end, put_refused};
use play_rules::Status;

// How the reading of a scene ends. The answers to the last queries are owed still.
#[derive(Clone, Copy)]
pub(crate) enum Last {
    End { lines: u32, frames: u64, live: u32 },
    Refused { line: u32, cause: Cause },
    ReadFault,
}

impl Last {
    // How the play ends, if its text can be written.
    pub(crate) fn status(self) -> Status
        ensures { result ≡ status_of self }
    {
        match self {
            Last::End { .. } => Status::Done,
            Last::Refused { line, cause } => Status::Refused { line, cause },
            Last::ReadFault => Status::ReadFault,
        }
    }

    // Appends the last line.
    pub(crate) fn put(self, text: &mut Vec<u8>) -> Result<(), NoMemory>
        ensures ok { OnOk result (text.new.items ≡ text.old.items ++ last_line self) }
        ensures err { OnErr result (text.new.items ≡ text.old.items) }
    {
        match self {
            Last::End {
                lines,
                frames,
                live,
            } => put_end(lines, frames, live, text),
            Last::Refused { line, cause } => put_refused(line, cause, text),
            Last::ReadFault => Ok(()),
        }
    }
}
