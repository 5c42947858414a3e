//! How a play or an upgrade may end.

use pair_report::Cause;

/// How a play ended, or the upgrade of a scene.
#[derive(Clone, Copy, Debug, PartialEq, Eq)]
pub enum Status {
    /// The scene was played to its end, or written whole.
    Done,
    /// A line was refused. Lines are numbered from 1.
    Refused { line: u32, cause: Cause },
    /// The command line has no meaning.
    Usage,
    /// The source failed. What the lines that had ended come to is written, if the sink didn't fail too.
    ReadFault,
    /// The sink failed, and the source didn't. A part of the text is written.
    WriteFault,
    /// Memory ran out. A part of the text is written.
    NoMemory,
}
