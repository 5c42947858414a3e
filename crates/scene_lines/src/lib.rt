//! The lines of a scene, cut one at a time out of what a source hands out, in a buffer of fixed size.
#![tactic(auto)]

mod examples;
mod laws;
mod layout;
mod line_buffer;
mod line_reader;
mod next;

pub use examples::worked_lines;
pub use laws::{line_laws, line_limits};
pub use line_reader::LineReader;
pub use next::Next;

/// The most lines of a scene.
pub const MOST_LINES: u32 = 268_435_456;

/// The most bytes of a line without its end.
pub const LONGEST_LINE: usize = 1_024;

/// How many bytes the buffer of a reader of lines has.
pub const BUFFER_LEN: usize = 65_536;
