//! A line of text that is put together in a room of fixed size, so that it goes out whole or not at all.
#![tactic(auto)]

mod digits;
mod text_line;

pub use text_line::TextLine;

/// The most bytes of a line. The longest line of a scene and the longest of a report have fewer.
pub const ROOM: usize = 144;

#[cfg(test)]
mod tests;
