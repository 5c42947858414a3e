//! What becomes of a pair from one frame to the next: begin, stay or over.

use crate::HPair;

/// What became of a pair since the last frame.
#[derive(Clone, Copy, Debug, PartialEq, Eq)]
pub enum Event {
    /// It is a pair now, and wasn't.
    Begin,
    /// It was one, and still is.
    Stay,
    /// It was one, and no longer is.
    Over,
}

/// One event of a frame.
#[derive(Clone, Copy, Debug, PartialEq, Eq)]
pub struct Told {
    pub event: Event,
    pub pair: HPair,
}
