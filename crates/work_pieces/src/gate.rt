//! What a caller puts in front of each piece of a search: a gate that its thread enters first.

/// What is called at each piece of a search before its first item, by the thread that does the piece.
pub trait Gate {
    /// The pieces are numbered from 0, and each is entered once.
    fn enter(&self, piece: u32);

    /// Whether each piece has to have a thread of its own, also where that takes longer than a single thread would. A gate
    /// that waits in one piece for another needs it.
    fn needs_threads(&self) -> bool {
        true
    }
}

/// A gate that does nothing. Nobody can tell which thread enters it, so that it needs none.
#[derive(Clone, Copy, Debug, Drop)]
pub struct NoGate;

impl Gate for NoGate {
    fn enter(&self, _piece: u32) {}

    fn needs_threads(&self) -> bool {
        false
    }
}
