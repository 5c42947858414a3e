//! Room for the answers to the questions of one asker.

use live_queries::AskRoom;
use live_table::Handle;
use pair_events::HPair;
use std::alloc::Global;

/// Room for what is found on the way to an answer and for the answer, kept from one question to the next, so that a question takes
/// memory only where it needs more than those before it. What is in it says nothing: no answer depends on it.
///
/// A question changes no world, so that several threads may ask one at once, each with room of its own.
#[derive(Drop)]
pub struct HeldRoom {
    pub(crate) asking: AskRoom,
    pub(crate) found: Vec<Handle>,
    pub(crate) pairs: Vec<HPair>,
}

impl HeldRoom {
    /// No room yet. It takes no memory.
    pub fn new(alloc: Global) -> HeldRoom {
        HeldRoom {
            asking: AskRoom::new(alloc),
            found: Vec::new(alloc),
            pairs: Vec::new(alloc),
        }
    }
}
