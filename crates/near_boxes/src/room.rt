//! Room that an asker keeps from one search for the nearest to the next.

use crate::Near;
use std::alloc::Global;

/// Room for what a search for the nearest finds on its way. What is in it says nothing: no answer depends on it.
#[derive(Drop)]
pub struct NearRoom {
    // For the slots that the index finds.
    pub(crate) slots: Vec<u32>,
    // For those of them that are near enough.
    pub(crate) nears: Vec<Near>,
}

impl NearRoom {
    /// No room yet. It takes no memory.
    pub fn new(alloc: Global) -> NearRoom {
        NearRoom {
            slots: Vec::new(alloc),
            nears: Vec::new(alloc),
        }
    }
}
