//! Room that an asker keeps from one question to the next.

use crate::hit::Hit;
use near_boxes::{Near, NearRoom};
use std::alloc::Global;
use std::marker::Model;

/// Room for what is found on the way to an answer, kept from one question to the next, so that a question takes memory only where it
/// needs more than those before it. What is in it says nothing: an answer doesn't depend on it. Each thread that asks has its own.
#[derive(Drop)]
pub struct AskRoom {
    /// For the slots that an index finds.
    pub slots: Vec<u32>,
    /// For where boxes are met.
    pub met: MetRoom,
    /// For the nearest boxes.
    pub nearest: NearestRoom,
}

// All rooms are one value, so that a clause can't tell what is in one.
impl Model for AskRoom {
    ghost Value = { Unit {0} };

    ghost view = { λ _. tt };
}

impl AskRoom {
    /// No room yet. It takes no memory.
    pub fn new(alloc: Global) -> AskRoom {
        AskRoom {
            slots: Vec::new(alloc),
            met: MetRoom::new(alloc),
            nearest: NearestRoom::new(alloc),
        }
    }
}

/// Room for where a ray or a cast meets boxes.
#[derive(Drop)]
pub struct MetRoom {
    pub(crate) hits: Vec<Hit>,
}

impl MetRoom {
    /// No room yet. It takes no memory.
    pub fn new(alloc: Global) -> MetRoom {
        MetRoom {
            hits: Vec::new(alloc),
        }
    }
}

/// Room for a search for the nearest boxes, and for those that it finds.
#[derive(Drop)]
pub struct NearestRoom {
    // For what is found on the way.
    pub(crate) near: NearRoom,
    // For the nearest slots, each with its square.
    pub(crate) nears: Vec<Near>,
}

impl NearestRoom {
    /// No room yet. It takes no memory.
    pub fn new(alloc: Global) -> NearestRoom {
        NearestRoom {
            near: NearRoom::new(alloc),
            nears: Vec::new(alloc),
        }
    }
}
