//! What the searches of touched slots found, and buffers that are kept from frame to frame.

use broad_index::Pair;
use fixed_box::NoMemory;
use std::alloc::Global;
use tree_search::{SearchRoom, TreeFindings};

/// What the searches of touched slots found, and lists that are kept for their memory alone.
#[derive(Drop)]
pub(crate) struct Room {
    pub(crate) slots: Vec<u32>,
    pub(crate) search: SearchRoom,
    pub(crate) found: TreeFindings,
    pub(crate) near: Vec<Pair>,
}

impl Room {
    pub(crate) fn new(alloc: Global) -> Result<Room, NoMemory> {
        Ok(Room {
            slots: Vec::new(alloc),
            search: SearchRoom::new(alloc)?,
            found: TreeFindings::new(alloc),
            near: Vec::new(alloc),
        })
    }
}
