//! Buffers that a search of many boxes keeps from call to call.

ghost use Rattle.std.specs.Prelude.{◌≡◌, [], IfOk};
ghost use Rattle.slot_lists.specs.Marks.{unmarked};

use fixed_box::{FBox, NoMemory};
use slot_lists::SlotMarks;
use std::alloc::Global;

/// Lists that a search of many boxes keeps for their memory alone.
#[derive(Drop)]
pub struct SearchRoom {
    /// The boxes that are searched for, each with its slot.
    pub touched: Vec<(u32, FBox)>,
    /// The slots whose searches are done.
    pub done: SlotMarks,
}

impl SearchRoom {
    /// Room for no box, and no slot done.
    pub fn new(alloc: Global) -> Result<SearchRoom, NoMemory>
        ensures none { IfOk result (λ room. room.touched.items ≡ []) }
        ensures undone { IfOk result (λ room. room.done ≡ unmarked) }
    {
        Ok(SearchRoom {
            touched: Vec::new(alloc),
            done: SlotMarks::new(alloc)?,
        })
    }
}
