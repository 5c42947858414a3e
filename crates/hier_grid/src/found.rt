//! The pairs that searches of a grid found, with the candidates of one search.

ghost use Rattle.std.specs.Prelude.{◌≡◌, [], true, OnOk};
ghost use Rattle.broad_index.specs.Members.{has_slot};
ghost use Rattle.hier_grid.specs.Search.{Finds};

use crate::partners::push_pairs;
use broad_index::Pair;
use fixed_box::NoMemory;
use grid_boxes::SlotBox;
use slot_lists::SlotBoxes;
use std::alloc::Global;

/// The pairs that were found, in any order, the slots that may lie near the one that is searched for, and how many boxes
/// were compared.
#[derive(Drop)]
pub(crate) struct Found {
    pub(crate) pairs: Vec<Pair>,
    pub(crate) slots: Vec<u32>,
    pub(crate) looked: u64,
}

impl Found {
    /// No pair. It takes no memory.
    pub(crate) fn new(alloc: Global) -> Found {
        Found {
            pairs: Vec::new(alloc),
            slots: Vec::new(alloc),
            looked: 0,
        }
    }

    /// Forgets what was found, and how many boxes were compared.
    pub(crate) fn clear(&mut self)
        ensures { self.new.pairs.items ≡ [] }
    {
        self.pairs.clear();
        self.looked = 0;
    }

    /// Finds the pairs of a slot with its partners among the slots that are near. Each of them is compared, and counted.
    #[inline(always)]
    pub(crate) fn pairs_among(
        &mut self,
        boxes: &SlotBoxes,
        own: &SlotBox,
        any: bool,
    ) -> Result<(), NoMemory>
        ensures { OnOk result (Finds boxes.now own.now any (λ q _. has_slot self.old.slots.items q ≡ true)
            self.old.pairs.items self.new.pairs.items) }
    {
        self.looked = self.looked.saturating_add(self.slots.len() as u64);
        push_pairs(boxes, own, any, &self.slots, &mut self.pairs)?;
        Ok(())
    }
}
