//! One mark for each slot, as touched slots and finished searches are noted.

ghost use Rattle.std.specs.Prelude.{◌≡◌, true, false, IfOk, length, slice_index_or, slice_set};
ghost use Rattle.fixed_box.specs.declared.TheConstants.{SLOTS};
ghost use Rattle.slot_lists.specs.Marks.{unmarked};

use fixed_box::{NoMemory, SLOTS};
use std::alloc::Global;
use std::marker::Model;

/// Which of all slots are marked. Only `new` takes memory.
#[derive(Drop)]
pub struct SlotMarks {
    marks: Vec<bool>,
}

impl Model for SlotMarks {
    ghost use Rattle.std.specs.Prelude.{◌≡◌, Bool, List, length};
    ghost use Rattle.std.specs.Coded.{coded_bool, coded_list};
    ghost use Rattle.fixed_box.specs.declared.TheConstants.{SLOTS};

    ghost Value = { List Bool };

    ghost coded = { coded_list coded_bool };

    ghost view = { λ m. m.marks.items };

    ghost invariant = { λ m. length m.marks.items ≡ SLOTS };
}

impl SlotMarks {
    /// No slot is marked.
    pub fn new(alloc: Global) -> Result<SlotMarks, NoMemory>
        ensures { IfOk result (λ marks. marks ≡ unmarked) }
    {
        Ok(SlotMarks {
            marks: vec![in alloc; false; SLOTS as usize]?,
        })
    }

    /// The marks by slot.
    pub fn as_slice(&self) -> &[bool]
        ensures value { result.now ≡ self.now }
        ensures len { length self.now ≡ SLOTS }
    {
        &self.marks
    }

    /// Whether a slot is marked.
    pub fn has(&self, slot: u32) -> bool
        ensures { result ≡ slice_index_or self.now slot false }
    {
        let slot = slot as usize;
        slot < self.marks.len() && self.marks[slot]
    }

    /// Marks a slot.
    pub fn set(&mut self, slot: u32)
        ensures value { self.new ≡ slice_set self.old slot true }
        ensures len { length self.old ≡ SLOTS }
    {
        let slot = slot as usize;
        if slot < self.marks.len() {
            self.marks[slot] = true;
        }
    }

    /// Takes all marks away.
    pub fn clear(&mut self)
        ensures { self.new ≡ unmarked }
    {
        self.marks.fill(false);
    }
}
