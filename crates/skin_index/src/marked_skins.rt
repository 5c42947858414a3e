//! Which skins came, went or changed since the pairs of the skins were found.

ghost use Rattle.std.specs.Prelude.{◌≡◌, ℕ, ◌<◌, Bool, true, false, ◌||◌, ◌==◌, [], IfOk, slice_index_or};
ghost use Rattle.fixed_box.specs.declared.TheConstants.{SLOTS};
ghost use Rattle.skin_index.specs.Skins.{AreMarks};

use fixed_box::{NoMemory, SLOTS};
use slot_lists::SlotMarks;
use std::alloc::Global;

// Kept pairs are mended where at most one in so many of the present skins is marked, and all pairs asked for where more are.
const PRESENT_PER_MARKED: u32 = 8;

// So many are always few.
const ALWAYS_FEW: usize = 16;

// Slots whose skins are marked, each once, as long as they are few.
#[derive(Drop)]
pub(crate) struct MarkedSkins {
    pub(crate) marks: SlotMarks,
    // The marked slots, in room that is taken by `new` for as many as may be few.
    pub(crate) slots: Vec<u32>,
    // Whether any skin may be marked, so that nothing is said of marks and slots.
    pub(crate) all: bool,
}

impl MarkedSkins {
    pub(crate) fn new(alloc: Global) -> Result<MarkedSkins, NoMemory>
        ensures all { IfOk result (λ marked. marked.all ≡ true) }
    {
        Ok(MarkedSkins {
            marks: SlotMarks::new(alloc)?,
            slots: Vec::with_capacity(alloc, (SLOTS / PRESENT_PER_MARKED) as usize)?,
            all: true,
        })
    }

    // Marks one skin. It takes no memory: where there is no room, all are marked.
    pub(crate) fn mark(&mut self, slot: u32)
        requires small { slot < SLOTS }
        requires are { self.old.all ≡ false → AreMarks self.old.marks self.old.slots.items }
        ensures were_few { self.new.all ≡ false → self.old.all ≡ false }
        ensures are { self.new.all ≡ false → AreMarks self.new.marks self.new.slots.items }
        ensures marks { self.new.all ≡ false → (k : ℕ) →
            slice_index_or self.new.marks k false ≡ (k == slot || slice_index_or self.old.marks k false) }
    {
        if self.all || self.marks.has(slot) {
            return;
        }
        if self.slots.len() < self.slots.capacity() {
            self.slots.push_reserved(slot);
            self.marks.set(slot);
        } else {
            self.all = true;
        }
    }

    pub(crate) fn mark_all(&mut self)
        ensures all { self.new.all ≡ true }
    {
        self.all = true;
    }

    pub(crate) fn clear(&mut self)
        requires are { self.old.all ≡ false → AreMarks self.old.marks self.old.slots.items }
        ensures few { self.new.all ≡ false }
        ensures none { self.new.slots.items ≡ [] }
        ensures are { AreMarks self.new.marks self.new.slots.items }
    {
        if !self.all && self.slots.is_empty() {
            return;
        }
        self.all = false;
        self.marks.clear();
        self.slots.clear();
    }

    // Whether it is better to mend the pairs than to ask for all of them, with so many skins present.
    pub(crate) fn are_few(&self, present: u32) -> bool
        ensures few { result ≡ true → self.now.all ≡ false }
    {
        let few = ((present / PRESENT_PER_MARKED) as usize).max(ALWAYS_FEW);
        !self.all && self.slots.len() <= few
    }
}
