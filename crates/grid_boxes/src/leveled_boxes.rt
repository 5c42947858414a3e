//! All boxes by slot, and once more in columns, level by level.

ghost use Rattle.std.specs.Prelude.{◌≡◌, ℕ, ◌<◌, true, false, Some, IfOk, OnOk, OnErr};
ghost use Rattle.std.specs.FinMap as map;
ghost use Rattle.fixed_box.specs.Bounds.{Bounds};
ghost use Rattle.grid_cells.specs.Appended.{Appends};
ghost use Rattle.grid_boxes.specs.Candidates.{HasMet};

use crate::level_pool::LevelPool;
use cell_table::LEVELS;
use fixed_box::{FBox, NoMemory, SLOTS};
use slot_lists::SlotBoxes;
use std::alloc::Global;
use std::marker::Model;

/// The boxes by their slots, and each once more in columns beside those of its level, where many are tested at a time.
#[derive(Drop)]
pub(crate) struct LeveledBoxes {
    boxes: SlotBoxes,
    pool: LevelPool,
}

impl Model for LeveledBoxes {
    ghost use Rattle.std.specs.Ordering.{nat_cmp};
    ghost use Rattle.std.specs.Coded.{coded_ℕ};
    ghost use Rattle.std.specs.FinMap.{FinMap, code};
    ghost use Rattle.fixed_box.specs.Bounds.{Bounds, coded_bounds};
    ghost use Rattle.grid_boxes.specs.Leveled.{IsLeveled};

    ghost Value = { FinMap nat_cmp Bounds };

    ghost coded = { code coded_ℕ coded_bounds };

    ghost view = { λ l. l.boxes };

    ghost invariant = { λ l. IsLeveled l.boxes l.pool };
}

impl LeveledBoxes {
    /// No box, with the memory for all slots.
    pub(crate) fn new(alloc: Global) -> Result<LeveledBoxes, NoMemory>
        ensures { IfOk result (λ boxes. boxes ≡ map.empty) }
    {
        Ok(LeveledBoxes {
            boxes: SlotBoxes::new(alloc)?,
            pool: LevelPool::new(alloc)?,
        })
    }

    /// The boxes by their slots.
    pub(crate) fn boxes(&self) -> &SlotBoxes
        ensures { result.now ≡ self.now }
    {
        &self.boxes
    }

    /// A law for proofs, with nothing to run: each slot is one of those that there may be.
    pub(crate) fn slots_law(&self)
        ensures { (slot : ℕ) (b : Bounds) → map.get self.now slot ≡ Some b → slot < SLOTS }
    {
        // what a value keeps is known where it is read
        let _pool = &self.pool;
    }

    /// Puts a box under an absent slot. It takes no memory.
    pub(crate) fn put(&mut self, slot: u32, body: FBox)
        requires small { slot < SLOTS }
        requires absent { map.contains_key self.old slot ≡ false }
        ensures { self.new ≡ map.insert self.old slot body }
    {
        self.pool.put(&self.boxes, slot, body);
        self.boxes.put(slot, body);
    }

    /// Gives a present slot another box. It takes no memory.
    pub(crate) fn set(&mut self, slot: u32, body: FBox)
        requires small { slot < SLOTS }
        requires present { map.contains_key self.old slot ≡ true }
        ensures { self.new ≡ map.insert self.old slot body }
    {
        self.pool.set(&self.boxes, slot, body);
        self.boxes.set(slot, body);
    }

    /// Takes a present slot out. It takes no memory.
    pub(crate) fn take(&mut self, slot: u32)
        requires { map.contains_key self.old slot ≡ true }
        ensures { self.new ≡ map.remove self.old slot }
    {
        self.pool.take(&self.boxes, slot);
        self.boxes.take(slot);
    }

    /// Appends slots, and among them all of a level whose boxes meet a region, by a scan of the level. After an `Err` `out` is as before.
    pub(crate) fn scan(&self, level: u8, region: &FBox, out: &mut Vec<u32>) -> Result<(), NoMemory>
        requires { level < LEVELS }
        ensures ok { OnOk result (Appends (HasMet self.now level region.now) out.old.items out.new.items) }
        ensures err { OnErr result (out.new.items ≡ out.old.items) }
    {
        self.pool.scan(&self.boxes, level, region, out)
    }
}
