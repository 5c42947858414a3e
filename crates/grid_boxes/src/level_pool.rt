//! Which places of one list the boxes of each level have, and their ways between levels.

ghost use Rattle.std.specs.Prelude.{◌≡◌, ◌<◌, true, false, length, IfOk, OnOk, OnErr};
ghost use Rattle.std.specs.FinMap as map;
ghost use Rattle.std.specs.Ordering.{nat_cmp};
ghost use Rattle.fixed_box.specs.Bounds.{Bounds, level_of, meets};
ghost use Rattle.grid_boxes.specs.Leveled.{AreStretches, HasHole, HasScanned, IsIn, IsLeveled, end_of, start_of};

use crate::slot_columns::SlotColumns;
use cell_table::LEVELS;
use fixed_box::{FBox, NoMemory, SLOTS};
use slot_lists::SlotBoxes;
use std::alloc::Global;
use std::marker::Model;

/// The boxes of all levels in one list: those of the highest level first, and each level's side by side. A box that comes, goes or
/// changes its level passes the levels between, each of which hands one box from its one end to the other.
#[derive(Drop)]
pub(crate) struct LevelPool {
    columns: SlotColumns,
    // For each slot that is present, the place of its box in the columns.
    places: Vec<u32>,
    // From which place on the boxes of each level stand.
    starts: Vec<u32>,
}

impl Model for LevelPool {
    ghost use Rattle.grid_boxes.specs.Leveled.{Pool};

    ghost Value = { Pool };

    ghost view = { λ p. record { listed = p.columns; places = p.places.items; starts = p.starts.items } };
}

impl LevelPool {
    /// No box, with the memory for all slots.
    pub(crate) fn new(alloc: Global) -> Result<LevelPool, NoMemory>
        ensures { IfOk result (λ pool. IsLeveled map.empty pool) }
    {
        Ok(LevelPool {
            columns: SlotColumns::new(alloc)?,
            places: vec![in alloc; 0; SLOTS as usize]?,
            starts: vec![in alloc; 0; LEVELS as usize]?,
        })
    }

    /// Appends the slots of a level whose boxes meet a region, and maybe others. After an `Err` `out` is as before.
    pub(crate) fn scan(
        &self,
        boxes: &SlotBoxes,
        level: u8,
        region: &FBox,
        out: &mut Vec<u32>,
    ) -> Result<(), NoMemory>
        requires low { level < LEVELS }
        requires leveled { IsLeveled boxes.now self.now }
        ensures ok { OnOk result (HasScanned self.now.listed (meets region.now) (start_of self.now level) (end_of self.now level) out.old.items
            out.new.items) }
        ensures err { OnErr result (out.new.items ≡ out.old.items) }
    {
        let from = self.starts[level as usize] as usize;
        self.columns
            .push_meeting(from, self.end_of(level), region, out)
    }

    /// A slot that has no box gets one. It takes no memory.
    pub(crate) fn put(&mut self, boxes: &SlotBoxes, slot: u32, body: FBox)
        requires small { slot < SLOTS }
        requires absent { map.contains_key boxes.now slot ≡ false }
        requires leveled { IsLeveled boxes.now self.old }
        ensures { IsLeveled (map.insert boxes.now slot body) self.new }
    {
        let end = self.columns.len();
        self.columns.push(slot, body);
        let place = self.carry(boxes, slot, end, 0, body.level());
        self.fill(slot, place, body);
    }

    /// A slot gets another box. It takes no memory.
    pub(crate) fn set(&mut self, boxes: &SlotBoxes, slot: u32, body: FBox)
        requires present { map.contains_key boxes.now slot ≡ true }
        requires leveled { IsLeveled boxes.now self.old }
        ensures { IsLeveled (map.insert boxes.now slot body) self.new }
    {
        let Some(own) = boxes.box_of(slot) else {
            return;
        };
        let place = self.places[slot as usize] as usize;
        let (was, is) = (own.level(), body.level());
        if was == is {
            self.columns.set_body(place, body);
            return;
        }
        let place = self.carry(boxes, slot, place, was, is);
        self.fill(slot, place, body);
    }

    /// A slot loses its box. It takes no memory.
    pub(crate) fn take(&mut self, boxes: &SlotBoxes, slot: u32)
        requires present { map.contains_key boxes.now slot ≡ true }
        requires leveled { IsLeveled boxes.now self.old }
        ensures { IsLeveled (map.remove boxes.now slot) self.new }
    {
        let Some(own) = boxes.box_of(slot) else {
            return;
        };
        let place = self.places[slot as usize] as usize;
        let place = self.carry(boxes, slot, place, own.level(), 0);
        let last = self.columns.len() - 1;
        self.hand_on(boxes, slot, 0, last, place);
        self.columns.swap_out(last);
    }

    // Hands boxes on until a slot's free place is another level's, and answers where it is then.
    fn carry(&mut self, boxes: &SlotBoxes, slot: u32, free: usize, from: u8, to: u8) -> usize
        requires from { from < LEVELS }
        requires to { to < LEVELS }
        requires free { HasHole boxes.now slot from free self.old }
        ensures { HasHole boxes.now slot to result self.new }
    {
        let mut free = free;
        let mut level = from;
        'up: while level < to {
            let first = self.starts[level as usize];
            self.hand_on(boxes, slot, level, first as usize, free);
            self.starts[level as usize] = first + 1;
            free = first as usize;
            level += 1;
        }
        'down: while level > to {
            let last = self.starts[level as usize - 1] - 1;
            self.hand_on(boxes, slot, level, last as usize, free);
            self.starts[level as usize - 1] = last;
            free = last as usize;
            level -= 1;
        }
        free
    }

    // Hands the box at a place on to a free place of its level, so that its own is free.
    fn hand_on(&mut self, boxes: &SlotBoxes, slot: u32, level: u8, from: usize, free: usize)
        requires low { level < LEVELS }
        requires free { HasHole boxes.now slot level free self.old }
        requires from { IsIn self.old level from }
        ensures free { HasHole boxes.now slot level from self.new }
        ensures len { length self.new.listed.slots ≡ length self.old.listed.slots }
        ensures starts { self.new.starts ≡ self.old.starts }
    {
        if from == free {
            return;
        }
        let moved = self.columns.slot_at(from);
        let Some(body) = boxes.box_of(moved) else {
            return;
        };
        self.columns.set(free, moved, body);
        self.places[moved as usize] = free as u32;
    }

    // Puts a slot's box into the place that is free for it.
    fn fill(&mut self, slot: u32, free: usize, body: FBox)
        requires small { slot < SLOTS }
        requires shape { AreStretches self.old }
        requires within { free < length self.old.listed.slots }
        ensures { (bodies : map.FinMap nat_cmp Bounds) → HasHole bodies slot (level_of body) free self.old → IsLeveled (map.insert bodies slot body) self.new }
    {
        self.columns.set(free, slot, body);
        self.places[slot as usize] = free as u32;
    }

    // Before which place a level's boxes stand.
    fn end_of(&self, level: u8) -> usize
        requires low { level < LEVELS }
        requires starts { length self.now.starts ≡ LEVELS }
        ensures { result ≡ end_of self.now level }
    {
        if level == 0 {
            self.columns.len()
        } else {
            self.starts[level as usize - 1] as usize
        }
    }
}
