//! Boxes in a list in order of their slots: what the plain list keeps.

ghost use Rattle.std.specs.Prelude.{◌≡◌, ◌+◌, ◌<◌, ◌≤◌, ◌++◌, true, false, OnOk, OnErr, All};
ghost use Rattle.std.specs.Prelude.{length, map as mapped, take, drop, slice_index_or, vec_len};
ghost use Rattle.std.specs.FinMap as map;
ghost use Rattle.broad_index.specs.Entries.{Placed, pairs_at};
ghost use Rattle.broad_index.specs.Found.{found};
ghost use Rattle.broad_index.specs.Near.{near, near_of};

use crate::met_places::push_met_places;
use crate::{Pair, Query};
use fixed_box::{FBox, NoMemory, SLOTS, space_law};
use lane_boxes::{Columns, beside_laws, place_laws};
use std::alloc::Global;
use std::marker::Model;

// Boxes under slots, in order of the slots. The boxes stand in columns, so that eight are tested at once.
#[derive(Drop)]
pub(crate) struct Entries {
    pub(crate) slots: Vec<u32>,
    pub(crate) boxes: Columns,
}

impl Model for Entries {
    ghost use Rattle.std.specs.Prelude.{zip};
    ghost use Rattle.std.specs.Ordering.{nat_cmp};
    ghost use Rattle.std.specs.Coded.{coded_ℕ};
    ghost use Rattle.std.specs.FinMap.{FinMap, code};
    ghost use Rattle.fixed_box.specs.Bounds.{Bounds, coded_bounds};
    ghost use Rattle.broad_index.specs.Entries.{AreEntries};
    ghost use Rattle.broad_index.specs.Index.{bodies_of};

    ghost Value = { FinMap nat_cmp Bounds };

    ghost coded = { code coded_ℕ coded_bounds };

    ghost view = { λ e. bodies_of (zip e.slots.items e.boxes.boxes) };

    ghost invariant = { λ e. AreEntries e.slots.items e.boxes.boxes };
}

impl Entries {
    pub(crate) fn new(alloc: Global) -> Entries
        ensures { result ≡ map.empty }
    {
        Entries {
            slots: Vec::new(alloc),
            boxes: Columns::new(alloc),
        }
    }

    // Puts a box under an absent slot. After an `Err` nothing has changed.
    pub(crate) fn insert(&mut self, slot: u32, body: FBox) -> Result<(), NoMemory>
        requires small { slot < SLOTS }
        requires absent { map.contains_key self.old slot ≡ false }
        ensures ok { OnOk result (self.new ≡ map.insert self.old slot body) }
    {
        space_law(&body);
        beside_laws();
        let at = self.place(slot);
        self.slots.reserve(1)?;
        self.boxes.insert(at, body)?;
        self.slots.insert(at, slot).unwrap();
        Ok(())
    }

    // Gives a present slot another box.
    pub(crate) fn set(&mut self, slot: u32, body: FBox)
        requires { map.contains_key self.old slot ≡ true }
        ensures { self.new ≡ map.insert self.old slot body }
    {
        space_law(&body);
        beside_laws();
        let at = self.place(slot);
        self.boxes.set(at, body);
    }

    // Takes a present slot out.
    pub(crate) fn remove(&mut self, slot: u32)
        requires { map.contains_key self.old slot ≡ true }
        ensures { self.new ≡ map.remove self.old slot }
    {
        beside_laws();
        let at = self.place(slot);
        self.slots.remove(at);
        self.boxes.remove(at);
    }

    // The box of a slot.
    pub(crate) fn box_of(&self, slot: u32) -> Option<FBox>
        ensures { result ≡ map.get self.now slot }
    {
        let at = self.place(slot);
        if at < self.slots.len() && self.slots[at] == slot {
            Some(self.boxes.box_at(at))
        } else {
            None
        }
    }

    // How many slots there are.
    pub(crate) fn len(&self) -> u32
        ensures { result ≡ map.len self.now }
    {
        self.slots.len() as u32
    }

    // Where the slots below this one end.
    fn place(&self, slot: u32) -> usize
        ensures { Placed (map.entries self.now) slot result }
    {
        self.slots.partition_point(|other| *other < slot)
    }
}
