//! Boxes by their slots, with each also as numbers that are compared at once.

ghost use Rattle.std.specs.Prelude.{◌≡◌, ◌<◌, true, false, IfOk};
ghost use Rattle.std.specs.FinMap as map;
ghost use Rattle.fixed_box.specs.declared.TheConstants.{SLOTS};
ghost use Rattle.slot_lists.specs.Meeting.{slots_meet};

use crate::lanes::Lanes;
use fixed_box::{FBox, NoMemory, SLOTS};
use slot_lists::SlotBoxes;
use std::alloc::Global;
use std::marker::Model;

// Boxes by their slots, seen as a map from slot to box, for a test of many pairs of slots. Only `new` takes memory, 60 bytes a slot.
#[derive(Drop)]
pub(crate) struct LanedBoxes {
    boxes: SlotBoxes,
    lanes: Vec<Lanes>,
}

impl Model for LanedBoxes {
    ghost use Rattle.std.specs.Prelude.{◌≡◌, length};
    ghost use Rattle.std.specs.Ordering.{nat_cmp};
    ghost use Rattle.std.specs.Coded.{coded_ℕ};
    ghost use Rattle.std.specs.FinMap.{FinMap, code};
    ghost use Rattle.fixed_box.specs.Bounds.{Bounds, coded_bounds};
    ghost use Rattle.fixed_box.specs.declared.TheConstants.{SLOTS};
    ghost use Rattle.skin_index.specs.Lanes.{AreLanes};

    ghost Value = { FinMap nat_cmp Bounds };

    ghost coded = { code coded_ℕ coded_bounds };

    ghost view = { λ b. b.boxes };

    ghost invariant = { λ b. (length b.lanes.items ≡ SLOTS) × AreLanes b.lanes.items b.boxes };
}

impl LanedBoxes {
    pub(crate) fn new(alloc: Global) -> Result<LanedBoxes, NoMemory>
        ensures { IfOk result (λ boxes. boxes ≡ map.empty) }
    {
        Ok(LanedBoxes {
            boxes: SlotBoxes::new(alloc)?,
            lanes: vec![in alloc; Lanes::absent(); SLOTS as usize]?,
        })
    }

    pub(crate) fn box_of(&self, slot: u32) -> Option<FBox>
        ensures { result ≡ map.get self.now slot }
    {
        self.boxes.box_of(slot)
    }

    pub(crate) fn len(&self) -> u32
        ensures { result ≡ map.len self.now }
    {
        self.boxes.len()
    }

    // Whether both slots have boxes, and these meet.
    #[inline(always)]
    pub(crate) fn meet(&self, a: u32, b: u32) -> bool
        ensures { result ≡ slots_meet self.now a b }
    {
        let (first, second) = (a as usize, b as usize);
        if first < self.lanes.len() && second < self.lanes.len() {
            self.lanes[first].meet(&self.lanes[second])
        } else {
            self.boxes.meet(a, b)
        }
    }

    pub(crate) fn put(&mut self, slot: u32, body: FBox)
        requires small { slot < SLOTS }
        requires absent { map.contains_key self.old slot ≡ false }
        ensures { self.new ≡ map.insert self.old slot body }
    {
        self.boxes.put(slot, body);
        self.lanes[slot as usize] = Lanes::of(&body);
    }

    pub(crate) fn set(&mut self, slot: u32, body: FBox)
        requires small { slot < SLOTS }
        requires present { map.contains_key self.old slot ≡ true }
        ensures { self.new ≡ map.insert self.old slot body }
    {
        self.boxes.set(slot, body);
        self.lanes[slot as usize] = Lanes::of(&body);
    }

    pub(crate) fn take(&mut self, slot: u32)
        requires small { slot < SLOTS }
        requires present { map.contains_key self.old slot ≡ true }
        ensures { self.new ≡ map.remove self.old slot }
    {
        self.boxes.take(slot);
        self.lanes[slot as usize] = Lanes::absent();
    }
}
