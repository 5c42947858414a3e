//! Boxes by their slots, seen as a map, in a list with a place for each slot.

ghost use Rattle.std.specs.Prelude.{◌≡◌, ℕ, ◌<◌, ◌≤◌, true, false, None, IfOk, OnOk, length};
ghost use Rattle.std.specs.Prelude.{All, map as mapped, slice_index_or};
ghost use Rattle.std.specs.FinMap as map;
ghost use Rattle.slot_lists.specs.SlotMap.{entries_from};
ghost use Rattle.slot_lists.specs.Present.{present};
ghost use Rattle.slot_lists.specs.Meeting.{both_meet, slots_meet};

use fixed_box::{FBox, NoMemory, SLOTS};
use std::alloc::Global;
use std::marker::Model;

/// Boxes by their slots, seen as a map from slot to box. Only `new` takes memory.
#[derive(Drop)]
pub struct SlotBoxes {
    boxes: Vec<Option<FBox>>,
    // How many slots are present.
    count: u32,
}

impl Model for SlotBoxes {
    ghost use Rattle.std.specs.Prelude.{◌≡◌, length};
    ghost use Rattle.std.specs.Ordering.{nat_cmp};
    ghost use Rattle.std.specs.Coded.{coded_ℕ};
    ghost use Rattle.std.specs.FinMap.{FinMap, code, len};
    ghost use Rattle.fixed_box.specs.Bounds.{Bounds, coded_bounds};
    ghost use Rattle.fixed_box.specs.declared.TheConstants.{SLOTS};
    ghost use Rattle.slot_lists.specs.SlotMap.{map_of};

    ghost Value = { FinMap nat_cmp Bounds };

    ghost coded = { code coded_ℕ coded_bounds };

    ghost view = { λ b. map_of b.boxes.items };

    ghost invariant = { λ b. (length b.boxes.items ≡ SLOTS) × (b.count ≡ len (map_of b.boxes.items)) };
}

impl SlotBoxes {
    /// No box, with the memory for all slots.
    pub fn new(alloc: Global) -> Result<SlotBoxes, NoMemory>
        ensures { IfOk result (λ boxes. boxes ≡ map.empty) }
    {
        Ok(SlotBoxes {
            boxes: no_boxes(alloc)?,
            count: 0,
        })
    }

    /// The box of a slot, and `None` where the slot is absent.
    #[inline(always)]
    pub fn box_of(&self, slot: u32) -> Option<FBox>
        ensures { result ≡ map.get self.now slot }
    {
        let slot = slot as usize;
        if slot < self.boxes.len() {
            self.boxes[slot]
        } else {
            None
        }
    }

    /// Whether both slots have boxes, and these meet.
    #[inline(always)]
    pub fn meet(&self, a: u32, b: u32) -> bool
        ensures { result ≡ slots_meet self.now a b }
    {
        let (a, b) = (a as usize, b as usize);
        if a >= self.boxes.len() {
            return false;
        }
        if b >= self.boxes.len() {
            return false;
        }
        both_meet(&self.boxes[a], &self.boxes[b])
    }

    /// Puts a box under an absent slot. It takes no memory.
    pub fn put(&mut self, slot: u32, body: FBox)
        requires small { slot < SLOTS }
        requires absent { map.contains_key self.old slot ≡ false }
        ensures { self.new ≡ map.insert self.old slot body }
    {
        self.count += 1;
        self.boxes[slot as usize] = Some(body);
    }

    /// Gives a present slot another box. It takes no memory.
    pub fn set(&mut self, slot: u32, body: FBox)
        requires { map.contains_key self.old slot ≡ true }
        ensures { self.new ≡ map.insert self.old slot body }
    {
        self.boxes[slot as usize] = Some(body);
    }

    /// Takes a present slot out. It takes no memory.
    pub fn take(&mut self, slot: u32)
        requires { map.contains_key self.old slot ≡ true }
        ensures { self.new ≡ map.remove self.old slot }
    {
        self.count -= 1;
        self.boxes[slot as usize] = None;
    }

    /// How many slots are present. It is kept, and looks at no slot.
    pub fn len(&self) -> u32
        ensures len { result ≡ map.len self.now }
        ensures present { result ≡ length (present self.now) }
    {
        self.count
    }

    /// The present slots, rising.
    pub fn present(&self, alloc: Global) -> Result<Vec<u32>, NoMemory>
        ensures slots { IfOk result (λ slots. slots.items ≡ present self.now) }
        ensures few { IfOk result (λ slots. length slots.items ≤ SLOTS) }
        ensures present { IfOk result (λ slots. All (λ slot. map.contains_key self.now slot ≡ true) slots.items) }
    {
        let mut slots = Vec::with_capacity(alloc, SLOTS as usize)?;
        self.list(&mut slots)?;
        Ok(slots)
    }

    /// Replaces a list by the present slots, rising.
    pub fn list(&self, slots: &mut Vec<u32>) -> Result<(), NoMemory>
        ensures slots { OnOk result (slots.new.items ≡ present self.now) }
        ensures few { OnOk result (length slots.new.items ≤ SLOTS) }
        ensures present { OnOk result (All (λ slot. map.contains_key self.now slot ≡ true) slots.new.items) }
    {
        list_present(&self.boxes, slots)?;
        Ok(())
    }
}

// Whether two boxes are there and meet. They are read in place, and not copied.
#[inline(always)]
fn both_meet(a: &Option<FBox>, b: &Option<FBox>) -> bool
    ensures { result ≡ both_meet a.now b.now }
{
    match (a, b) {
        (Some(a), Some(b)) => a.overlaps(b),
        _ => false,
    }
}

/// Room for the boxes of all slots, where no slot has a box: what a structure that reads its boxes by slot itself begins with.
pub fn no_boxes(alloc: Global) -> Result<Vec<Option<FBox>>, NoMemory>
    ensures len { IfOk result (λ boxes. length boxes.items ≡ SLOTS) }
    ensures none { IfOk result (λ boxes. (k : ℕ) → slice_index_or boxes.items k None ≡ None) }
{
    let mut boxes = Vec::with_capacity(alloc, SLOTS as usize)?;
    'boxes: for _slot in 0..SLOTS {
        boxes.push(None)?;
    }
    Ok(boxes)
}

// Replaces a list by the slots that have boxes.
fn list_present(boxes: &[Option<FBox>], slots: &mut Vec<u32>) -> Result<(), NoMemory>
    requires { length boxes.now ≡ SLOTS }
    ensures slots { OnOk result (slots.new.items ≡ mapped (λ e. e.0) (entries_from 0 boxes.now)) }
    ensures few { OnOk result (length slots.new.items ≤ SLOTS) }
{
    slots.clear();
    let mut rest = boxes;
    let mut slot = 0;
    'slots: while let [body, more @ ..] = rest {
        if body.is_some() {
            slots.push(slot)?;
        }
        slot += 1;
        rest = more;
    }
    Ok(())
}
