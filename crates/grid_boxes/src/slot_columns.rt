//! Boxes in columns for vector lanes, beside their slots.

ghost use Rattle.std.specs.Prelude.{◌≡◌, ◌+◌, ◌<◌, ◌≤◌, ◌^◌, [], ◌∷◌, ◌++◌, IfOk, OnOk, OnErr};
ghost use Rattle.std.specs.Prelude.{drop, length, map, slice_index, slice_set, swap_remove, take, vec_len};
ghost use Rattle.fixed_box.specs.Bounds.{meets};
ghost use Rattle.grid_boxes.specs.Leveled.{HasScanned, blank};

use fixed_box::{FBox, NoMemory, SLOTS};
use lane_boxes::Columns;
use std::alloc::Global;
use std::marker::Model;

/// Boxes in columns, in any order, and at the same places their slots, with room for one under each slot.
#[derive(Drop)]
pub(crate) struct SlotColumns {
    columns: Columns,
    slots: Vec<u32>,
}

impl Model for SlotColumns {
    ghost use Rattle.std.specs.Prelude.{◌≤◌, vec_capacity};
    ghost use Rattle.fixed_box.specs.declared.TheConstants.{SLOTS};
    ghost use Rattle.grid_boxes.specs.Leveled.{Listed};

    ghost Value = { Listed };

    ghost view = { λ r. record { slots = r.slots.items; boxes = r.columns.boxes; spare = r.columns.spare } };

    ghost invariant = { λ r. SLOTS ≤ vec_capacity r.slots };
}

impl SlotColumns {
    /// No box, and room for one under each slot.
    pub(crate) fn new(alloc: Global) -> Result<SlotColumns, NoMemory>
        ensures slots { IfOk result (λ columns. columns.slots ≡ []) }
        ensures boxes { IfOk result (λ columns. columns.boxes ≡ []) }
        ensures room { IfOk result (λ columns. SLOTS ≤ columns.spare) }
    {
        let mut columns = Columns::new(alloc);
        columns.reserve(SLOTS as usize)?;
        Ok(SlotColumns {
            columns,
            slots: Vec::with_capacity(alloc, SLOTS as usize)?,
        })
    }

    /// How many boxes there are.
    pub(crate) fn len(&self) -> usize
        ensures { result ≡ length self.now.slots }
    {
        self.slots.len()
    }

    /// The slot at a place.
    pub(crate) fn slot_at(&self, place: usize) -> u32
        requires { place < length self.now.slots }
        ensures { result ≡ slice_index self.now.slots place }
    {
        self.slots[place]
    }

    /// Appends a box and its slot, where there is room.
    pub(crate) fn push(&mut self, slot: u32, body: FBox)
        requires few { length self.old.slots < SLOTS }
        requires room { 0 < self.old.spare }
        ensures slots { self.new.slots ≡ self.old.slots ++ slot ∷ [] }
        ensures boxes { self.new.boxes ≡ self.old.boxes ++ body ∷ [] }
        ensures spare { self.new.spare + 1 ≡ self.old.spare }
    {
        self.columns.push_reserved(body);
        self.slots.push(slot).unwrap();
    }

    /// Gives the slot at a place another box.
    pub(crate) fn set_body(&mut self, place: usize, body: FBox)
        requires { place < length self.old.boxes }
        ensures slots { self.new.slots ≡ self.old.slots }
        ensures boxes { self.new.boxes ≡ slice_set self.old.boxes place body }
        ensures spare { self.new.spare ≡ self.old.spare }
    {
        self.columns.set(place, body);
    }

    /// Puts a box and its slot at a place, in the stead of those there.
    pub(crate) fn set(&mut self, place: usize, slot: u32, body: FBox)
        requires slot { place < length self.old.slots }
        requires body { place < length self.old.boxes }
        ensures slots { self.new.slots ≡ slice_set self.old.slots place slot }
        ensures boxes { self.new.boxes ≡ slice_set self.old.boxes place body }
        ensures spare { self.new.spare ≡ self.old.spare }
    {
        self.columns.set(place, body);
        self.slots[place] = slot;
    }

    /// Takes the box at a place out, and puts the last one there.
    pub(crate) fn swap_out(&mut self, place: usize)
        requires slot { place < length self.old.slots }
        requires body { place < length self.old.boxes }
        ensures slots { self.new.slots ≡ swap_remove self.old.slots place 0 }
        ensures boxes { self.new.boxes ≡ swap_remove self.old.boxes place blank }
        ensures spare { self.new.spare ≡ self.old.spare + 1 }
    {
        self.columns.swap_out(place);
        self.slots.swap_remove(place);
    }

    /// Appends the slots from one place on and below another whose boxes meet a region, and maybe some later ones. After an `Err`
    /// `out` is as before.
    pub(crate) fn push_meeting(
        &self,
        from: usize,
        to: usize,
        region: &FBox,
        out: &mut Vec<u32>,
    ) -> Result<(), NoMemory>
        requires few { length self.now.boxes < 2 ^ 32 }
        requires within { from ≤ to }
        requires end { to ≤ length self.now.boxes }
        ensures ok { OnOk result (HasScanned self.now (meets region.now) from to out.old.items out.new.items) }
        ensures err { OnErr result (out.new.items ≡ out.old.items) }
    {
        let before = out.len();
        // the places first, and then the slots in their stead
        self.columns.scan_between(from, to, region, out)?;
        put_slots(&self.slots, before, out);
        Ok(())
    }
}

// Puts slots in place of their places, from one item of a list on. It takes no memory.
fn put_slots(slots: &[u32], from: usize, out: &mut Vec<u32>)
    requires { from ≤ vec_len out.old }
    ensures { out.new.items ≡ take from out.old.items ++ map (slice_index slots.now) (drop from out.old.items) }
{
    let mut at = from;
    'items: while at < out.len() {
        out[at] = slot_at(slots, out[at]);
        at += 1;
    }
}

// The slot at a place, and 0 at none.
fn slot_at(slots: &[u32], place: u32) -> u32
    ensures { result ≡ slice_index slots.now place }
{
    let place = place as usize;
    if place < slots.len() { slots[place] } else { 0 }
}
