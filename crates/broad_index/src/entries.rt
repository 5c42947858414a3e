//! The search of the plain list: boxes in order of their slots, eight at a time.

ghost use Rattle.std.specs.Prelude.{◌≡◌, ◌+◌, ◌<◌, ◌≤◌, ◌++◌, true, false, OnOk, OnErr, All};
ghost use Rattle.std.specs.Prelude.{length, map as mapped, take, drop, slice_index_or, vec_len};
ghost use Rattle.std.specs.FinMap as map;
ghost use Rattle.broad_index.specs.Entries.{Placed, pairs_at};
ghost use Rattle.broad_index.specs.Found.{found};
ghost use Rattle.broad_index.specs.Near.{near, near_of};

use crate::met_places::push_met_places;
use crate::slot_entries::Entries;
use crate::{Pair, Query};
use fixed_box::NoMemory;
use lane_boxes::place_laws;

impl Entries {
    // Appends the pairs of slots whose boxes meet, or nothing. `places` is room.
    pub(crate) fn push_near(
        &self,
        places: &mut Vec<u32>,
        out: &mut Vec<Pair>,
    ) -> Result<(), NoMemory>
        ensures ok { OnOk result (out.new.items ≡ out.old.items ++ near self.now) }
        ensures err { OnErr result (out.new.items ≡ out.old.items) }
    {
        let before = out.len();
        let found = self.push_each(places, out);
        if found.is_err() {
            out.truncate(before);
        }
        found
    }

    // Appends the pairs of each slot in turn. What was there stays, after an `Err` too.
    fn push_each(&self, places: &mut Vec<u32>, out: &mut Vec<Pair>) -> Result<(), NoMemory>
        ensures ok { OnOk result (out.new.items ≡ out.old.items ++ near self.now) }
        ensures kept { take (vec_len out.old) out.new.items ≡ out.old.items }
    {
        let len = self.slots.len();
        let mut at = 0;
        'slots: while at < len {
            self.push_partners(at, places, out)?;
            at += 1;
        }
        Ok(())
    }

    // Appends the pairs of the slot at a place with later ones. What was there stays, after an `Err` too.
    fn push_partners(
        &self,
        at: usize,
        places: &mut Vec<u32>,
        out: &mut Vec<Pair>,
    ) -> Result<(), NoMemory>
        requires { at < length (map.entries self.now) }
        ensures ok { OnOk result (out.new.items ++ near_of (drop (at + 1) (map.entries self.now)) ≡ out.old.items ++ near_of (drop at (map.entries self.now))) }
        ensures kept { take (vec_len out.old) out.new.items ≡ out.old.items }
    {
        place_laws();
        places.clear();
        self.boxes
            .scan_from(at + 1, &self.boxes.box_at(at), places)?;
        push_pairs(self.slots[at], &self.slots, places, out)
    }

    // Appends the slots whose boxes meet a query, or nothing.
    pub(crate) fn push_found(&self, query: &Query, out: &mut Vec<u32>) -> Result<(), NoMemory>
        ensures ok { OnOk result (out.new.items ≡ out.old.items ++ found self.now query.now) }
        ensures err { OnErr result (out.new.items ≡ out.old.items) }
    {
        place_laws();
        let before = out.len();
        push_met_places(&self.boxes, query, out)?;
        name_places(&self.slots, before, out);
        Ok(())
    }
}

// Puts slots for their places, from one place of a list on.
fn name_places(slots: &[u32], from: usize, places: &mut Vec<u32>)
    requires within { from ≤ vec_len places.old }
    requires named { All (λ k. k < length slots.now) (drop from places.old.items) }
    ensures { places.new.items ≡ take from places.old.items ++ mapped (λ k. slice_index_or slots.now k 0) (drop from places.old.items) }
{
    name_each(slots, &mut places[from..]);
}

// The same for a whole list.
fn name_each(slots: &[u32], places: &mut [u32])
    requires { All (λ k. k < length slots.now) places.old }
    ensures { places.new ≡ mapped (λ k. slice_index_or slots.now k 0) places.old }
{
    for at in 0..places.len() {
        places[at] = slots[places[at] as usize];
    }
}

// Appends a slot with those at places. What was there stays, after an `Err` too.
fn push_pairs(slot: u32, slots: &[u32], places: &[u32], out: &mut Vec<Pair>) -> Result<(), NoMemory>
    requires { All (λ k. k < length slots.now) places.now }
    ensures ok { OnOk result (out.new.items ≡ out.old.items ++ pairs_at slot slots.now places.now) }
    ensures kept { take (vec_len out.old) out.new.items ≡ out.old.items }
{
    let mut at = 0;
    'places: while at < places.len() {
        out.push(Pair {
            a: slot,
            b: slots[places[at] as usize],
        })?;
        at += 1;
    }
    Ok(())
}
