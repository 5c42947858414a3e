//! The counts of one slot with lower slots, which grow as they are needed.

ghost use Rattle.std.specs.Prelude.{◌≡◌, ◌≢◌, ◌+◌, ◌-◌, ◌*◌, ◌<◌, ◌≤◌, ◌==◌, ◌&&◌, [], true, not, nat_lt};
ghost use Rattle.std.specs.Prelude.{ℕ, if◌then◌else◌, OnOk, OnErr, length, slice_index, slice_set};

use crate::tally::Tally;
use fixed_box::NoMemory;
use std::alloc::Global;
use std::marker::Model;

// How many counts a tally has.
pub(crate) const PLACES: u32 = 64;

// The counts of a slot with lower slots, by these. Clauses see them as a list, past whose end they are 0.
#[derive(Drop)]
pub(crate) struct SlotCounts {
    tallies: Vec<Tally>,
}

impl Model for SlotCounts {
    ghost use Rattle.std.specs.Prelude.{List, ℕ};
    ghost use Rattle.overlap_count.specs.SlotCounts.{counts_of};

    ghost Value = { List ℕ };

    ghost view = { λ r. counts_of r.tallies.items };
}

impl SlotCounts {
    // All counts are 0, and no memory is taken.
    pub(crate) fn new(alloc: Global) -> SlotCounts
        ensures { result ≡ [] }
    {
        SlotCounts {
            tallies: Vec::new(alloc),
        }
    }

    // The count at a place.
    pub(crate) fn count(&self, place: u32) -> u8
        ensures count { result ≡ slice_index self.now place }
        ensures small { result ≤ 3 }
        ensures within { result ≢ 0 → place < length self.now }
    {
        let at = (place / PLACES) as usize;
        if at < self.tallies.len() {
            self.tallies[at].count(place % PLACES)
        } else {
            0
        }
    }

    // Whether the list has a place, and the count there doesn't come to 3 by one more where it `rises`.
    pub(crate) fn raises_within(&self, place: u32, rises: bool) -> bool
        ensures { result ≡ (nat_lt place (length self.now) && not (rises && slice_index self.now place == 2)) }
    {
        let at = (place / PLACES) as usize;
        if at < self.tallies.len() {
            !self.tallies[at].fills(place % PLACES, rises)
        } else {
            false
        }
    }

    // Whether the list has a place, and the count there isn't 3 where it `lowers`.
    pub(crate) fn lowers_within(&self, place: u32, lowers: bool) -> bool
        ensures { result ≡ (nat_lt place (length self.now) && not (lowers && slice_index self.now place == 3)) }
    {
        let at = (place / PLACES) as usize;
        if at < self.tallies.len() {
            !self.tallies[at].empties(place % PLACES, lowers)
        } else {
            false
        }
    }

    // The count at a place rises by one. Memory is taken where the list has none: for so many tallies.
    pub(crate) fn raise(&mut self, place: u32, tallies: u32) -> Result<(), NoMemory>
        requires within { place < 64 * tallies }
        requires room { slice_index self.old place < 3 }
        ensures ok { OnOk result ((k : ℕ) → slice_index self.new k
            ≡ (if k == place then slice_index self.old place + 1 else slice_index self.old k)) }
        ensures err { OnErr result (self.new ≡ self.old) }
    {
        self.grow(tallies as usize)?;
        self.raise_within(place, true);
        Ok(())
    }

    // The count at a place that the list has rises by one, where it `rises`.
    pub(crate) fn raise_within(&mut self, place: u32, rises: bool)
        requires within { place < length self.old }
        requires room { rises ≡ true → slice_index self.old place < 3 }
        ensures { self.new ≡ slice_set self.old place
            (if rises then slice_index self.old place + 1 else slice_index self.old place) }
    {
        let at = (place / PLACES) as usize;
        let tally = self.tallies[at];
        self.tallies[at] = tally.raised(place % PLACES, rises);
    }

    // The count at a place that the list has falls by one, where it `lowers`.
    pub(crate) fn lower_within(&mut self, place: u32, lowers: bool)
        requires within { place < length self.old }
        requires above { lowers ≡ true → slice_index self.old place ≢ 0 }
        ensures { self.new ≡ slice_set self.old place
            (if lowers then slice_index self.old place - 1 else slice_index self.old place) }
    {
        let at = (place / PLACES) as usize;
        let tally = self.tallies[at];
        self.tallies[at] = tally.lowered(place % PLACES, lowers);
    }

    // The count at a place becomes 0.
    pub(crate) fn unset(&mut self, place: u32)
        ensures { self.new ≡ slice_set self.old place 0 }
    {
        let at = (place / PLACES) as usize;
        if at < self.tallies.len() {
            let tally = self.tallies[at];
            self.tallies[at] = tally.without(place % PLACES);
        }
    }

    // All counts become 0. The memory is kept.
    pub(crate) fn clear(&mut self)
        ensures { self.new ≡ [] }
    {
        self.tallies.clear();
    }

    // Makes room for so many tallies, blank where they are new.
    fn grow(&mut self, tallies: usize) -> Result<(), NoMemory>
        ensures ok { OnOk result ((k : ℕ) → slice_index self.new k ≡ slice_index self.old k) }
        ensures len { OnOk result (64 * tallies ≤ length self.new) }
        ensures err { OnErr result (self.new ≡ self.old) }
    {
        if self.tallies.len() < tallies {
            self.lengthen(tallies)?;
        }
        Ok(())
    }

    // The list gets so many tallies. This stands apart, so that a count that has its place rises in few steps.
    #[cold]
    #[inline(never)]
    fn lengthen(&mut self, tallies: usize) -> Result<(), NoMemory>
        requires { length self.old ≤ 64 * tallies }
        ensures ok { OnOk result ((k : ℕ) → slice_index self.new k ≡ slice_index self.old k) }
        ensures len { OnOk result (64 * tallies ≤ length self.new) }
        ensures err { OnErr result (self.new ≡ self.old) }
    {
        self.tallies.resize(tallies, Tally::blank())?;
        Ok(())
    }
}
