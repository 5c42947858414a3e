//! The plainest broad phase: a list of boxes in which each pair is tested.

ghost use Rattle.std.specs.Prelude.{◌≡◌, true, false, if◌then◌else◌, Ok, Err, IfOk, refl};
ghost use Rattle.std.specs.FinMap as map;
ghost use Rattle.broad_index.specs.Fresh.{IsFresh};

use crate::slot_entries::Entries;
use crate::{BroadPhase, NoSeeker, Pair, Query};
use fixed_box::{FBox, NoMemory};
use std::alloc::Global;
use std::marker::Model;

/// The boxes in a list in order of their slots. It tests each pair, eight boxes at a time.
#[derive(Drop)]
pub struct PlainIndex {
    entries: Entries,
    spent: bool,
    // Room for what one box overlaps, kept from frame to frame.
    places: Vec<u32>,
}

impl Model for PlainIndex {
    ghost use Rattle.broad_index.specs.Index.{Indexed, coded_index};

    ghost Value = { Indexed };

    ghost coded = { coded_index };

    ghost view = { λ i. record { bodies = i.entries; spent = i.spent } };
}

impl PlainIndex {
    /// An index with no box.
    pub fn new(alloc: Global) -> Result<PlainIndex, NoMemory>
        ensures { IfOk result (λ index. IsFresh index.bodies index.spent 0) }
    {
        Ok(PlainIndex {
            entries: Entries::new(alloc),
            spent: false,
            places: Vec::new(alloc),
        })
    }
}

impl BroadPhase for PlainIndex {
    const COUNTS: bool = false;

    ghost bodies = { λ index. index.bodies };

    ghost spent = { λ index. index.spent };

    ghost COUNTS = { false };

    ghost RUNS_OUT = { true };

    ghost exchanges = { λ _. 0 };

    // It changes nothing.
    ghost paired = { λ old new. new ≡ old };

    type Shared = NoSeeker;

    ghost uncounted = { λ _ _. refl };

    ghost lasting = { λ _ lasts. absurd cc };

    fn add(&mut self, slot: u32, body: FBox) -> Result<(), NoMemory> {
        if self.spent {
            return Err(NoMemory);
        }
        match self.entries.insert(slot, body) {
            Ok(()) => Ok(()),
            Err(_) => {
                self.spent = true;
                Err(NoMemory)
            }
        }
    }

    fn shift(&mut self, slot: u32, body: FBox) -> Result<(), NoMemory>
        requires present { self.old.spent ≡ false → map.contains_key self.old.bodies slot ≡ true }
        // It takes no memory.
        ensures answer { result ≡ (if self.old.spent then Err (record {}) else Ok tt) }
        ensures bodies { self.new.bodies ≡ (if self.old.spent then self.old.bodies else map.insert self.old.bodies slot body) }
        ensures spent { self.new.spent ≡ self.old.spent }
    {
        if self.spent {
            return Err(NoMemory);
        }
        self.entries.set(slot, body);
        Ok(())
    }

    fn leave(&mut self, slot: u32) {
        if self.spent {
            return;
        }
        self.entries.remove(slot);
    }

    fn pairs(&mut self, out: &mut Vec<Pair>) -> Result<(), NoMemory> {
        if self.spent {
            return Err(NoMemory);
        }
        self.entries.push_near(&mut self.places, out)
    }

    fn hits(&self, query: &Query, out: &mut Vec<u32>) -> Result<(), NoMemory> {
        if self.spent {
            return Err(NoMemory);
        }
        self.entries.push_found(query, out)
    }

    fn box_of(&self, slot: u32) -> Option<FBox> {
        self.entries.box_of(slot)
    }

    fn len(&self) -> u32 {
        self.entries.len()
    }

    fn exchanges(&self) -> u64 {
        0
    }

    fn clear_exchanges(&mut self) {}
}
