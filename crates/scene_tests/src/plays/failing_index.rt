//! A plain index that runs out of memory in one of its calls.

ghost use Rattle.std.specs.Prelude.{◌≡◌, ◌||◌, true, false, IfOk, refl};
ghost use Rattle.broad_index.specs.Fresh.{IsFresh};

use broad_index::{BroadPhase, Pair, PlainIndex, Query};
use fixed_box::{FBox, NoMemory};
use std::alloc::Global;
use std::sync::atomic::{AtomicU32, Ordering};

// A plain index for which memory runs out in one of its calls. Those that can answer so are numbered from 0.
#[derive(Drop)]
pub(super) struct FailingIndex {
    plain: PlainIndex,
    failing: u32,
    // How many such calls there were. Threads that search share it.
    calls: AtomicU32,
    // Whether memory ran out in a change.
    spent: bool,
}

impl FailingIndex {
    // An index with no box, for which memory runs out in the call of such a number.
    pub(super) fn new(alloc: Global, failing: u32) -> Result<FailingIndex, NoMemory>
        ensures { IfOk result (λ index. IsFresh index.plain.bodies (index.spent || index.plain.spent) 0) }
    {
        Ok(FailingIndex {
            plain: PlainIndex::new(alloc)?,
            failing,
            calls: AtomicU32::new(0),
            spent: false,
        })
    }

    // Counts a call, and answers whether memory runs out in it.
    fn fails(&self) -> bool {
        self.calls.fetch_add(1, Ordering::SeqCst) == self.failing
    }
}

impl BroadPhase for FailingIndex {
    const COUNTS: bool = false;

    ghost bodies = { λ index. index.plain.bodies };

    ghost spent = { λ index. index.spent || index.plain.spent };

    ghost COUNTS = { false };

    ghost RUNS_OUT = { true };

    ghost exchanges = { λ _. 0 };

    // It changes nothing.
    ghost paired = { λ old new. new ≡ old };

    type Shared = <PlainIndex as BroadPhase>::Shared;

    ghost uncounted = { λ _ _. refl };

    ghost lasting = { λ _ lasts. absurd cc };

    fn add(&mut self, slot: u32, body: FBox) -> Result<(), NoMemory> {
        if self.fails() || self.spent {
            self.spent = true;
            return Err(NoMemory);
        }
        self.plain.add(slot, body)
    }

    fn shift(&mut self, slot: u32, body: FBox) -> Result<(), NoMemory> {
        if self.fails() || self.spent {
            self.spent = true;
            return Err(NoMemory);
        }
        self.plain.shift(slot, body)
    }

    fn leave(&mut self, slot: u32) {
        if self.spent {
            return;
        }
        self.plain.leave(slot);
    }

    fn pairs(&mut self, out: &mut Vec<Pair>) -> Result<(), NoMemory> {
        if self.fails() || self.spent {
            return Err(NoMemory);
        }
        self.plain.pairs(out)
    }

    fn hits(&self, query: &Query, out: &mut Vec<u32>) -> Result<(), NoMemory> {
        if self.fails() || self.spent {
            return Err(NoMemory);
        }
        self.plain.hits(query, out)
    }

    fn box_of(&self, slot: u32) -> Option<FBox> {
        self.plain.box_of(slot)
    }

    fn len(&self) -> u32 {
        self.plain.len()
    }

    fn exchanges(&self) -> u64 {
        0
    }

    fn clear_exchanges(&mut self) {}
}
