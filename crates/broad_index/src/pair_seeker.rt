//! A search for pairs by several threads, each over a piece of the slots.

ghost use Rattle.std.specs.Prelude.{◌≡◌, ℕ, ◌^◌, ◌<◌, ◌≤◌, true, List, length, All, IfOk};
ghost use Rattle.std.specs.Ordering.{nat_cmp};
ghost use Rattle.std.specs.FinMap as map;
ghost use Rattle.fixed_box.specs.Bounds.{Bounds};
ghost use Rattle.broad_index.specs.declared.pair.Pair.{Pair};
ghost use Rattle.work_pieces.specs.Runs.{InRuns};
ghost use Rattle.work_pieces.specs.declared.TheConstants.{MOST_WORKERS};

use crate::Pair;
use fixed_box::NoMemory;
use std::alloc::Global;
use std::thread::Threads;
use work_pieces::{Gate, by_runs};

/// An index in which several threads look for pairs at once, since a search changes nothing.
pub trait PairSeeker {
    /// The present slots, each with its box.
    ghost bodies: { Self → map.FinMap nat_cmp Bounds };

    /// What a search of some slots may give: pairs, in any order and some perhaps twice, and what the search cost.
    ghost seeks: { Self → List ℕ → List Pair → ℕ → Type 0 };

    /// Searches from some slots, and answers the pairs that these are to find, and what the search cost. Pairs that rise spare
    /// a sort behind the pieces.
    fn seek_pairs(&self, alloc: Global, slots: &[u32]) -> Result<(Vec<Pair>, u64), NoMemory>
        requires present { All (λ slot. map.contains_key (bodies self.now) slot ≡ true) slots.now }
        ensures { IfOk result (λ found. seeks self.now slots.now found.0.items found.1) };
}

/// A seeker with no box, for an index that isn't searched from several threads.
#[derive(Clone, Copy, Debug, Drop)]
pub struct NoSeeker;

impl PairSeeker for NoSeeker {
    ghost bodies = { λ _. map.empty };

    ghost seeks = { λ _ _ _ _. Unit {0} };

    fn seek_pairs(&self, alloc: Global, _slots: &[u32]) -> Result<(Vec<Pair>, u64), NoMemory> {
        Ok((Vec::new(alloc), 0))
    }
}

/// What each piece of some slots finds, in the order of the pieces. The slots are cut into pieces of `ceil(n / workers)`,
/// numbered from 0, and each piece is searched by one thread, which enters the gate once before it.
pub(crate) fn seek_by_pieces<R: Threads + Sync, K: PairSeeker + Sync, G: Gate + Sync>(
    rt: &R,
    alloc: Global,
    index: &K,
    slots: &[u32],
    workers: u32,
    gate: &G,
) -> Result<Vec<(Vec<Pair>, u64)>, NoMemory>
    requires few { length slots.now < 2 ^ 32 }
    requires workers { (1 ≤ workers) × (workers ≤ MOST_WORKERS) }
    requires present { All (λ slot. map.contains_key (K.bodies index.now) slot ≡ true) slots.now }
    ensures { IfOk result (λ found. InRuns (λ run piece. K.seeks index.now run piece.0.items piece.1) slots.now found.items) }
{
    by_runs(
        rt,
        alloc,
        slots,
        workers,
        gate,
        &|run| -> Result<(Vec<Pair>, u64), NoMemory>
            requires { All (λ slot. map.contains_key (K.bodies index.now) slot ≡ true) run.now }
            ensures { IfOk result (λ found. K.seeks index.entry.now run.now found.0.items found.1) }
        { index.seek_pairs(alloc, run) },
    )
}
