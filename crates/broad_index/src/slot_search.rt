//! A search from many slots by several threads, with what each slot overlaps.

ghost use Rattle.std.specs.Prelude.{◌≡◌, ◌^◌, ◌<◌, ◌≤◌, true, length, map, sum, IfOk, IfSome, All};
ghost use Rattle.std.specs.FinMap.{contains_key};
ghost use Rattle.broad_index.specs.Reach.{reach};
ghost use Rattle.work_pieces.specs.declared.TheConstants.{MOST_WORKERS};

use crate::Seeker;
use fixed_box::NoMemory;
use std::alloc::Global;
use std::thread::Threads;
use work_pieces::{Gate, by_pieces};

/// What meets the box of each slot, in the slots' order, and the sum of what the searches cost.
///
/// The slots are cut into pieces of `ceil(n / workers)`, numbered from 0, and each piece is done by one thread, which
/// enters the gate once before its first slot. Where memory runs out in any piece, no list is handed out.
pub fn seek_many<R: Threads + Sync, K: Seeker + Sync, G: Gate + Sync>(
    rt: &R,
    alloc: Global,
    index: &K,
    slots: &[u32],
    workers: u32,
    gate: &G,
) -> Result<(Vec<Vec<u32>>, u64), NoMemory>
    requires few { length slots.now < 2 ^ 32 }
    requires workers { (1 ≤ workers) × (workers ≤ MOST_WORKERS) }
    requires present { All (λ slot. contains_key (K.bodies index.now) slot ≡ true) slots.now }
    ensures lists { IfOk result (λ found. map (λ list. list.items) found.0.items ≡ map (reach (K.bodies index.now)) slots.now) }
    ensures cost { IfOk result (λ found. IfSome (K.costs index.now) (λ cost. found.1 ≡ sum (map cost slots.now))) }
{
    let found = by_pieces(
        rt,
        alloc,
        slots,
        workers,
        gate,
        &|slot| -> Result<(Vec<u32>, u32), NoMemory>
            requires { contains_key (K.bodies index.now) slot.now ≡ true }
            ensures lists { IfOk result (λ found. found.0.items ≡ reach (K.bodies index.entry.now) slot.now) }
            ensures cost { IfOk result (λ found. IfSome (K.costs index.entry.now) (λ cost. found.1 ≡ cost slot.now)) }
        { seek_one(alloc, index, *slot) },
    )?;
    parted(alloc, found)
}

// What meets the box of one slot, and what the search cost.
fn seek_one<K: Seeker>(alloc: Global, index: &K, slot: u32) -> Result<(Vec<u32>, u32), NoMemory>
    requires present { contains_key (K.bodies index.now) slot ≡ true }
    ensures lists { IfOk result (λ found. found.0.items ≡ reach (K.bodies index.now) slot) }
    ensures cost { IfOk result (λ found. IfSome (K.costs index.now) (λ cost. found.1 ≡ cost slot)) }
{
    let mut list = Vec::new(alloc);
    let cost = index.seek(slot, &mut list)?;
    Ok((list, cost))
}

// The lists, and the sum of the numbers beside them.
fn parted(alloc: Global, found: Vec<(Vec<u32>, u32)>) -> Result<(Vec<Vec<u32>>, u64), NoMemory>
    requires few { length found.items < 2 ^ 32 }
    ensures lists { IfOk result (λ parts. map (λ list. list.items) parts.0.items ≡ map (λ one. one.0.items) found.items) }
    ensures cost { IfOk result (λ parts. parts.1 ≡ sum (map (λ one. one.1) found.items)) }
{
    let mut lists = Vec::new(alloc);
    let mut cost = 0u64;
    'found: for (list, number) in found {
        lists.push(list)?;
        cost += u64::from(number);
    }
    Ok((lists, cost))
}
