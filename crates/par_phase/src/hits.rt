//! Many queries at once, cut into pieces that several threads answer.

ghost use Rattle.std.specs.Prelude.{◌≡◌, ◌^◌, ◌<◌, ◌≤◌, length, map, IfOk};
ghost use Rattle.broad_index.specs.Found.{found};
ghost use Rattle.work_pieces.specs.declared.TheConstants.{MOST_WORKERS};

use broad_index::{BroadPhase, Gate, Query};
use fixed_box::NoMemory;
use std::alloc::Global;
use std::thread::Threads;
use work_pieces::by_pieces;

// From how many queries on they are worth several threads: a query over thousands of boxes takes some 2 to 5 microseconds,
// starting four threads some 80, and one runs some 40 after it was asked for.
const FEWEST_SHARED: usize = 128;

/// The slots that each query finds, in the order of the queries: list `i` is what `hits` appends for query `i`.
///
/// The queries are cut into pieces of `ceil(n / workers)`, numbered from 0, and each piece is done by one thread, which
/// enters the gate once before its first query. Where the gate doesn't need threads, a few queries are answered by the
/// caller's thread in one piece. Where memory runs out in any piece, no list is handed out.
pub fn hits_many<R: Threads + Sync, B: BroadPhase + Sync, G: Gate + Sync>(
    rt: &R,
    alloc: Global,
    index: &B,
    queries: &[Query],
    workers: u32,
    gate: &G,
) -> Result<Vec<Vec<u32>>, NoMemory>
    requires few { length queries.now < 2 ^ 32 }
    requires workers { (1 ≤ workers) × (workers ≤ MOST_WORKERS) }
    ensures { IfOk result (λ lists. map (λ list. list.items) lists.items ≡ map (found (B.bodies index.now)) queries.now) }
{
    by_pieces(
        rt,
        alloc,
        queries,
        workers_for(queries, workers, gate),
        gate,
        &|query| hits_one(alloc, index, query),
    )
}

// How many workers of those that there may be answer some queries.
fn workers_for<G: Gate>(queries: &[Query], workers: u32, gate: &G) -> u32
    requires { (1 ≤ workers) × (workers ≤ MOST_WORKERS) }
    ensures { (1 ≤ result) × (result ≤ MOST_WORKERS) }
{
    if gate.needs_threads() || queries.len() >= FEWEST_SHARED {
        workers
    } else {
        1
    }
}

// The slots that one query finds.
fn hits_one<B: BroadPhase>(alloc: Global, index: &B, query: &Query) -> Result<Vec<u32>, NoMemory>
    ensures { IfOk result (λ slots. slots.items ≡ found (B.bodies index.now) query.now) }
{
    let mut slots = Vec::new(alloc);
    index.hits(query, &mut slots)?;
    Ok(slots)
}
