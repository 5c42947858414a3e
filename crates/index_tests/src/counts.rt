//! Counts of overlaps rise, fall and are forgotten.

ghost use Rattle.std.specs.Prelude.{◌<◌};

use broad_index::Pair;
use fixed_box::{NoMemory, SLOTS};
use overlap_count::Counts;
use std::alloc::Global;
use std::process::Abort;
use std::test::Fail;

// What `threes` appends.
fn full(alloc: Global, counts: &Counts) -> Result<Vec<Pair>, NoMemory> {
    let mut pairs = Vec::new(alloc);
    counts.threes(&mut pairs)?;
    Ok(pairs)
}

// One axis more, where there is one.
fn raise(counts: &mut Counts, pair: Pair) -> Result<(), NoMemory>
    requires order { pair.a < pair.b }
    requires small { pair.b < SLOTS }
{
    if counts.count(pair) < 3 {
        counts.raise(pair)?;
    }
    Ok(())
}

// One axis less, where there is one.
fn lower(counts: &mut Counts, pair: Pair)
    requires order { pair.a < pair.b }
    requires small { pair.b < SLOTS }
{
    if counts.count(pair) > 0 {
        counts.lower(pair);
    }
}

fn same_count(rt: &impl Abort, counts: &Counts, pair: Pair, count: u8)
    requires order { pair.a < pair.b }
    requires small { pair.b < SLOTS }
{
    assert_eq!(rt; counts.count(pair), count);
}

fn same_full(
    rt: &impl Abort,
    alloc: Global,
    counts: &Counts,
    pairs: &[Pair],
) -> Result<(), NoMemory> {
    let full = full(alloc, counts)?;
    same_pairs(rt, &full, pairs);
    Ok(())
}

fn same_pairs(rt: &impl Abort, pairs: &[Pair], wanted: &[Pair]) {
    assert_eq!(rt; pairs, wanted);
}

fn raise_and_lower(rt: &impl Abort, alloc: Global, counts: &mut Counts) -> Result<(), NoMemory> {
    let pair = Pair { a: 1, b: 5 };
    for _axis in 0..3 {
        raise(counts, pair)?;
    }
    same_count(rt, counts, pair, 3);
    same_full(rt, alloc, counts, &[pair])?;
    lower(counts, pair);
    same_count(rt, counts, pair, 2);
    same_full(rt, alloc, counts, &[])?;
    counts.forget(5);
    same_count(rt, counts, pair, 0);
    Ok(())
}

// A test owns its counts, and what is done with them stands in functions that borrow them: where a function may return,
// its proof drops each field of each value that it owns.
#[test]
fn a_pair_is_full_while_it_counts_3(rt: HostRuntime) -> Result<(), Fail> {
    let mut counts = Counts::new(rt.alloc())?;
    let done = raise_and_lower(&rt, rt.alloc(), &mut counts);
    drop(counts);
    done?;
    Ok(())
}
