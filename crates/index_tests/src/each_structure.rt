//! Each structure takes, moves, finds and drops boxes, by one thread and by two.

ghost use Rattle.std.specs.Prelude.{◌<◌};

use box_tree::BoxTree;
use broad_index::{BroadPhase, NoGate, Pair, PlainIndex, Query};
use fixed_box::{FBox, NoMemory, Point, SLOTS};
use hier_grid::HierGrid;
use std::alloc::Global;
use std::process::Abort;
use std::test::Fail;
use std::thread::Threads;
use sweep_prune::Sap;

fn same_slots(rt: &impl Abort, slots: &[u32], wanted: &[u32]) {
    assert_eq!(rt; slots, wanted);
}

fn same_pairs(rt: &impl Abort, pairs: &[Pair], wanted: &[Pair]) {
    assert_eq!(rt; pairs, wanted);
}

fn same_box(rt: &impl Abort, body: Option<FBox>, wanted: Option<FBox>) {
    assert_eq!(rt; body, wanted);
}

// Puts a box under a slot, in place of the one that it has.
fn put<B: BroadPhase>(index: &mut B, slot: u32, body: FBox) -> Result<(), NoMemory>
    requires { slot < SLOTS }
{
    index.clear_exchanges();
    if index.box_of(slot).is_some() {
        index.shift(slot, body)
    } else {
        index.add(slot, body)
    }
}

// Takes a slot out, if it is present.
fn take<B: BroadPhase>(index: &mut B, slot: u32)
    requires { slot < SLOTS }
{
    if index.box_of(slot).is_some() {
        index.leave(slot);
    }
}

const PAIR: Pair = Pair { a: 2, b: 4 };

// Two like boxes are there, each found.
fn find_two<R: Threads + Sync + Abort, B: BroadPhase + Sync>(
    rt: &R,
    alloc: Global,
    index: &mut B,
    here: FBox,
) -> Result<(), NoMemory> {
    let mut slots = Vec::new(alloc);
    index.hits(&Query::Spot(here.lo()), &mut slots)?;
    same_slots(rt, &slots, &[2, 4]);
    let mut pairs = Vec::new(alloc);
    index.pairs(&mut pairs)?;
    index.pairs_with(rt, 2, &NoGate, &mut pairs)?;
    same_pairs(rt, &pairs, &[PAIR, PAIR]);
    same_slots(rt, &[index.len()], &[2]);
    Ok(())
}

// One of them is elsewhere, and then gone.
fn find_one<R: Threads + Sync + Abort, B: BroadPhase + Sync>(
    rt: &R,
    alloc: Global,
    index: &mut B,
    here: FBox,
    there: FBox,
) -> Result<(), NoMemory> {
    let mut pairs = Vec::new(alloc);
    put(index, 2, there)?;
    index.pairs(&mut pairs)?;
    take(index, 2);
    index.pairs(&mut pairs)?;
    same_pairs(rt, &pairs, &[]);
    same_box(rt, index.box_of(2), None);
    same_box(rt, index.box_of(4), Some(here));
    Ok(())
}

fn compare_two<R: Threads + Sync + Abort, B: BroadPhase + Sync>(
    rt: &R,
    alloc: Global,
    index: &mut B,
) -> Result<(), Fail> {
    let at = Point { x: 0, y: 0, z: 0 };
    let far = Point { x: 9, y: 9, z: 9 };
    let here = FBox::new(at, at).ok_or("a box")?;
    let there = FBox::new(far, far).ok_or("a box")?;
    put(index, 4, here)?;
    put(index, 2, here)?;
    find_two(rt, alloc, index, here)?;
    find_one(rt, alloc, index, here, there)?;
    Ok(())
}

// A test owns its index, and what is done with it stands in functions that borrow it: where a function may return, its
// proof drops each field of each value that it owns.
#[test]
fn a_plain_list_finds_two_boxes(rt: HostRuntime) -> Result<(), Fail> {
    let mut index = PlainIndex::new(rt.alloc())?;
    let done = compare_two(&rt, rt.alloc(), &mut index);
    drop(index);
    done
}

#[test]
fn a_sweep_finds_two_boxes(rt: HostRuntime) -> Result<(), Fail> {
    let mut index = Sap::new(rt.alloc())?;
    let done = compare_two(&rt, rt.alloc(), &mut index);
    drop(index);
    done
}

#[test]
fn a_tree_finds_two_boxes(rt: HostRuntime) -> Result<(), Fail> {
    let mut index = BoxTree::new(rt.alloc())?;
    let done = compare_two(&rt, rt.alloc(), &mut index);
    drop(index);
    done
}

#[test]
fn a_grid_finds_two_boxes(rt: HostRuntime) -> Result<(), Fail> {
    let mut index = HierGrid::new(rt.alloc())?;
    let done = compare_two(&rt, rt.alloc(), &mut index);
    drop(index);
    done
}
