//! Tests of the tree's searches on two threads.

use super::{cube, edit, put, same_number, same_pairs, same_slots, two_here};
use box_tree::BoxTree;
use broad_index::{BroadPhase, NoGate, Pair, seek_many};
use fixed_box::{FBox, NoMemory};
use std::alloc::Global;
use std::process::Abort;
use std::test::Fail;
use std::thread::Threads;
use test_gates::{Meeting, Threaded};

// Pairs after an edit, on two threads, and how many nodes were looked at.
fn pairs_on_two<R: Threads + Sync + Abort>(
    rt: &R,
    tree: &mut BoxTree,
    call: u32,
    looked: u64,
    pairs: &mut Vec<Pair>,
) -> Result<(), Fail> {
    edit(tree, call)?;
    tree.pairs_with(rt, 2, &Threaded, pairs)?;
    same_number(rt, tree.looked(), looked);
    Ok(())
}

fn edit_on_two<R: Threads + Sync + Abort>(
    rt: &R,
    alloc: Global,
    tree: &mut BoxTree,
) -> Result<(), Fail> {
    let mut pairs = Vec::new(alloc);
    pairs_on_two(rt, tree, 0, 1, &mut pairs)?;
    pairs_on_two(rt, tree, 1, 4, &mut pairs)?;
    pairs_on_two(rt, tree, 2, 4, &mut pairs)?;
    pairs_on_two(rt, tree, 3, 7, &mut pairs)?;
    same_pairs(rt, &pairs, &[Pair { a: 0, b: 1 }]);
    Ok(())
}

#[test]
fn each_touched_slot_costs_one_descent_on_two_threads(rt: HostRuntime) -> Result<(), Fail> {
    let mut tree = BoxTree::new(rt.alloc())?;
    let done = edit_on_two(&rt, rt.alloc(), &mut tree);
    drop(tree);
    done
}

// What slots 4 and 2 reach, where both are present.
fn seek_both<R: Threads + Sync>(
    rt: &R,
    alloc: Global,
    tree: &BoxTree,
) -> Result<(Vec<Vec<u32>>, u64), NoMemory> {
    if tree.fat_of(4).is_some() && tree.fat_of(2).is_some() {
        seek_many(rt, alloc, tree, &[4, 2], 2, &NoGate)
    } else {
        Ok((Vec::new(alloc), 0))
    }
}

fn compare_sought<R: Threads + Sync + Abort>(
    rt: &R,
    alloc: Global,
    tree: &mut BoxTree,
) -> Result<(), Fail> {
    two_here(tree)?;
    let (lists, cost) = seek_both(rt, alloc, tree)?;
    assert_eq!(rt; lists.len(), 2);
    same_slots(rt, &lists[0], &[2]);
    same_slots(rt, &lists[1], &[4]);
    same_number(rt, cost, 6);
    Ok(())
}

#[test]
fn slots_are_sought_on_two_threads(rt: HostRuntime) -> Result<(), Fail> {
    let mut tree = BoxTree::new(rt.alloc())?;
    let done = compare_sought(&rt, rt.alloc(), &mut tree);
    drop(tree);
    done
}

fn search_at_once<R: Threads + Sync + Abort>(
    rt: &R,
    alloc: Global,
    tree: &mut BoxTree,
) -> Result<(), Fail> {
    let here = cube(0).ok_or("a box")?;
    put(tree, 0, here)?;
    put(tree, 1, here)?;
    let gate = Meeting::new();
    let mut pairs = Vec::new(alloc);
    tree.pairs_with(rt, 2, &gate, &mut pairs)?;
    same_number(rt, u64::from(gate.met()), 2);
    same_pairs(rt, &pairs, &[Pair { a: 0, b: 1 }]);
    Ok(())
}

#[test]
fn two_pieces_of_a_search_run_at_once(rt: HostRuntime) -> Result<(), Fail> {
    let mut tree = BoxTree::new(rt.alloc())?;
    let done = search_at_once(&rt, rt.alloc(), &mut tree);
    drop(tree);
    done
}
