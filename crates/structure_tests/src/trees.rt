//! Tests of the broad phase over a tree with ample memory: touched slots, kept pairs and queries.

ghost use Rattle.std.specs.Prelude.{◌<◌};

mod threads;

use box_tree::{BoxTree, Moved};
use broad_index::{BroadPhase, Pair, Query};
use fixed_box::{FBox, NoMemory, Point, SLOTS};
use std::alloc::Global;
use std::process::Abort;
use std::test::Fail;

fn at(x: i32) -> Point {
    Point { x, y: 0, z: 0 }
}

// A box on the x axis.
fn body(lo: i32, hi: i32) -> Option<FBox> {
    FBox::new(at(lo), at(hi))
}

// A cube of 65,536 raw units, so far along the x axis.
fn cube(x: i32) -> Option<FBox> {
    let hi = Point {
        x: x.saturating_add(65_536),
        y: 65_536,
        z: 65_536,
    };
    FBox::new(at(x), hi)
}

// Gives a slot a box, whether it has one or not.
fn put(tree: &mut BoxTree, slot: u32, body: FBox) -> Result<(), NoMemory>
    requires { slot < SLOTS }
{
    if tree.fat_of(slot).is_none() {
        tree.add(slot, body)
    } else {
        tree.shift(slot, body)
    }
}

// Takes a slot out where it is present.
fn take(tree: &mut BoxTree, slot: u32)
    requires { slot < SLOTS }
{
    if tree.fat_of(slot).is_some() {
        tree.leave(slot);
    }
}

// What a shift tells, where the slot is present.
fn told(tree: &mut BoxTree, slot: u32, body: FBox) -> Option<Moved> {
    if tree.fat_of(slot).is_some() {
        Some(tree.shift_told(slot, body))
    } else {
        None
    }
}

fn same_number(rt: &impl Abort, number: u64, wanted: u64) {
    assert_eq!(rt; number, wanted);
}

fn same_slots(rt: &impl Abort, slots: &[u32], wanted: &[u32]) {
    assert_eq!(rt; slots, wanted);
}

fn same_pairs(rt: &impl Abort, pairs: &[Pair], wanted: &[Pair]) {
    assert_eq!(rt; pairs, wanted);
}

// Two like boxes come.
fn two_here(tree: &mut BoxTree) -> Result<(), Fail> {
    let here = body(0, 2).ok_or("a box")?;
    put(tree, 4, here)?;
    put(tree, 2, here)?;
    Ok(())
}

fn compare_two(rt: &impl Abort, alloc: Global, tree: &mut BoxTree) -> Result<(), Fail> {
    two_here(tree)?;
    let mut pairs = Vec::new(alloc);
    let mut slots = Vec::new(alloc);
    tree.pairs(&mut pairs)?;
    tree.hits(&Query::Spot(at(0)), &mut slots)?;
    same_pairs(rt, &pairs, &[Pair { a: 2, b: 4 }]);
    same_slots(rt, &slots, &[2, 4]);
    Ok(())
}

fn take_one_of_two(rt: &impl Abort, alloc: Global, tree: &mut BoxTree) -> Result<(), Fail> {
    compare_two(rt, alloc, tree)?;
    take(tree, 2);
    same_number(rt, count_pairs(tree, alloc)?, 0);
    tree.clear_exchanges();
    same_number(rt, tree.exchanges(), 0);
    Ok(())
}

// A test owns its tree, and what is done with it stands in functions that borrow it: where a function may return, its
// proof drops each field of each value that it owns.
#[test]
fn pairs_and_hits_rise_by_slot(rt: HostRuntime) -> Result<(), Fail> {
    let mut tree = BoxTree::new(rt.alloc())?;
    let done = take_one_of_two(&rt, rt.alloc(), &mut tree);
    drop(tree);
    done
}

// The six coordinates of a slot's fat box.
fn fat_corners(tree: &BoxTree, slot: u32) -> Option<[i32; 6]> {
    let fat = tree.fat_of(slot)?;
    let (lo, hi) = (fat.lo(), fat.hi());
    Some([lo.x, lo.y, lo.z, hi.x, hi.y, hi.z])
}

fn compare_margin(rt: &impl Abort, _alloc: Global, tree: &mut BoxTree) -> Result<(), Fail> {
    let here = cube(0).ok_or("a box")?;
    put(tree, 0, here)?;
    let wanted = Some([-8_192, -8_192, -8_192, 73_728, 73_728, 73_728]);
    assert!(rt; fat_corners(tree, 0) == wanted);
    assert!(rt; fat_corners(tree, 1).is_none());
    assert_eq!(rt; tree.height(), 0);
    assert!(rt; tree.nodes().root().is_some());
    Ok(())
}

#[test]
fn a_fat_box_has_the_margin_around_its_box(rt: HostRuntime) -> Result<(), Fail> {
    let mut tree = BoxTree::new(rt.alloc())?;
    let done = compare_margin(&rt, rt.alloc(), &mut tree);
    drop(tree);
    done
}

fn move_to_the_margin(rt: &impl Abort, _alloc: Global, tree: &mut BoxTree) -> Result<(), Fail> {
    let here = cube(0).ok_or("a box")?;
    let at_margin = cube(8_192).ok_or("a box")?;
    let past_margin = cube(8_193).ok_or("a box")?;
    put(tree, 0, here)?;
    assert!(rt; told(tree, 0, at_margin) == Some(Moved::Inside));
    assert!(rt; told(tree, 0, past_margin) == Some(Moved::Relinked));
    let wanted = Some([1, -8_192, -8_192, 81_921, 73_728, 73_728]);
    assert!(rt; fat_corners(tree, 0) == wanted);
    Ok(())
}

#[test]
fn a_box_moves_inside_its_fat_box_up_to_the_margin(rt: HostRuntime) -> Result<(), Fail> {
    let mut tree = BoxTree::new(rt.alloc())?;
    let done = move_to_the_margin(&rt, rt.alloc(), &mut tree);
    drop(tree);
    done
}

// The edit before each of four calls for pairs.
fn edit(tree: &mut BoxTree, call: u32) -> Result<(), Fail> {
    let here = cube(0).ok_or("a box")?;
    let there = cube(900_000).ok_or("a box")?;
    match call {
        0 => put(tree, 0, here)?,
        1 => put(tree, 1, there)?,
        2 => (),
        _ => put(tree, 0, there)?,
    }
    Ok(())
}

// Pairs after an edit, and how many nodes were looked at.
fn pairs_after(
    rt: &impl Abort,
    tree: &mut BoxTree,
    call: u32,
    looked: u64,
    pairs: &mut Vec<Pair>,
) -> Result<(), Fail> {
    edit(tree, call)?;
    tree.pairs(pairs)?;
    same_number(rt, tree.looked(), looked);
    Ok(())
}

fn edit_and_look(rt: &impl Abort, alloc: Global, tree: &mut BoxTree) -> Result<(), Fail> {
    let mut pairs = Vec::new(alloc);
    pairs_after(rt, tree, 0, 1, &mut pairs)?;
    pairs_after(rt, tree, 1, 4, &mut pairs)?;
    pairs_after(rt, tree, 2, 4, &mut pairs)?;
    pairs_after(rt, tree, 3, 7, &mut pairs)?;
    same_pairs(rt, &pairs, &[Pair { a: 0, b: 1 }]);
    Ok(())
}

#[test]
fn each_touched_slot_costs_one_descent(rt: HostRuntime) -> Result<(), Fail> {
    let mut tree = BoxTree::new(rt.alloc())?;
    let done = edit_and_look(&rt, rt.alloc(), &mut tree);
    drop(tree);
    done
}

// How many pairs there are now.
fn count_pairs(tree: &mut BoxTree, alloc: Global) -> Result<u64, NoMemory> {
    let mut pairs = Vec::new(alloc);
    tree.pairs(&mut pairs)?;
    Ok(pairs.len() as u64)
}

// Two boxes meet, and then the slot of the first is given to a box elsewhere.
fn give_again(rt: &impl Abort, alloc: Global, tree: &mut BoxTree) -> Result<(), Fail> {
    let here = cube(0).ok_or("a box")?;
    let there = cube(900_000).ok_or("a box")?;
    put(tree, 0, here)?;
    put(tree, 1, here)?;
    same_number(rt, count_pairs(tree, alloc)?, 1);
    take(tree, 0);
    put(tree, 0, there)?;
    Ok(())
}

fn give_elsewhere(rt: &impl Abort, alloc: Global, tree: &mut BoxTree) -> Result<(), Fail> {
    give_again(rt, alloc, tree)?;
    same_number(rt, count_pairs(tree, alloc)?, 0);
    Ok(())
}

#[test]
fn a_slot_that_is_given_again_has_no_old_pairs(rt: HostRuntime) -> Result<(), Fail> {
    let mut tree = BoxTree::new(rt.alloc())?;
    let done = give_elsewhere(&rt, rt.alloc(), &mut tree);
    drop(tree);
    done
}

fn give_and_move_back(rt: &impl Abort, alloc: Global, tree: &mut BoxTree) -> Result<(), Fail> {
    give_again(rt, alloc, tree)?;
    let here = cube(0).ok_or("a box")?;
    put(tree, 0, here)?;
    let mut pairs = Vec::new(alloc);
    tree.pairs(&mut pairs)?;
    same_pairs(rt, &pairs, &[Pair { a: 0, b: 1 }]);
    Ok(())
}

#[test]
fn a_slot_that_is_given_again_and_moved_back_has_its_pairs(rt: HostRuntime) -> Result<(), Fail> {
    let mut tree = BoxTree::new(rt.alloc())?;
    let done = give_and_move_back(&rt, rt.alloc(), &mut tree);
    drop(tree);
    done
}
