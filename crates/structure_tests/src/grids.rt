//! Tests of the grid with ample memory: pairs, queries, numbers and shared buckets.

ghost use Rattle.std.specs.Prelude.{◌<◌};

use broad_index::{BroadPhase, NoGate, Pair, Query, Seeker, seek_many};
use cell_table::CellKey;
use fixed_box::{FBox, NoMemory, Point, SLOTS};
use hier_grid::HierGrid;
use std::alloc::Global;
use std::process::Abort;
use std::test::Fail;
use std::thread::Threads;
use test_gates::{Meeting, Threaded};

fn same_numbers(rt: &impl Abort, what: &str, numbers: &[u32], wanted: &[u32]) {
    assert_eq!(rt; numbers, wanted, "{what}");
}

fn same_pairs(rt: &impl Abort, what: &str, pairs: &[Pair], wanted: &[Pair]) {
    assert_eq!(rt; pairs, wanted, "{what}");
}

// Puts a box under a slot, in place of the one that it has.
fn put(grid: &mut HierGrid, slot: u32, body: FBox) -> Result<(), NoMemory>
    requires { slot < SLOTS }
{
    if grid.box_of(slot).is_some() {
        grid.shift(slot, body)
    } else {
        grid.add(slot, body)
    }
}

// Takes a slot out, if it is present.
fn take(grid: &mut HierGrid, slot: u32)
    requires { slot < SLOTS }
{
    if grid.box_of(slot).is_some() {
        grid.leave(slot);
    }
}

// Two slots come with the same box, which is flat.
fn put_two(grid: &mut HierGrid, at: Point) -> Result<(), Fail> {
    let body = FBox::new(at, at).ok_or("a box")?;
    put(grid, 4, body)?;
    put(grid, 2, body)?;
    Ok(())
}

const PAIR: Pair = Pair { a: 2, b: 4 };

// They are a pair, both hold their place, and they have its cell.
fn compare_two(
    rt: &impl Abort,
    alloc: Global,
    grid: &mut HierGrid,
    at: Point,
) -> Result<(), NoMemory> {
    let mut pairs = Vec::new(alloc);
    let mut slots = Vec::new(alloc);
    grid.pairs(&mut pairs)?;
    grid.hits(&Query::Spot(at), &mut slots)?;
    same_pairs(rt, "pairs", &pairs, &[PAIR]);
    same_numbers(rt, "hits", &slots, &[2, 4]);
    let key = CellKey {
        level: 0,
        x: -1,
        y: 0,
        z: 1,
    };
    assert_eq!(rt; grid.cells().key_of(4), Some(key));
    assert_eq!(rt; grid.len(), 2);
    Ok(())
}

fn put_and_take(rt: &impl Abort, alloc: Global, grid: &mut HierGrid) -> Result<(), Fail> {
    let at = Point {
        x: -1,
        y: 0,
        z: 4_096,
    };
    put_two(grid, at)?;
    compare_two(rt, alloc, grid, at)?;
    take(grid, 2);
    let mut pairs = Vec::new(alloc);
    grid.pairs(&mut pairs)?;
    assert!(rt; pairs.is_empty());
    Ok(())
}

// A test owns its grid, and what is done with it stands in functions that borrow it: where a function may return, its
// proof drops each field of each value that it owns.
#[test]
fn two_boxes_at_one_place_are_a_pair(rt: HostRuntime) -> Result<(), Fail> {
    let mut grid = HierGrid::new(rt.alloc())?;
    let done = put_and_take(&rt, rt.alloc(), &mut grid);
    drop(grid);
    done
}

// A crowd of 2,000 boxes on a line, each of which meets the next.
fn put_crowd(grid: &mut HierGrid) -> Result<(), Fail> {
    for slot in 0..2_000 {
        let lo = slot as i32 * 65_536;
        let body = FBox::new(
            Point { x: lo, y: 0, z: 0 },
            Point {
                x: lo.saturating_add(65_536),
                y: 65_536,
                z: 65_536,
            },
        );
        put(grid, slot, body.ok_or("a box")?)?;
    }
    Ok(())
}

// Whether so many comparisons are no fewer than the pairs, and fewer than a tenth of all pairs of 2,000 slots.
fn is_sparing(compared: u64, pairs: &[Pair]) -> bool {
    pairs.len() as u64 <= compared && compared < 2_000 * 1_999 / 2 / 10
}

fn spare_comparisons<R: Threads + Sync + Abort>(
    rt: &R,
    alloc: Global,
    grid: &mut HierGrid,
) -> Result<(), Fail> {
    put_crowd(grid)?;
    let mut pairs = Vec::new(alloc);
    grid.pairs(&mut pairs)?;
    let looked = grid.looked();
    assert_eq!(rt; pairs.len(), 1_999);
    assert!(rt; is_sparing(looked, &pairs));
    pairs.clear();
    grid.pairs_with(rt, 2, &Threaded, &mut pairs)?;
    assert!(rt; is_sparing(grid.looked().saturating_sub(looked), &pairs));
    Ok(())
}

#[test]
fn few_boxes_are_compared(rt: HostRuntime) -> Result<(), Fail> {
    let mut grid = HierGrid::new(rt.alloc())?;
    let done = spare_comparisons(&rt, rt.alloc(), &mut grid);
    drop(grid);
    done
}

// The box with equal sides from a corner on.
fn cube(lo: Point, side: i32) -> Option<FBox> {
    let hi = Point {
        x: lo.x.saturating_add(side),
        y: lo.y.saturating_add(side),
        z: lo.z.saturating_add(side),
    };
    FBox::new(lo, hi)
}

// One of so many places at equal steps.
fn step(n: u32, count: u32, width: i32) -> i32 {
    let place = n.checked_rem(count).unwrap_or(0);
    i32::try_from(place).unwrap_or(0).wrapping_mul(width)
}

const FAR: i32 = 6_553_600;

// The first 3,000 are small, and lie near each other without meeting. The others are large, and lie far from each other and
// from those.
fn heaped(slot: u32) -> Option<FBox> {
    let small = Point {
        x: step(slot, 15, 8_192),
        y: step(slot / 15, 15, 8_192),
        z: step(slot / 225, 15, 8_192),
    };
    let large = Point {
        x: step(slot, 31, FAR).wrapping_add(FAR),
        y: step(slot.wrapping_mul(7), 31, FAR).wrapping_add(FAR),
        z: step(slot.wrapping_mul(11), 31, FAR).wrapping_add(FAR),
    };
    if slot < 3_000 {
        cube(small, 4_000)
    } else {
        cube(large, 655_360)
    }
}

fn compare_in_heap(rt: &impl Abort, alloc: Global, grid: &mut HierGrid) -> Result<(), Fail> {
    for slot in 0..3_030 {
        put(grid, slot, heaped(slot).ok_or("a box")?)?;
    }
    let mut pairs = Vec::new(alloc);
    grid.pairs(&mut pairs)?;
    let looked = grid.looked();
    same_pairs(rt, "pairs", &pairs, &[]);
    // in the cells of the large boxes the small ones would all be compared with each other, some 9,000,000 times
    assert!(rt; looked < 300_000, "{looked} comparisons");
    Ok(())
}

#[test]
fn small_boxes_in_a_heap_stay_in_small_cells(rt: HostRuntime) -> Result<(), Fail> {
    let mut grid = HierGrid::new(rt.alloc())?;
    let done = compare_in_heap(&rt, rt.alloc(), &mut grid);
    drop(grid);
    done
}

const ORIGIN: Point = Point { x: 0, y: 0, z: 0 };

// What slots 4 and 2 reach, where both are present.
fn seek_present<R: Threads + Sync>(
    rt: &R,
    alloc: Global,
    grid: &HierGrid,
) -> Result<Vec<Vec<u32>>, NoMemory> {
    if grid.box_of(4).is_some() && grid.box_of(2).is_some() {
        let (lists, _) = seek_many(rt, alloc, grid, &[4, 2], 2, &NoGate)?;
        Ok(lists)
    } else {
        Ok(Vec::new(alloc))
    }
}

fn seek_both<R: Threads + Sync + Abort>(
    rt: &R,
    alloc: Global,
    grid: &mut HierGrid,
) -> Result<(), Fail> {
    put_two(grid, ORIGIN)?;
    let lists = seek_present(rt, alloc, grid)?;
    assert_eq!(rt; lists.len(), 2);
    same_numbers(rt, "slot 4", &lists[0], &[2]);
    same_numbers(rt, "slot 2", &lists[1], &[4]);
    Ok(())
}

#[test]
fn slots_are_sought_in_the_order_asked_for(rt: HostRuntime) -> Result<(), Fail> {
    let mut grid = HierGrid::new(rt.alloc())?;
    let done = seek_both(&rt, rt.alloc(), &mut grid);
    drop(grid);
    done
}

fn meet<R: Threads + Sync + Abort>(rt: &R, alloc: Global, grid: &mut HierGrid) -> Result<(), Fail> {
    put_two(grid, ORIGIN)?;
    let gate = Meeting::new();
    let mut pairs = Vec::new(alloc);
    grid.pairs_with(rt, 2, &gate, &mut pairs)?;
    same_pairs(rt, "pairs", &pairs, &[PAIR]);
    assert_eq!(rt; gate.met(), 2);
    Ok(())
}

#[test]
fn two_workers_search_at_once(rt: HostRuntime) -> Result<(), Fail> {
    let mut grid = HierGrid::new(rt.alloc())?;
    let done = meet(&rt, rt.alloc(), &mut grid);
    drop(grid);
    done
}
