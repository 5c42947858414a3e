//! Tests of the grid with boxes that are laid out to make it slow: it compares no more of them than a bound.

ghost use Rattle.std.specs.Prelude.{◌<◌};

use broad_index::BroadPhase;
use fixed_box::{FBox, Point, SLOTS};
use hier_grid::HierGrid;
use std::alloc::Global;
use std::process::Abort;
use std::test::Fail;

// Puts a box under a slot, in place of the one that it has.
fn put(grid: &mut HierGrid, slot: u32, body: Option<FBox>) -> Result<(), Fail>
    requires { slot < SLOTS }
{
    let body = body.ok_or("a box")?;
    if grid.box_of(slot).is_some() {
        grid.shift(slot, body)?;
    } else {
        grid.add(slot, body)?;
    }
    Ok(())
}

// Takes a slot out, if it is present.
fn take(grid: &mut HierGrid, slot: u32)
    requires { slot < SLOTS }
{
    if grid.box_of(slot).is_some() {
        grid.leave(slot);
    }
}

// The box from a corner on, as long as it is told on each axis.
fn box_at(lo: Point, x: i32, y: i32, z: i32) -> Option<FBox> {
    let hi = Point {
        x: lo.x.saturating_add(x),
        y: lo.y.saturating_add(y),
        z: lo.z.saturating_add(z),
    };
    FBox::new(lo, hi)
}

// One of so many places at equal steps.
fn step(n: u32, count: u32, width: i32) -> i32 {
    let place = n.checked_rem(count).unwrap_or(0);
    i32::try_from(place).unwrap_or(0).wrapping_mul(width)
}

// A box of a tenth of a unit in a heap, where it meets no other.
fn small(n: u32) -> Option<FBox> {
    let lo = Point {
        x: step(n, 16, 8_192),
        y: step(n / 16, 16, 8_192),
        z: step(n / 256, 32, 8_192),
    };
    box_at(lo, 4_000, 4_000, 4_000)
}

const FAR: i32 = 6_553_600;

// A place far from the heap, and from others of its kind.
fn far(n: u32) -> Point {
    Point {
        x: step(n, 31, FAR).wrapping_add(FAR),
        y: step(n.wrapping_mul(7), 29, FAR).wrapping_add(FAR),
        z: step(n.wrapping_mul(11), 27, FAR).wrapping_add(FAR),
    }
}

fn large(n: u32) -> Option<FBox> {
    box_at(far(n), 655_360, 655_360, 655_360)
}

// Asks for all pairs, of which there is none, and tells how many boxes were compared.
fn comparisons(rt: &impl Abort, alloc: Global, grid: &mut HierGrid) -> Result<u64, Fail> {
    let before = grid.looked();
    let mut pairs = Vec::new(alloc);
    grid.pairs(&mut pairs)?;
    assert_eq!(rt; pairs.len(), 0);
    Ok(grid.looked().saturating_sub(before))
}

// The first half of the slots comes and goes again; a heap has the other half but for the last 28 slots.
fn heap_in_later_slots(rt: &impl Abort, alloc: Global, grid: &mut HierGrid) -> Result<(), Fail> {
    for slot in 0..4_096 {
        put(grid, slot, small(slot))?;
    }
    for slot in 4_096..8_164 {
        put(grid, slot, small(slot))?;
    }
    for slot in 8_164..8_192 {
        put(grid, slot, large(slot))?;
    }
    for slot in 0..4_096 {
        take(grid, slot);
    }
    let looked = comparisons(rt, alloc, grid)?;
    assert!(rt; looked < 300_000, "{looked} comparisons");
    Ok(())
}

#[test]
fn a_heap_in_later_slots_stays_in_small_cells(rt: HostRuntime) -> Result<(), Fail> {
    let mut grid = HierGrid::new(rt.alloc())?;
    let done = heap_in_later_slots(&rt, rt.alloc(), &mut grid);
    drop(grid);
    done
}

// One slot in 128 has a small box far from the heap, and the last 28 slots have large ones.
fn heap_between_far_slots(rt: &impl Abort, alloc: Global, grid: &mut HierGrid) -> Result<(), Fail> {
    for slot in 0..8_164 {
        if slot % 128 == 0 {
            put(grid, slot, box_at(far(slot / 128), 4_000, 4_000, 4_000))?;
        } else {
            put(grid, slot, small(slot))?;
        }
    }
    for slot in 8_164..8_192 {
        put(grid, slot, large(slot.wrapping_sub(8_092)))?;
    }
    let looked = comparisons(rt, alloc, grid)?;
    assert!(rt; looked < 600_000, "{looked} comparisons");
    Ok(())
}

#[test]
fn a_heap_between_far_slots_stays_in_small_cells(rt: HostRuntime) -> Result<(), Fail> {
    let mut grid = HierGrid::new(rt.alloc())?;
    let done = heap_between_far_slots(&rt, rt.alloc(), &mut grid);
    drop(grid);
    done
}

// The corner of a cell of level 0. Its bucket is that of a cell beside it on each of levels 2, 4, 6 and 8 too.
const SHARED: Point = Point {
    x: -592_011_264,
    y: -1_892_306_944,
    z: -577_957_888,
};

// A flat needle of one of these levels, far from that cell.
fn needle(n: u32) -> Option<FBox> {
    let lo = Point {
        x: 0,
        y: step(n, 112, 1_000_000),
        z: 100_000_000,
    };
    let long = match n % 4 {
        0 => 60_000,
        1 => 1_000_000,
        2 => 16_000_000,
        _ => 256_000_000,
    };
    box_at(lo, long, 0, 0)
}

// 28 needles on each of four levels have these asked for 2,000 points in one cell.
fn heap_in_one_bucket(rt: &impl Abort, alloc: Global, grid: &mut HierGrid) -> Result<(), Fail> {
    for slot in 0..112 {
        put(grid, slot, needle(slot))?;
    }
    for slot in 112..2_112 {
        let at = Point {
            x: SHARED.x.wrapping_add(step(slot, 2_112, 1)),
            ..SHARED
        };
        put(grid, slot, FBox::new(at, at))?;
    }
    let looked = comparisons(rt, alloc, grid)?;
    // in their own cell the points are compared with each other, and on each other level with its needles alone
    assert!(rt; looked < 4_500_000, "{looked} comparisons");
    Ok(())
}

#[test]
fn a_bucket_of_several_levels_is_looked_at_for_one(rt: HostRuntime) -> Result<(), Fail> {
    let mut grid = HierGrid::new(rt.alloc())?;
    let done = heap_in_one_bucket(&rt, rt.alloc(), &mut grid);
    drop(grid);
    done
}
