//! Boxes in skins over each structure: what moves within its skin, leaves it and goes is found by its exact box, beside boxes
//! that stay.

ghost use Rattle.std.specs.Prelude.{◌<◌};

use box_tree::BoxTree;
use broad_index::{BroadPhase, Pair, PlainIndex, Query, Visitor};
use fixed_box::{FBox, NoMemory, Point, SLOTS};
use hier_grid::HierGrid;
use skin_index::Skinned;
use std::alloc::Global;
use std::process::Abort;
use std::test::Fail;
use sweep_prune::Sap;

// Sides long enough that a skin is wider than a step.
const SIDE: i32 = 65_536;

// A cube whose lower corner is at a place of the x axis.
fn cube_at(x: i32) -> Option<FBox> {
    let lo = Point { x, y: 0, z: 0 };
    let hi = Point {
        x: x.saturating_add(SIDE),
        y: SIDE,
        z: SIDE,
    };
    FBox::new(lo, hi)
}

// Puts a box under a slot, in place of the one that it has.
fn put<B: BroadPhase>(index: &mut B, slot: u32, body: FBox) -> Result<(), NoMemory>
    requires { slot < SLOTS }
{
    index.clear_exchanges();
    if index.box_of(slot).is_some() {
        index.shift(slot, body)
    } else {
        index.add(slot, body)
    }
}

// Takes a slot out, if it is present.
fn take<B: BroadPhase>(index: &mut B, slot: u32)
    requires { slot < SLOTS }
{
    if index.box_of(slot).is_some() {
        index.leave(slot);
    }
}

// How many pairs there are, and how many boxes hold the upper end of the first cube.
fn counts<B: BroadPhase>(alloc: Global, index: &mut B) -> Result<(usize, usize), NoMemory> {
    let mut pairs: Vec<Pair> = Vec::new(alloc);
    index.pairs(&mut pairs)?;
    let mut slots = Vec::new(alloc);
    index.hits(
        &Query::Spot(Point {
            x: SIDE,
            y: 0,
            z: 0,
        }),
        &mut slots,
    )?;
    Ok((pairs.len(), slots.len()))
}

// A visitor that keeps the slots of the boxes that meet a region, and admits what meets it.
#[derive(Drop)]
struct Meeting {
    region: FBox,
    slots: Vec<u32>,
}

impl Visitor for Meeting {
    ghost saw = { λ _ _. Unit {0} };

    ghost keeps = { λ _ _. Unit {0} };

    ghost any_order = { λ _ _ _ _ _. tt };

    ghost keeps_itself = { λ _. tt };

    ghost keeps_on = { λ _ _ _ _ _. tt };

    fn query(&self) -> Query {
        Query::Region(self.region)
    }

    fn admits(&self, hull: &FBox) -> bool {
        hull.overlaps(&self.region)
    }

    fn prefers(&self, _first: &FBox, _second: &FBox) -> bool {
        true
    }

    fn meet(&mut self, slot: u32, body: &FBox) -> Result<(), NoMemory> {
        if body.overlaps(&self.region) {
            self.slots.push(slot)?;
        }
        Ok(())
    }
}

// Whether a visit shows the exact boxes of the slots that hold the upper end of the first cube, as a query finds them.
fn shows<B: BroadPhase>(alloc: Global, index: &B) -> Result<bool, Fail> {
    let end = Point {
        x: SIDE,
        y: 0,
        z: 0,
    };
    let mut visitor = Meeting {
        region: FBox::new(end, end).ok_or("a point")?,
        slots: Vec::new(alloc),
    };
    index.visit(&mut Vec::new(alloc), &mut visitor)?;
    visitor.slots.sort()?;
    let mut found = Vec::new(alloc);
    index.hits(&Query::Spot(end), &mut found)?;
    Ok(visitor.slots == found)
}

// Two boxes that meet, far from all others.
fn put_still<B: BroadPhase>(index: &mut B) -> Result<(), Fail> {
    put(index, 4, cube_at(-90 * SIDE).ok_or("a cube")?)?;
    put(index, 9, cube_at(-90 * SIDE).ok_or("a cube")?)?;
    Ok(())
}

// The boxes of two slots, of which the second stands at each of these places in turn, have so many pairs and hits there, and are
// shown to a visitor, beside a pair that stays. All pairs of skins are asked for at the first place, and mended at those where it left its skin.
fn follow<B: BroadPhase>(
    alloc: Global,
    index: &mut B,
    steps: &[(i32, bool)],
) -> Result<bool, Fail> {
    put_still(index)?;
    put(index, 3, cube_at(0).ok_or("a cube")?)?;
    for (x, meets) in steps {
        put(index, 5, cube_at(*x).ok_or("a cube")?)?;
        let wanted = if *meets { (2, 2) } else { (1, 1) };
        if counts(alloc, index)? != wanted || !shows(alloc, index)? {
            return Ok(false);
        }
    }
    take(index, 5);
    Ok(counts(alloc, index)? == (1, 1) && index.len() == 3)
}

// Within its skin, out of it, back, and far off: it touches the first cube at its end, and a raw step further it doesn't.
const STEPS: [(i32, bool); 8] = [
    (SIDE + 1, false),
    (SIDE, true),
    (SIDE - 100, true),
    (SIDE + 1, false),
    (SIDE + 9_000, false),
    (SIDE - 9_000, true),
    (40 * SIDE, false),
    (SIDE, true),
];

#[test]
fn boxes_in_skins_over_a_list_are_found(rt: HostRuntime) -> Result<(), Fail> {
    let mut index = Skinned::new(rt.alloc(), PlainIndex::new(rt.alloc())?)?;
    let done = follow(rt.alloc(), &mut index, &STEPS);
    let descends = index.descends();
    drop(index);
    assert!(rt; done? && !descends);
    Ok(())
}

#[test]
fn boxes_in_skins_over_a_tree_are_found(rt: HostRuntime) -> Result<(), Fail> {
    let mut index = Skinned::new(rt.alloc(), BoxTree::new(rt.alloc())?)?;
    let done = follow(rt.alloc(), &mut index, &STEPS);
    let descends = index.descends();
    drop(index);
    assert!(rt; done? && descends);
    Ok(())
}

#[test]
fn boxes_in_skins_over_a_grid_are_found(rt: HostRuntime) -> Result<(), Fail> {
    let mut index = Skinned::new(rt.alloc(), HierGrid::new(rt.alloc())?)?;
    let done = follow(rt.alloc(), &mut index, &STEPS);
    drop(index);
    assert!(rt; done?);
    Ok(())
}

#[test]
fn boxes_in_skins_over_a_sweep_are_found(rt: HostRuntime) -> Result<(), Fail> {
    let mut index = Skinned::new(rt.alloc(), Sap::new(rt.alloc())?)?;
    let done = follow(rt.alloc(), &mut index, &STEPS);
    drop(index);
    assert!(rt; done?);
    Ok(())
}
