//! The boxes nearest to a box, from a distance on, over each structure, against a look at every box.

use crate::firsts::Random;
use crate::worlds::NOBODYS;
use any_world::{AnyWorld, Structure};
use fixed_box::{FBox, Point};
use live_queries::{AskRoom, Groups, NearBoxQuery, NearQuery};
use live_table::{Handle, Masks};
use std::alloc::Global;
use std::mem;
use std::test::Fail;

// How many random boxes there are, and how many questions are asked of them.
const BOXES: u32 = 300;

const QUESTIONS: u32 = 60;

// Corners stand at multiples of so many raw units, so that many boxes are as near as others.
const STEP: i32 = 3_000;

fn place(random: &mut Random) -> i32 {
    i32::from(random.below(12)) * STEP
}

fn point(random: &mut Random) -> Point {
    Point {
        x: place(random),
        y: place(random),
        z: place(random),
    }
}

// How long a box is on an axis: not at all, one step or two.
fn side(random: &mut Random) -> i32 {
    i32::from(random.below(3)) * STEP
}

fn body(random: &mut Random) -> Result<FBox, Fail> {
    let lo = point(random);
    let hi = Point {
        x: lo.x.saturating_add(side(random)),
        y: lo.y.saturating_add(side(random)),
        z: lo.z.saturating_add(side(random)),
    };
    Ok(FBox::new(lo, hi).ok_or("a box")?)
}

// The square of how far two intervals lie apart.
fn gap_square(a: [i32; 2], b: [i32; 2]) -> u128 {
    let gap = if a[1] < b[0] {
        b[0].abs_diff(a[1])
    } else if b[1] < a[0] {
        a[0].abs_diff(b[1])
    } else {
        0
    };
    u128::from(gap).wrapping_mul(u128::from(gap))
}

fn square_of(a: &FBox, b: &FBox) -> u128 {
    let (a_lo, a_hi) = (a.lo(), a.hi());
    let (b_lo, b_hi) = (b.lo(), b.hi());
    let x = gap_square([a_lo.x, a_hi.x], [b_lo.x, b_hi.x]);
    let y = gap_square([a_lo.y, a_hi.y], [b_lo.y, b_hi.y]);
    let z = gap_square([a_lo.z, a_hi.z], [b_lo.z, b_hi.z]);
    x.wrapping_add(y).wrapping_add(z)
}

// The square of the distance of a box under a slot, or 0.
fn square_at(world: &AnyWorld, body: &FBox, slot: u32) -> u128 {
    match world.at(slot) {
        Some(live) => square_of(body, &live.body),
        None => 0,
    }
}

// A random question. Where it doesn't begin at 0 some box lies at the very distance from which boxes count, or just before it.
fn question(world: &AnyWorld, random: &mut Random) -> Result<NearBoxQuery, Fail> {
    let body = body(random)?;
    let square = square_at(world, &body, u32::from(random.below(300)));
    let from = match random.below(3) {
        0 => 0,
        1 => square,
        _ => square.wrapping_add(1),
    };
    Ok(NearBoxQuery {
        body,
        from,
        want: u32::from(random.below(40)),
        groups: random.groups(),
    })
}

// Whether a box of these groups is asked for.
fn is_asked_for(is: u32, groups: Groups) -> bool {
    match groups {
        Groups::All => true,
        Groups::Of(mask) => is & mask != 0,
    }
}

// Every box that is asked for, by its square and its slot, in order; and of these the first so many.
fn look(world: &AnyWorld, query: &NearBoxQuery, seen: &mut Vec<(u128, u32)>) -> Result<(), Fail> {
    seen.clear();
    for slot in 0..BOXES {
        if let Some(live) = world.at(slot) {
            let square = square_of(&query.body, &live.body);
            if is_asked_for(live.masks.is, query.groups) && query.from <= square {
                seen.push((square, slot))?;
            }
        }
    }
    seen.sort()?;
    seen.truncate(query.want as usize);
    Ok(())
}

// Whether these are the handles of those boxes, in the same order.
fn are_those(handles: &[Handle], seen: &[(u128, u32)]) -> bool {
    let mut rest = seen;
    for handle in handles {
        let Some((first, more)) = rest.split_first() else {
            return false;
        };
        if handle.slot != first.1 {
            return false;
        }
        rest = more;
    }
    rest.is_empty()
}

// Asks a random question, and the same of a point and of the flat box at it.
fn is_nearest(
    world: &AnyWorld,
    random: &mut Random,
    room: &mut AskRoom,
    handles: &mut Vec<Handle>,
    seen: &mut Vec<(u128, u32)>,
) -> Result<bool, Fail> {
    let query = question(world, random)?;
    handles.clear();
    world.nearest_box(&query, room, handles)?;
    look(world, &query, seen)?;
    let nearest = are_those(handles, seen);
    let at = point(random);
    let flat = NearBoxQuery {
        body: FBox::new(at, at).ok_or("a box")?,
        from: 0,
        want: query.want,
        groups: query.groups,
    };
    let about = NearQuery {
        at,
        want: query.want,
        groups: query.groups,
    };
    handles.clear();
    world.nearest(&about, room, handles)?;
    look(world, &flat, seen)?;
    Ok(nearest && are_those(handles, seen))
}

// Many boxes, of which the nearest are asked for over and over.
fn are_nearest(alloc: Global, world: &mut AnyWorld) -> Result<bool, Fail> {
    let mut random = Random { state: 7 };
    for _ in 0..BOXES {
        let masks = Masks {
            is: random.mask(),
            sees: 1,
        };
        world.add(body(&mut random)?, masks, NOBODYS)?;
    }
    let mut room = AskRoom::new(alloc);
    let mut handles = Vec::new(alloc);
    let mut seen = Vec::new(alloc);
    for _ in 0..QUESTIONS {
        if !is_nearest(world, &mut random, &mut room, &mut handles, &mut seen)? {
            return Ok(false);
        }
    }
    Ok(true)
}

fn are_nearest_over(alloc: Global, structure: Structure) -> Result<bool, Fail> {
    let mut world = AnyWorld::new(alloc, structure)?;
    let nearest = are_nearest(alloc, &mut world);
    mem::forget(world);
    nearest
}

#[test]
fn the_nearest_to_a_box_are_those_that_a_look_at_every_box_finds(
    rt: HostRuntime,
) -> Result<(), Fail> {
    assert!(rt; are_nearest_over(rt.alloc(), Structure::Plain)?);
    assert!(rt; are_nearest_over(rt.alloc(), Structure::Sap)?);
    assert!(rt; are_nearest_over(rt.alloc(), Structure::Tree)?);
    assert!(rt; are_nearest_over(rt.alloc(), Structure::Grid)?);
    assert!(rt; are_nearest_over(rt.alloc(), Structure::Skin)?);
    Ok(())
}
