//! The nearest boxes to a box, which is fattened more and more until it meets enough of them.

ghost use Rattle.std.specs.Prelude.{◌≡◌, ◌<◌, ◌≤◌, ◌++◌, false, IsTrue, take, OnOk, OnErr};
ghost use Rattle.std.specs.List.{filter_map};
ghost use Rattle.fixed_box.specs.declared.TheConstants.{SLOTS};
ghost use Rattle.fixed_box.specs.Bounds.{fattened};
ghost use Rattle.ordered_lists.specs.Ordered.{ordered_by};
ghost use Rattle.broad_index.specs.Found.{found};
ghost use Rattle.broad_index.specs.declared.query.Query.TheVariants.{Region};
ghost use Rattle.near_boxes.specs.Bodies.{AreInSpace, AreAmong};
ghost use Rattle.near_boxes.specs.Nearest.{nearest_about, near_cmp};
ghost use Rattle.near_boxes.specs.Within.{within};

use crate::descent::descend;
use crate::distance::{square_apart, squared};
use crate::{Bodies, Near, NearRoom};
use broad_index::{BroadPhase, Query, member_laws};
use fixed_box::{FBox, NoMemory, space_law};
use ordered_lists::{order_laws, push_front_in_order};
use slot_lists::push_filter_mapped;
use std::mem;

// By how much the box is fattened first, in raw units: a sixteenth of a unit.
const NARROWEST: u32 = 1 << 12;

// Up to how many are sought by one descent, which puts each box that it is shown into its place among those that it has.
const MOST_BY_DESCENT: u32 = 64;

/// Appends the `want` bodies that are nearest to a box, or all where there are fewer, in rising order of the square of
/// their distance and then of their slot. Those nearest to a point are those nearest to its `spot`. After an `Err` `out` is
/// as before.
///
/// Up to 64 are sought by one descent of an index that descends, which passes by what lies farther than those it has. Else it
/// asks the index for the box fattened a little, and then fattened more until `want` bodies lie within its margin: at most 21 times, of
/// which the last asks for all of space. So over a structure that keeps boxes by where they are, its time goes by how many lie about as
/// near as the last of the answer. It takes memory if `out` has too little room for the answer, or `room` for one more than `want`, for the slots
/// that the fattened box meets, and for those of the bodies that are near enough.
///
/// ```
/// nearest(&mut room, &index, &bodies, &body, 8, &mut nears)?; // the slots of the eight nearest, each with its square
/// ```
pub fn nearest<B: BroadPhase, T: Bodies>(
    room: &mut NearRoom,
    index: &B,
    bodies: &T,
    to: &FBox,
    want: u32,
    out: &mut Vec<Near>,
) -> Result<(), NoMemory>
    requires want { (1 ≤ want) × (want ≤ SLOTS) }
    requires sound { B.spent index.now ≡ false }
    requires among { AreAmong (T.bodies bodies.now) (B.bodies index.now) }
    ensures ok { OnOk result (out.new.items ≡ out.old.items ++ nearest_about (T.bodies bodies.now) to.now want) }
    ensures err { OnErr result (out.new.items ≡ out.old.items) }
{
    in_space(bodies);
    if want <= MOST_BY_DESCENT && index.descends() {
        return push_by_descent(room, index, bodies, to, want as usize, out);
    }
    let want = want as usize;
    find_enough(room, index, bodies, to, want)?;
    push_front_in_order(&mut room.nears, want, out)?;
    Ok(())
}

// The same by one descent.
fn push_by_descent<B: BroadPhase, T: Bodies>(
    room: &mut NearRoom,
    index: &B,
    bodies: &T,
    to: &FBox,
    want: usize,
    out: &mut Vec<Near>,
) -> Result<(), NoMemory>
    requires in_space { AreInSpace (T.bodies bodies.now) }
    requires among { AreAmong (T.bodies bodies.now) (B.bodies index.now) }
    ensures ok { OnOk result (out.new.items ≡ out.old.items ++ nearest_about (T.bodies bodies.now) to.now want) }
    ensures err { OnErr result (out.new.items ≡ out.old.items) }
{
    let alloc = *room.nears.allocator();
    let mut nears = mem::replace(&mut room.nears, Vec::new(alloc));
    nears.clear();
    room.nears = descend(nears, &mut room.slots, index, bodies, to, want)?;
    out.extend_from_slice(&room.nears)?;
    Ok(())
}

// All boxes lie in space, as the box of any slot says.
fn in_space<T: Bodies>(bodies: &T)
    ensures { AreInSpace (T.bodies bodies.now) }
{
    let _ = bodies.body(0);
}

// Finds bodies among which the `want` nearest are: if a fattened box has so many that lie within its margin, all others are
// farther than those.
fn find_enough<B: BroadPhase, T: Bodies>(
    room: &mut NearRoom,
    index: &B,
    bodies: &T,
    to: &FBox,
    want: usize,
) -> Result<(), NoMemory>
    requires in_space { AreInSpace (T.bodies bodies.now) }
    requires among { AreAmong (T.bodies bodies.now) (B.bodies index.now) }
    ensures { OnOk result (take want (ordered_by near_cmp room.new.nears.items) ≡ nearest_about (T.bodies bodies.now) to.now want) }
{
    order_laws::<Near>();
    member_laws();
    space_law(to);
    let (slots, found) = (&mut room.slots, &mut room.nears);
    let mut margin = NARROWEST;
    'margins: while margin < u32::MAX {
        find_slots(index, to, margin, slots)?;
        if slots.len() >= want {
            let most = u128::from(squared(margin));
            keep_within(bodies, to, most, slots, found)?;
            if found.len() >= want {
                return Ok(());
            }
        }
        margin = wider(margin, slots.len(), want);
    }
    // The last is all of space, and nothing in it is too far.
    find_slots(index, to, u32::MAX, slots)?;
    keep_within(bodies, to, u128::MAX, slots, found)?;
    Ok(())
}

// Twice the margin, or four times where so few boxes were found that eight times as many wouldn't be enough, since a cube
// twice as wide has eight times the room.
fn wider(margin: u32, found: usize, want: usize) -> u32
    requires some { 0 < margin }
    requires narrow { margin < 4294967295 }
    ensures { margin < result }
{
    let by = if found < want.div_ceil(8) { 4 } else { 2 };
    margin.saturating_mul(by)
}

// Replaces a list by the slots whose boxes meet a fattened box.
fn find_slots<B: BroadPhase>(
    index: &B,
    to: &FBox,
    margin: u32,
    slots: &mut Vec<u32>,
) -> Result<(), NoMemory>
    ensures { OnOk result (slots.new.items ≡ found (B.bodies index.now) (Region (fattened to.now margin))) }
{
    slots.clear();
    index.hits(&Query::Region(to.fatten(margin)), slots)
}

// Replaces a list by those of some slots whose bodies are within a distance of a box.
fn keep_within<T: Bodies>(
    bodies: &T,
    to: &FBox,
    most: u128,
    slots: &[u32],
    found: &mut Vec<Near>,
) -> Result<(), NoMemory>
    ensures { OnOk result (found.new.items ≡ filter_map (within (T.bodies bodies.now) to.now most) slots.now) }
{
    found.clear();
    push_filter_mapped(slots, found, |slot| within(bodies, to, most, *slot))
}

// A slot, where its body is within a distance of a box.
fn within<T: Bodies>(bodies: &T, to: &FBox, most: u128, slot: u32) -> Option<Near>
    ensures { result ≡ within (T.bodies bodies.now) to.now most slot }
{
    let body = bodies.body(slot)?;
    let square = square_apart(to, &body);
    if square <= most {
        Some(Near { slot, square })
    } else {
        None
    }
}
