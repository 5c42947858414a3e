//! A split of leaves at the median along the axis on which their centres spread most.

ghost use Rattle.std.specs.Prelude.{◌≤◌, length};
ghost use Rattle.std.specs.List.Sorted.{IsPermutation};

use crate::leaf_key::{Along, AlongX, AlongY, AlongZ, LeafKey, middle};
use fixed_box::Point;

enum SplitAxis {
    X,
    Y,
    Z,
}

// How far centres reach on the axis on which they spread most.
struct Spread {
    axis: SplitAxis,
    lo: i32,
    hi: i32,
}

// How often a range of coordinates is halved at most: it has at most 2^32 of them.
const ROUNDS: u32 = 32;

// Puts the leaves that lie lowest before a place, and the others from there on, on the axis on which their centres
// spread most. The range of coordinates about the place is halved until one leaf is left in it, so the time is linear
// where the centres are spread evenly. No promise rests on the order, only on the same leaves being there.
pub(crate) fn divide(keys: &mut [LeafKey], place: usize)
    ensures { IsPermutation keys.old keys.new }
{
    // two leaves go apart in either order
    if keys.len() <= 2 {
        return;
    }
    let Spread { axis, lo, hi } = greatest_spread(keys);
    match axis {
        SplitAxis::X => divide_along::<AlongX>(keys, place, lo, hi),
        SplitAxis::Y => divide_along::<AlongY>(keys, place, lo, hi),
        SplitAxis::Z => divide_along::<AlongZ>(keys, place, lo, hi),
    }
}

// The same on one axis, on which the centres lie between two coordinates.
fn divide_along<A: Along>(keys: &mut [LeafKey], place: usize, mut lo: i32, mut hi: i32)
    ensures { IsPermutation keys.old keys.new }
{
    let (mut from, mut to) = (0, keys.len());
    'divide: for _ in 0..ROUNDS {
        let pivot = middle(lo, hi);
        if to - from < 2 || pivot <= lo {
            break;
        }
        let found = partition::<A>(keys, from, to, pivot);
        if place < found {
            to = found;
            hi = pivot;
        } else {
            from = found;
            lo = pivot;
        }
    }
}

// Of the leaves between two places puts those that lie below a pivot first, and answers where the others begin.
fn partition<A: Along>(keys: &mut [LeafKey], from: usize, to: usize, pivot: i32) -> usize
    requires order { from ≤ to }
    requires within { to ≤ length keys.old }
    ensures order { IsPermutation keys.old keys.new }
    ensures least { from ≤ result }
    ensures most { result ≤ to }
{
    let mut place = from;
    'partition: for at in from..to {
        if A::coordinate(&keys[at].centre) < pivot {
            keys.swap(place, at);
            place += 1;
        }
    }
    place
}

// The spread on the axis where it is greatest.
fn greatest_spread(keys: &[LeafKey]) -> Spread {
    let [first, rest @ ..] = keys else {
        return Spread {
            axis: SplitAxis::X,
            lo: 0,
            hi: 0,
        };
    };
    let (mut lo, mut hi) = (first.centre, first.centre);
    for key in rest {
        let at = key.centre;
        lo = Point {
            x: lo.x.min(at.x),
            y: lo.y.min(at.y),
            z: lo.z.min(at.z),
        };
        hi = Point {
            x: hi.x.max(at.x),
            y: hi.y.max(at.y),
            z: hi.z.max(at.z),
        };
    }
    longest_side(&lo, &hi)
}

// The longest side of the box between two corners.
fn longest_side(lo: &Point, hi: &Point) -> Spread {
    let x = hi.x.abs_diff(lo.x);
    let y = hi.y.abs_diff(lo.y);
    let z = hi.z.abs_diff(lo.z);
    if y <= x && z <= x {
        Spread {
            axis: SplitAxis::X,
            lo: lo.x,
            hi: hi.x,
        }
    } else if z <= y {
        Spread {
            axis: SplitAxis::Y,
            lo: lo.y,
            hi: hi.y,
        }
    } else {
        Spread {
            axis: SplitAxis::Z,
            lo: lo.z,
            hi: hi.z,
        }
    }
}
