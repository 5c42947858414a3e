//! A box cut in two on the way of a line.

ghost use Rattle.std.specs.Prelude.{◌≡◌, ◌<ℤ◌, ◌+ℤ◌, ◌-ℤ◌, pos, negsuc, IfSome};
ghost use Rattle.hier_grid.specs.Visits.{IsCutInTwo, coordinate, with_coordinate};

use fixed_box::{FBox, Fix, Point};
use grid_cells::{CutAxis, PathPlace};

/// The two parts of a box that is cut at a place on a line's way, the one that the line comes to first and what is left, or `None` if
/// the place isn't inside it.
pub(crate) fn cut_at(body: &FBox, place: &PathPlace) -> Option<(FBox, FBox)>
    ensures { IfSome result (IsCutInTwo body.now) }
{
    if place.upward {
        cut_up(body, place.axis, place.at)
    } else {
        cut_down(body, place.axis, place.at)
    }
}

// What lies up to a place on an axis, and what lies behind it.
fn cut_up(body: &FBox, axis: CutAxis, at: Fix) -> Option<(FBox, FBox)>
    ensures { IfSome result (IsCutInTwo body.now) }
{
    let lo = body.lo();
    let hi = body.hi();
    if at < coordinate(axis, &lo) || coordinate(axis, &hi) <= at {
        return None;
    }
    let near = FBox::new(lo, with_coordinate(axis, &hi, at))?;
    let left = FBox::new(with_coordinate(axis, &lo, after(at)), hi)?;
    Some((near, left))
}

// What lies from a place on an axis on, and what lies before it.
fn cut_down(body: &FBox, axis: CutAxis, at: Fix) -> Option<(FBox, FBox)>
    ensures { IfSome result (IsCutInTwo body.now) }
{
    let lo = body.lo();
    let hi = body.hi();
    if at <= coordinate(axis, &lo) || coordinate(axis, &hi) < at {
        return None;
    }
    let near = FBox::new(with_coordinate(axis, &lo, at), hi)?;
    let left = FBox::new(lo, with_coordinate(axis, &hi, before(at)))?;
    Some((near, left))
}

// Where a point is on an axis.
fn coordinate(axis: CutAxis, point: &Point) -> Fix
    ensures { result ≡ coordinate axis point.now }
{
    match axis {
        CutAxis::X => point.x,
        CutAxis::Y => point.y,
        CutAxis::Z => point.z,
    }
}

// A point with another place on an axis.
fn with_coordinate(axis: CutAxis, point: &Point, at: Fix) -> Point
    ensures { result ≡ with_coordinate axis point.now at }
{
    match axis {
        CutAxis::X => Point { x: at, ..*point },
        CutAxis::Y => Point { y: at, ..*point },
        CutAxis::Z => Point { z: at, ..*point },
    }
}

// The next coordinate.
fn after(at: Fix) -> Fix
    requires { at <ℤ pos 2147483647 }
    ensures { result ≡ (at +ℤ pos 1) }
{
    at + 1
}

// The coordinate before it.
fn before(at: Fix) -> Fix
    requires { negsuc 2147483647 <ℤ at }
    ensures { result ≡ (at -ℤ pos 1) }
{
    at - 1
}
