//! The axes of space, and the coordinate of a point on each.

ghost use Rattle.std.specs.Prelude.{◌≡◌};
ghost use Rattle.sweep_prune.specs.Keyed.{coord};

use fixed_box::{Fix, Point};

/// An axis of space.
#[derive(Clone, Copy, Debug, PartialEq, Eq)]
pub enum Axis {
    X,
    Y,
    Z,
}

// A point's coordinate on an axis.
pub(crate) fn coordinate(at: Point, axis: Axis) -> Fix
    ensures { result ≡ coord axis at }
{
    match axis {
        Axis::X => at.x,
        Axis::Y => at.y,
        Axis::Z => at.z,
    }
}
