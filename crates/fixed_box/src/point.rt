//! A point in raw units, and what boxes ask of their corners: order, the lower and upper of two, and margins.

ghost use Rattle.std.specs.Prelude.{◌≡◌, ◌≤ℤ◌, IsTrue, int_le};
ghost use Rattle.fixed_box.specs.Point.{is_at_most, lower_corner, upper_corner, lowered, raised, lowered_corner, raised_corner};

use crate::Fix;

/// A point in space, in raw units.
#[derive(Clone, Copy, Debug, PartialEq, Eq)]
pub struct Point {
    pub x: Fix,
    pub y: Fix,
    pub z: Fix,
}

// Whether each coordinate is at most the other point's.
pub(crate) fn is_at_most(p: &Point, q: &Point) -> bool
    ensures { result ≡ is_at_most p.now q.now }
{
    (p.x <= q.x) & (p.y <= q.y) & (p.z <= q.z)
}

// The lesser coordinates of two points.
pub(crate) fn lower_corner(p: &Point, q: &Point) -> Point
    ensures value { result ≡ lower_corner p.now q.now }
    ensures left { IsTrue (is_at_most result p.now) }
    ensures right { IsTrue (is_at_most result q.now) }
    ensures greatest { (r : Point) → IsTrue (is_at_most r p.now) → IsTrue (is_at_most r q.now)
        → IsTrue (is_at_most r result) }
{
    Point {
        x: p.x.min(q.x),
        y: p.y.min(q.y),
        z: p.z.min(q.z),
    }
}

// The greater coordinates of two points.
pub(crate) fn upper_corner(p: &Point, q: &Point) -> Point
    ensures value { result ≡ upper_corner p.now q.now }
    ensures left { IsTrue (is_at_most p.now result) }
    ensures right { IsTrue (is_at_most q.now result) }
    ensures least { (r : Point) → IsTrue (is_at_most p.now r) → IsTrue (is_at_most q.now r)
        → IsTrue (is_at_most result r) }
{
    Point {
        x: p.x.max(q.x),
        y: p.y.max(q.y),
        z: p.z.max(q.z),
    }
}

// The point with each coordinate moved down, as far as 32 bits go.
pub(crate) fn lowered_corner(p: &Point, by: u32) -> Point
    ensures value { result ≡ lowered_corner p.now by }
    ensures below { IsTrue (is_at_most result p.now) }
{
    Point {
        x: lowered(p.x, by),
        y: lowered(p.y, by),
        z: lowered(p.z, by),
    }
}

// The point with each coordinate moved up, as far as 32 bits go.
pub(crate) fn raised_corner(p: &Point, by: u32) -> Point
    ensures value { result ≡ raised_corner p.now by }
    ensures above { IsTrue (is_at_most p.now result) }
{
    Point {
        x: raised(p.x, by),
        y: raised(p.y, by),
        z: raised(p.z, by),
    }
}

fn lowered(x: Fix, by: u32) -> Fix
    ensures value { result ≡ lowered x by }
    ensures below { IsTrue (int_le result x) }
{
    (i64::from(x) - i64::from(by)).max(i64::from(i32::MIN)) as Fix
}

fn raised(x: Fix, by: u32) -> Fix
    ensures value { result ≡ raised x by }
    ensures above { IsTrue (int_le x result) }
{
    (i64::from(x) + i64::from(by)).min(i64::from(i32::MAX)) as Fix
}
