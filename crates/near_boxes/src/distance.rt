//! The square of the distance from a point to a box, and of that between two boxes.

ghost use Rattle.std.specs.Prelude.{◌≡◌, ◌^◌, ◌<◌};
ghost use Rattle.near_boxes.specs.Nearest.{above, gap_between, spot, squared, square, square_apart};

use fixed_box::{FBox, Fix, Point};

/// The square of the distance from a point to the nearest point of a box, in raw units squared, and 0 where the box holds
/// the point (Ericson, *Real-Time Collision Detection*, 2005, 5.1.3.1). It is exact.
pub fn square(at: &Point, body: &FBox) -> u128
    ensures value { result ≡ square at.now body.now }
    ensures bound { result < 2 ^ 66 }
{
    square_apart(&spot(at), body)
}

/// The square of the distance between two boxes, in raw units squared: that between the two points, one of each box, that are
/// nearest to each other, and 0 if the boxes have a common point. It is exact.
pub fn square_apart(a: &FBox, b: &FBox) -> u128
    ensures value { result ≡ square_apart a.now b.now }
    ensures bound { result < 2 ^ 66 }
{
    let a_lo = a.lo();
    let a_hi = a.hi();
    let b_lo = b.lo();
    let b_hi = b.hi();
    let x = gap_square(a_lo.x, a_hi.x, b_lo.x, b_hi.x);
    let y = gap_square(a_lo.y, a_hi.y, b_lo.y, b_hi.y);
    let z = gap_square(a_lo.z, a_hi.z, b_lo.z, b_hi.z);
    u128::from(x) + u128::from(y) + u128::from(z)
}

/// The flat box at a point, whose distance from another box is the point's.
pub fn spot(at: &Point) -> FBox
    ensures { result ≡ spot at.now }
{
    FBox::new(*at, *at).unwrap()
}

// The square of how far two intervals lie apart.
fn gap_square(a_lo: Fix, a_hi: Fix, b_lo: Fix, b_hi: Fix) -> u64
    ensures value { result ≡ squared (gap_between a_lo a_hi b_lo b_hi) }
    ensures bound { result < 2 ^ 64 }
{
    squared(gap_between(a_lo, a_hi, b_lo, b_hi))
}

// How far two intervals lie apart.
fn gap_between(a_lo: Fix, a_hi: Fix, b_lo: Fix, b_hi: Fix) -> u32
    ensures { result ≡ gap_between a_lo a_hi b_lo b_hi }
{
    above(a_hi, b_lo).max(above(b_hi, a_lo))
}

// How far a coordinate lies above another, and 0 where it doesn't.
fn above(low: Fix, high: Fix) -> u32
    ensures { result ≡ above low high }
{
    if low < high { high.abs_diff(low) } else { 0 }
}

// The square of a number of 32 bits, which has at most 64.
pub(crate) fn squared(n: u32) -> u64
    ensures { result ≡ squared n }
{
    u64::from(n) * u64::from(n)
}
