//! The least box of fixed point around a box of floats, and which fault of its corners comes first.

ghost use Rattle.std.specs.Prelude.{◌≡◌, ◌≤ℤ◌, IfOk};
ghost use Rattle.float_bounds.specs.Narrow.{IsNarrow};
ghost use Rattle.float_bounds.specs.Format.{binary32, binary64};
ghost use Rattle.float_bounds.specs.Around.{span_around, box_of, box_around};

use crate::FloatFault;
use crate::fix::{fix_above, fix_below};
use crate::format::{BINARY32, BINARY64, Format};
use crate::order::is_at_most;
use fixed_box::{FBox, Fix, Point};

// A raw interval.
#[derive(Clone, Copy)]
pub(crate) struct Span {
    pub lo: Fix,
    pub hi: Fix,
}

/// The least box of fixed point that holds the box of floats between two corners, given on x, y and z by their bits of
/// binary32: the lower corner is rounded down and the upper one up. So boxes of floats that have a common point have boxes
/// of fixed point that do, and no pair is lost.
///
/// The axes are taken in turn, and the first with a fault decides: on it comes first the fault of the lower number, then
/// that of the upper one (as `fix_below_32` and `fix_above_32` answer them), and then `Inverted`, where the lower number
/// is greater than the upper one as a float. Corners whose floats are equal are none such, nor are -0 and 0.
pub fn box_around_32(lo: [u32; 3], hi: [u32; 3]) -> Result<FBox, FloatFault>
    ensures { result ≡ box_around binary32 lo hi }
{
    box_around(&BINARY32, &wide(&lo), &wide(&hi))
}

/// As `box_around_32`, of the bits of binary64.
pub fn box_around_64(lo: [u64; 3], hi: [u64; 3]) -> Result<FBox, FloatFault>
    ensures { result ≡ box_around binary64 lo hi }
{
    box_around(&BINARY64, &lo, &hi)
}

// The same bits, in a wider type.
fn wide(bits: &[u32; 3]) -> [u64; 3]
    ensures { result ≡ bits.now }
{
    [u64::from(bits[0]), u64::from(bits[1]), u64::from(bits[2])]
}

// The box around a box of floats.
fn box_around(format: &Format, lo: &[u64; 3], hi: &[u64; 3]) -> Result<FBox, FloatFault>
    requires { IsNarrow format.now }
    ensures { result ≡ box_around format.now lo.now hi.now }
{
    let x = span_around(format, lo[0], hi[0])?;
    let y = span_around(format, lo[1], hi[1])?;
    let z = span_around(format, lo[2], hi[2])?;
    box_of(&x, &y, &z)
}

// The interval around an interval of floats.
fn span_around(format: &Format, lo: u64, hi: u64) -> Result<Span, FloatFault>
    requires { IsNarrow format.now }
    ensures span { result ≡ span_around format.now lo hi }
    ensures ordered { IfOk result (λ s. s.lo ≤ℤ s.hi) }
{
    let low = fix_below(format, lo)?;
    let high = fix_above(format, hi)?;
    if is_at_most(format, lo, hi) {
        Ok(Span { lo: low, hi: high })
    } else {
        Err(FloatFault::Inverted)
    }
}

// The box with an interval on each axis.
fn box_of(x: &Span, y: &Span, z: &Span) -> Result<FBox, FloatFault>
    requires x { x.now.lo ≤ℤ x.now.hi }
    requires y { y.now.lo ≤ℤ y.now.hi }
    requires z { z.now.lo ≤ℤ z.now.hi }
    ensures { result ≡ Ok (box_of x.now y.now z.now) }
{
    let lo = Point {
        x: x.lo,
        y: y.lo,
        z: z.lo,
    };
    let hi = Point {
        x: x.hi,
        y: y.hi,
        z: z.hi,
    };
    FBox::new(lo, hi).ok_or(FloatFault::Inverted)
}
