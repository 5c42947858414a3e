//! A float rounded down, or up, to a raw number, from its bits in either format.

ghost use Rattle.std.specs.Prelude.{◌≡◌, ◌*◌, ◌/◌, ◌^◌, ◌≤◌, min, if◌then◌else◌};
ghost use Rattle.std.specs.Int.{div_ceil};
ghost use Rattle.float_bounds.specs.Narrow.{IsNarrow};
ghost use Rattle.float_bounds.specs.Format.{binary32, binary64};
ghost use Rattle.float_bounds.specs.Rounding.{fix_below, fix_above};

use crate::FloatFault;
use crate::format::{BINARY32, BINARY64, Format};
use crate::parts::{FloatParts, parts_of};
use crate::scale::{away_from_zero, signed, toward_zero};
use fixed_box::Fix;

/// The greatest raw number that is at most 65,536 times the float with these bits of binary32, as `f32::to_bits` gives
/// them. So a lower corner is rounded outwards. -0 is 0, and subnormal numbers count.
///
/// `NotANumber` is the answer to a NaN, and `OutOfRange` to an infinity and where the raw number doesn't fit 32 bits. It
/// takes constant time and no memory. The formats are those of IEEE 754-2019, 3.4.
pub fn fix_below_32(bits: u32) -> Result<Fix, FloatFault>
    ensures { result ≡ fix_below binary32 bits }
{
    fix_below(&BINARY32, u64::from(bits))
}

/// The least raw number that is at least 65,536 times the float with these bits of binary32. So an upper corner is rounded
/// outwards. All else is as in `fix_below_32`.
pub fn fix_above_32(bits: u32) -> Result<Fix, FloatFault>
    ensures { result ≡ fix_above binary32 bits }
{
    fix_above(&BINARY32, u64::from(bits))
}

/// As `fix_below_32`, of the bits of binary64, as `f64::to_bits` gives them.
pub fn fix_below_64(bits: u64) -> Result<Fix, FloatFault>
    ensures { result ≡ fix_below binary64 bits }
{
    fix_below(&BINARY64, bits)
}

/// As `fix_above_32`, of the bits of binary64.
pub fn fix_above_64(bits: u64) -> Result<Fix, FloatFault>
    ensures { result ≡ fix_above binary64 bits }
{
    fix_above(&BINARY64, bits)
}

// A float rounded toward the lower side.
pub(crate) fn fix_below(format: &Format, bits: u64) -> Result<Fix, FloatFault>
    requires { IsNarrow format.now }
    ensures { result ≡ fix_below format.now bits }
{
    let number = parts_of(format, bits)?;
    let step = format.bias + format.fraction_bits - 17;
    signed(number.negative, lower_magnitude(&number, step))
}

// A float rounded toward the upper side.
pub(crate) fn fix_above(format: &Format, bits: u64) -> Result<Fix, FloatFault>
    requires { IsNarrow format.now }
    ensures { result ≡ fix_above format.now bits }
{
    let number = parts_of(format, bits)?;
    let step = format.bias + format.fraction_bits - 17;
    signed(number.negative, upper_magnitude(&number, step))
}

// The magnitude of a number that is rounded toward the lower side: a negative one is rounded away from zero.
fn lower_magnitude(number: &FloatParts, step: u32) -> u64
    ensures value { result ≡ min (if number.now.negative
        then div_ceil (number.now.significand * 2 ^ number.now.exponent) (2 ^ step)
        else number.now.significand * 2 ^ number.now.exponent / 2 ^ step) (2 ^ 32) }
    ensures bound { result ≤ 2 ^ 32 }
{
    if number.negative {
        away_from_zero(number.significand, number.exponent, step)
    } else {
        toward_zero(number.significand, number.exponent, step)
    }
}

// The magnitude of a number that is rounded toward the upper side: a negative one is rounded toward zero.
fn upper_magnitude(number: &FloatParts, step: u32) -> u64
    ensures value { result ≡ min (if number.now.negative
        then number.now.significand * 2 ^ number.now.exponent / 2 ^ step
        else div_ceil (number.now.significand * 2 ^ number.now.exponent) (2 ^ step)) (2 ^ 32) }
    ensures bound { result ≤ 2 ^ 32 }
{
    if number.negative {
        toward_zero(number.significand, number.exponent, step)
    } else {
        away_from_zero(number.significand, number.exponent, step)
    }
}
