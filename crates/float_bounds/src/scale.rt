//! Magnitudes shifted to raw units, rounded toward zero or away from it, and stopped beyond 32 bits.

ghost use Rattle.std.specs.Prelude.{◌≡◌, ◌*◌, ◌/◌, ◌-◌, ◌^◌, ◌<◌, ◌≤◌, min};
ghost use Rattle.std.specs.Int.{div_ceil};
ghost use Rattle.float_bounds.specs.Value.{signed};
ghost use Rattle.float_bounds.specs.Rounding.{within_range};

use crate::FloatFault;
use fixed_box::Fix;

// A raw magnitude that no coordinate reaches. Greater ones are stopped here.
const BEYOND: u64 = 1 << 32;

// `significand * 2^exponent / 2^step` rounded toward zero.
pub(crate) fn toward_zero(significand: u64, exponent: u32, step: u32) -> u64
    ensures { result ≡ min (significand * 2 ^ exponent / 2 ^ step) (2 ^ 32) }
{
    if exponent >= step {
        multiplied(significand, exponent - step)
    } else {
        divided(significand, step - exponent)
    }
}

// `significand * 2^exponent / 2^step` rounded away from zero.
pub(crate) fn away_from_zero(significand: u64, exponent: u32, step: u32) -> u64
    ensures { result ≡ min (div_ceil (significand * 2 ^ exponent) (2 ^ step)) (2 ^ 32) }
{
    if exponent >= step {
        multiplied(significand, exponent - step)
    } else {
        divided_up(significand, step - exponent)
    }
}

// `number * 2^by`.
fn multiplied(number: u64, by: u32) -> u64
    ensures { result ≡ min (number * 2 ^ by) (2 ^ 32) }
{
    if number == 0 {
        0
    } else if by >= 32 {
        BEYOND
    } else {
        (u128::from(number) << by).min(u128::from(BEYOND)) as u64
    }
}

// `number / 2^by` rounded down.
fn divided(number: u64, by: u32) -> u64
    ensures { result ≡ min (number / 2 ^ by) (2 ^ 32) }
{
    if by >= 64 {
        0
    } else {
        (number >> by).min(BEYOND)
    }
}

// `number / 2^by` rounded up.
fn divided_up(number: u64, by: u32) -> u64
    ensures { result ≡ min (div_ceil number (2 ^ by)) (2 ^ 32) }
{
    if by >= 64 {
        number.min(1)
    } else {
        number.div_ceil(1 << by).min(BEYOND)
    }
}

// A raw number from its sign and magnitude, where it fits.
pub(crate) fn signed(negative: bool, magnitude: u64) -> Result<Fix, FloatFault>
    requires { magnitude ≤ 2 ^ 32 }
    ensures { result ≡ within_range (signed negative magnitude) }
{
    let raw = if negative {
        -(magnitude as i64)
    } else {
        magnitude as i64
    };
    if raw >= i64::from(i32::MIN) && raw <= i64::from(i32::MAX) {
        Ok(raw as Fix)
    } else {
        Err(FloatFault::OutOfRange)
    }
}
