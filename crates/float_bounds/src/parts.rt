//! The bits of a float taken apart into sign, significand and exponent.

ghost use Rattle.std.specs.Prelude.{◌≡◌, ◌==◌, if◌then◌else◌};
ghost use Rattle.float_bounds.specs.Narrow.{IsNarrow};
ghost use Rattle.float_bounds.specs.Value.{parts_of, is_negative};

use crate::FloatFault;
use crate::format::Format;

// A finite number: so many of the format's least positive number, `significand * 2^exponent`, with a sign.
#[derive(Clone, Copy)]
pub(crate) struct FloatParts {
    pub negative: bool,
    pub significand: u64,
    pub exponent: u32,
}

// Takes the bits of a float apart.
pub(crate) fn parts_of(format: &Format, bits: u64) -> Result<FloatParts, FloatFault>
    requires { IsNarrow format.now }
    ensures { result ≡ parts_of format.now bits }
{
    let hidden = 1u64 << format.fraction_bits;
    let exponents = 1u64 << format.exponent_bits;
    let fraction = bits % hidden;
    let biased = (bits >> format.fraction_bits) % exponents;
    if biased == exponents - 1 {
        return Err(unfinite(fraction));
    }
    Ok(FloatParts {
        negative: is_negative(format, bits),
        // a normal number has a first bit that is not stored
        significand: if biased == 0 {
            fraction
        } else {
            hidden + fraction
        },
        exponent: (biased as u32).saturating_sub(1),
    })
}

// The sign of a float.
pub(crate) fn is_negative(format: &Format, bits: u64) -> bool
    requires { IsNarrow format.now }
    ensures { result ≡ is_negative format.now bits }
{
    (bits >> (format.exponent_bits + format.fraction_bits)) % 2 == 1
}

// What a float under the greatest biased exponent is.
fn unfinite(fraction: u64) -> FloatFault
    ensures { result ≡ (if fraction == 0 then FloatFault.OutOfRange else FloatFault.NotANumber) }
{
    if fraction == 0 {
        FloatFault::OutOfRange
    } else {
        FloatFault::NotANumber
    }
}
