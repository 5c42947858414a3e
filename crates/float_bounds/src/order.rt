//! The order of finite floats, by their bits as whole numbers.

ghost use Rattle.std.specs.Prelude.{◌≡◌, int_le};
ghost use Rattle.float_bounds.specs.Narrow.{IsNarrow};
ghost use Rattle.float_bounds.specs.Rank.{rank};

use crate::format::Format;
use crate::parts::is_negative;

// Whether a finite float is at most another.
pub(crate) fn is_at_most(format: &Format, lower: u64, upper: u64) -> bool
    requires { IsNarrow format.now }
    ensures { result ≡ int_le (rank format.now lower) (rank format.now upper) }
{
    rank(format, lower) <= rank(format, upper)
}

// The bits below the sign, behind it. Finite floats are ordered as these are.
fn rank(format: &Format, bits: u64) -> i64
    requires { IsNarrow format.now }
    ensures { result ≡ rank format.now bits }
{
    let magnitude = (bits % (1 << (format.exponent_bits + format.fraction_bits))) as i64;
    if is_negative(format, bits) {
        -magnitude
    } else {
        magnitude
    }
}
