//! Reads a decimal number as the raw number nearest to it.

ghost use Rattle.std.specs.Prelude.{◌≡◌, ◌^◌, ◌<◌, pos, negsuc, neg_ℤ, if◌then◌else◌, option_map, IfSome, codes};
ghost use Rattle.fixed_box.specs.Fix.{fix, fix_of_digits, digits_of_text, within_range};
ghost use Rattle.fixed_box.specs.Decimal.{decimal_of, with_fraction, magnitude_of, IsSized};

use crate::{Fix, FixFault};

// The most digits before the point, and behind it.
const WHOLE_DIGITS: u32 = 10;

const FRACTION_DIGITS: u32 = 9;

// A number without a sign, `whole + fraction / scale`. The scale is a power of ten.
#[derive(Clone, Copy)]
struct Decimal {
    whole: u64,
    fraction: u64,
    scale: u64,
}

/// The raw number that is nearest to the number in a text: an optional `-`, one to ten digits, and optionally `.` and
/// one to nine digits.
///
/// `Form` is the answer to any other text, and `Range` where the raw number doesn't fit 32 bits.
pub fn read_fix(text: &[u8]) -> Result<Fix, FixFault>
    ensures { result ≡ fix text.now }
{
    match text {
        [b'-', rest @ ..] => read_signed(true, rest),
        _ => read_signed(false, text),
    }
}

// What a text behind its sign stands for.
fn read_signed(negative: bool, text: &[u8]) -> Result<Fix, FixFault>
    ensures { result ≡ fix_of_digits negative (digits_of_text text.now) }
{
    match read_decimal(text) {
        Some(number) => signed(negative, raw_magnitude(&number)),
        None => Err(FixFault::Form),
    }
}

// The number in a text without a sign.
fn read_decimal(text: &[u8]) -> Option<Decimal>
    ensures value { result ≡ option_map decimal_of (digits_of_text text.now) }
    ensures sized { IfSome result IsSized }
{
    let mut whole = 0;
    let mut count = 0;
    let mut rest = text;
    'whole: while let [byte, more @ ..] = rest {
        if *byte == b'.' && count > 0 {
            return read_fraction(whole, more);
        }
        if !byte.is_ascii_digit() || count == WHOLE_DIGITS {
            return None;
        }
        whole = 10 * whole + u64::from(*byte - b'0');
        count += 1;
        rest = more;
    }
    if count == 0 {
        return None;
    }
    Some(Decimal {
        whole,
        fraction: 0,
        scale: 1,
    })
}

// A number whose whole part is read, from the digits behind its point.
fn read_fraction(whole: u64, text: &[u8]) -> Option<Decimal>
    requires { whole < 10 ^ 10 }
    ensures value { result ≡ with_fraction whole text.now }
    ensures sized { IfSome result IsSized }
{
    let mut fraction = 0;
    let mut scale = 1;
    let mut count = 0;
    let mut rest = text;
    'fraction: while let [byte, more @ ..] = rest {
        if !byte.is_ascii_digit() || count == FRACTION_DIGITS {
            return None;
        }
        fraction = 10 * fraction + u64::from(*byte - b'0');
        scale *= 10;
        count += 1;
        rest = more;
    }
    if count == 0 {
        return None;
    }
    Some(Decimal {
        whole,
        fraction,
        scale,
    })
}

// The nearest raw number.
fn raw_magnitude(number: &Decimal) -> u64
    requires { IsSized number.now }
    ensures value { result ≡ magnitude_of number.now }
    ensures bound { result < 2 ^ 63 }
{
    number.whole * 65_536 + (number.fraction * 131_072 + number.scale) / (2 * number.scale)
}

// A raw number from its magnitude, where it fits.
fn signed(negative: bool, magnitude: u64) -> Result<Fix, FixFault>
    requires { magnitude < 2 ^ 63 }
    ensures { result ≡ within_range (if negative then neg_ℤ (pos magnitude) else pos magnitude) }
{
    let raw = if negative {
        -(magnitude as i64)
    } else {
        magnitude as i64
    };
    if raw >= i64::from(i32::MIN) && raw <= i64::from(i32::MAX) {
        Ok(raw as Fix)
    } else {
        Err(FixFault::Range)
    }
}

// Numbers at the edges, computed from the definition.
fn worked_texts()
    ensures least { fix (codes "-0.00001") ≡ Ok (negsuc 0) }
    ensures nearest { fix (codes "-0.000005") ≡ Ok (pos 0) }
    ensures greatest { fix (codes "32767.99999") ≡ Ok (pos 2147483647) }
    ensures over { fix (codes "32767.999999") ≡ Err FixFault.Range }
    ensures no_fraction { fix (codes "1.") ≡ Err FixFault.Form }
    ensures no_whole { fix (codes ".5") ≡ Err FixFault.Form }
{}
