//! Decimal numbers of the printed form at the front of a text, read by arithmetic on whole words.

ghost use Rattle.std.specs.Prelude.{◌≡◌, ℕ, ◌<◌, ◌≤◌, ◌*◌, ◌+◌, ◌-◌, ◌/◌, ◌%◌, ◌^◌, true, Ok, All, length, take, slice_index, IfSome};
ghost use Rattle.std.specs.Str.{all_ascii_digits};
ghost use Rattle.std.specs.Str.Parse.{digits_value};
ghost use Rattle.fixed_box.specs.Fix.{fix};
ghost use Rattle.number_front.specs.Fronts.{AreDigits, IsMagnitude, four_of, aligned};

use crate::numbers_ahead::behind_sign;
use fixed_box::Fix;

// Four zeros as digits.
pub(crate) const ZEROS: u32 = 0x3030_3030;

// The highest bit of each byte.
pub(crate) const HIGH_BITS: u32 = 0x8080_8080;

// Added to bytes below 128 it carries those above nine into the highest bit.
pub(crate) const ABOVE_NINE: u32 = 0x7676_7676;

// A bit of the second byte to the fourth, which marks one that is no digit.
const MARK_BITS: u32 = 0x1010_1000;

// Six in each of these bytes.
const SIXES: u32 = 0x0606_0600;

// The same bit of a fifth byte.
const FIFTH_BIT: u64 = 0x10_0000_0000;

/// The number at the front of a text, in raw units, with the length of its text in bytes, where it has the form in which
/// numbers are mostly printed: five digits behind the point, and up to four before it.
///
/// It is the number that `read_fix` reads from those bytes. Each of them lies from `-` to `9`. A digit may follow them,
/// so that whoever calls looks where the number ends. `None` says nothing of the text.
#[inline(always)]
pub fn printed_fix_ahead(text: &[u8]) -> Option<(Fix, usize)>
    ensures value { IfSome result (λ found. fix (take found.1 text.now) ≡ Ok found.0) }
    ensures within { IfSome result (λ found. found.1 ≤ length text.now) }
    ensures plain { IfSome result (λ found. All (λ b. (45 ≤ b) × (b ≤ 57)) (take found.1 text.now)) }
{
    let (negative, digits) = behind_sign(text);
    let (magnitude, len) = printed_magnitude(digits)?;
    if negative {
        Some((-(magnitude as i32), 1 + len))
    } else {
        Some((magnitude as i32, len))
    }
}

/// The same of a text that goes on behind any such number, so that its length is tested once, by whoever calls. The number
/// takes at most eleven bytes.
#[inline(always)]
pub fn printed_fix_inside(text: &[u8]) -> Option<(Fix, usize)>
    requires long { 12 ≤ length text.now }
    ensures value { IfSome result (λ found. fix (take found.1 text.now) ≡ Ok found.0) }
    ensures within { IfSome result (λ found. found.1 < length text.now) }
    ensures plain { IfSome result (λ found. All (λ b. (45 ≤ b) × (b ≤ 57)) (take found.1 text.now)) }
{
    let (negative, digits) = behind_sign(text);
    let (magnitude, len) = magnitude_inside(digits)?;
    if negative {
        Some((-(magnitude as i32), 1 + len))
    } else {
        Some((magnitude as i32, len))
    }
}

/// The number that decimal digits at the front of a text form, one to four, and how many they are, where this end, a colon or
/// a space, stands behind them. `None` says nothing of the text.
#[inline(always)]
pub fn index_before(end: u8, text: &[u8]) -> Option<(u32, usize)>
    ensures value { IfSome result (λ found. found.0 ≡ digits_value 10 (take found.1 text.now)) }
    ensures digits { IfSome result (λ found. all_ascii_digits (take found.1 text.now) ≡ true) }
    ensures some { IfSome result (λ found. 0 < found.1) }
    ensures few { IfSome result (λ found. found.1 ≤ 4) }
    ensures within { IfSome result (λ found. found.1 < length text.now) }
    ensures end { IfSome result (λ found. slice_index text.now found.1 ≡ end) }
{
    if text.len() < 5 {
        return None;
    }
    let (values, len) = before_end(end, word_at(text, 0));
    if text[len] != end || !are_digits(values) {
        return None;
    }
    Some((number_of(values), len))
}

// The raw magnitude of such a number without a sign, and its length.
#[inline(always)]
fn printed_magnitude(text: &[u8]) -> Option<(u32, usize)>
    ensures { IfSome result (λ found. IsMagnitude text.now found.0 found.1) }
{
    if text.len() < 4 {
        return None;
    }
    let (values, len) = before_end(b'.', word_at(text, 0));
    if text.len() < len + 6 {
        return None;
    }
    let magnitude = around_point(text, values, len)?;
    Some((magnitude, len + 6))
}

// The same where the text is long enough for any.
#[inline(always)]
fn magnitude_inside(text: &[u8]) -> Option<(u32, usize)>
    requires long { 11 ≤ length text.now }
    ensures magnitude { IfSome result (λ found. IsMagnitude text.now found.0 found.1) }
    ensures short { IfSome result (λ found. found.1 ≤ 10) }
{
    let (values, len) = before_end(b'.', word_at(text, 0));
    let magnitude = around_point(text, values, len)?;
    Some((magnitude, len + 6))
}

// The first of four bytes, up to a marked one, less zeros, as the last of four with zeros before them, and how many they are. The
// bytes behind them fall out. The first byte counts as unmarked, and one behind the fourth as marked.
#[inline(always)]
fn before_mark(word: u32, marks: u32) -> (u32, usize)
    ensures some { 1 ≤ result.1 }
    ensures few { result.1 ≤ 4 }
    ensures values { result.0 ≡ aligned word result.1 }
{
    let marks = u64::from(marks & MARK_BITS) + FIFTH_BIT;
    let place = marks.trailing_zeros();
    let values = word.wrapping_sub(ZEROS) << (36 - place);
    (values, (place / 8) as usize)
}

// The same up to a colon, or to any other end. A sum with six carries a colon into a bit that it carries no digit into. A point and
// a space lack a bit that each digit has.
#[inline(always)]
fn before_end(end: u8, word: u32) -> (u32, usize)
    ensures some { 1 ≤ result.1 }
    ensures few { result.1 ≤ 4 }
    ensures values { result.0 ≡ aligned word result.1 }
{
    match end {
        b':' => before_mark(word, word.wrapping_add(SIXES) / 4),
        _ => before_mark(word, !word),
    }
}

// The raw magnitude of so many digits, which have these values, a point and five digits.
#[inline(always)]
fn around_point(text: &[u8], values: u32, len: usize) -> Option<u32>
    requires some { 1 ≤ len }
    requires few { len ≤ 4 }
    requires long { len + 6 ≤ length text.now }
    requires values { values ≡ aligned
        (four_of (slice_index text.now 0) (slice_index text.now 1) (slice_index text.now 2) (slice_index text.now 3)) len }
    ensures { IfSome result (λ magnitude. IsMagnitude text.now magnitude (len + 6)) }
{
    if text[len] != b'.' {
        return None;
    }
    let fraction = word_at(text, len + 1).wrapping_sub(ZEROS);
    let last = text[len + 5].wrapping_sub(b'0');
    if !(are_digits(values) & are_digits(fraction)) || last > 9 {
        return None;
    }
    let raw = raw_fraction_of_five(10 * number_of(fraction) + u32::from(last));
    Some(number_of(values) * 65_536 + raw)
}

// The word of four bytes.
#[inline(always)]
pub(crate) fn word_at(text: &[u8], at: usize) -> u32
    requires { at + 4 ≤ length text.now }
    ensures { result ≡ four_of (slice_index text.now at) (slice_index text.now (at + 1)) (slice_index text.now (at + 2))
        (slice_index text.now (at + 3)) }
{
    match <[u8; 4]>::try_from(text.split_at(at).1.split_at(4).0) {
        Ok(bytes) => u32::from_le_bytes(bytes),
        Err(_) => unreachable!(),
    }
}

// Whether all bytes of a word are the values of digits.
#[inline(always)]
fn are_digits(values: u32) -> bool
    ensures { result ≡ true → AreDigits values }
{
    (values & HIGH_BITS == 0) & (values.wrapping_add(ABOVE_NINE) & HIGH_BITS == 0)
}

// The number that four digits form. Sums of neighbours make pairs of digits, then one of both pairs.
#[inline(always)]
fn number_of(values: u32) -> u32
    requires digits { AreDigits values }
    ensures value { (a b c d : ℕ) → (a ≤ 9) × (b ≤ 9) × (c ≤ 9) × (d ≤ 9) → values ≡ four_of a b c d
        → result ≡ ((a * 10 + b) * 10 + c) * 10 + d }
    ensures small { result ≤ 9999 }
{
    let pairs = (values.wrapping_mul(10 * 256 + 1) / 256) & 0x00FF_00FF;
    pairs.wrapping_mul(100 * 65_536 + 1) / 65_536
}

// The raw number that is nearest to a fraction of five digits. A product and a shift stand for the division.
#[inline(always)]
fn raw_fraction_of_five(fraction: u32) -> u32
    requires { fraction < 100000 }
    ensures { result ≡ (fraction * 131072 + 100000) / 200000 }
{
    ((u64::from(fraction) * 703_687_442 + 536_870_912) / 1_073_741_824) as u32
}
