//! A decimal number at the front of a text, read digit by digit, with its length.

ghost use Rattle.std.specs.Prelude.{◌≡◌, ◌^◌, ◌+◌, ◌-◌, ◌*◌, ◌/◌, ◌<◌, ◌≤◌, ◌∷◌, true, false, Ok, All, length, take, slice_index, IfSome};
ghost use Rattle.std.specs.Char.{is_ascii_digit};
ghost use Rattle.std.specs.Str.{all_ascii_digits};
ghost use Rattle.std.specs.Str.Parse.{digits_value};
ghost use Rattle.fixed_box.specs.Fix.{fix};
ghost use Rattle.number_front.specs.Fronts.{IsMagnitudeFront, IsWholeFront, IsFractionFront};

use fixed_box::Fix;

// The most digits on either side of a point.
const MOST_DIGITS: usize = 9;

// The most digits that `digits_ahead` takes.
const MOST_AHEAD: usize = 10;

// From here on a number may be out of range. That is left to `read_fix`.
const LARGE: u64 = 32_767;

/// The number at the front of a text, in raw units, with the length of its text in bytes. It is read in one pass, for
/// a reader of lines who looks at what follows it.
///
/// It is the number that `read_fix` reads from those bytes. Each of them lies from `-` to `9`, so that no white space or
/// `#` is among them, and no digit follows them. `None` says nothing of the text: it comes where no number begins, where
/// more than nine digits stand on either side of a point, and at a number of 32,767 or more, since it may be out of
/// range. It looks at 21 bytes at most.
#[inline(always)]
pub fn fix_ahead(text: &[u8]) -> Option<(Fix, usize)>
    ensures value { IfSome result (λ found. fix (take found.1 text.now) ≡ Ok found.0) }
    ensures within { IfSome result (λ found. found.1 ≤ length text.now) }
    ensures plain { IfSome result (λ found. All (λ b. (45 ≤ b) × (b ≤ 57)) (take found.1 text.now)) }
    ensures longest { IfSome result (λ found. found.1 < length text.now → is_ascii_digit (slice_index text.now found.1) ≡ false) }
{
    let (negative, digits) = behind_sign(text);
    let (magnitude, len) = magnitude_ahead(digits)?;
    if negative {
        Some((-(magnitude as i32), 1 + len))
    } else {
        Some((magnitude as i32, len))
    }
}

// Whether a minus sign comes first, and the text behind it.
#[inline(always)]
pub(crate) fn behind_sign(text: &[u8]) -> (bool, &[u8])
    ensures sign { result.0 ≡ true → text.now ≡ 45 ∷ result.1.now }
    ensures none { result.0 ≡ false → text.now ≡ result.1.now }
{
    match text {
        [b'-', digits @ ..] => (true, digits),
        _ => (false, text),
    }
}

// The raw magnitude of the number without a sign, and its length.
#[inline(always)]
fn magnitude_ahead(text: &[u8]) -> Option<(u32, usize)>
    ensures { IfSome result (λ found. IsMagnitudeFront text.now found.0 found.1) }
{
    let (whole, whole_len) = whole_ahead(text)?;
    match text.split_at(whole_len).1 {
        [b'.', digits @ ..] => {
            let (fraction, len) = fraction_ahead(digits)?;
            let raw = whole * 65_536 + fraction;
            Some((raw as u32, whole_len + 1 + len))
        }
        _ => Some(((whole * 65_536) as u32, whole_len)),
    }
}

// The whole number that the first digits form, and how many they are.
#[inline(always)]
fn whole_ahead(text: &[u8]) -> Option<(u64, usize)>
    ensures { IfSome result (λ found. IsWholeFront text.now found.0 found.1) }
{
    if let Some((whole, len)) = few_digits(text) {
        return Some((whole, len));
    }
    long_whole(text)
}

// One to four digits, which most whole numbers have. There is a byte behind them that is none.
#[inline(always)]
fn few_digits(text: &[u8]) -> Option<(u64, usize)>
    ensures front { IfSome result (λ found. IsWholeFront text.now found.0 found.1) }
    ensures small { IfSome result (λ found. found.0 < 10 ^ found.1) }
{
    let [a, b, c, d, e, ..] = text else {
        return None;
    };
    if !a.is_ascii_digit() {
        return None;
    }
    let one = u32::from(*a - b'0');
    if !b.is_ascii_digit() {
        return Some((u64::from(one), 1));
    }
    let two = 10 * one + u32::from(*b - b'0');
    if !c.is_ascii_digit() {
        return Some((u64::from(two), 2));
    }
    let three = 10 * two + u32::from(*c - b'0');
    if !d.is_ascii_digit() {
        return Some((u64::from(three), 3));
    }
    let four = 10 * three + u32::from(*d - b'0');
    if !e.is_ascii_digit() {
        return Some((u64::from(four), 4));
    }
    None
}

// The same of any number of digits.
#[inline(never)]
fn long_whole(text: &[u8]) -> Option<(u64, usize)>
    ensures { IfSome result (λ found. IsWholeFront text.now found.0 found.1) }
{
    let (whole, len) = many_digits(text);
    if len == 0 || len > MOST_DIGITS || whole >= LARGE {
        return None;
    }
    Some((whole, len))
}

// The raw number that is nearest to the fraction whose digits come first, and how many they are. Most have five, which
// are divided by a constant.
#[inline(always)]
fn fraction_ahead(text: &[u8]) -> Option<(u64, usize)>
    ensures { IfSome result (λ found. IsFractionFront text.now found.0 found.1) }
{
    if let Some(fraction) = five_digits(text) {
        return Some(((fraction * 131_072 + 100_000) / 200_000, 5));
    }
    let (fraction, len) = many_digits(text);
    if len == 0 || len > MOST_DIGITS {
        return None;
    }
    Some((raw_fraction(fraction, len), len))
}

// The value of the first five bytes, where they are digits and no digit follows.
#[inline(always)]
fn five_digits(text: &[u8]) -> Option<u64>
    ensures value { IfSome result (λ value. value ≡ digits_value 10 (take 5 text.now)) }
    ensures digits { IfSome result (λ _. all_ascii_digits (take 5 text.now) ≡ true) }
    ensures within { IfSome result (λ _. 5 ≤ length text.now) }
    ensures small { IfSome result (λ value. value < 100000) }
    ensures longest { IfSome result (λ _. 5 < length text.now → is_ascii_digit (slice_index text.now 5) ≡ false) }
{
    let [a, b, c, d, e, rest @ ..] = text else {
        return None;
    };
    if a.is_ascii_digit()
        && b.is_ascii_digit()
        && c.is_ascii_digit()
        && d.is_ascii_digit()
        && e.is_ascii_digit()
        && !matches!(rest, [b'0'..=b'9', ..])
    {
        let three = 10 * (10 * u32::from(*a - b'0') + u32::from(*b - b'0')) + u32::from(*c - b'0');
        let five = 10 * (10 * three + u32::from(*d - b'0')) + u32::from(*e - b'0');
        Some(u64::from(five))
    } else {
        None
    }
}

// The raw number that is nearest to a fraction of so many digits. It is brought to nine, so that the divisor is known.
fn raw_fraction(fraction: u64, len: usize) -> u64
    requires few { len ≤ 9 }
    requires below { fraction < 10 ^ len }
    ensures value { result ≡ (fraction * 131072 + 10 ^ len) / (2 * 10 ^ len) }
    ensures small { result ≤ 65536 }
{
    (fraction * missing_places(len) * 131_072 + 1_000_000_000) / 2_000_000_000
}

// The power of ten that brings so many digits to nine.
fn missing_places(len: usize) -> u64
    requires { len ≤ 9 }
    ensures { result ≡ 10 ^ (9 - len) }
{
    match len {
        0 => 1_000_000_000,
        1 => 100_000_000,
        2 => 10_000_000,
        3 => 1_000_000,
        4 => 100_000,
        5 => 10_000,
        6 => 1_000,
        7 => 100,
        8 => 10,
        _ => 1,
    }
}

/// The decimal digits at the front of a text, at most ten: the number that they form, and how many they are. It looks
/// at one byte more than it takes, if at any.
#[inline(always)]
pub fn digits_ahead(text: &[u8]) -> (u64, usize)
    ensures value { result.0 ≡ digits_value 10 (take result.1 text.now) }
    ensures digits { all_ascii_digits (take result.1 text.now) ≡ true }
    ensures within { result.1 ≤ length text.now }
    ensures few { result.1 ≤ 10 }
    ensures small { result.0 < 10 ^ result.1 }
    ensures longest { result.1 < 10 → result.1 < length text.now → is_ascii_digit (slice_index text.now result.1) ≡ false }
{
    match few_digits(text) {
        Some(found) => found,
        None => many_digits(text),
    }
}

// The same of any number of digits.
#[inline(never)]
fn many_digits(text: &[u8]) -> (u64, usize)
    ensures value { result.0 ≡ digits_value 10 (take result.1 text.now) }
    ensures digits { all_ascii_digits (take result.1 text.now) ≡ true }
    ensures within { result.1 ≤ length text.now }
    ensures few { result.1 ≤ 10 }
    ensures small { result.0 < 10 ^ result.1 }
    ensures longest { result.1 < 10 → result.1 < length text.now → is_ascii_digit (slice_index text.now result.1) ≡ false }
{
    let most = text.len().min(MOST_AHEAD);
    let mut number = 0;
    let mut len = 0;
    'digits: while len < most && text[len].is_ascii_digit() {
        number = 10 * number + u64::from(text[len] - b'0');
        len += 1;
    }
    (number, len)
}
