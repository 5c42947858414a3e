//! Decimal and hexadecimal digits, stored two at a time from a table.

ghost use Rattle.std.specs.Prelude.{◌≡◌, ◌+◌, ◌/◌, ◌%◌, ◌<◌, ◌≤◌, ◌++◌, ◌∷◌, [], false, take, decimal};
ghost use Rattle.std.specs.Fmt.{digit_glyph};
ghost use Rattle.text_line.specs.declared.TheConstants.{ROOM};

use crate::ROOM;

// Both digits of each number below 100.
static PAIRS: [u8; 200] = *b"0001020304050607080910111213141516171819\
        2021222324252627282930313233343536373839\
        4041424344454647484950515253545556575859\
        6061626364656667686970717273747576777879\
        8081828384858687888990919293949596979899";

// Writes a number in decimal at a place, and tells where it ends. The place goes from call to call as a value, so that
// a number's digits are stored with no length to be kept in memory between them.
#[inline(always)]
#[tactic(auto, using(crate::proofs::Decimal::pair_more))]
pub(crate) fn four_digits(number: u32, at: usize, into: &mut [u8; ROOM]) -> usize
    requires small { number < 10000 }
    requires room { at + 4 ≤ ROOM }
    ensures text { take result into.new ≡ take at into.old ++ decimal number }
    ensures end { result ≤ at + 4 }
{
    if number < 100 {
        return two_digits(number, at, into);
    }
    let at = two_digits(number / 100, at, into);
    pair(number % 100, at, into)
}

// The same of a number of up to two digits.
#[inline(always)]
#[tactic(auto, using(crate::proofs::Decimal::two_put))]
fn two_digits(number: u32, at: usize, into: &mut [u8; ROOM]) -> usize
    requires small { number < 100 }
    requires room { at + 2 ≤ ROOM }
    ensures text { take result into.new ≡ take at into.old ++ decimal number }
    ensures end { result ≤ at + 2 }
{
    if number < 10 {
        return digit(number, at, into);
    }
    pair(number, at, into)
}

// The same of one digit.
#[inline(always)]
#[tactic(auto, using(crate::proofs::Decimal::digit_put))]
fn digit(number: u32, at: usize, into: &mut [u8; ROOM]) -> usize
    requires small { number < 10 }
    requires room { at < ROOM }
    ensures text { take result into.new ≡ take at into.old ++ decimal number }
    ensures end { result ≡ at + 1 }
{
    into[at] = b'0' + number as u8;
    at + 1
}

// Writes two digits, of which the first may be a zero.
#[inline(always)]
fn pair(number: u32, at: usize, into: &mut [u8; ROOM]) -> usize
    requires small { number < 100 }
    requires room { at + 2 ≤ ROOM }
    ensures text { take result into.new ≡ take at into.old ++ (48 + number / 10) ∷ (48 + number % 10) ∷ [] }
    ensures end { result ≡ at + 2 }
{
    let place = number as usize * 2;
    let (tens, ones) = (PAIRS[place], PAIRS[place + 1]);
    into[at] = tens;
    into[at + 1] = ones;
    at + 2
}

// The byte of a digit of base 16, of lower case.
pub(crate) fn hexadecimal_digit(digit: u8) -> u8
    requires { digit < 16 }
    ensures { result ≡ digit_glyph false digit }
{
    if digit < 10 {
        b'0' + digit
    } else {
        b'a' + (digit - 10)
    }
}
