//! Prints a raw number in decimal with five digits behind the point, and the law that it reads back.

ghost use Rattle.std.specs.Prelude.{◌≡◌, ℤ, ◌+◌, ◌^◌, ◌<◌, ◌≤◌, ◌≤ℤ◌, ◌∷◌, [], length, take, drop, pos, negsuc, decimal, Ok, All, codes};
ghost use Rattle.fixed_box.specs.Fix.{fix, show, show_magnitude, last_digits, hundred_thousandths};
ghost use Rattle.fixed_box.specs.Puts.{Puts};

use crate::Fix;

/// Puts the text of a raw number at the front of a buffer, with five digits behind the point, and answers its length.
/// The bytes behind it stay. It is for programs that write scenes: a scene is read by `read_fix`.
pub fn print_fix(value: Fix, into: &mut [u8; 16]) -> usize
    ensures length { result ≡ length (show value) }
    ensures text { take result into.new ≡ show value }
    ensures rest { drop result into.new ≡ drop result into.old }
    ensures bound { result ≤ 12 }
{
    let magnitude = value.unsigned_abs();
    if value < 0 {
        let start = put_byte(b'-', 0, into);
        return put_magnitude(magnitude, start, into);
    }
    put_magnitude(magnitude, 0, into)
}

// Puts a magnitude in units and hundred-thousandths of a unit.
fn put_magnitude(magnitude: u32, at: usize, into: &mut [u8; 16]) -> usize
    requires magnitude { magnitude ≤ 2 ^ 31 }
    requires room { at ≤ 1 }
    ensures put { Puts into.old into.new at result (show_magnitude (hundred_thousandths magnitude)) }
    ensures bound { result ≤ at + 11 }
{
    let hundred_thousandths = (u64::from(magnitude) * 100_000 + 32_768) / 65_536;
    let point = put_decimal((hundred_thousandths / 100_000) as u32, at, into);
    let fraction = put_byte(b'.', point, into);
    put_last_digits(5, (hundred_thousandths % 100_000) as u32, fraction, into)
}

// Puts a number without leading zeros.
fn put_decimal(number: u32, at: usize, into: &mut [u8; 16]) -> usize
    requires { at + length (decimal number) ≤ 16 }
    ensures { Puts into.old into.new at result (decimal number) }
{
    if number < 10 {
        return put_byte(b'0' + number as u8, at, into);
    }
    let last = put_decimal(number / 10, at, into);
    put_byte(b'0' + (number % 10) as u8, last, into)
}

// Puts the last digits of a number, so many, with leading zeros.
fn put_last_digits(count: u32, number: u32, at: usize, into: &mut [u8; 16]) -> usize
    requires { at + count ≤ 16 }
    ensures { Puts into.old into.new at result (last_digits count number) }
{
    if count == 0 {
        return at;
    }
    let last = put_last_digits(count - 1, number / 10, at, into);
    put_byte(b'0' + (number % 10) as u8, last, into)
}

// Puts one byte.
fn put_byte(byte: u8, at: usize, into: &mut [u8; 16]) -> usize
    requires { at < 16 }
    ensures { Puts into.old into.new at result (byte ∷ []) }
{
    into[at] = byte;
    at + 1
}

/// A law for proofs, with nothing to run: what `print_fix` puts reads back as the number that was printed, each of its
/// bytes lies from `-` to `9`, so that no white space or `#` cuts it, and there are at most 12.
pub fn printed_reads_back()
    ensures reads_back { (r : ℤ) → negsuc 2147483647 ≤ℤ r → r ≤ℤ pos 2147483647 → fix (show r) ≡ Ok r }
    ensures bytes { (r : ℤ) → negsuc 2147483647 ≤ℤ r → r ≤ℤ pos 2147483647
        → All (λ b. (45 ≤ b) × (b ≤ 57)) (show r) }
    ensures short { (r : ℤ) → negsuc 2147483647 ≤ℤ r → r ≤ℤ pos 2147483647 → length (show r) ≤ 12 }
{}

// Texts of a few raw numbers, computed from the definition.
fn worked_prints()
    ensures zero { show (pos 0) ≡ codes "0.00000" }
    ensures one { show (pos 1) ≡ codes "0.00002" }
    ensures below { show (negsuc 0) ≡ codes "-0.00002" }
    ensures unit { show (pos 65536) ≡ codes "1.00000" }
    ensures least { show (negsuc 2147483647) ≡ codes "-32768.00000" }
{}
