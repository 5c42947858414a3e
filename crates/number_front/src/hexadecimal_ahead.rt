//! Eight hexadecimal digits at the front of a text, read four at a time in one machine word.

ghost use Rattle.std.specs.Prelude.{◌≡◌, ℕ, ◌<◌, ◌≤◌, true, length, take, IfSome};
ghost use Rattle.std.specs.Char.{is_digit};
ghost use Rattle.std.specs.List.{list_all};
ghost use Rattle.std.specs.Str.Parse.{digits_value};
ghost use Rattle.number_front.specs.Fronts.{AreHexadecimal, four_of};

use crate::printed_ahead::{ABOVE_NINE, HIGH_BITS, ZEROS, word_at};

// The bit that letters have and decimal digits haven't, of each byte.
const LETTER_BITS: u32 = 0x4040_4040;

// What a small letter has above a zero, but for ten.
const ABOVE_ZERO: u32 = 49;

/// The number that the first eight bytes of a text form, where each is a hexadecimal digit, and no capital. A digit may follow
/// them. `None` says nothing of the text.
#[inline(always)]
pub fn eight_hexadecimal_ahead(text: &[u8]) -> Option<u32>
    ensures value { IfSome result (λ value. value ≡ digits_value 16 (take 8 text.now)) }
    ensures digits { IfSome result (λ _. list_all (λ b. is_digit b 16) (take 8 text.now) ≡ true) }
    ensures within { IfSome result (λ _. 8 ≤ length text.now) }
{
    if text.len() < 8 {
        return None;
    }
    let high = four_hexadecimal(word_at(text, 0))?;
    let low = four_hexadecimal(word_at(text, 4))?;
    Some(high * 65_536 + low)
}

// The number that four such digits form, all tested at once. Sums of neighbours make pairs of digits, then one of both pairs.
#[inline(always)]
fn four_hexadecimal(word: u32) -> Option<u32>
    ensures digits { (p q r s : ℕ) → (p < 256) × (q < 256) × (r < 256) × (s < 256) → word ≡ four_of p q r s
        → IfSome result (AreHexadecimal p q r s) }
    ensures small { IfSome result (λ number. number < 65536) }
{
    let letters = (word & LETTER_BITS) / 64;
    let values = word.wrapping_sub(ZEROS).wrapping_sub(letters * ABOVE_ZERO);
    if values & HIGH_BITS != 0 || values.wrapping_add(ABOVE_NINE + 4 * letters) & HIGH_BITS != 0 {
        return None;
    }
    let digits = values.wrapping_add(10 * letters);
    let pairs = (digits.wrapping_mul(16 * 256 + 1) / 256) & 0x00FF_00FF;
    Some(pairs.wrapping_mul(256 * 65_536 + 1) / 65_536)
}
