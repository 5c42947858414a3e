//! The line as a buffer of fixed size, to which text and numbers are appended.

ghost use Rattle.std.specs.Prelude.{◌≡◌, ◌+◌, ◌<◌, ◌≤◌, ◌++◌, false, [], length, decimal};
ghost use Rattle.std.specs.Fmt.{digits};
ghost use Rattle.text_line.specs.declared.TheConstants.{ROOM};

use crate::ROOM;
use crate::digits::{four_digits, hexadecimal_digit};
use itoa::Buffer;
use std::marker::Model;

/// A line of text while it is put together, up to `ROOM` bytes. It allocates nothing: an array holds the bytes. In
/// clauses it is the list of its bytes.
#[derive(Drop)]
pub struct TextLine {
    bytes: [u8; ROOM],
    len: usize,
}

impl Model for TextLine {
    ghost use Rattle.std.specs.Prelude.{ℕ, List, take, ◌≤◌};
    ghost use Rattle.text_line.specs.declared.TheConstants.{ROOM};

    ghost Value = { List ℕ };

    ghost view = { λ line. take line.len line.bytes };

    ghost invariant = { λ line. line.len ≤ ROOM };
}

impl TextLine {
    /// A line without bytes.
    #[inline(always)]
    pub fn new() -> TextLine
        ensures { result ≡ [] }
    {
        TextLine {
            bytes: [0; ROOM],
            len: 0,
        }
    }

    /// Its bytes, in order.
    #[inline(always)]
    pub fn bytes(&self) -> &[u8]
        ensures { result.now ≡ self.now }
    {
        self.bytes.split_at(self.len).0
    }

    /// Puts text at the end. Of a literal it becomes a few stores.
    #[inline(always)]
    pub fn text(&mut self, text: &[u8])
        requires { length self.old + length text.now ≤ ROOM }
        ensures text { self.new ≡ self.old ++ text.now }
        ensures length { length self.new ≡ length self.old + length text.now }
    {
        let end = self.len + text.len();
        self.bytes[self.len..end].copy_from_slice(text);
        self.len = end;
    }

    /// Puts a number at the end, in decimal. Numbers below 10,000 are the quick ones: most slots, generations and counts.
    #[inline(always)]
    pub fn number(&mut self, number: u32)
        requires { length self.old + 10 ≤ ROOM }
        ensures text { self.new ≡ self.old ++ decimal number }
        ensures length { length self.new ≤ length self.old + 10 }
    {
        if number < 10_000 {
            self.len = four_digits(number, self.len, &mut self.bytes);
        } else {
            self.long_number(number);
        }
    }

    // The same of any number.
    fn long_number(&mut self, number: u32)
        requires { length self.old + 10 ≤ ROOM }
        ensures text { self.new ≡ self.old ++ decimal number }
        ensures length { length self.new ≤ length self.old + 10 }
    {
        self.text(Buffer::new().format(number).as_bytes());
    }

    /// Puts a number of up to 64 bits at the end, in decimal.
    pub fn wide_number(&mut self, number: u64)
        requires { length self.old + 20 ≤ ROOM }
        ensures text { self.new ≡ self.old ++ decimal number }
        ensures length { length self.new ≤ length self.old + 20 }
    {
        if number <= u64::from(u32::MAX) {
            self.number(number as u32);
        } else {
            let mut digits = Buffer::new();
            self.text(digits.format(number).as_bytes());
        }
    }

    /// Puts a number at the end, in hexadecimal: digits of lower case, and no leading zeros.
    #[tactic(auto, using(crate::proofs::Hexadecimal::one_length, crate::proofs::Hexadecimal::more_length, crate::proofs::Hexadecimal::more_put))]
    pub fn hexadecimal(&mut self, number: u32)
        requires { length self.old + length (digits 16 false number) ≤ ROOM }
        ensures text { self.new ≡ self.old ++ digits 16 false number }
        ensures length { length self.new ≡ length self.old + length (digits 16 false number) }
    {
        if number < 16 {
            self.last_hexadecimal(number);
        } else {
            self.hexadecimal(number / 16);
            self.last_hexadecimal(number % 16);
        }
    }

    // The same of one digit.
    #[tactic(auto, using(crate::proofs::Hexadecimal::one_digit))]
    fn last_hexadecimal(&mut self, number: u32)
        requires small { number < 16 }
        requires room { length self.old < ROOM }
        ensures text { self.new ≡ self.old ++ digits 16 false number }
        ensures length { length self.new ≡ length self.old + 1 }
    {
        self.text(&[hexadecimal_digit(number as u8)]);
    }
}
