//! Lines and words cut off the front of a report.

ghost use Rattle.std.specs.Prelude.{◌≡◌, ◌+◌, [], ◌∷◌, length, IfSome, MatchOption};
ghost use Rattle.memchr.specs.Find.{is_byte};
ghost use Rattle.std.specs.List.{slice_split, before_first, after_first};
ghost use Rattle.scene_drill.specs.Summary.{first_word, later_words};

use memchr::memchr;

// What stands before the first such byte, and what stands after it, where there is one.
pub(crate) fn cut(byte: u8, text: &[u8]) -> (&[u8], Option<&[u8]>)
    ensures before { result.0.now ≡ before_first (is_byte byte) text.now }
    ensures after { MatchOption result.1 (after_first (is_byte byte) text.now ≡ []) (λ rest. rest.now ≡ after_first (is_byte byte) text.now) }
    ensures pieces { MatchOption result.1 (slice_split (is_byte byte) text.now ≡ result.0.now ∷ [])
        (λ rest. slice_split (is_byte byte) text.now ≡ result.0.now ∷ slice_split (is_byte byte) rest.now) }
    ensures length { IfSome result.1 (λ rest. length result.0.now + 1 + length rest.now ≡ length text.now) }
{
    let Some(place) = memchr(byte, text) else {
        return (text, None);
    };
    let (before, rest) = text.split_at(place);
    (before, Some(rest.split_at(1).1))
}

// The first word of a line, and what stands after the space behind it.
pub(crate) fn first_word(line: &[u8]) -> (&[u8], &[u8])
    ensures first { result.0.now ≡ first_word line.now }
    ensures later { result.1.now ≡ later_words line.now }
{
    match cut(b' ', line) {
        (word, Some(rest)) => (word, rest),
        (word, None) => (word, b"".as_slice()),
    }
}
