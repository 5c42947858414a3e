//! The line of an event in copies of known length, which most lines of a report are.

ghost use Rattle.std.specs.Prelude.{◌≡◌, ◌+◌, ◌≤◌, ◌++◌, ◌∷◌, [], length, take, vec_len, OnOk, OnErr, codes};
ghost use Rattle.pair_report.specs.PairReport.{handle_text, event_text};

use crate::handle_text::HandleText;
use fixed_box::NoMemory;
use pair_events::Event;

// The most bytes of a line of an event whose handles have 16 each.
const SHORT: usize = 40;

// Appends the line of an event: room for it that begins with its word, and in there two texts of fixed size, each of which
// overwrites what the one before has past its end. So all is a few copies of known length. A copy of a text's own length would
// be a call.
#[inline(always)]
pub(crate) fn put_short(
    event: Event,
    a: &HandleText,
    b: &HandleText,
    out: &mut Vec<u8>,
) -> Result<(), NoMemory>
    ensures ok { OnOk result (out.new.items ≡ out.old.items
        ++ (event_text event ++ handle_text a.now.handle ++ codes " " ++ handle_text b.now.handle ++ codes "\n")) }
    ensures err { OnErr result (out.new.items ≡ out.old.items) }
{
    let before = out.len();
    let (word, len) = word_of(event);
    out.extend_from_slice(word)?;
    let at = put_piece(a, before + len, out);
    let at = put_byte(b' ', at, out);
    let at = put_piece(b, at, out);
    let at = put_byte(b'\n', at, out);
    out.truncate(at);
    Ok(())
}

// The word of an event, with room for the rest of its line, and the length of the word.
#[inline(always)]
fn word_of(event: Event) -> (&'static [u8; SHORT], usize)
    ensures text { take result.1 result.0.now ≡ event_text event }
    ensures length { result.1 ≤ 6 }
{
    match event {
        Event::Begin => (b"begin                                   ", 6),
        Event::Stay => (b"stay                                    ", 5),
        Event::Over => (b"over                                    ", 5),
    }
}

// Writes the text of a handle at a place, and tells where it ends.
#[inline(always)]
fn put_piece(text: &HandleText, at: usize, out: &mut Vec<u8>) -> usize
    requires room { at + 16 ≤ vec_len out.old }
    ensures text { take result out.new.items ≡ take at out.old.items ++ handle_text text.now.handle }
    ensures end { result ≤ at + 16 }
    ensures len { vec_len out.new ≡ vec_len out.old }
{
    // A copy of its own can't overlap with the text, so nothing has to test that.
    let bytes = text.bytes;
    out[at..at + 16].copy_from_slice(&bytes);
    at + text.len as usize
}

// Writes a byte at a place, and tells where it ends.
#[inline(always)]
fn put_byte(byte: u8, at: usize, out: &mut Vec<u8>) -> usize
    requires room { at + 1 ≤ vec_len out.old }
    ensures text { take result out.new.items ≡ take at out.old.items ++ byte ∷ [] }
    ensures end { result ≡ at + 1 }
    ensures len { vec_len out.new ≡ vec_len out.old }
{
    out[at] = byte;
    at + 1
}
