//! The lines of a report that tell one thing: a box, a frame, an event, a mark, the end.

ghost use Rattle.std.specs.Prelude.{◌≡◌, ◌+◌, ◌≤◌, ◌++◌, length, codes, decimal, OnOk, OnErr};
ghost use Rattle.pair_report.specs.PairReport.{handle_text, add_line, stale_line, frame_line, event_text, told_line, exchanges_line};
ghost use Rattle.pair_report.specs.PairReport.{mark_line, back_line, nomark_line, end_line, cause_text, refused_line};
ghost use Rattle.text_line.specs.declared.TheConstants.{ROOM};

use crate::Cause;
use fixed_box::NoMemory;
use live_table::Handle;
use pair_events::{Event, Told};
use text_line::TextLine;

/// A box was added: `add S:G`.
pub fn put_add(handle: Handle, out: &mut Vec<u8>) -> Result<(), NoMemory>
    ensures ok { OnOk result (out.new.items ≡ out.old.items ++ add_line handle) }
    ensures err { OnErr result (out.new.items ≡ out.old.items) }
{
    let mut line = TextLine::new();
    line.text(b"add ");
    put_handle(handle, &mut line);
    line.text(b"\n");
    Ok(out.extend_from_slice(line.bytes())?)
}

/// No live box has the handle: `stale S:G`.
pub fn put_stale(handle: Handle, out: &mut Vec<u8>) -> Result<(), NoMemory>
    ensures ok { OnOk result (out.new.items ≡ out.old.items ++ stale_line handle) }
    ensures err { OnErr result (out.new.items ≡ out.old.items) }
{
    let mut line = TextLine::new();
    line.text(b"stale ");
    put_handle(handle, &mut line);
    line.text(b"\n");
    Ok(out.extend_from_slice(line.bytes())?)
}

/// A frame ended: `frame F P`, its number and the number of pairs.
pub fn put_frame(number: u64, pairs: u32, out: &mut Vec<u8>) -> Result<(), NoMemory>
    ensures ok { OnOk result (out.new.items ≡ out.old.items ++ frame_line number pairs) }
    ensures err { OnErr result (out.new.items ≡ out.old.items) }
{
    let mut line = TextLine::new();
    line.text(b"frame ");
    line.wide_number(number);
    line.text(b" ");
    line.number(pairs);
    line.text(b"\n");
    Ok(out.extend_from_slice(line.bytes())?)
}

/// What became of a pair: `begin A B`, `stay A B` or `over A B`.
pub fn put_told(told: &Told, out: &mut Vec<u8>) -> Result<(), NoMemory>
    ensures ok { OnOk result (out.new.items ≡ out.old.items ++ told_line told.now) }
    ensures err { OnErr result (out.new.items ≡ out.old.items) }
{
    let mut line = TextLine::new();
    put_event(told.event, &mut line);
    put_handle(told.pair.a, &mut line);
    line.text(b" ");
    put_handle(told.pair.b, &mut line);
    line.text(b"\n");
    Ok(out.extend_from_slice(line.bytes())?)
}

/// The exchanges of a frame: `exchanges N`. It is for a play that counts them.
pub fn put_exchanges(number: u64, out: &mut Vec<u8>) -> Result<(), NoMemory>
    ensures ok { OnOk result (out.new.items ≡ out.old.items ++ exchanges_line number) }
    ensures err { OnErr result (out.new.items ≡ out.old.items) }
{
    let mut line = TextLine::new();
    line.text(b"exchanges ");
    line.wide_number(number);
    line.text(b"\n");
    Ok(out.extend_from_slice(line.bytes())?)
}

/// A mark was made: `mark N`, the number of marks that are held then, the new one among them.
pub fn put_mark(held: u32, out: &mut Vec<u8>) -> Result<(), NoMemory>
    ensures ok { OnOk result (out.new.items ≡ out.old.items ++ mark_line held) }
    ensures err { OnErr result (out.new.items ≡ out.old.items) }
{
    put_number(b"mark ", held, out)
}

/// The world is that of the newest mark again, which is dropped: `back N`, the number of marks that are left.
pub fn put_back(left: u32, out: &mut Vec<u8>) -> Result<(), NoMemory>
    ensures ok { OnOk result (out.new.items ≡ out.old.items ++ back_line left) }
    ensures err { OnErr result (out.new.items ≡ out.old.items) }
{
    put_number(b"back ", left, out)
}

/// No further mark is allowed, or none is there to go back to: `nomark N`, the number of marks that are held.
pub fn put_nomark(held: u32, out: &mut Vec<u8>) -> Result<(), NoMemory>
    ensures ok { OnOk result (out.new.items ≡ out.old.items ++ nomark_line held) }
    ensures err { OnErr result (out.new.items ≡ out.old.items) }
{
    put_number(b"nomark ", held, out)
}

// A word and a number.
fn put_number(word: &[u8], number: u32, out: &mut Vec<u8>) -> Result<(), NoMemory>
    requires { length word.now ≤ 7 }
    ensures ok { OnOk result (out.new.items ≡ out.old.items ++ (word.now ++ decimal number ++ codes "\n")) }
    ensures err { OnErr result (out.new.items ≡ out.old.items) }
{
    let mut line = TextLine::new();
    line.text(word);
    line.number(number);
    line.text(b"\n");
    Ok(out.extend_from_slice(line.bytes())?)
}

/// The input ended: `end LINES FRAMES LIVE`.
pub fn put_end(lines: u32, frames: u64, live: u32, out: &mut Vec<u8>) -> Result<(), NoMemory>
    ensures ok { OnOk result (out.new.items ≡ out.old.items ++ end_line lines frames live) }
    ensures err { OnErr result (out.new.items ≡ out.old.items) }
{
    let mut line = TextLine::new();
    line.text(b"end ");
    line.number(lines);
    line.text(b" ");
    line.wide_number(frames);
    line.text(b" ");
    line.number(live);
    line.text(b"\n");
    Ok(out.extend_from_slice(line.bytes())?)
}

/// A line was refused: `refused LINE CAUSE`.
pub fn put_refused(line: u32, cause: Cause, out: &mut Vec<u8>) -> Result<(), NoMemory>
    ensures ok { OnOk result (out.new.items ≡ out.old.items ++ refused_line line cause) }
    ensures err { OnErr result (out.new.items ≡ out.old.items) }
{
    let mut text = TextLine::new();
    text.text(b"refused ");
    text.number(line);
    text.text(b" ");
    text.text(cause_text(cause));
    text.text(b"\n");
    Ok(out.extend_from_slice(text.bytes())?)
}

#[inline(always)]
pub(crate) fn put_handle(handle: Handle, line: &mut TextLine)
    requires { length line.old + 21 ≤ ROOM }
    ensures text { line.new ≡ line.old ++ handle_text handle }
    ensures length { length line.new ≤ length line.old + 21 }
{
    line.number(handle.slot);
    line.text(b":");
    line.number(handle.generation);
}

// The word of an event. Each arm puts a literal, which becomes stores. A word that is chosen as a slice would have a
// length that is known only when it runs, and be copied by a call.
#[inline(always)]
fn put_event(event: Event, line: &mut TextLine)
    requires { length line.old + 6 ≤ ROOM }
    ensures text { line.new ≡ line.old ++ event_text event }
    ensures length { length line.new ≤ length line.old + 6 }
{
    match event {
        Event::Begin => line.text(b"begin "),
        Event::Stay => line.text(b"stay "),
        Event::Over => line.text(b"over "),
    }
}

fn cause_text(cause: Cause) -> &'static [u8]
    ensures text { result.now ≡ cause_text cause }
    ensures length { length result.now ≤ 8 }
{
    match cause {
        Cause::Lines => b"lines",
        Cause::Long => b"long",
        Cause::Header => b"header",
        Cause::Word => b"word",
        Cause::Count => b"count",
        Cause::Handle => b"handle",
        Cause::Number => b"number",
        Cause::Range => b"range",
        Cause::Mask => b"mask",
        Cause::Owner => b"owner",
        Cause::Inverted => b"inverted",
        Cause::Full => b"full",
    }
}
