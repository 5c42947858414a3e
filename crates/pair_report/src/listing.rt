//! The lines of a report that list boxes: what a query, a cast or the nearest found.

ghost use Rattle.std.specs.Prelude.{◌≡◌, ◌≤◌, ◌++◌, length, take, vec_len, codes, decimal, OnOk, OnErr};
ghost use Rattle.pair_report.specs.PairReport.{handle_text, handles_text, listing_text, kind_text};
ghost use Rattle.pair_report.specs.PairReport.{hits_line, cast_line, near_line};

use crate::lines::put_handle;
use broad_index::QKind;
use fixed_box::NoMemory;
use live_table::Handle;
use text_line::TextLine;

/// The answer to a query: its name, the number of boxes, and their handles as they stand in the list, each after a space.
/// Their order is the caller's: that of slots, or of a ray's entries where those are asked for.
pub fn put_hits(kind: QKind, handles: &[Handle], out: &mut Vec<u8>) -> Result<(), NoMemory>
    ensures ok { OnOk result (out.new.items ≡ out.old.items ++ hits_line kind handles.now) }
    ensures err { OnErr result (out.new.items ≡ out.old.items) }
{
    put_listing(kind_text(kind), handles, out)
}

/// The boxes that a box meets when it is moved along a line: `cast N`, and their handles as they stand in the list. Their
/// order is the caller's: that in which they are met, then that of slots.
pub fn put_cast(handles: &[Handle], out: &mut Vec<u8>) -> Result<(), NoMemory>
    ensures ok { OnOk result (out.new.items ≡ out.old.items ++ cast_line handles.now) }
    ensures err { OnErr result (out.new.items ≡ out.old.items) }
{
    put_listing(b"cast ", handles, out)
}

/// The boxes nearest to a point: `near N`, and their handles as they stand in the list. Their order is the caller's: the
/// nearest first, then that of slots.
pub fn put_near(handles: &[Handle], out: &mut Vec<u8>) -> Result<(), NoMemory>
    ensures ok { OnOk result (out.new.items ≡ out.old.items ++ near_line handles.now) }
    ensures err { OnErr result (out.new.items ≡ out.old.items) }
{
    put_listing(b"near ", handles, out)
}

// A word, and the handles behind their number.
fn put_listing(word: &[u8], handles: &[Handle], out: &mut Vec<u8>) -> Result<(), NoMemory>
    requires { length word.now ≤ 6 }
    ensures ok { OnOk result (out.new.items ≡ out.old.items ++ (word.now ++ listing_text handles.now)) }
    ensures err { OnErr result (out.new.items ≡ out.old.items) }
{
    let before = out.len();
    let put = push_listing(word, handles, out);
    if put.is_err() {
        out.truncate(before);
    }
    put
}

// The same. What was there stays, after an `Err` too.
fn push_listing(word: &[u8], handles: &[Handle], out: &mut Vec<u8>) -> Result<(), NoMemory>
    requires { length word.now ≤ 6 }
    ensures ok { OnOk result (out.new.items ≡ out.old.items ++ (word.now ++ listing_text handles.now)) }
    ensures kept { take (vec_len out.old) out.new.items ≡ out.old.items }
{
    push_count(word, handles.len(), out)?;
    push_handles(handles, out)?;
    Ok(out.push(b'\n')?)
}

// A word and a number.
fn push_count(word: &[u8], count: usize, out: &mut Vec<u8>) -> Result<(), NoMemory>
    requires { length word.now ≤ 6 }
    ensures ok { OnOk result (out.new.items ≡ out.old.items ++ (word.now ++ decimal count)) }
    ensures err { OnErr result (out.new.items ≡ out.old.items) }
{
    let mut line = TextLine::new();
    line.text(word);
    line.wide_number(count as u64);
    Ok(out.extend_from_slice(line.bytes())?)
}

// Handles, each after a space. What was there stays, after an `Err` too.
fn push_handles(handles: &[Handle], out: &mut Vec<u8>) -> Result<(), NoMemory>
    ensures ok { OnOk result (out.new.items ≡ out.old.items ++ handles_text handles.now) }
    ensures kept { take (vec_len out.old) out.new.items ≡ out.old.items }
{
    let mut rest = handles;
    'handles: while let Some((handle, more)) = rest.split_first() {
        push_handle(*handle, out)?;
        rest = more;
    }
    Ok(())
}

// A handle after a space.
fn push_handle(handle: Handle, out: &mut Vec<u8>) -> Result<(), NoMemory>
    ensures ok { OnOk result (out.new.items ≡ out.old.items ++ (codes " " ++ handle_text handle)) }
    ensures err { OnErr result (out.new.items ≡ out.old.items) }
{
    let mut line = TextLine::new();
    line.text(b" ");
    put_handle(handle, &mut line);
    Ok(out.extend_from_slice(line.bytes())?)
}

fn kind_text(kind: QKind) -> &'static [u8]
    ensures text { result.now ≡ kind_text kind }
    ensures length { length result.now ≤ 6 }
{
    match kind {
        QKind::Region => b"box ",
        QKind::Spot => b"point ",
        QKind::Along => b"ray ",
        QKind::Between => b"seg ",
        QKind::Swept => b"cast ",
    }
}
