//! The summary of a report, one number a line.

ghost use Rattle.std.specs.Prelude.{◌≡◌, ◌++◌, take, vec_len, OnOk, OnErr};
ghost use Rattle.scene_drill.specs.Summary.{row, summary};
ghost use Rattle.scene_drill.specs.Tally.{rows, tally_text};

use crate::tally::{Tally, tally_of};
use fixed_box::NoMemory;
use itoa::Buffer;

/// Puts the summary of a report at the end of `out`, one `NAME NUMBER` a line.
///
/// `boxes` and `frames` are as they are handed in. `adds`, `begin`, `stay` and `over` count the lines with the words `add`,
/// `begin`, `stay` and `over`. `pairs` sums the pairs of the lines `frame`, and `hits` the boxes of the lines `box`,
/// `point`, `ray` and `seg`. `exchanges`, the sum of the lines `exchanges`, is there only where it is asked for.
///
/// Any bytes have a summary: lines with other words count for nothing, and where a number should stand, a word that isn't
/// one to twenty digits counts as 0. The report is read once, and no memory is taken but for what is put. `Err` comes only
/// for want of memory, with `out` as before.
pub fn put_summary(
    boxes: u32,
    frames: u32,
    exchanges: bool,
    report: &[u8],
    out: &mut Vec<u8>,
) -> Result<(), NoMemory>
    ensures ok { OnOk result (out.new.items ≡ out.old.items ++ summary boxes frames exchanges report.now) }
    ensures err { OnErr result (out.new.items ≡ out.old.items) }
{
    let tally = tally_of(report);
    let before = out.len();
    let put = push_tally(boxes, frames, exchanges, &tally, out);
    if put.is_err() {
        out.truncate(before);
    }
    put
}

// Puts all rows. What was there stays, after an `Err` too.
fn push_tally(
    boxes: u32,
    frames: u32,
    exchanges: bool,
    tally: &Tally,
    out: &mut Vec<u8>,
) -> Result<(), NoMemory>
    ensures ok { OnOk result (out.new.items ≡ out.old.items ++ tally_text boxes frames exchanges tally.now) }
    ensures kept { take (vec_len out.old) out.new.items ≡ out.old.items }
{
    push_rows(boxes, frames, tally, out)?;
    if exchanges {
        push_row(b"exchanges ", tally.exchanges, out)?;
    }
    Ok(())
}

// Puts the rows that are always there. What was there stays, after an `Err` too.
fn push_rows(boxes: u32, frames: u32, tally: &Tally, out: &mut Vec<u8>) -> Result<(), NoMemory>
    ensures ok { OnOk result (out.new.items ≡ out.old.items ++ rows boxes frames tally.now) }
    ensures kept { take (vec_len out.old) out.new.items ≡ out.old.items }
{
    push_row(b"boxes ", u128::from(boxes), out)?;
    push_row(b"frames ", u128::from(frames), out)?;
    push_row(b"adds ", tally.adds, out)?;
    push_row(b"pairs ", tally.pairs, out)?;
    push_row(b"begin ", tally.begin, out)?;
    push_row(b"stay ", tally.stay, out)?;
    push_row(b"over ", tally.over, out)?;
    push_row(b"hits ", tally.hits, out)?;
    Ok(())
}

// Puts one row, whose name comes with the space behind it. What was there stays, after an `Err` too.
#[tactic(auto, unfolding(crate::specs::Summary::row))]
fn push_row(name: &[u8], number: u128, out: &mut Vec<u8>) -> Result<(), NoMemory>
    ensures ok { OnOk result (out.new.items ≡ out.old.items ++ row name.now number) }
    ensures kept { take (vec_len out.old) out.new.items ≡ out.old.items }
{
    out.extend_from_slice(name)?;
    out.extend_from_slice(Buffer::new().format(number).as_bytes())?;
    Ok(out.push(b'\n')?)
}
