//! The pairs of a frame before renewed where slots changed.

ghost use Rattle.std.specs.Prelude.{◌≡◌, ℕ, true, false, ◌||◌, ◌++◌, filter, slice_index_or, OnOk, OnErr};
ghost use Rattle.broad_index.specs.declared.pair.Pair.{Pair};
ghost use Rattle.std.specs.Ordering.{nat_cmp};
ghost use Rattle.std.specs.FinMap.{FinMap};
ghost use Rattle.fixed_box.specs.Bounds.{Bounds};
ghost use Rattle.broad_index.specs.Near.{near, rises};
ghost use Rattle.broad_index.specs.Touched.{stays, Renewed};
ghost use Rattle.broad_index.specs.Members.{has_pair};

use crate::Pair;
use crate::rising::settle_pairs;
use fixed_box::NoMemory;
use slot_lists::keep_passing;
use std::cmp::Ordering;
use std::mem;

/// Makes the kept pairs of a map its pairs again: those with a marked slot go, and those that were found for marked slots
/// come, which may stand in any order and any number of times. `found` is sorted in place, and its repeats dropped.
///
/// It is one pass over both lists; where nothing was found the kept pairs are filtered in place and no memory is taken.
/// `room` gets any pairs. After an `Err` the kept pairs are as before.
pub fn renew_pairs(
    kept: &mut Vec<Pair>,
    marks: &[bool],
    found: &mut Vec<Pair>,
    room: &mut Vec<Pair>,
) -> Result<(), NoMemory>
    requires kept { rises kept.old.items ≡ true }
    ensures near { (bodies : FinMap nat_cmp Bounds) → Renewed bodies marks.now kept.old.items found.old.items
        → OnOk result (kept.new.items ≡ near bodies) }
    ensures rises { rises kept.new.items ≡ true }
    ensures err { OnErr result (kept.new.items ≡ kept.old.items) }
{
    settle_pairs(found);
    if found.is_empty() {
        keep_passing(0, kept, |pair| stays(pair, marks));
        return Ok(());
    }
    merge_staying(kept, marks, found, room)?;
    mem::swap(kept, room);
    Ok(())
}

// Replaces a list by two rising ones merged, each pair once, without those pairs of the first that have a marked slot.
fn merge_staying(
    kept: &[Pair],
    marks: &[bool],
    found: &[Pair],
    out: &mut Vec<Pair>,
) -> Result<(), NoMemory>
    requires left { rises kept.now ≡ true }
    requires right { rises found.now ≡ true }
    ensures members { OnOk result ((p : Pair) → has_pair out.new.items p ≡ (has_pair (filter (stays marks.now) kept.now) p || has_pair found.now p)) }
    ensures rises { OnOk result (rises out.new.items ≡ true) }
{
    out.clear();
    let mut left = kept;
    let mut right = found;
    'merge: while let [x, more_left @ ..] = left {
        let [y, more_right @ ..] = right else {
            break;
        };
        match x.cmp(y) {
            Ordering::Less => {
                if stays(x, marks) {
                    out.push(*x)?;
                }
                left = more_left;
            }
            Ordering::Greater => {
                out.push(*y)?;
                right = more_right;
            }
            // the found one comes in its turn
            Ordering::Equal => left = more_left,
        }
    }
    push_staying(left, marks, out)?;
    out.extend_from_slice(right)?;
    Ok(())
}

// Appends the pairs with no marked slot.
fn push_staying(kept: &[Pair], marks: &[bool], out: &mut Vec<Pair>) -> Result<(), NoMemory>
    ensures ok { OnOk result (out.new.items ≡ out.old.items ++ filter (stays marks.now) kept.now) }
{
    let before = out.len();
    out.extend_from_slice(kept)?;
    keep_passing(before, out, |pair| stays(pair, marks));
    Ok(())
}

// Whether neither slot of a pair is marked.
#[inline(always)]
fn stays(pair: &Pair, marks: &[bool]) -> bool
    ensures { result ≡ stays marks.now pair.now }
{
    !is_marked(pair.a, marks) & !is_marked(pair.b, marks)
}

// Whether a slot is marked.
#[inline(always)]
fn is_marked(slot: u32, marks: &[bool]) -> bool
    ensures { result ≡ slice_index_or marks.now slot false }
{
    let slot = slot as usize;
    slot < marks.len() && marks[slot]
}
