//! What skins found, tested by the exact boxes.

ghost use Rattle.std.specs.Prelude.{◌≡◌, ◌≤◌, ◌++◌, take, drop, filter, vec_len, OnOk, OnErr};
ghost use Rattle.broad_index.specs.Members.{is_found};
ghost use Rattle.skin_index.specs.Skins.{boxes_meet};

use crate::laned_boxes::LanedBoxes;
use broad_index::{Pair, Query};
use fixed_box::NoMemory;
use slot_lists::keep_passing;

// Appends the pairs of which the boxes meet. After an `Err` `out` is as before.
pub(crate) fn push_meeting(
    bodies: &LanedBoxes,
    pairs: &[Pair],
    out: &mut Vec<Pair>,
) -> Result<(), NoMemory>
    ensures ok { OnOk result (out.new.items ≡ out.old.items ++ filter (boxes_meet bodies.now) pairs.now) }
    ensures err { OnErr result (out.new.items ≡ out.old.items) }
{
    let before = out.len();
    out.extend_from_slice(pairs)?;
    keep_passing(before, out, |pair| bodies.meet(pair.a, pair.b));
    Ok(())
}

// Drops the slots whose boxes don't meet a query, from one place of a list on.
pub(crate) fn keep_found(bodies: &LanedBoxes, query: &Query, from: usize, slots: &mut Vec<u32>)
    requires within { from ≤ vec_len slots.old }
    ensures { slots.new.items ≡ take from slots.old.items ++ filter (is_found bodies.now query.now) (drop from slots.old.items) }
{
    keep_passing(from, slots, |slot| is_found(bodies, query, *slot));
}

// Whether the box of a slot is there and meets a query.
fn is_found(bodies: &LanedBoxes, query: &Query, slot: u32) -> bool
    ensures { result ≡ is_found bodies.now query.now slot }
{
    match bodies.box_of(slot) {
        Some(body) => query.meets(&body),
        None => false,
    }
}
