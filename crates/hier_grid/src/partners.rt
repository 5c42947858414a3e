//! Which candidates are partners of a slot: another slot whose box meets its box.

ghost use Rattle.std.specs.Prelude.{◌≡◌, ◌++◌, ◌==◌, ◌&&◌, ◌||◌, true, not, nat_lt, cond, filter, Some, None, OnOk, OnErr};
ghost use Rattle.broad_index.specs.Touched.{ordered, ordered_pairs};
ghost use Rattle.hier_grid.specs.Listing.{met_pairs, pairs_up};
ghost use Rattle.hier_grid.specs.Search.{is_partner, meets_at};

use broad_index::Pair;
use fixed_box::{FBox, NoMemory};
use grid_boxes::SlotBox;
use slot_lists::{SlotBoxes, push_filter_mapped};

/// Appends a slot's pairs with its partners among others, either any or those with higher slots alone. After an `Err` `out` is
/// as before.
pub(crate) fn push_pairs(
    boxes: &SlotBoxes,
    own: &SlotBox,
    any: bool,
    slots: &[u32],
    out: &mut Vec<Pair>,
) -> Result<(), NoMemory>
    ensures ok { OnOk result (out.new.items
        ≡ out.old.items ++ ordered_pairs own.now.slot (filter (is_partner boxes.now own.now.slot own.now.body any) slots.now)) }
    ensures err { OnErr result (out.new.items ≡ out.old.items) }
{
    push_filter_mapped(slots, out, |other| pair_with(boxes, own, any, *other))?;
    Ok(())
}

// A slot's pair with another, if that is a partner.
#[inline(always)]
fn pair_with(boxes: &SlotBoxes, own: &SlotBox, any: bool, other: u32) -> Option<Pair>
    ensures { result ≡ cond (is_partner boxes.now own.now.slot own.now.body any other) (Some (ordered own.now.slot other)) None }
{
    if is_partner(boxes, own, any, other) {
        Some(Pair::ordered(own.slot, other))
    } else {
        None
    }
}

/// Whether another slot is a partner. No branch is taken on which slots may be partners, since that is past telling
/// beforehand.
pub(crate) fn is_partner(boxes: &SlotBoxes, own: &SlotBox, any: bool, other: u32) -> bool
    ensures { result ≡ is_partner boxes.now own.now.slot own.now.body any other }
{
    is_sought(own.slot, any, other) & meets_at(boxes, &own.body, other)
}

/// Appends a slot's pairs with its partners among other boxes, either any or those with higher slots alone. After an `Err`
/// `out` is as before.
#[inline(always)]
pub(crate) fn push_met_pairs(
    own: &SlotBox,
    any: bool,
    others: &[SlotBox],
    out: &mut Vec<Pair>,
) -> Result<(), NoMemory>
    ensures ok { OnOk result (out.new.items ≡ out.old.items ++ met_pairs own.now any others.now) }
    ensures err { OnErr result (out.new.items ≡ out.old.items) }
{
    // a copy, which no push can change: so it is read once
    let mine = *own;
    push_filter_mapped(others, out, move |other| met_pair(&mine, any, other))?;
    Ok(())
}

// A slot's pair with another box, if that is a partner.
#[inline(always)]
fn met_pair(own: &SlotBox, any: bool, other: &SlotBox) -> Option<Pair>
    ensures { result ≡ cond (pairs_up own.now any other.now) (Some (ordered own.now.slot other.now.slot)) None }
{
    if pairs_up(own, any, other) {
        Some(Pair::ordered(own.slot, other.slot))
    } else {
        None
    }
}

// Whether another box is a partner. No branch is taken on which slots may be partners, since that is past telling
// beforehand.
#[inline(always)]
fn pairs_up(own: &SlotBox, any: bool, other: &SlotBox) -> bool
    ensures { result ≡ pairs_up own.now any other.now }
{
    is_sought(own.slot, any, other.slot) & own.body.overlaps(&other.body)
}

// Whether a slot has a box that meets another.
#[inline(always)]
fn meets_at(boxes: &SlotBoxes, body: &FBox, slot: u32) -> bool
    ensures { result ≡ meets_at boxes.now body.now slot }
{
    match boxes.box_of(slot) {
        Some(own) => body.overlaps(&own),
        None => false,
    }
}

// Whether another slot may be a partner.
#[inline(always)]
fn is_sought(slot: u32, any: bool, other: u32) -> bool
    ensures { result ≡ (not (other == slot) && (any || nat_lt slot other)) }
{
    (other != slot) & (any | (slot < other))
}
