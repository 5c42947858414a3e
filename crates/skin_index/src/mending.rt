//! Kept pairs mended by what the marked skins meet, and the lists that are kept for it.

ghost use Rattle.std.specs.Prelude.{◌≡◌, ◌++◌, ◌==◌, true, not, filter, OnOk, OnErr};
ghost use Rattle.std.specs.Ordering.{nat_cmp};
ghost use Rattle.std.specs.FinMap.{FinMap};
ghost use Rattle.fixed_box.specs.Bounds.{Bounds};
ghost use Rattle.broad_index.specs.Near.{near, rises};
ghost use Rattle.broad_index.specs.Touched.{ordered_pairs};
ghost use Rattle.skin_index.specs.Skins.{pairs_met, ArePairsKept};

use crate::marked_skins::MarkedSkins;
use broad_index::{Pair, keeping_laws, member_laws, push_ordered_pairs, renew_pairs};
use fixed_box::NoMemory;
use slot_lists::keep_passing;
use std::alloc::Global;

// What was found for marked skins, in lists that are kept for their memory.
#[derive(Drop)]
pub(crate) struct MendingRoom {
    // What one skin meets.
    pub(crate) met: Vec<u32>,
    pub(crate) found: Vec<Pair>,
    pub(crate) merged: Vec<Pair>,
}

impl MendingRoom {
    pub(crate) fn new(alloc: Global) -> MendingRoom {
        MendingRoom {
            met: Vec::new(alloc),
            found: Vec::new(alloc),
            merged: Vec::new(alloc),
        }
    }
}

// Appends the pairs of a slot with the others that its skin meets.
pub(crate) fn push_others(
    slot: u32,
    met: &mut Vec<u32>,
    found: &mut Vec<Pair>,
) -> Result<(), NoMemory>
    ensures ok { OnOk result (found.new.items ≡ found.old.items ++ ordered_pairs slot (filter (λ other. not (other == slot)) met.old.items)) }
{
    // it meets itself too
    keep_passing(0, met, |other| *other != slot);
    push_ordered_pairs(slot, met, found)
}

// Makes kept pairs, which are right but for the marked skins, those of the skins: what each marked one meets was found.
pub(crate) fn mend(
    kept: &mut Vec<Pair>,
    marked: &MarkedSkins,
    room: &mut MendingRoom,
) -> Result<(), NoMemory>
    requires rises { rises kept.old.items ≡ true }
    ensures ok { (skins : FinMap nat_cmp Bounds) → ArePairsKept skins marked.now.marks marked.now.slots.items kept.old.items
        → room.old.found.items ≡ pairs_met skins marked.now.slots.items
        → OnOk result (kept.new.items ≡ near skins) }
    ensures err { OnErr result (kept.new.items ≡ kept.old.items) }
{
    member_laws();
    keeping_laws();
    if marked.slots.is_empty() {
        return Ok(());
    }
    renew_pairs(
        kept,
        marked.marks.as_slice(),
        &mut room.found,
        &mut room.merged,
    )
}
