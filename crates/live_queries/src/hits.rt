//! The live boxes that meet a query, of the groups that are asked for, in order of slots.

ghost use Rattle.std.specs.Prelude.{◌≡◌, ◌++◌, OnOk, OnErr};
ghost use Rattle.std.specs.List.{filter_map};
ghost use Rattle.live_table.specs.Bodies.{bodies_of};
ghost use Rattle.live_table.specs.Table.{IsTable};
ghost use Rattle.broad_index.specs.Found.{found};
ghost use Rattle.live_queries.specs.InHandles.{listed};
ghost use Rattle.live_queries.specs.Pairs.{hits_of, is_asked_for};

use crate::groups::Groups;
use broad_index::Query;
use fixed_box::NoMemory;
use live_table::{Handle, Live, LiveTable};
use slot_lists::push_filter_mapped;

/// Appends the handles of the live boxes that meet a query, of the groups that are asked for, by their slots, of the slots
/// that an index of the live boxes has found for it. After an `Err` `out` is as before.
///
/// It looks a box up for each slot, and takes memory for the handles alone.
pub fn push_hits(
    table: &LiveTable,
    query: &Query,
    groups: Groups,
    slots: &[u32],
    out: &mut Vec<Handle>,
) -> Result<(), NoMemory>
    requires table { IsTable table.now }
    requires found { slots.now ≡ found (bodies_of table.now.entries) query.now }
    ensures ok { OnOk result (out.new.items ≡ out.old.items ++ hits_of table.now.entries query.now groups) }
    ensures err { OnErr result (out.new.items ≡ out.old.items) }
{
    push_listed(table, groups, slots, out)
}

// Appends the handles of the slots whose boxes are of the groups that are asked for. After an `Err` `out` is as before.
fn push_listed(
    table: &LiveTable,
    groups: Groups,
    slots: &[u32],
    out: &mut Vec<Handle>,
) -> Result<(), NoMemory>
    ensures ok { OnOk result (out.new.items ≡ out.old.items ++ filter_map (listed table.now.entries groups) slots.now) }
    ensures err { OnErr result (out.new.items ≡ out.old.items) }
{
    push_filter_mapped(slots, out, |slot| listed(table, groups, *slot))
}

// The handle of a slot's box, where that is of the groups that are asked for.
fn listed(table: &LiveTable, groups: Groups, slot: u32) -> Option<Handle>
    ensures { result ≡ listed table.now.entries groups slot }
{
    let live = table.at(slot)?;
    if is_asked_for(groups, &live) {
        Some(live.handle)
    } else {
        None
    }
}

// Whether a box is of the groups that are asked for.
pub(crate) fn is_asked_for(groups: Groups, live: &Live) -> bool
    ensures { result ≡ is_asked_for groups live.now }
{
    match groups {
        Groups::All => true,
        Groups::Of(mask) => live.masks.is & mask != 0,
    }
}
