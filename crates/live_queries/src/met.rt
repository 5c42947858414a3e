//! The live boxes that a ray or a cast meets, in the order in which it meets them.

ghost use Rattle.std.specs.Prelude.{◌≡◌, ◌++◌, OnOk, OnErr};
ghost use Rattle.std.specs.List.{filter_map};
ghost use Rattle.live_table.specs.Bodies.{bodies_of};
ghost use Rattle.live_table.specs.Table.{IsTable};
ghost use Rattle.broad_index.specs.declared.query.Query.TheVariants.{Along, Swept};
ghost use Rattle.broad_index.specs.Found.{found};
ghost use Rattle.live_queries.specs.Beside.{AreBeside, IsBeside, IsHit, ListsMet, met_at};
ghost use Rattle.live_queries.specs.Queries.{entered_of, cast_of, handles, met_in_order};

use crate::ask_room::MetRoom;
use crate::groups::Groups;
use crate::handles::push_handles;
use crate::hit::Hit;
use crate::hits::is_asked_for;
use crate::probe::Probe;
use box_cast::{Cast, cast_law};
use fixed_box::NoMemory;
use live_table::{Handle, LiveTable};
use ordered_lists::put_in_order;
use ray_slabs::Ray;

/// Appends the handles of the live boxes that a ray meets, of the groups that are asked for, in the order in which it first
/// meets them; those that it meets at one place come by their slots. The slots are those that an index of the live boxes has
/// found for the ray. After an `Err` `out` is as before.
///
/// Each place is computed once. The room has a place for each of these boxes, which are sorted, and `out` a handle: it takes memory
/// where they have none left.
pub fn push_entered(
    table: &LiveTable,
    ray: &Ray,
    groups: Groups,
    slots: &[u32],
    room: &mut MetRoom,
    out: &mut Vec<Handle>,
) -> Result<(), NoMemory>
    requires table { IsTable table.now }
    requires found { slots.now ≡ found (bodies_of table.now.entries) (Along ray.now) }
    ensures ok { OnOk result (out.new.items ≡ out.old.items ++ entered_of table.now.entries ray.now groups) }
    ensures err { OnErr result (out.new.items ≡ out.old.items) }
{
    push_met(table, ray, groups, slots, &mut room.hits, out)
}

/// Appends the handles of the live boxes that a box which is cast meets on its way, of the groups that are asked for, in the
/// order in which it first meets them; those that it meets at one place come by their slots. The slots are those that an
/// index of the live boxes has found for the cast. After an `Err` `out` is as before.
///
/// Where each of these boxes that is asked for is met is computed once. The room has a place for each box that is met, which are
/// sorted, and `out` a handle: it takes memory where they have none left.
pub fn push_cast(
    table: &LiveTable,
    cast: &Cast,
    groups: Groups,
    slots: &[u32],
    room: &mut MetRoom,
    out: &mut Vec<Handle>,
) -> Result<(), NoMemory>
    requires table { IsTable table.now }
    requires found { slots.now ≡ found (bodies_of table.now.entries) (Swept cast.now) }
    ensures ok { OnOk result (out.new.items ≡ out.old.items ++ cast_of table.now.entries cast.now groups) }
    ensures err { OnErr result (out.new.items ≡ out.old.items) }
{
    cast_law();
    push_met(table, cast, groups, slots, &mut room.hits, out)
}

// Appends the handles of the boxes that are met on the way and asked for, in the order in which they are met.
fn push_met<P: Probe>(
    table: &LiveTable,
    probe: &P,
    groups: Groups,
    slots: &[u32],
    hits: &mut Vec<Hit>,
    out: &mut Vec<Handle>,
) -> Result<(), NoMemory>
    requires table { IsTable table.now }
    requires met { ListsMet (P.place probe.now) table.now.entries slots.now }
    ensures ok { OnOk result (out.new.items ≡ out.old.items ++ handles (met_in_order (P.place probe.now) table.now.entries groups)) }
    ensures err { OnErr result (out.new.items ≡ out.old.items) }
{
    find_hits(table, probe, groups, slots, hits)?;
    put_in_order(hits);
    push_handles(table, hits, out)
}

// Replaces a list by a hit for each slot whose box is met on the way and asked for, in the order of the slots.
fn find_hits<P: Probe>(
    table: &LiveTable,
    probe: &P,
    groups: Groups,
    slots: &[u32],
    hits: &mut Vec<Hit>,
) -> Result<(), NoMemory>
    ensures { OnOk result (AreBeside (IsHit (P.place probe.now) table.now.entries) hits.new.items
        (filter_map (met_at (P.place probe.now) groups table.now.entries) slots.now)) }
{
    hits.clear();
    let mut rest = slots;
    'slots: while let Some((slot, more)) = rest.split_first() {
        if let Some(hit) = hit_at(table, probe, groups, *slot) {
            hits.push(hit)?;
        }
        rest = more;
    }
    Ok(())
}

// The hit of a slot, where its box is met on the way and asked for.
pub(crate) fn hit_at<P: Probe>(
    table: &LiveTable,
    probe: &P,
    groups: Groups,
    slot: u32,
) -> Option<Hit>
    ensures { IsBeside (IsHit (P.place probe.now) table.now.entries) result (met_at (P.place probe.now) groups table.now.entries slot) }
{
    let live = table.at(slot)?;
    if !is_asked_for(groups, &live) {
        return None;
    }
    let entry = probe.entry(&live.body)?;
    Some(Hit { entry, slot })
}
