//! A query asked of a grid: levels are scanned, or the cells beside it are followed.

ghost use Rattle.std.specs.Prelude.{◌≡◌, ◌≤◌, ◌++◌, Some, OnOk, OnErr, drop, take, vec_len};
ghost use Rattle.std.specs.FinMap as map;
ghost use Rattle.broad_index.specs.Found.{found};
ghost use Rattle.broad_index.specs.declared.query.Query.TheVariants.{Swept};
ghost use Rattle.broad_index.specs.Members.{is_found};
ghost use Rattle.broad_index.specs.Reach.{reach};
ghost use Rattle.grid_boxes.specs.Candidates.{HasHitsBelow, HasHitsIn, HasMetIn, IsRegionOf};
ghost use Rattle.grid_cells.specs.Appended.{Appends};

use crate::partners::is_partner;
use box_cast::Cast;
use broad_index::{Query, settle_slots_from};
use cell_table::{BucketList, LEVELS};
use fixed_box::{FBox, NoMemory};
use grid_boxes::{GridBoxes, SlotBox};
use grid_cells::LinePath;
use prepared_query::{BoxTest, CastTest, LineTest};
use slot_lists::{SlotBoxes, keep_passing};

/// Appends the present slots whose boxes meet a query, rising. After an `Err` `out` is as before. What tells of heaps may be of
/// another moment.
pub(crate) fn push_hits(
    kept: &GridBoxes,
    heaps: Option<&BucketList>,
    query: &Query,
    out: &mut Vec<u32>,
) -> Result<(), NoMemory>
    ensures ok { OnOk result (out.new.items ≡ out.old.items ++ found kept.now query.now) }
    ensures err { OnErr result (out.new.items ≡ out.old.items) }
{
    kept.space_law();
    let region = query.region();
    match query {
        Query::Region(body) => push_region_hits(kept, heaps, body, body, out),
        Query::Spot(_) => push_region_hits(kept, heaps, &region, query, out),
        Query::Swept(cast) => push_cast_hits(kept, &region, cast, out),
        Query::Along(_) | Query::Between(_) => push_line_hits(kept, &region, query, out),
    }
}

/// Appends slots, and among them those of all boxes that meet both a region and a query.
pub(crate) fn push_hits_in(
    kept: &GridBoxes,
    heaps: Option<&BucketList>,
    region: &FBox,
    query: &Query,
    out: &mut Vec<u32>,
) -> Result<(), NoMemory>
    ensures { OnOk result (Appends (HasHitsIn kept.now LEVELS region.now query.now) out.old.items out.new.items) }
{
    match query {
        Query::Region(_) | Query::Spot(_) => kept.push_candidates(region, heaps, &mut 0, out),
        Query::Swept(cast) => push_met_along(kept, region, query, &CastTest::of(cast), out),
        Query::Along(_) | Query::Between(_) => match LineTest::of(query) {
            Some(prepared) => push_met_along(kept, region, query, &prepared, out),
            None => push_met_along(kept, region, query, query, out),
        },
    }
}

// The same for a line, and no others: of a level that is scanned most boxes near the region miss the line.
fn push_met_along<T: BoxTest>(
    kept: &GridBoxes,
    region: &FBox,
    line: &Query,
    test: &T,
    out: &mut Vec<u32>,
) -> Result<(), NoMemory>
    ensures { OnOk result (Appends (HasHitsIn kept.now LEVELS region.now (T.asks test.now)) out.old.items out.new.items) }
{
    let before = out.len();
    kept.push_along(region, &LinePath::of(line, region), test, out)?;
    let boxes = kept.boxes();
    keep_passing(before, out, |slot| is_found(boxes, *slot, test));
    Ok(())
}

// The same for a query that is tested against the boxes near its region.
fn push_region_hits<T: BoxTest>(
    kept: &GridBoxes,
    heaps: Option<&BucketList>,
    region: &FBox,
    test: &T,
    out: &mut Vec<u32>,
) -> Result<(), NoMemory>
    requires { IsRegionOf kept.now (T.asks test.now) region.now }
    ensures ok { OnOk result (out.new.items ≡ out.old.items ++ found kept.now (T.asks test.now)) }
    ensures err { OnErr result (out.new.items ≡ out.old.items) }
{
    let before = out.len();
    if let Err(e) = kept.push_candidates(region, heaps, &mut 0, out) {
        out.truncate(before);
        return Err(e);
    }
    keep_found(kept, before, test, out);
    Ok(())
}

// The same for a line, which is prepared if its numbers fit 32 bits.
fn push_line_hits(
    kept: &GridBoxes,
    region: &FBox,
    line: &Query,
    out: &mut Vec<u32>,
) -> Result<(), NoMemory>
    requires { IsRegionOf kept.now line.now region.now }
    ensures ok { OnOk result (out.new.items ≡ out.old.items ++ found kept.now line.now) }
    ensures err { OnErr result (out.new.items ≡ out.old.items) }
{
    let path = LinePath::of(line, region);
    match LineTest::of(line) {
        Some(prepared) => push_path_hits(kept, region, &path, &prepared, out),
        None => push_path_hits(kept, region, &path, line, out),
    }
}

// The same for a cast, which is prepared.
fn push_cast_hits(
    kept: &GridBoxes,
    region: &FBox,
    cast: &Cast,
    out: &mut Vec<u32>,
) -> Result<(), NoMemory>
    requires { IsRegionOf kept.now (Swept cast.now) region.now }
    ensures ok { OnOk result (out.new.items ≡ out.old.items ++ found kept.now (Swept cast.now)) }
    ensures err { OnErr result (out.new.items ≡ out.old.items) }
{
    let path = LinePath::of(&Query::Swept(*cast), region);
    push_path_hits(kept, region, &path, &CastTest::of(cast), out)
}

// The same for a line as it is asked, which is followed by the cells that it crosses.
fn push_path_hits<T: BoxTest>(
    kept: &GridBoxes,
    region: &FBox,
    path: &LinePath,
    test: &T,
    out: &mut Vec<u32>,
) -> Result<(), NoMemory>
    requires { IsRegionOf kept.now (T.asks test.now) region.now }
    ensures ok { OnOk result (out.new.items ≡ out.old.items ++ found kept.now (T.asks test.now)) }
    ensures err { OnErr result (out.new.items ≡ out.old.items) }
{
    let before = out.len();
    if let Err(e) = kept.push_along(region, path, test, out) {
        out.truncate(before);
        return Err(e);
    }
    keep_found(kept, before, test, out);
    Ok(())
}

// Keeps those slots from one place of a list on whose boxes meet a query, rising, where all that do are among them. It takes no
// memory.
fn keep_found<T: BoxTest>(kept: &GridBoxes, from: usize, test: &T, slots: &mut Vec<u32>)
    requires within { from ≤ vec_len slots.old }
    requires among { HasHitsBelow kept.now LEVELS (T.asks test.now) (drop from slots.old.items) }
    ensures { slots.new.items ≡ take from slots.old.items ++ found kept.now (T.asks test.now) }
{
    let boxes = kept.boxes();
    keep_passing(from, slots, |slot| is_found(boxes, *slot, test));
    settle_slots_from(from, slots);
}

// Whether a slot has a box that meets a query.
fn is_found<T: BoxTest>(boxes: &SlotBoxes, slot: u32, test: &T) -> bool
    ensures { result ≡ is_found boxes.now (T.asks test.now) slot }
{
    match boxes.box_of(slot) {
        Some(body) => test.meets(&body),
        None => false,
    }
}

/// Appends the other present slots whose boxes meet a present slot's, rising, and answers how many exact boxes were
/// compared. After an `Err` `out` is as before.
pub(crate) fn push_reach(
    kept: &GridBoxes,
    heaps: Option<&BucketList>,
    own: &SlotBox,
    out: &mut Vec<u32>,
) -> Result<u32, NoMemory>
    requires { map.get kept.now own.now.slot ≡ Some own.now.body }
    ensures ok { OnOk result (out.new.items ≡ out.old.items ++ reach kept.now own.now.slot) }
    ensures err { OnErr result (out.new.items ≡ out.old.items) }
{
    let before = out.len();
    let mut looked = 0;
    if let Err(e) = kept.push_candidates(&own.body, heaps, &mut looked, out) {
        out.truncate(before);
        return Err(e);
    }
    let looked = looked.saturating_add((out.len() - before) as u64);
    keep_reached(kept, own, before, out);
    Ok(u32::try_from(looked).unwrap_or(u32::MAX))
}

// Keeps those slots from one place of a list on that are a slot's partners, rising, where all that are stand among them. It takes
// no memory.
fn keep_reached(kept: &GridBoxes, own: &SlotBox, from: usize, slots: &mut Vec<u32>)
    requires within { from ≤ vec_len slots.old }
    requires own { map.get kept.now own.now.slot ≡ Some own.now.body }
    requires among { HasMetIn kept.now 0 LEVELS own.now.body (drop from slots.old.items) }
    ensures { slots.new.items ≡ take from slots.old.items ++ reach kept.now own.now.slot }
{
    let boxes = kept.boxes();
    keep_passing(from, slots, |other| is_partner(boxes, own, true, *other));
    settle_slots_from(from, slots);
}
