//! All slots of a table listed bucket by bucket, so that a row of cells is one or two stretches of the list.

ghost use Rattle.std.specs.Prelude.{◌≡◌, ◌≤◌, pos, ◌+ℤ◌, ◌≤ℤ◌, length, OnOk, OnErr};
ghost use Rattle.std.specs.FinMap as map;
ghost use Rattle.cell_table.specs.Kept.{AreStarts};
ghost use Rattle.cell_table.specs.Listed.{Lists, HasRow};

use crate::buckets::bucket_of;
use crate::{BUCKETS, CellKey, CellTable, RowPlaces};
use fixed_box::{NoMemory, SLOTS};
use std::alloc::Global;
use std::marker::Model;

/// The slots of a table of cells, one bucket after the other, listed once for many searches: a row of cells along z is
/// one stretch of the list, or two where it goes on in the first buckets.
#[derive(Drop)]
pub struct BucketList {
    // For each bucket the place where its slots start, and behind them the end. Nothing where no table was listed.
    starts: Vec<u32>,
    slots: Vec<u32>,
}

impl Model for BucketList {
    ghost use Rattle.cell_table.specs.Kept.{AreStarts};
    ghost use Rattle.cell_table.specs.Listed.{Listed};

    ghost Value = { Listed };

    ghost view = { λ l. record { starts = l.starts.items; slots = l.slots.items } };

    ghost invariant = { λ l. AreStarts l.starts.items l.slots.items };
}

impl BucketList {
    /// The list of an empty table. It takes no memory.
    pub fn new(alloc: Global) -> BucketList
        ensures { Lists map.empty result }
    {
        BucketList {
            starts: Vec::new(alloc),
            slots: Vec::new(alloc),
        }
    }

    /// Lists the slots of a table, in time that its buckets and slots take together. After `NoMemory` it lists an empty
    /// table.
    pub fn fill(&mut self, cells: &CellTable) -> Result<(), NoMemory>
        ensures ok { OnOk result (Lists cells.now self.new) }
        ensures err { OnErr result (Lists map.empty self.new) }
    {
        let filled = list_slots(cells, &mut self.starts, &mut self.slots);
        if filled.is_err() {
            self.starts.clear();
            self.slots.clear();
        }
        filled
    }

    /// The slots, bucket after bucket.
    pub fn slots(&self) -> &[u32]
        ensures { result.now ≡ self.now.slots }
    {
        &self.slots
    }

    /// The places of a row of cells, from that of a key on and below an end of z, in constant time. Slots of other cells
    /// with the same buckets stand there too. A row of as many cells as there are buckets, or more, is the whole list.
    pub fn row(&self, key: &CellKey, end: i32) -> RowPlaces
        ensures ordered { result.from ≤ result.to }
        ensures apart { result.wrapped ≤ result.from }
        ensures inside { result.to ≤ length self.now.slots }
        ensures whole { HasRow self.now key.now end result }
    {
        let cells = cells_below(key.z, end);
        if self.starts.len() <= BUCKETS as usize || cells >= BUCKETS {
            return RowPlaces {
                from: 0,
                to: self.slots.len(),
                wrapped: 0,
            };
        }
        let first = bucket_of(key);
        let after = first + cells;
        let from = self.starts[first as usize] as usize;
        if after <= BUCKETS {
            RowPlaces {
                from,
                to: self.starts[after as usize] as usize,
                wrapped: 0,
            }
        } else {
            RowPlaces {
                from,
                to: self.slots.len(),
                wrapped: self.starts[(after - BUCKETS) as usize] as usize,
            }
        }
    }
}

// Lists the slots of a table. After an `Err` anything may stand there.
fn list_slots(
    cells: &CellTable,
    starts: &mut Vec<u32>,
    slots: &mut Vec<u32>,
) -> Result<(), NoMemory>
    ensures starts { OnOk result (AreStarts starts.new.items slots.new.items) }
    ensures slots { OnOk result (Lists cells.now (record { starts = starts.new.items; slots = slots.new.items })) }
{
    starts.resize(BUCKETS as usize + 1, 0)?;
    slots.resize(SLOTS as usize + 1, 0)?;
    let len = cells.put_buckets(starts.as_mut_slice(), slots.as_mut_slice());
    slots.truncate(len);
    Ok(())
}

// How many cells there are from a place on and below another.
fn cells_below(from: i32, end: i32) -> u32
    ensures { end ≤ℤ (from +ℤ pos result) }
{
    if from < end { end.abs_diff(from) } else { 0 }
}
