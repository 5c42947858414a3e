//! Copies of all boxes in the order of buckets, so that a row of cells is compared in place.

ghost use Rattle.std.specs.Prelude.{◌≡◌, ◌<◌, ◌≤◌, None, OnOk, length};
ghost use Rattle.std.specs.FinMap as map;
ghost use Rattle.std.specs.Ordering.{nat_cmp};
ghost use Rattle.fixed_box.specs.Bounds.{Bounds};
ghost use Rattle.grid_boxes.specs.Buckets.{HasBuckets, HasRowBoxes, IsEven, KeepsMerged};
ghost use Rattle.grid_boxes.specs.Copies.{HasCellBehind, stretch};
ghost use Rattle.grid_boxes.specs.Standing.{AreStanding};

use crate::box_copies::BoxCopies;
use crate::floor::floor_for;
use crate::grid_boxes::GridBoxes;
use crate::merged_cells::MergedCells;
use crate::row_lens::{block_len, row_len};
use cell_table::{BucketList, CellTable, LEVELS, RowPlaces};
use fixed_box::{FBox, NoMemory, SLOTS};
use grid_cells::{CellBlock, CellRow, row_of, standing_cell};
use std::alloc::Global;

// How many of the boxes of a list share a bucket, as samples at equal steps of it tell. A bucket with more boxes than there are
// between two samples is never passed by, whatever slots and cells they have.
#[derive(Clone, Copy)]
struct Crowding {
    // In the fullest bucket.
    fullest: usize,
    // With each of 64 boxes, summed up.
    shared: usize,
}

// From so many boxes in a bucket on all are put in packets, so that eight at a time are passed by.
const FEWEST_IN_PACKETS: usize = 48;

// A sample is taken in so many parts of the list.
const SAMPLES: usize = 64;

// In a heap a box shares its bucket with more than so many in the mean.
const MOST_SHARED: usize = 16;

/// All boxes beside their slots in the order of the buckets of the cells in which they stand, copied once for the searches of
/// many slots. So the boxes of a row of cells stand together, and are compared in place. A box stands at its level, or at a
/// floor above it.
#[derive(Drop)]
pub struct BucketBoxes {
    list: BucketList,
    copies: BoxCopies,
    alloc: Global,
    // From the first time that levels are merged on.
    merged: Option<MergedCells>,
    /// No box stands in a cell of a level below this one.
    pub floor: u8,
    crowding: Crowding,
}

impl BucketBoxes {
    /// No box. It takes no memory.
    pub fn new(alloc: Global) -> BucketBoxes
        ensures { result.merged ≡ None }
    {
        BucketBoxes {
            list: BucketList::new(alloc),
            copies: BoxCopies::new(alloc),
            alloc,
            merged: None,
            floor: 0,
            crowding: Crowding {
                fullest: 0,
                shared: 0,
            },
        }
    }

    /// Copies all boxes, those of low levels merged where that pays: where cells are to spare, and boxes don't lie in heaps.
    pub fn fill(&mut self, kept: &GridBoxes) -> Result<(), NoMemory>
        requires { KeepsMerged kept.now self.old }
        ensures filled { OnOk result (HasBuckets kept.now self.new) }
        ensures merged { KeepsMerged kept.now self.new }
    {
        let floor = floor_for(kept);
        if floor > 0 {
            self.fill_merged(kept, floor)?;
            if !self.are_heaped() {
                return Ok(());
            }
        }
        self.fill_own(kept)
    }

    // Whether boxes lie in heaps, as samples tell.
    fn are_heaped(&self) -> bool {
        self.crowding.shared / SAMPLES > MOST_SHARED
    }

    // Copies all boxes, each at its own level.
    fn fill_own(&mut self, kept: &GridBoxes) -> Result<(), NoMemory>
        requires { KeepsMerged kept.now self.old }
        ensures filled { OnOk result (HasBuckets kept.now self.new) }
        ensures merged { KeepsMerged kept.now self.new }
    {
        self.floor = 0;
        self.fill_cells(kept, kept.cells())
    }

    // Copies all boxes, those of lower levels at a floor.
    fn fill_merged(&mut self, kept: &GridBoxes, floor: u8) -> Result<(), NoMemory>
        requires low { floor < LEVELS }
        requires merged { KeepsMerged kept.now self.old }
        ensures filled { OnOk result (HasBuckets kept.now self.new) }
        ensures merged { KeepsMerged kept.now self.new }
    {
        let merged = match self.merged.take() {
            Some(mut merged) => {
                merged.set_floor(kept, floor);
                merged
            }
            None => MergedCells::new(kept, floor, self.alloc)?,
        };
        self.floor = floor;
        self.fill_cells(kept, merged.cells())?;
        self.merged = Some(merged);
        Ok(())
    }

    /// A slot gets a box, in place of one that it may have.
    pub fn note_box(&mut self, slot: u32, body: &FBox)
        requires { slot < SLOTS }
        ensures { (bodies : map.FinMap nat_cmp Bounds) → KeepsMerged bodies self.old → KeepsMerged (map.insert bodies slot body.now) self.new }
    {
        if let Some(merged) = &mut self.merged {
            merged.set_cell(slot, body);
        }
    }

    /// A slot has no box any more.
    pub fn note_gone(&mut self, slot: u32)
        ensures { (bodies : map.FinMap nat_cmp Bounds) → KeepsMerged bodies self.old → KeepsMerged (map.remove bodies slot) self.new }
    {
        if let Some(merged) = &mut self.merged {
            merged.drop_cell(slot);
        }
    }

    // Copies all boxes, in the order of the buckets of the cells in which they stand.
    fn fill_cells(&mut self, kept: &GridBoxes, cells: &CellTable) -> Result<(), NoMemory>
        requires low { self.old.floor < LEVELS }
        requires standing { AreStanding kept.now self.old.floor cells.now }
        ensures filled { OnOk result (HasBuckets kept.now self.new) }
        ensures same { self.new.merged ≡ self.old.merged }
    {
        self.list.fill(cells)?;
        self.copies.copy_boxes(kept.boxes(), self.list.slots())?;
        self.crowding = self.crowding_now();
        let pays = self.crowding.fullest >= FEWEST_IN_PACKETS;
        self.copies.put_in_packets(pays)?;
        Ok(())
    }

    // How many boxes share a bucket in the list as it is.
    fn crowding_now(&self) -> Crowding
        requires { self.now.floor < LEVELS }
    {
        let mut fullest = 0usize;
        let mut shared = 0usize;
        let step = self.copies.len() / SAMPLES + 1;
        'samples: for sample in 0..SAMPLES {
            let sharing = self.sharing(sample.saturating_mul(step));
            fullest = fullest.max(sharing);
            shared = shared.saturating_add(sharing);
        }
        Crowding { fullest, shared }
    }

    // How many boxes stand in the bucket of the one at a place, if there is one.
    fn sharing(&self, place: usize) -> usize
        requires { self.now.floor < LEVELS }
    {
        if place >= self.copies.len() {
            return 0;
        }
        let cell = standing_cell(self.floor, &self.copies.entries()[place].body);
        row_len(&self.list, &row_of(&cell))
    }

    /// How many boxes stand in the fullest bucket, as samples tell. A bucket with fewer boxes than there are between two samples
    /// may be passed by.
    #[inline(always)]
    pub fn fullest(&self) -> usize {
        self.crowding.fullest
    }

    /// How many boxes stand in the rows of a block of cells, and in others that share their buckets.
    pub fn block_len(&self, block: &CellBlock) -> usize {
        block_len(&self.list, block)
    }

    /// The slots by bucket as they were copied last, if boxes lay in heaps then.
    #[inline(always)]
    pub fn heaps(&self) -> Option<&BucketList> {
        if self.crowding.fullest >= FEWEST_IN_PACKETS {
            Some(&self.list)
        } else {
            None
        }
    }

    /// The boxes beside their slots, bucket after bucket.
    #[inline(always)]
    pub fn copies(&self) -> &BoxCopies
        ensures { result.now ≡ self.now.copies }
    {
        &self.copies
    }

    /// The places of the boxes that stand in a row of cells: in one stretch, and in another one where the row goes on in the
    /// first buckets. Boxes of other cells that share these buckets stand there too.
    #[inline(always)]
    pub fn row(&self, row: &CellRow) -> RowPlaces
        requires { IsEven self.now }
        ensures ordered { result.from ≤ result.to }
        ensures inside { result.to ≤ length self.now.copies }
        ensures wrapped { result.wrapped ≤ length self.now.copies }
        ensures whole { (bodies : map.FinMap nat_cmp Bounds) → HasBuckets bodies self.now → HasRowBoxes bodies self.now.floor row.now
            (stretch result.from result.to self.now.copies) (stretch 0 result.wrapped self.now.copies) }
    {
        self.list.row(&row.key, row.end)
    }

    /// The place behind the last box that stands in the cell of one, but not before another place.
    #[inline(always)]
    pub fn cell_end(&self, from: usize, body: &FBox) -> usize
        requires even { IsEven self.now }
        requires low { self.now.floor < LEVELS }
        requires from { from ≤ length self.now.copies }
        ensures later { from ≤ result }
        ensures inside { result ≤ length self.now.copies }
        ensures whole { (bodies : map.FinMap nat_cmp Bounds) → HasBuckets bodies self.now
            → HasCellBehind bodies self.now.floor body.now from result self.now.copies }
    {
        let places = self.row(&row_of(&standing_cell(self.floor, body)));
        places.to.max(places.wrapped).max(from)
    }
}
