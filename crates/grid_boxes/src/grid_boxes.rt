//! Boxes under slots in the cells of their levels, and the candidates near a region.

ghost use Rattle.std.specs.Prelude.{◌≡◌, ℕ, ◌<◌, ◌≤◌, true, false, Some, IsTrue, IfOk, OnOk, OnErr};
ghost use Rattle.std.specs.FinMap as map;
ghost use Rattle.fixed_box.specs.Bounds.{Bounds, meets};
ghost use Rattle.grid_boxes.specs.Grid.{AreKeyed, meets_part};
ghost use Rattle.grid_cells.specs.Sized.{IsSized, is_held};
ghost use Rattle.grid_cells.specs.Appended.{Appends, Stays};
ghost use Rattle.grid_boxes.specs.Candidates.{HasHits, HasHitsIn, HasMet, HasMetAfter, HasMetIn, IsBare, IsEnd};
ghost use Rattle.fixed_box.specs.Space.{space};

use crate::hull::{grown, part_in};
use crate::leveled_boxes::LeveledBoxes;
use crate::row_lens::block_len;
use cell_table::{BucketList, CellKey, CellTable, LEVELS};
use fixed_box::{FBox, NoMemory, SLOTS};
use grid_cells::{
    LinePath, block_beside, cell_of, cells_after, count_beside, visit_block, visit_crossed,
    visit_later,
};
use prepared_query::BoxTest;
use slot_lists::SlotBoxes;
use std::alloc::Global;
use std::marker::Model;

// A scan of so many boxes for a line costs about as much as a step along it.
const BOXES_PER_STEP: u32 = 16;

// A scan of so many boxes for a region costs about as much as a look at a cell beside it.
const BOXES_PER_CELL: u64 = 4;

// A scan of a level costs about as much as a look at the boxes in such a part of its cells: in a scan most boxes are passed by in
// lanes, while those of cells are looked up one by one.
const SCAN_OF_CELLS: u64 = 24;

// So many cells a place alone may have beside it: of so few a level isn't scanned.
const FEWEST_SCANNED: u64 = 8;

/// A scan of a level passes by so many boxes in the time of one comparison in a bucket.
pub const BOXES_PER_SCANNED: usize = 8;

// A box is shorter than the cells of its level, so that it lies in at most two of them on each axis, and has at most so many
// beside it.
pub(crate) const MOST_BESIDE: u32 = 27;

/// The boxes under their slots, each in the cell of its level, seen as a map from slot to box.
#[derive(Drop)]
pub struct GridBoxes {
    boxes: LeveledBoxes,
    cells: CellTable,
    // It grows with each box that is put, and stays as boxes go, until the last one goes.
    hull: Option<FBox>,
}

impl Model for GridBoxes {
    ghost use Rattle.std.specs.Ordering.{nat_cmp};
    ghost use Rattle.std.specs.Coded.{coded_ℕ};
    ghost use Rattle.std.specs.FinMap.{FinMap, code};
    ghost use Rattle.fixed_box.specs.Bounds.{Bounds, coded_bounds};
    ghost use Rattle.grid_boxes.specs.Grid.{IsGrid};

    ghost Value = { FinMap nat_cmp Bounds };

    ghost coded = { code coded_ℕ coded_bounds };

    ghost view = { λ k. k.boxes };

    ghost invariant = { λ k. IsGrid k.boxes k.cells k.hull };
}

impl GridBoxes {
    /// No box, with the memory for all slots.
    pub fn new(alloc: Global) -> Result<GridBoxes, NoMemory>
        ensures { IfOk result (λ kept. kept ≡ map.empty) }
    {
        Ok(GridBoxes {
            boxes: LeveledBoxes::new(alloc)?,
            cells: CellTable::new(alloc)?,
            hull: None,
        })
    }

    /// The boxes.
    pub fn boxes(&self) -> &SlotBoxes
        ensures { result.now ≡ self.now }
    {
        self.boxes.boxes()
    }

    /// The cells of the boxes.
    pub fn cells(&self) -> &CellTable
        ensures { AreKeyed self.now result.now }
    {
        &self.cells
    }

    /// A box in which all boxes lie, if there is one. It may be wider than they are: it shrinks only where no box is left.
    pub fn hull(&self) -> Option<FBox>
        ensures { (slot : ℕ) (b : Bounds) → map.get self.now slot ≡ Some b → IsTrue (is_held result b) }
    {
        self.hull
    }

    /// A law for proofs, with nothing to run: each box lies in space.
    pub fn space_law(&self)
        ensures { (slot : ℕ) (b : Bounds) → map.get self.now slot ≡ Some b → IsTrue (meets space b) }
    {
        self.sized_law();
    }

    /// A law for proofs, with nothing to run: each slot is one of those that there may be.
    pub(crate) fn slots_law(&self)
        ensures { (slot : ℕ) (b : Bounds) → map.get self.now slot ≡ Some b → slot < SLOTS }
    {
        self.boxes.slots_law();
    }

    /// A law for proofs, with nothing to run: each box is shorter than the cells of its level.
    pub fn sized_law(&self)
        ensures { (slot : ℕ) (b : Bounds) → map.get self.now slot ≡ Some b → IsSized b }
    {
        // what a value keeps is known where it is read
        let _boxes = &self.boxes;
    }

    /// Puts a box under an absent slot. It takes no memory.
    pub fn put(&mut self, slot: u32, body: FBox)
        requires small { slot < SLOTS }
        requires absent { map.contains_key self.old slot ≡ false }
        ensures { self.new ≡ map.insert self.old slot body }
    {
        self.cells.put(slot, cell_of(&body));
        self.hull = Some(grown(&self.hull, &body));
        self.boxes.put(slot, body);
    }

    /// Gives a present slot another box. It takes no memory.
    pub fn set(&mut self, slot: u32, body: FBox)
        requires small { slot < SLOTS }
        requires present { map.contains_key self.old slot ≡ true }
        ensures { self.new ≡ map.insert self.old slot body }
    {
        rekey(&mut self.cells, slot, cell_of(&body));
        self.hull = Some(grown(&self.hull, &body));
        self.boxes.set(slot, body);
    }

    /// Takes a present slot out. It takes no memory.
    pub fn take(&mut self, slot: u32)
        requires { map.contains_key self.old slot ≡ true }
        ensures { self.new ≡ map.remove self.old slot }
    {
        self.cells.take(slot);
        self.boxes.take(slot);
        self.hull = hull_left(self.boxes.boxes(), &self.hull);
    }

    /// Appends slots, and among them all of a level whose boxes meet a box of it and lie in cells after its cell. Where the
    /// level has few boxes those in cells before it are among them too.
    pub fn push_after(
        &self,
        level: u8,
        body: &FBox,
        looked: &mut u64,
        slots: &mut Vec<u32>,
    ) -> Result<(), NoMemory>
        requires { level < LEVELS }
        ensures { OnOk result (Appends (HasMetAfter self.now level body.now) slots.old.items slots.new.items) }
    {
        if self.has_few_beside(level, body) {
            self.scan(level, body, looked, slots)
        } else {
            self.push_later(level, body, slots)
        }
    }

    // The same by the cells of the level beside the box after the cell of its lower corner.
    fn push_later(&self, level: u8, body: &FBox, slots: &mut Vec<u32>) -> Result<(), NoMemory>
        requires { level < LEVELS }
        ensures { OnOk result (Appends (HasMetAfter self.now level body.now) slots.old.items slots.new.items) }
    {
        self.sized_law();
        visit_later(&self.cells, &cells_after(level, body), slots)
    }

    /// A level above those of all boxes.
    pub fn levels_end(&self) -> u8
        ensures { IsEnd self.now result }
    {
        let mut end = LEVELS;
        'end: while end > 0 {
            if self.has_some(end - 1) {
                break;
            }
            end -= 1;
        }
        end
    }

    /// Appends slots, and among them all whose boxes meet a region. A list of slots by bucket, of whatever moment, tells where
    /// boxes lie in heaps.
    pub fn push_candidates(
        &self,
        region: &FBox,
        heaps: Option<&BucketList>,
        looked: &mut u64,
        slots: &mut Vec<u32>,
    ) -> Result<(), NoMemory>
        ensures ok { OnOk result (Appends (HasMetIn self.now 0 LEVELS region.now) slots.old.items slots.new.items) }
        ensures err { OnErr result (Stays slots.old.items slots.new.items) }
    {
        let end = self.levels_end();
        'levels: for level in 0..end {
            self.push_level(level, region, heaps, looked, slots)?;
        }
        Ok(())
    }

    /// Appends slots, and among them all whose boxes meet a region and a line.
    pub fn push_along<T: BoxTest>(
        &self,
        region: &FBox,
        path: &LinePath,
        test: &T,
        slots: &mut Vec<u32>,
    ) -> Result<(), NoMemory>
        ensures ok { OnOk result (Appends (HasHitsIn self.now LEVELS region.now (T.asks test.now)) slots.old.items slots.new.items) }
        ensures err { OnErr result (Stays slots.old.items slots.new.items) }
    {
        match self.part_of(region) {
            Some(part) => self.push_along_levels(&part, path, test, slots),
            None => Ok(()),
        }
    }

    /// The part of a region in which there may be boxes: each box that meets the region meets it. `None` only if no box does.
    pub fn part_of(&self, region: &FBox) -> Option<FBox>
        ensures { (slot : ℕ) (b : Bounds) → map.get self.now slot ≡ Some b → meets region.now b ≡ true → IsTrue (meets_part result b) }
    {
        self.sized_law();
        match &self.hull {
            Some(hull) => part_in(hull, region),
            None => None,
        }
    }

    // The same as `push_along`, level by level.
    fn push_along_levels<T: BoxTest>(
        &self,
        region: &FBox,
        path: &LinePath,
        test: &T,
        slots: &mut Vec<u32>,
    ) -> Result<(), NoMemory>
        ensures ok { OnOk result (Appends (HasHitsIn self.now LEVELS region.now (T.asks test.now)) slots.old.items slots.new.items) }
        ensures err { OnErr result (Stays slots.old.items slots.new.items) }
    {
        'levels: for level in 0..self.levels_end() {
            self.push_along_level(level, region, path, test, slots)?;
        }
        Ok(())
    }

    // The same of one level. Where the line crosses too much of it, the level is scanned.
    fn push_along_level<T: BoxTest>(
        &self,
        level: u8,
        region: &FBox,
        path: &LinePath,
        test: &T,
        slots: &mut Vec<u32>,
    ) -> Result<(), NoMemory>
        requires { level < LEVELS }
        ensures ok { OnOk result (Appends (HasHits self.now level region.now (T.asks test.now)) slots.old.items slots.new.items) }
        ensures err { OnErr result (Stays slots.old.items slots.new.items) }
    {
        if !self.has_some(level) || self.follow(level, region, path, test, slots)? {
            return Ok(());
        }
        self.boxes.scan(level, region, slots)
    }

    // Appends slots of a level, and among them all whose boxes meet a line, where that is expected to cost less than a scan, and
    // takes at most twice as many steps along the line as expected. Else it answers false, and `slots` is as before.
    fn follow<T: BoxTest>(
        &self,
        level: u8,
        region: &FBox,
        path: &LinePath,
        test: &T,
        slots: &mut Vec<u32>,
    ) -> Result<bool, NoMemory>
        requires { level < LEVELS }
        ensures whole { IfOk result (λ whole. whole ≡ true
            → Appends (HasHits self.now level region.now (T.asks test.now)) slots.old.items slots.new.items) }
        ensures less { IfOk result (λ whole. whole ≡ false → slots.new.items ≡ slots.old.items) }
        ensures err { OnErr result (Stays slots.old.items slots.new.items) }
    {
        self.sized_law();
        let block = block_beside(level, region);
        let expected = path.steps_through(&block);
        if expected > self.cells.level_len(level) / BOXES_PER_STEP {
            return Ok(false);
        }
        let before = slots.len();
        let mut steps = expected.saturating_mul(2);
        let whole = visit_crossed(&self.cells, &block, path, test, &mut steps, slots)?;
        if !whole {
            slots.truncate(before);
        }
        Ok(whole)
    }

    /// Appends slots, and among them all whose boxes meet a region and have a level from one on and below an end.
    pub fn push_from(
        &self,
        first: u8,
        end: u8,
        region: &FBox,
        looked: &mut u64,
        slots: &mut Vec<u32>,
    ) -> Result<(), NoMemory>
        requires { end ≤ LEVELS }
        ensures ok { OnOk result (Appends (HasMetIn self.now first end region.now) slots.old.items slots.new.items) }
        ensures err { OnErr result (Stays slots.old.items slots.new.items) }
    {
        'levels: for level in first..end {
            self.push_level(level, region, None, looked, slots)?;
        }
        Ok(())
    }

    // Appends slots, and among them all of a level whose boxes meet a region.
    fn push_level(
        &self,
        level: u8,
        region: &FBox,
        heaps: Option<&BucketList>,
        looked: &mut u64,
        slots: &mut Vec<u32>,
    ) -> Result<(), NoMemory>
        requires { level < LEVELS }
        ensures ok { OnOk result (Appends (HasMet self.now level region.now) slots.old.items slots.new.items) }
        ensures err { OnErr result (Stays slots.old.items slots.new.items) }
    {
        if !self.has_some(level) {
            return Ok(());
        }
        if self.is_scanned(level, region) || self.is_heaped(level, region, heaps) {
            self.scan(level, region, looked, slots)
        } else {
            self.push_beside(level, region, slots)
        }
    }

    /// Whether a level has boxes.
    pub fn has_some(&self, level: u8) -> bool
        requires { level < LEVELS }
        ensures { result ≡ false → IsBare self.now level }
    {
        self.cells.level_len(level) > 0
    }

    /// How many boxes a level has.
    pub fn level_len(&self, level: u8) -> usize
        requires { level < LEVELS }
    {
        self.cells.level_len(level) as usize
    }

    /// Whether a box has more cells of a level, its own or a higher one, beside it than the level has boxes. Such a level is
    /// told by its boxes alone where they are no fewer than such cells can be.
    pub fn has_few_beside(&self, level: u8, body: &FBox) -> bool
        requires { level < LEVELS }
    {
        self.cells.level_len(level) < MOST_BESIDE && self.has_few(level, body)
    }

    // Whether a scan of a level costs less than a look at its cells beside a region.
    fn is_scanned(&self, level: u8, region: &FBox) -> bool
        requires { level < LEVELS }
    {
        let boxes = u64::from(self.cells.level_len(level));
        let cells = count_beside(level, region);
        cells.saturating_mul(BOXES_PER_CELL) > boxes || self.is_large_part(level, cells)
    }

    // Whether so many cells are so large a part of those of a level that a scan of it costs less, where boxes lie evenly.
    fn is_large_part(&self, level: u8, cells: u64) -> bool
        requires { level < LEVELS }
    {
        match &self.hull {
            Some(hull) => {
                cells > FEWEST_SCANNED
                    && cells.saturating_mul(SCAN_OF_CELLS) > count_beside(level, hull)
            }
            None => false,
        }
    }

    // Whether the cells of a level beside a region share the buckets of a heap, so that a scan of the level costs less.
    #[inline(always)]
    fn is_heaped(&self, level: u8, region: &FBox, heaps: Option<&BucketList>) -> bool
        requires { level < LEVELS }
    {
        match heaps {
            Some(list) => {
                block_len(list, &block_beside(level, region))
                    > self.level_len(level) / BOXES_PER_SCANNED
            }
            None => false,
        }
    }

    // Whether a region has more cells of a level beside it than the level has boxes.
    fn has_few(&self, level: u8, region: &FBox) -> bool
        requires { level < LEVELS }
    {
        count_beside(level, region) > u64::from(self.cells.level_len(level))
    }

    /// Appends the slots of a level whose boxes meet a region. Each box of the level is compared, and counted.
    pub fn scan(
        &self,
        level: u8,
        region: &FBox,
        looked: &mut u64,
        slots: &mut Vec<u32>,
    ) -> Result<(), NoMemory>
        requires { level < LEVELS }
        ensures ok { OnOk result (Appends (HasMet self.now level region.now) slots.old.items slots.new.items) }
        ensures err { OnErr result (Stays slots.old.items slots.new.items) }
    {
        *looked = looked.saturating_add(u64::from(self.cells.level_len(level)));
        self.boxes.scan(level, region, slots)
    }

    // Appends the slots in the cells of a level beside a region.
    fn push_beside(&self, level: u8, region: &FBox, slots: &mut Vec<u32>) -> Result<(), NoMemory>
        requires { level < LEVELS }
        ensures ok { OnOk result (Appends (HasMet self.now level region.now) slots.old.items slots.new.items) }
        ensures err { OnErr result (Stays slots.old.items slots.new.items) }
    {
        self.sized_law();
        visit_block(&self.cells, &block_beside(level, region), slots)
    }
}

// A hull, if a box is left that it may hold.
fn hull_left(boxes: &SlotBoxes, hull: &Option<FBox>) -> Option<FBox>
    ensures { (slot : ℕ) (b : Bounds) → map.get boxes.now slot ≡ Some b → IsTrue (is_held hull.now b) → IsTrue (is_held result b) }
{
    if is_bare(boxes) { None } else { *hull }
}

fn is_bare(boxes: &SlotBoxes) -> bool
    ensures { result ≡ true → map.len boxes.now ≡ 0 }
{
    boxes.len() == 0
}

/// Gives a present slot another key.
pub(crate) fn rekey(cells: &mut CellTable, slot: u32, key: CellKey)
    requires small { slot < SLOTS }
    requires level { key.level < LEVELS }
    requires present { map.contains_key cells.old slot ≡ true }
    ensures { cells.new ≡ map.insert cells.old slot key }
{
    if is_kept(cells, slot, &key) {
        return;
    }
    cells.take(slot);
    cells.put(slot, key);
}

// Whether a slot has a key.
fn is_kept(cells: &CellTable, slot: u32, key: &CellKey) -> bool
    ensures { result ≡ true → map.get cells.now slot ≡ Some key.now }
{
    match cells.key_of(slot) {
        Some(own) => is_same(&own, key),
        None => false,
    }
}

fn is_same(a: &CellKey, b: &CellKey) -> bool
    ensures { result ≡ true → a.now ≡ b.now }
{
    (a.level == b.level) & (a.x == b.x) & (a.y == b.y) & (a.z == b.z)
}
