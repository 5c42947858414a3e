//! What a search for pairs reads where all boxes are copied by bucket.

ghost use Rattle.std.specs.Prelude.{◌≡◌, ℕ, ◌<◌, true, max, Some};
ghost use Rattle.std.specs.FinMap as map;
ghost use Rattle.fixed_box.specs.Bounds.{Bounds, level_of, meets};
ghost use Rattle.grid_boxes.specs.Buckets.{HasBuckets};
ghost use Rattle.grid_boxes.specs.Candidates.{IsEnd};
ghost use Rattle.grid_cells.specs.Cells.{IsAmong, IsInBlock, standing_cell};
ghost use Rattle.hier_grid.specs.Search.{IsLaterBeside};

use cell_table::LEVELS;
use fixed_box::FBox;
use grid_boxes::{BucketBoxes, GridBoxes};
use grid_cells::{CellBlock, LaterCells, block_beside, cells_after};
use std::marker::Model;

/// All boxes, and their copies in the order of the buckets of the cells in which they stand.
#[derive(Drop)]
pub(crate) struct Searched<'a> {
    kept: &'a GridBoxes,
    copied: &'a BucketBoxes,
    // A level above those of all boxes.
    end: u8,
}

impl<'a> Model for Searched<'a> {
    ghost use Rattle.grid_boxes.specs.Buckets.{HasBuckets};
    ghost use Rattle.grid_boxes.specs.Candidates.{IsEnd};
    ghost use Rattle.hier_grid.specs.Listing.{Standing, coded_standing};

    ghost Value = { Standing };

    ghost coded = { coded_standing };

    ghost view = { λ s. record { bodies = s.kept.now; floor = s.copied.now.floor } };

    ghost invariant = { λ s. HasBuckets s.kept.now s.copied.now × IsEnd s.kept.now s.end };
}

impl Searched<'_> {
    /// All boxes, copied as they are now, below a level that is above those of all.
    pub(crate) fn new<'a>(kept: &'a GridBoxes, copied: &'a BucketBoxes, end: u8) -> Searched<'a>
        requires filled { HasBuckets kept.now copied.now }
        requires end { IsEnd kept.now end }
        ensures { result.bodies ≡ kept.now }
    {
        Searched { kept, copied, end }
    }

    /// The boxes by level.
    #[inline(always)]
    pub(crate) fn kept(&self) -> &GridBoxes
        ensures { result.now ≡ self.now.bodies }
    {
        self.kept
    }

    /// Their copies.
    #[inline(always)]
    pub(crate) fn copied(&self) -> &BucketBoxes
        ensures filled { HasBuckets self.now.bodies result.now }
        ensures floor { result.now.floor ≡ self.now.floor }
        ensures low { result.now.floor < LEVELS }
    {
        self.copied
    }

    /// A level above those of all boxes.
    #[inline(always)]
    pub(crate) fn end(&self) -> u8
        ensures { IsEnd self.now.bodies result }
    {
        self.end
    }

    /// The level at which a box stands.
    #[inline(always)]
    pub(crate) fn level(&self, body: &FBox) -> u8
        ensures low { result < LEVELS }
        ensures level { result ≡ max (level_of body.now) self.now.floor }
    {
        body.level().max(self.copied.floor)
    }
    /// The cells after that of a box at the level at which it stands. Boxes of later cells that meet it stand there.
    #[inline(always)]
    pub(crate) fn cells_after(&self, level: u8, body: &FBox) -> LaterCells
        requires low { level < LEVELS }
        requires level { level ≡ max (level_of body.now) self.now.floor }
        ensures { (q : ℕ) (b : Bounds) → map.get self.now.bodies q ≡ Some b → IsLaterBeside (standing_cell self.now.floor) body.now b
            → meets body.now b ≡ true → IsAmong result (standing_cell self.now.floor b) }
    {
        self.kept.sized_law();
        cells_after(level, body)
    }

    /// The cells of a level beside a box. Boxes that stand at the level and meet it stand there.
    #[inline(always)]
    pub(crate) fn cells_beside(&self, level: u8, body: &FBox) -> CellBlock
        requires { level < LEVELS }
        ensures { (q : ℕ) (b : Bounds) → map.get self.now.bodies q ≡ Some b → max (level_of b) self.now.floor ≡ level
            → meets body.now b ≡ true → IsInBlock result (standing_cell self.now.floor b) }
    {
        self.kept.sized_law();
        block_beside(level, body)
    }
}
