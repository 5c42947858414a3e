//! A block of cells of one level, and how it is cut in two.

ghost use Rattle.std.specs.Prelude.{◌<◌, IsTrue};
ghost use Rattle.fixed_box.specs.Bounds.{Bounds};
ghost use Rattle.grid_cells.specs.Cells.{cell_of, IsCut, IsInBlock};
ghost use Rattle.grid_cells.specs.Sized.{IsSized, is_held};

use crate::block_cut::{BlockCut, CutAxis};
use crate::cell::{high_face, low_face};
use cell_table::{CellKey, LEVELS};
use fixed_box::{FBox, Point};

/// A block of cells of a level: from the cell of one corner on, below that of another on each axis.
#[derive(Clone, Copy)]
pub struct CellBlock {
    pub from: CellKey,
    pub end: CellKey,
}

impl CellBlock {
    /// How many cells there are, as far as 64 bits go.
    pub fn len(&self) -> u64 {
        let x = u64::from(self.len_on(CutAxis::X));
        let y = u64::from(self.len_on(CutAxis::Y));
        let z = u64::from(self.len_on(CutAxis::Z));
        // the first product fits
        (x * y).saturating_mul(z)
    }

    /// How many cells there are along an axis.
    #[inline(always)]
    pub(crate) fn len_on(&self, axis: CutAxis) -> u32 {
        let (from, end) = self.ends_on(axis);
        from.abs_diff(end)
    }

    /// From where on the cells lie on an axis, and below where.
    #[inline(always)]
    pub(crate) fn ends_on(&self, axis: CutAxis) -> (i32, i32) {
        match axis {
            CutAxis::X => (self.from.x, self.end.x),
            CutAxis::Y => (self.from.y, self.end.y),
            CutAxis::Z => (self.from.z, self.end.z),
        }
    }

    /// The axis along which there are most cells.
    pub(crate) fn longest(&self) -> CutAxis {
        let x = self.len_on(CutAxis::X);
        let y = self.len_on(CutAxis::Y);
        let z = self.len_on(CutAxis::Z);
        if (x >= y) & (x >= z) {
            CutAxis::X
        } else if y >= z {
            CutAxis::Y
        } else {
            CutAxis::Z
        }
    }

    /// The two parts of the block, the first one first.
    #[inline(always)]
    pub(crate) fn parts(&self, cut: &BlockCut) -> (CellBlock, CellBlock)
        ensures { IsCut self.now result.0 result.1 }
    {
        let parts = match cut.axis {
            CutAxis::X => self.cut_x(cut.at),
            CutAxis::Y => self.cut_y(cut.at),
            CutAxis::Z => self.cut_z(cut.at),
        };
        if cut.turned {
            turned(self, parts)
        } else {
            parts
        }
    }

    // The cells before a place on x, and those from it on.
    #[inline(always)]
    fn cut_x(&self, at: i32) -> (CellBlock, CellBlock)
        ensures { IsCut self.now result.0 result.1 }
    {
        let end = CellKey { x: at, ..self.end };
        let from = CellKey { x: at, ..self.from };
        (CellBlock { end, ..*self }, CellBlock { from, ..*self })
    }

    // The cells before a place on y, and those from it on.
    #[inline(always)]
    fn cut_y(&self, at: i32) -> (CellBlock, CellBlock)
        ensures { IsCut self.now result.0 result.1 }
    {
        let end = CellKey { y: at, ..self.end };
        let from = CellKey { y: at, ..self.from };
        (CellBlock { end, ..*self }, CellBlock { from, ..*self })
    }

    // The cells before a place on z, and those from it on.
    #[inline(always)]
    fn cut_z(&self, at: i32) -> (CellBlock, CellBlock)
        ensures { IsCut self.now result.0 result.1 }
    {
        let end = CellKey { z: at, ..self.end };
        let from = CellKey { z: at, ..self.from };
        (CellBlock { end, ..*self }, CellBlock { from, ..*self })
    }

    /// A box that encloses all boxes of the block's cells: these begin in the cells, and are shorter than one. `None` only
    /// where there is no such box.
    pub(crate) fn extent(&self) -> Option<FBox>
        requires { self.now.from.level < LEVELS }
        ensures { (b : Bounds) → IsSized b → IsInBlock self.now (cell_of b) → IsTrue (is_held result b) }
    {
        let level = self.from.level;
        let lo = Point {
            x: low_face(level, self.from.x),
            y: low_face(level, self.from.y),
            z: low_face(level, self.from.z),
        };
        let hi = Point {
            x: high_face(level, self.end.x),
            y: high_face(level, self.end.y),
            z: high_face(level, self.end.z),
        };
        FBox::new(lo, hi)
    }
}

// The two parts of a block the other way round.
#[inline(always)]
fn turned(block: &CellBlock, parts: (CellBlock, CellBlock)) -> (CellBlock, CellBlock)
    requires { IsCut block.now parts.0 parts.1 }
    ensures { IsCut block.now result.0 result.1 }
{
    (parts.1, parts.0)
}
