//! The cells of boxes whose low levels are merged, kept up to date with each change.

ghost use Rattle.std.specs.Prelude.{◌≡◌, ◌<◌, IfOk};
ghost use Rattle.std.specs.FinMap as map;
ghost use Rattle.std.specs.Ordering.{nat_cmp};
ghost use Rattle.fixed_box.specs.Bounds.{Bounds};
ghost use Rattle.grid_boxes.specs.Standing.{IsMerged};

use crate::grid_boxes::GridBoxes;
use crate::standing_cells::{drop_key, set_key, settle_cells};
use cell_table::{CellTable, LEVELS};
use fixed_box::{FBox, NoMemory, SLOTS};
use grid_cells::standing_cell;
use std::alloc::Global;
use std::marker::Model;

/// The cells in which all boxes stand where none stands below a floor. Each change of a box is made here too, so that a search
/// finds them as they are.
#[derive(Drop)]
pub(crate) struct MergedCells {
    cells: CellTable,
    floor: u8,
}

impl Model for MergedCells {
    ghost use Rattle.cell_table.specs.declared.TheConstants.{LEVELS};
    ghost use Rattle.std.specs.Prelude.{◌<◌};
    ghost use Rattle.grid_boxes.specs.Standing.{Merged, coded_merged};

    ghost Value = { Merged };

    ghost coded = { coded_merged };

    ghost view = { λ m. record { cells = m.cells; floor = m.floor } };

    ghost invariant = { λ m. m.floor < LEVELS };
}

impl MergedCells {
    /// The cells of all boxes, in a time by the number of slots.
    pub(crate) fn new(kept: &GridBoxes, floor: u8, alloc: Global) -> Result<MergedCells, NoMemory>
        requires { floor < LEVELS }
        ensures { IfOk result (λ merged. IsMerged kept.now merged × (merged.floor ≡ floor)) }
    {
        let mut cells = CellTable::new(alloc)?;
        settle_cells(kept, floor, &mut cells);
        Ok(MergedCells { cells, floor })
    }

    /// Has all boxes stand above another floor, in a time by the number of slots where it is another one.
    pub(crate) fn set_floor(&mut self, kept: &GridBoxes, floor: u8)
        requires low { floor < LEVELS }
        requires merged { IsMerged kept.now self.old }
        ensures merged { IsMerged kept.now self.new }
        ensures floor { self.new.floor ≡ floor }
    {
        if self.floor == floor {
            return;
        }
        settle_cells(kept, floor, &mut self.cells);
        self.floor = floor;
    }

    /// The table of cells.
    pub(crate) fn cells(&self) -> &CellTable
        ensures { result.now ≡ self.now.cells }
    {
        &self.cells
    }

    /// A slot gets a box, in place of one that it may have. It takes no memory.
    pub(crate) fn set_cell(&mut self, slot: u32, body: &FBox)
        requires { slot < SLOTS }
        ensures { (bodies : map.FinMap nat_cmp Bounds) → IsMerged bodies self.old → IsMerged (map.insert bodies slot body.now) self.new }
    {
        set_key(&mut self.cells, slot, standing_cell(self.floor, body));
    }

    /// A slot has no box any more. It takes no memory.
    pub(crate) fn drop_cell(&mut self, slot: u32)
        ensures { (bodies : map.FinMap nat_cmp Bounds) → IsMerged bodies self.old → IsMerged (map.remove bodies slot) self.new }
    {
        drop_key(&mut self.cells, slot);
    }
}
