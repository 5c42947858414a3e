//! The search for the pairs of one box along the rings of links between the slots of a bucket, where no copies are fresh.

ghost use Rattle.std.specs.Prelude.{◌≡◌, ◌<◌, true, false, OnOk};
ghost use Rattle.fixed_box.specs.Bounds.{level_of};
ghost use Rattle.grid_boxes.specs.Candidates.{IsEnd};
ghost use Rattle.grid_cells.specs.Cells.{cell_of, IsInRow};
ghost use Rattle.hier_grid.specs.Search.{IsDue, IsOther, Finds};

use crate::found::Found;
use cell_table::LEVELS;
use fixed_box::NoMemory;
use grid_boxes::{GridBoxes, SlotBox};
use grid_cells::{CellRow, cell_of, row_of, visit_row};

/// Finds the pairs of a slot with those partners that it is to find, below a level that is above those of all boxes.
pub(crate) fn pairs_by_rings(
    kept: &GridBoxes,
    end: u8,
    own: &SlotBox,
    found: &mut Found,
) -> Result<(), NoMemory>
    requires { IsEnd kept.now end }
    ensures { OnOk result (Finds kept.now own.now true (IsDue cell_of own.now.slot own.now.body) found.old.pairs.items found.new.pairs.items) }
{
    let cell = cell_of(&own.body);
    ring_pairs_in_cell(kept, own, &row_of(&cell), found)?;
    ring_pairs_elsewhere(kept, end, own, cell.level, found)?;
    Ok(())
}

// Finds the pairs of a slot with its partners of higher slots in its own cell, the only one of a row.
fn ring_pairs_in_cell(
    kept: &GridBoxes,
    own: &SlotBox,
    row: &CellRow,
    found: &mut Found,
) -> Result<(), NoMemory>
    ensures { OnOk result (Finds kept.now own.now false (λ _ b. IsInRow row.now (cell_of b)) found.old.pairs.items found.new.pairs.items) }
{
    found.slots.clear();
    visit_row(kept.cells(), row, &mut found.slots)?;
    found.pairs_among(kept.boxes(), own, false)?;
    Ok(())
}

// Finds the pairs of a slot with its partners in later cells of its level and at the levels above it.
fn ring_pairs_elsewhere(
    kept: &GridBoxes,
    end: u8,
    own: &SlotBox,
    level: u8,
    found: &mut Found,
) -> Result<(), NoMemory>
    requires end { IsEnd kept.now end }
    requires low { level < LEVELS }
    requires level { level ≡ level_of own.now.body }
    ensures { OnOk result (Finds kept.now own.now true (λ _ b. IsOther cell_of own.now.body b) found.old.pairs.items found.new.pairs.items) }
{
    let looked = &mut found.looked;
    let near = &mut found.slots;
    near.clear();
    kept.push_after(level, &own.body, looked, near)?;
    kept.push_from(level + 1, end, &own.body, looked, near)?;
    found.pairs_among(kept.boxes(), own, true)?;
    Ok(())
}
