//! The pairs that one slot of a piece is to find, where several threads search and all boxes are copied by bucket.

ghost use Rattle.std.specs.Prelude.{true, OnOk};
ghost use Rattle.grid_cells.specs.Cells.{cell_of, standing_cell};
ghost use Rattle.hier_grid.specs.Search.{Finds, IsDue};

use crate::cell_pairs::row_pairs;
use crate::found::Found;
use crate::pair_search::{pairs_beside, pairs_elsewhere, pairs_from_level};
use crate::searched::Searched;
use fixed_box::NoMemory;
use grid_boxes::SlotBox;
use grid_cells::{row_of, standing_cell};

/// Finds the pairs of a slot with those partners that it is to find by the cells of their boxes, wherever these stand. So what
/// a piece of the slots finds is told by the boxes alone.
pub(crate) fn pairs_due(boxes: &Searched, own: &SlotBox, found: &mut Found) -> Result<(), NoMemory>
    ensures { OnOk result (Finds boxes.now.bodies own.now true (IsDue cell_of own.now.slot own.now.body)
        found.old.pairs.items found.new.pairs.items) }
{
    if own.body.level() < boxes.copied().floor {
        pairs_of_raised(boxes, own, found)
    } else {
        pairs_of_standing(boxes, own, found)
    }
}

// The same where the slot's box stands above its own level. Its partners there of lower levels are found too: so a pair of
// boxes that both stand there is found twice.
fn pairs_of_raised(boxes: &Searched, own: &SlotBox, found: &mut Found) -> Result<(), NoMemory>
    ensures { OnOk result (Finds boxes.now.bodies own.now true (IsDue cell_of own.now.slot own.now.body)
        found.old.pairs.items found.new.pairs.items) }
{
    let floor = boxes.copied().floor;
    pairs_beside(boxes, floor, own, found)?;
    pairs_from_level(boxes, floor + 1, own, found)?;
    Ok(())
}

// Finds the pairs of a slot with those partners that it is to find by the cells in which their boxes stand.
fn pairs_of_standing(boxes: &Searched, own: &SlotBox, found: &mut Found) -> Result<(), NoMemory>
    ensures { OnOk result (Finds boxes.now.bodies own.now true (IsDue (standing_cell boxes.now.floor) own.now.slot own.now.body)
        found.old.pairs.items found.new.pairs.items) }
{
    let cell = row_of(&standing_cell(boxes.copied().floor, &own.body));
    row_pairs(boxes, own, false, &cell, found)?;
    pairs_elsewhere(boxes, boxes.level(&own.body), own, found)?;
    Ok(())
}
