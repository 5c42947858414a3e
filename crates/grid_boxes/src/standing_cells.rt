//! The key of each slot in a table of merged cells.

ghost use Rattle.std.specs.Prelude.{◌≡◌, ℕ, ◌<◌, option_map};
ghost use Rattle.std.specs.FinMap as map;
ghost use Rattle.grid_boxes.specs.Standing.{AreStanding};
ghost use Rattle.grid_cells.specs.Cells.{standing_cell};

use crate::grid_boxes::{GridBoxes, rekey};
use cell_table::{CellKey, CellTable, LEVELS};
use fixed_box::SLOTS;
use grid_cells::standing_cell;
use slot_lists::SlotBoxes;

/// Makes a table that of the cells in which boxes stand where none stands below a floor, whatever it was. A slot that has its
/// cell there keeps it.
pub(crate) fn settle_cells(kept: &GridBoxes, floor: u8, cells: &mut CellTable)
    requires { floor < LEVELS }
    ensures { AreStanding kept.now floor cells.new }
{
    'slots: for slot in 0..SLOTS {
        settle_cell(kept.boxes(), slot, floor, cells);
    }
    kept.slots_law();
    cells.slots_law();
}

// Gives a slot the cell that its box stands in, and none where it is absent.
fn settle_cell(boxes: &SlotBoxes, slot: u32, floor: u8, cells: &mut CellTable)
    requires floor { floor < LEVELS }
    requires small { slot < SLOTS }
    ensures here { map.get cells.new slot ≡ option_map (standing_cell floor) (map.get boxes.now slot) }
    ensures others { (s : ℕ) → (s ≡ slot → ⊥) → map.get cells.new s ≡ map.get cells.old s }
{
    match boxes.box_of(slot) {
        Some(body) => set_key(cells, slot, standing_cell(floor, &body)),
        None => drop_key(cells, slot),
    }
}

/// Gives a slot a key, in place of the one that it has.
pub(crate) fn set_key(cells: &mut CellTable, slot: u32, key: CellKey)
    requires small { slot < SLOTS }
    requires level { key.level < LEVELS }
    ensures { cells.new ≡ map.insert cells.old slot key }
{
    if cells.key_of(slot).is_some() {
        rekey(cells, slot, key);
    } else {
        cells.put(slot, key);
    }
}

/// Takes a slot's key away, if it has one.
pub(crate) fn drop_key(cells: &mut CellTable, slot: u32)
    ensures { cells.new ≡ map.remove cells.old slot }
{
    match cells.key_of(slot) {
        Some(_) => cells.take(slot),
        None => {}
    }
}
