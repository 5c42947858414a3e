//! The search for the pairs of all boxes: of each with those behind it in its cell, in later cells, and on higher levels.

ghost use Rattle.std.specs.Prelude.{◌≡◌, ◌<◌, ◌≤◌, true, max, OnOk};
ghost use Rattle.fixed_box.specs.Bounds.{level_of};
ghost use Rattle.grid_cells.specs.Cells.{standing_cell};
ghost use Rattle.hier_grid.specs.Search.{Finds, FindsAll, IsLaterBeside, IsOther};

use crate::cell_pairs::{block_pairs, later_pairs, pairs_in_own_cell};
use crate::found::Found;
use crate::level_scan::{is_own_scanned, is_scanned, pairs_by_scan};
use crate::searched::Searched;
use cell_table::LEVELS;
use fixed_box::NoMemory;
use grid_boxes::SlotBox;

/// Finds the pairs of all boxes, each from the box whose cell comes first as they stand, or in one cell from the box that is
/// copied first, and answers how many boxes were compared. Two boxes of a level that is scanned, or of cells that share a
/// bucket, may both find their pair. They are searched in the order of their buckets, so that a search reads much of what the
/// one before it read.
pub(crate) fn pairs_of_all(boxes: &Searched, found: &mut Found) -> Result<u64, NoMemory>
    ensures { OnOk result (FindsAll boxes.now.bodies found.new.pairs.items) }
{
    found.clear();
    let copied = boxes.copied();
    let copies = copied.copies();
    let mut place = 0;
    'boxes: while place < copies.len() {
        let own = &copies.entries()[place];
        place += 1;
        // for both parts, so that it is found once
        let level = boxes.level(&own.body);
        pairs_in_own_cell(copied, place, own, found)?;
        pairs_elsewhere(boxes, level, own, found)?;
    }
    Ok(found.looked)
}

/// Finds the pairs of a slot with its partners in later cells of the level at which it stands, and at those above it.
#[inline(always)]
pub(crate) fn pairs_elsewhere(
    boxes: &Searched,
    level: u8,
    own: &SlotBox,
    found: &mut Found,
) -> Result<(), NoMemory>
    requires low { level < LEVELS }
    requires level { level ≡ max (level_of own.now.body) boxes.now.floor }
    ensures { OnOk result (Finds boxes.now.bodies own.now true (λ _ b. IsOther (standing_cell boxes.now.floor) own.now.body b)
        found.old.pairs.items found.new.pairs.items) }
{
    pairs_after_cell(boxes, level, own, found)?;
    pairs_from_level(boxes, level + 1, own, found)?;
    Ok(())
}

// Finds the pairs of a slot with its partners in later cells of the level at which it stands.
fn pairs_after_cell(
    boxes: &Searched,
    level: u8,
    own: &SlotBox,
    found: &mut Found,
) -> Result<(), NoMemory>
    requires low { level < LEVELS }
    requires level { level ≡ max (level_of own.now.body) boxes.now.floor }
    ensures { OnOk result (Finds boxes.now.bodies own.now true (λ _ b. IsLaterBeside (standing_cell boxes.now.floor) own.now.body b)
        found.old.pairs.items found.new.pairs.items) }
{
    if is_own_scanned(boxes, level, own) {
        pairs_by_scan(boxes.kept(), level, own, found)
    } else {
        later_pairs(boxes, own, &boxes.cells_after(level, &own.body), found)
    }
}

/// Finds the pairs of a slot with its partners at the levels from one on.
#[inline(always)]
pub(crate) fn pairs_from_level(
    boxes: &Searched,
    first: u8,
    own: &SlotBox,
    found: &mut Found,
) -> Result<(), NoMemory>
    requires { boxes.now.floor ≤ first }
    ensures { OnOk result (Finds boxes.now.bodies own.now true (λ _ b. first ≤ level_of b) found.old.pairs.items found.new.pairs.items) }
{
    'levels: for level in first..boxes.end() {
        pairs_on_level(boxes, level, own, found)?;
    }
    Ok(())
}

// Finds the pairs of a slot with its partners at a level.
fn pairs_on_level(
    boxes: &Searched,
    level: u8,
    own: &SlotBox,
    found: &mut Found,
) -> Result<(), NoMemory>
    requires low { level < LEVELS }
    requires high { boxes.now.floor ≤ level }
    ensures { OnOk result (Finds boxes.now.bodies own.now true (λ _ b. level_of b ≡ level) found.old.pairs.items found.new.pairs.items) }
{
    if !boxes.kept().has_some(level) {
        return Ok(());
    }
    if is_scanned(boxes, level, own) {
        pairs_by_scan(boxes.kept(), level, own, found)?;
    } else {
        pairs_beside(boxes, level, own, found)?;
    }
    Ok(())
}

/// Finds the pairs of a slot with its partners that stand at a level, by all cells beside its box.
pub(crate) fn pairs_beside(
    boxes: &Searched,
    level: u8,
    own: &SlotBox,
    found: &mut Found,
) -> Result<(), NoMemory>
    requires { level < LEVELS }
    ensures { OnOk result (Finds boxes.now.bodies own.now true (λ _ b. max (level_of b) boxes.now.floor ≡ level)
        found.old.pairs.items found.new.pairs.items) }
{
    block_pairs(boxes, own, &boxes.cells_beside(level, &own.body), found)?;
    Ok(())
}
