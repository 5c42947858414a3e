//! The pairs of a box with its partners among copies of all boxes, cell by cell.

ghost use Rattle.std.proofs.Common.{◌∙◌};
ghost use Rattle.std.specs.Prelude.{◌≡◌, refl, ◌<◌, ◌≤◌, ◌++◌, true, OnOk, length};
ghost use Rattle.grid_boxes.specs.Buckets.{IsEven};
ghost use Rattle.grid_boxes.specs.Copies.{stretch};
ghost use Rattle.grid_cells.specs.Cells.{IsAmong, IsInBlock, IsInRow};
ghost use Rattle.grid_cells.specs.Walks.{IsInOne};
ghost use Rattle.hier_grid.specs.Listing.{FindsBehind, FindsIn, met_pairs};
ghost use Rattle.hier_grid.specs.WalkFinds.{finds_nowhere, finds_twice};

use crate::found::Found;
use crate::partners::push_met_pairs;
use crate::searched::Searched;
use broad_index::Pair;
use cell_table::LEVELS;
use fixed_box::NoMemory;
use grid_boxes::{BoxCopies, BucketBoxes, PACKED, SlotBox};
use grid_cells::{CellBlock, CellRow, LaterCells, RowSearch, search_block, search_later};

// In a shorter stretch boxes are compared one by one.
const FEWEST_BY_PACKETS: usize = 24;

/// Finds the pairs of a slot with its partners in its cell that stand from a place on: the one behind it. So each two boxes of a
/// cell are compared once. Each box there is compared, and counted.
#[inline(always)]
pub(crate) fn pairs_in_own_cell(
    copied: &BucketBoxes,
    from: usize,
    own: &SlotBox,
    found: &mut Found,
) -> Result<(), NoMemory>
    requires even { IsEven copied.now }
    requires low { copied.now.floor < LEVELS }
    requires from { from ≤ length copied.now.copies }
    ensures { OnOk result (FindsBehind copied.now from own.now found.old.pairs.items found.new.pairs.items) }
{
    let end = copied.cell_end(from, &own.body);
    push_pairs_in(copied.copies(), own, true, from, end, found)?;
    Ok(())
}

// What finds the pairs of a slot with its partners in rows of cells.
#[derive(Drop)]
struct RowPairs<'a> {
    boxes: &'a Searched<'a>,
    own: &'a SlotBox,
    found: &'a mut Found,
}

impl RowSearch for RowPairs<'_> {
    ghost searched = { λ rows a b. (b.found.ghost_name ≡ a.found.ghost_name) × ((b.boxes.now ≡ a.boxes.now) × ((b.own.now ≡ a.own.now)
        × FindsIn a.boxes.now a.own.now true (IsInOne rows) a.found.now.pairs.items b.found.now.pairs.items)) };

    ghost stopped = { λ _ _. Unit {0} };

    #[inline(always)]
    fn search_row(&mut self, row: &CellRow) -> Result<(), NoMemory> {
        row_pairs(self.boxes, self.own, true, row, self.found)
    }

    ghost none = { λ s. (refl, (refl, (refl, finds_nowhere s.boxes.now s.own.now s.found.now.pairs.items))) };

    ghost both = { λ xs ys a b c f g. (
      g.0 ∙ f.0,
      (
        g.1.0 ∙ f.1.0,
        (
          g.1.1.0 ∙ f.1.1.0,
          finds_twice a.boxes.now b.boxes.now a.own.now b.own.now xs ys
              a.found.now.pairs.items b.found.now.pairs.items c.found.now.pairs.items
              f.1.0 f.1.1.0 f.1.1.1 g.1.1.1,
        ),
      ),
    ) };

    ghost stops = { λ rows a b c f g. g };
}

/// Finds the pairs of a slot with its partners in those cells that come later.
#[inline(always)]
pub(crate) fn later_pairs(
    boxes: &Searched,
    own: &SlotBox,
    cells: &LaterCells,
    found: &mut Found,
) -> Result<(), NoMemory>
    ensures { OnOk result (FindsIn boxes.now own.now true (IsAmong cells.now) found.old.pairs.items found.new.pairs.items) }
{
    search_later(cells, &mut RowPairs { boxes, own, found })?;
    Ok(())
}

/// Finds the pairs of a slot with its partners in a block of cells.
#[inline(always)]
pub(crate) fn block_pairs(
    boxes: &Searched,
    own: &SlotBox,
    block: &CellBlock,
    found: &mut Found,
) -> Result<(), NoMemory>
    ensures { OnOk result (FindsIn boxes.now own.now true (IsInBlock block.now) found.old.pairs.items found.new.pairs.items) }
{
    search_block(block, &mut RowPairs { boxes, own, found })?;
    Ok(())
}

/// Finds the pairs of a slot with its partners in a row of cells, either any or those with higher slots alone. Each box
/// of the row is compared, and counted.
#[inline(always)]
pub(crate) fn row_pairs(
    boxes: &Searched,
    own: &SlotBox,
    any: bool,
    row: &CellRow,
    found: &mut Found,
) -> Result<(), NoMemory>
    ensures { OnOk result (FindsIn boxes.now own.now any (IsInRow row.now) found.old.pairs.items found.new.pairs.items) }
{
    if row.is_empty() {
        return Ok(());
    }
    let copied = boxes.copied();
    let copies = copied.copies();
    let places = copied.row(row);
    push_pairs_in(copies, own, any, places.from, places.to, found)?;
    push_pairs_in(copies, own, any, 0, places.wrapped, found)?;
    Ok(())
}

// Appends the pairs of a slot with its partners among the copies from a place on and below another. Each box there is counted.
#[inline(always)]
fn push_pairs_in(
    copies: &BoxCopies,
    own: &SlotBox,
    any: bool,
    from: usize,
    to: usize,
    found: &mut Found,
) -> Result<(), NoMemory>
    requires ordered { from ≤ to }
    requires inside { to ≤ length copies.now }
    ensures { OnOk result (found.new.pairs.items ≡ found.old.pairs.items ++ met_pairs own.now any (stretch from to copies.now)) }
{
    let len = to - from;
    // most rows are empty
    if len == 0 {
        return Ok(());
    }
    found.looked = found.looked.saturating_add(len as u64);
    // few lists have packets
    if len >= FEWEST_BY_PACKETS && copies.has_packets() {
        push_pairs_by_packets(copies, own, any, from, to, &mut found.pairs)?;
    } else {
        push_met_pairs(own, any, &copies.entries()[from..to], &mut found.pairs)?;
    }
    Ok(())
}

// The same by packets: no box of one is looked at where none of its eight meets the slot's. It stands apart from the code of short
// rows.
#[inline(never)]
fn push_pairs_by_packets(
    copies: &BoxCopies,
    own: &SlotBox,
    any: bool,
    from: usize,
    to: usize,
    pairs: &mut Vec<Pair>,
) -> Result<(), NoMemory>
    requires ordered { from ≤ to }
    requires inside { to ≤ length copies.now }
    ensures { OnOk result (pairs.new.items ≡ pairs.old.items ++ met_pairs own.now any (stretch from to copies.now)) }
{
    let mut at = from;
    'packets: while at < to {
        let near = copies.next_near(at, to, &own.body).min(to);
        let end = near.saturating_add(PACKED - near % PACKED).min(to);
        push_met_pairs(own, any, &copies.entries()[near..end], pairs)?;
        at = end;
    }
    Ok(())
}
