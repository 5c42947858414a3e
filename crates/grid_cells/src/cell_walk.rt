//! The walk of a block of cells, row by row, whatever looks into the rows.

ghost use Rattle.std.specs.Prelude.{List, [], ◌∷◌, ◌++◌, OnOk, OnErr};
ghost use Rattle.grid_cells.specs.declared.cell_row.CellRow as row_of_cells;
ghost use Rattle.grid_cells.specs.Cells.{IsAmong, IsInBlock, IsInPlane};
ghost use Rattle.grid_cells.specs.Walks.{Covers};

use crate::cell_block::CellBlock;
use crate::cell_row::CellRow;
use crate::later_cells::LaterCells;
use crate::near_cells::{row_at, with_x};
use cell_table::CellKey;
use fixed_box::NoMemory;

/// What looks into rows of cells, as a walk leads it from one to the next.
pub trait RowSearch {
    /// What it has become by a look into some rows, one after another.
    ghost searched: { List row_of_cells.CellRow → Self → Self → Type 0 };

    /// What it has become where memory ran out.
    ghost stopped: { Self → Self → Type 0 };

    /// Looks into a row of cells.
    fn search_row(&mut self, row: &CellRow) -> Result<(), NoMemory>
        ensures ok { OnOk result (searched (row.now ∷ []) self.old self.new) }
        ensures err { OnErr result (stopped self.old self.new) };

    /// No look is one into no row,
    ghost none: { (s : Self) → searched [] s s };

    /// one look after another is one into all rows of both,
    ghost both: { (xs ys : List row_of_cells.CellRow) (a b c : Self) → searched xs a b → searched ys b c → searched (xs ++ ys) a c };

    /// and where it stops after a look, it stops.
    ghost stops: { (xs : List row_of_cells.CellRow) (a b c : Self) → searched xs a b → stopped b c → stopped a c };
}

/// Looks into a block of cells, row by row.
#[inline(always)]
pub fn search_block<S: RowSearch>(block: &CellBlock, search: &mut S) -> Result<(), NoMemory>
    ensures ok { OnOk result (Covers S.searched (IsInBlock block.now) search.old search.new) }
    ensures err { OnErr result (S.stopped search.old search.new) }
{
    'block: for x in block.from.x..block.end.x {
        search_plane(&with_x(&block.from, x), &block.end, search)?;
    }
    Ok(())
}

// The same of the cells at one x, from one corner on and below another.
#[inline(always)]
fn search_plane<S: RowSearch>(from: &CellKey, end: &CellKey, search: &mut S) -> Result<(), NoMemory>
    ensures ok { OnOk result (Covers S.searched (IsInPlane from.now end.now) search.old search.new) }
    ensures err { OnErr result (S.stopped search.old search.new) }
{
    'plane: for y in from.y..end.y {
        search.search_row(&row_at(from, y, end))?;
    }
    Ok(())
}

/// Looks into those cells that come later: the rest of a row, a plane and a block.
#[inline(always)]
pub fn search_later<S: RowSearch>(cells: &LaterCells, search: &mut S) -> Result<(), NoMemory>
    ensures ok { OnOk result (Covers S.searched (IsAmong cells.now) search.old search.new) }
    ensures err { OnErr result (S.stopped search.old search.new) }
{
    search.search_row(&row_at(&cells.row, cells.row.y, &cells.end))?;
    search_plane(&cells.plane, &cells.end, search)?;
    let block = CellBlock {
        from: cells.block,
        end: cells.end,
    };
    search_block(&block, search)
}
