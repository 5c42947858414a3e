//! A row of cells along z.

ghost use Rattle.std.specs.Prelude.{◌≡◌, ◌≤ℤ◌, true};
ghost use Rattle.grid_cells.specs.Cells.{IsInRow};

use crate::cell::FARTHEST_CELL;
use cell_table::CellKey;

/// A row of cells along z: from the cell of a key on, below an end of z.
#[derive(Clone, Copy)]
pub struct CellRow {
    pub key: CellKey,
    pub end: i32,
}

impl CellRow {
    /// Whether the row has no cell.
    #[inline(always)]
    pub fn is_empty(&self) -> bool
        ensures { result ≡ true → self.now.end ≤ℤ self.now.key.z }
    {
        self.end <= self.key.z
    }
}

/// The row of one cell.
pub fn row_of(cell: &CellKey) -> CellRow
    requires { cell.now.z ≤ℤ FARTHEST_CELL }
    ensures { IsInRow result cell.now }
{
    CellRow {
        key: *cell,
        end: cell.z + 1,
    }
}
