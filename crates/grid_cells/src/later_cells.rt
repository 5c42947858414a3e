//! The half of the neighbour cells that come after a cell, so that each pair is sought once.

use cell_table::CellKey;

/// Those cells of a level beside a region that come after the cell of its lower corner: the rest of that cell's row, the rows
/// behind it at the same x, and those of a greater x. Each part begins at a cell of its own, and all end before the same corner.
#[derive(Clone, Copy)]
pub struct LaterCells {
    pub row: CellKey,
    pub plane: CellKey,
    pub block: CellKey,
    pub end: CellKey,
}
