//! The cells of a hierarchical grid: where boxes lie in them, which lie beside a region, and which a line crosses (Ericson,
//! *Real-Time Collision Detection*, 2005, 7.2).
//!
//! Nothing here keeps a box: a `CellTable` tells which slots lie in a cell.
#![tactic(auto)]

mod block_cut;
mod cell;
mod cell_block;
mod cell_row;
mod cell_walk;
mod crossed_cells;
mod later_cells;
mod line_path;
mod near_cells;

pub use block_cut::CutAxis;
pub use cell::{FARTHEST_CELL, cell_in, cell_of, standing_cell};
pub use cell_block::CellBlock;
pub use cell_row::{CellRow, row_of};
pub use cell_walk::{RowSearch, search_block, search_later};
pub use crossed_cells::visit_crossed;
pub use later_cells::LaterCells;
pub use line_path::{LinePath, PathPlace};
pub use near_cells::{
    block_beside, cells_after, count_beside, row_at, visit_block, visit_later, visit_row, with_x,
};
