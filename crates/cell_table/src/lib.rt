//! Which slot lies in which cell of a hierarchical grid, kept in hashed buckets (Ericson, *Real-Time Collision
//! Detection*, 2005, 7.2).
#![tactic(auto)]

mod bucket_list;
mod buckets;
mod cell_key;
mod cells;
mod laws;
mod rings;
mod row_places;
mod table;

pub use bucket_list::BucketList;
pub use cell_key::CellKey;
pub use laws::cell_limits;
pub use row_places::RowPlaces;
pub use table::CellTable;

/// How many levels of cells there are: 0 to 10.
pub const LEVELS: u8 = 11;

// How many buckets the cells are hashed into.
const BUCKETS: u32 = 16_384;
