//! Work on a list that is cut into pieces, which threads do side by side.
#![tactic(auto)]

mod gate;
mod laws;
mod pieces;

pub use gate::{Gate, NoGate};
pub use laws::work_limits;
pub use pieces::{by_pieces, by_runs};

/// The most workers of a search.
pub const MOST_WORKERS: u32 = 16;
