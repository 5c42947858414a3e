//! A broad phase over a balanced tree of fat boxes (Ericson, *Real-Time Collision Detection*, 2005, chapter 6), which
//! keeps the pairs that it found and seeks those of touched slots alone.
#![tactic(auto)]

mod laws;
mod leaves;
mod marked;
mod moved;
mod renewal;
mod room;
mod search;
mod touched;
mod tree;
mod tree_boxes;
mod tree_listing;

pub use laws::margin_limits;
pub use moved::Moved;
pub use tree::BoxTree;

/// How far a fat box reaches beyond the box that it was made for, on each side, in raw units.
pub const MARGIN: u32 = 8_192;
