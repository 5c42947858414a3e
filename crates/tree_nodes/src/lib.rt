//! A balanced binary tree of boxes whose nodes have numbers that stay: a bounding volume hierarchy (Ericson, Real-Time
//! Collision Detection, 2005, chapter 6) that is built by insertion, kept balanced by rotations, and rebuilt from the top
//! down where asked.
#![tactic(auto)]

mod comparing;
mod insertion;
mod kin;
mod laws;
mod leaf_key;
mod linked_nodes;
mod median;
mod moving;
mod node;
mod node_view;
mod nodes;
mod path;
mod rebuilding;
mod removal;
mod resizing;

pub use laws::tree_laws;
pub use node::{Node, Role};
pub use node_view::NodeView;
pub use nodes::Nodes;

/// The greatest height that a balanced tree of at most 8,192 leaves has.
pub const MOST_HEIGHT: u8 = 18;

// How many nodes a tree of 8,192 leaves has: the leaves, and one inner node fewer.
const MOST_NODES: usize = 16_383;
