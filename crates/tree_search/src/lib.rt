//! Searches of a tree of fat boxes for the exact boxes of its leaves: with a query, with a box, and with eight boxes at once
//! (Ericson, *Real-Time Collision Detection*, 2005, 6.3 and 6.6.2).
#![tactic(auto)]

mod box_search;
mod boxed_tree;
mod descent;
mod group;
mod hits;
mod laws;
mod preorder;
mod search_room;
mod tree_findings;
mod visiting;
mod waiting;

pub use box_search::{push_others, search_boxes, search_each};
pub use boxed_tree::BoxedTree;
pub use descent::descend_with_box;
pub use hits::push_hits;
pub use laws::listing_law;
pub use preorder::{ListedNode, NodeKind, list_preorder};
pub use search_room::SearchRoom;
pub use tree_findings::TreeFindings;
pub use visiting::show_boxes;
