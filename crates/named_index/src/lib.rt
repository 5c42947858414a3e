//! The structures by their names, and how each is made.
#![tactic(auto)]

mod named;
mod skin_tree;
mod structure;

pub use named::Named;
pub use skin_tree::SkinTree;
pub use structure::Structure;
