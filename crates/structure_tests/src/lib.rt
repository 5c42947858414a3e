//! Shows the calls of the tree and the grid and of their parts once each, with memory enough, where no clause says that they
//! succeed.
//!
//! It has tests alone. They stand apart, since a crate with tests is proved twice.
#![tactic(auto)]

#[cfg(test)]
mod cells;
#[cfg(test)]
mod grids;
#[cfg(test)]
mod nodes;
#[cfg(test)]
mod slow_grids;
#[cfg(test)]
mod trees;
