//! Shows the calls of each index, of sweep and prune and its parts, and of searches in pieces once each, with memory enough,
//! where no clause says that they succeed.
//!
//! It has tests alone. They stand apart, since a crate with tests is proved twice.
#![tactic(auto)]

#[cfg(test)]
mod counts;
#[cfg(test)]
mod each_structure;
#[cfg(test)]
mod endpoints;
#[cfg(test)]
mod lanes;
#[cfg(test)]
mod pieces;
#[cfg(test)]
mod queries;
#[cfg(test)]
mod skins;
#[cfg(test)]
mod sweeps;
