//! Shows what live boxes are asked, and what a world of them does, with memory enough, where no clause says that it succeeds.
//!
//! It has tests alone. They stand apart, since a crate with tests is proved twice.
#![tactic(auto)]

#[cfg(test)]
mod firsts;
#[cfg(test)]
mod frames;
#[cfg(test)]
mod nears;
#[cfg(test)]
mod queries;
#[cfg(test)]
mod worlds;
