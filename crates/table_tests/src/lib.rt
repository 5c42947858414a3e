//! Shows the calls of the tables of live boxes, of slots and of pairs and of the marks of a world once each, with memory
//! enough, where no clause says that they succeed.
//!
//! It has tests alone. They stand apart, since a crate with tests is proved twice.
#![tactic(auto)]

#[cfg(test)]
mod events;
#[cfg(test)]
mod handles;
#[cfg(test)]
mod marks;
#[cfg(test)]
mod slots;
