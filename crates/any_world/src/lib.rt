//! A world of live boxes over a structure that is named when the program runs.
#![tactic(auto)]

mod any_world;
mod nearest;
mod reading;

pub use any_world::AnyWorld;
pub use named_index::Structure;
