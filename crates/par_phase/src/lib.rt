//! Searches on several threads, in an index that nobody changes meanwhile.
#![tactic(auto)]

mod hits;

pub use broad_index::{Seeker, seek_many};
pub use hits::hits_many;
