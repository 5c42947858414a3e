//! On how many axes two boxes overlap, counted for each pair of slots as single endpoints change places.
#![tactic(auto)]

mod counts;
mod full_pairs;
mod slot_counts;
mod slot_set;
mod tally;

pub use counts::Counts;
