//! A world of live boxes under handles, over any broad phase: an engine owns one, and no call asks for anything that a caller
//! could get wrong.
#![tactic(auto)]

mod framing;
mod laws;
mod nearest;
mod noting;
mod parts;
mod reading;
mod refusal;
mod since;
mod world;

pub use laws::{answer_law, count_law, exchange_law, gone_law, stale_law};
pub use refusal::Refusal;
pub use world::BoxWorld;

/// Up to this number frames are counted, which takes longer than any machine lasts.
pub const MOST_FRAMES_COUNTED: u64 = u64::MAX;

/// Where more exchanges were counted than this, no box comes or moves before the next frame. One change counts some 98,000 at
/// most, so that their number always fits 64 bits.
pub const MOST_EXCHANGES: u64 = 1 << 62;
