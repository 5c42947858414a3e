//! The drill: plays a made scene through a broad phase, and sums its report up.
#![tactic(auto)]

mod drilling;
mod load;
mod made_play;
mod number;
mod pieces;
mod summary;
mod tally;

pub use drilling::drill;
pub use load::{DrillJob, Load};
pub use made_play::made_scene_is_played;
pub use summary::put_summary;
