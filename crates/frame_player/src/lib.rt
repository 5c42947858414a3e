//! Plays a scene through a broad phase, whichever structure it is, and writes the report.
#![tactic(auto)]

mod allowed;
mod asked;
mod deed;
mod ending;
mod frame_text;
mod last;
mod obeying;
mod options;
mod player;
mod query_run;
mod report;
mod scene_play;
mod scene_upgrade;
mod setup;
mod step;
mod writing;

pub use options::{Limits, Options};
pub use play_rules::Status;
pub use scene_play::play;
pub use scene_upgrade::upgrade;
pub use writing::write_all;
