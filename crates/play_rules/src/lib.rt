//! What the lines of a scene come to, as definitions with their laws: the world of a scene, what a command does to it and what
//! is replied, the report, how a play may end, and the scene written as one of version 2.
#![tactic(auto)]

mod counting;
mod printed_scene;
mod report_prefix;
mod status;
mod upgrading;
mod worked;
mod worked_of_two;

pub use counting::{count_laws, uncounted_law};
pub use printed_scene::printed_scene_ends;
pub use report_prefix::replies_begin_report;
pub use status::Status;
pub use upgrading::{upgraded_plays_alike, worked_upgrades};
pub use worked::worked_scenes;
pub use worked_of_two::worked_scenes_of_two;
