//! The scene of the drill: a made load of boxes that move, come and go, the same on every machine.
#![tactic(auto)]

mod drill;
mod examples;
mod laws;
mod made_box;
mod scene_maker;

pub use drill::drill_scene;
pub use laws::{made_limits, made_scene_laws};

/// The most frames of a made scene.
pub const MOST_FRAMES: u32 = 100;
