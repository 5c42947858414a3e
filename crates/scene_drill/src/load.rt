//! What a drill is made of: seed, boxes, frames, and how it is played.

use frame_player::Options;

/// The load of a drill: a made scene of so many boxes and frames.
#[derive(Clone, Copy, Debug, PartialEq, Eq)]
pub struct Load {
    /// Where the generator of the scene's numbers begins.
    pub seed: u64,
    /// How many boxes there are, from 1 to 8,192.
    pub boxes: u32,
    /// How many frames are played, from 1 to 100.
    pub frames: u32,
}

/// What a drill does: which load it plays, and how.
#[derive(Clone, Copy, Debug, PartialEq, Eq)]
pub struct DrillJob {
    pub load: Load,
    pub options: Options,
}
