//! What going back tells of the marked world.

/// What a marked world had, beside its boxes and pairs.
#[derive(Clone, Copy, Debug, PartialEq, Eq)]
pub struct Restored {
    /// The number of its frames.
    pub frames: u64,
    /// The number of exchanges that it was marked with.
    pub exchanges: u64,
}
