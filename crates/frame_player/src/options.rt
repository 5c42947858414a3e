//! The options and the limits of a play.

/// How a scene is played.
#[derive(Clone, Copy, Debug, PartialEq, Eq)]
pub struct Options {
    /// By how many threads at most pairs and queries are searched, from 1 to 16. The report doesn't depend on it.
    pub workers: u32,
    /// Whether each frame ends with the number of exchanges since the last one. Only an index that counts them has it.
    pub exchanges: bool,
}

/// What a scene may have at most.
#[derive(Clone, Copy, Debug, PartialEq, Eq)]
pub struct Limits {
    /// How many lines, from 1 to 268,435,456. The first one past them is refused.
    pub lines: u32,
}
