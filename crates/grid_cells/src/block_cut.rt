//! Where a block of cells is cut in two, and on which axis.

/// An axis of space.
#[derive(Clone, Copy)]
pub enum CutAxis {
    X,
    Y,
    Z,
}

/// Where a block of cells is cut in two: before a place on an axis. The first part is the one before it, or else the one from
/// it on.
#[derive(Clone, Copy)]
pub(crate) struct BlockCut {
    pub(crate) axis: CutAxis,
    pub(crate) at: i32,
    pub(crate) turned: bool,
}

impl BlockCut {
    /// A cut in the middle between two places. Cells are so few that nothing wraps, and a cut anywhere would do.
    pub(crate) fn between(axis: CutAxis, from: i32, end: i32) -> BlockCut {
        BlockCut {
            axis,
            at: from.wrapping_add(end.wrapping_sub(from) >> 1),
            turned: false,
        }
    }
}
