//! A box's owner, and whether the box is fixed.

/// Whose a box is, and whether it is fixed. Owner 0 is nobody. Two boxes of one owner never pair, nor do two fixed ones.
#[derive(Clone, Copy, Debug, PartialEq, Eq)]
pub struct Group {
    pub owner: u32,
    pub fixed: bool,
}
