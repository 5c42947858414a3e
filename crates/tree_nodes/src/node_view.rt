//! A node as a search sees it: a leaf with its slot, or an inner node with its children and height.

use fixed_box::FBox;

/// One node of a tree of boxes, as a search reads it.
#[derive(Clone, Copy)]
pub enum NodeView {
    /// A slot and its box.
    Leaf {
        slot: u32,
        fat: FBox,
    },
    /// The numbers of the two children, the union of their boxes or hulls, and one more than the greater of their
    /// heights. A leaf has height 0.
    Inner {
        left: usize,
        right: usize,
        hull: FBox,
        height: u8,
    },
}
