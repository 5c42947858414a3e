//! A node as it is stored in 32 bytes: its box or hull, and its slot or children.

ghost use Rattle.std.specs.Prelude.{◌≡◌};
ghost use Rattle.tree_nodes.specs.Shown.{shown};

use crate::NodeView;
use fixed_box::FBox;

/// One node of a tree of boxes as it is stored, in 32 bytes. A leaf's box and an inner node's hull lie in one place, so that a
/// search asks either before it knows which it is.
#[derive(Clone, Copy)]
pub struct Node {
    /// A leaf's box, or the union of the children's boxes or hulls.
    pub bounds: FBox,
    pub role: Role,
}

/// What a node is.
#[derive(Clone, Copy)]
pub enum Role {
    Leaf { slot: u32 },
    /// The numbers of the two children, and one more than the greater of their heights.
    Inner { left: u16, right: u16, height: u8 },
}

impl Node {
    /// What the node shows.
    #[inline]
    pub fn view(&self) -> NodeView
        ensures { result ≡ shown self.now }
    {
        match self.role {
            Role::Leaf { slot } => NodeView::Leaf {
                slot,
                fat: self.bounds,
            },
            Role::Inner {
                left,
                right,
                height,
            } => NodeView::Inner {
                left: usize::from(left),
                right: usize::from(right),
                hull: self.bounds,
                height,
            },
        }
    }
}
