//! Which broad phase keeps the boxes: a plain list, sorted endpoints, a tree, a grid or a tree of skins.

/// By which structure the boxes are kept.
#[derive(Clone, Copy, Debug, PartialEq, Eq)]
pub enum Structure {
    /// A list that tests all pairs.
    Plain,
    /// Sweep and prune over three sorted lists of endpoints.
    Sap,
    /// A balanced tree of fat boxes.
    Tree,
    /// A hashed hierarchical grid.
    Grid,
    /// Boxes in skins over the tree: the one to take where boxes move by little in each tick.
    Skin,
}
