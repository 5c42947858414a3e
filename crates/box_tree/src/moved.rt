//! Whether a moved box left its fat box.

/// What a shift did to the tree.
#[derive(Clone, Copy, Debug, PartialEq, Eq)]
pub enum Moved {
    /// The new box lies inside the slot's fat box, which stays.
    Inside,
    /// The slot has another fat box.
    Relinked,
}
