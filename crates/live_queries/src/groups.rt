//! Which groups of boxes a question looks at.

/// The boxes that a question finds, by their groups. `All` looks at no group: it finds boxes of no group too.
#[derive(Clone, Copy, Debug, PartialEq, Eq)]
pub enum Groups {
    /// Each live box, whatever its `is` groups.
    All,
    /// The boxes that are in one of a mask's groups, by their `is`. Of the mask 0 there are none.
    Of(u32),
}
