//! The parent and the sibling of a node, kept for the way up.

// The parent and the sibling of a node, as they were noted last. Whoever follows them checks them as it goes, and searches
// afresh where they lead elsewhere, so no promise rests on them.
#[derive(Clone, Copy)]
pub(crate) struct Kin {
    // There are fewer than 2^14 numbers.
    parent: u16,
    sibling: u16,
}

impl Kin {
    pub(crate) fn new(parent: usize, sibling: usize) -> Kin {
        Kin {
            parent: u16::try_from(parent).unwrap_or(u16::MAX),
            sibling: u16::try_from(sibling).unwrap_or(u16::MAX),
        }
    }

    pub(crate) fn parent(&self) -> usize {
        usize::from(self.parent)
    }

    pub(crate) fn sibling(&self) -> usize {
        usize::from(self.sibling)
    }
}
