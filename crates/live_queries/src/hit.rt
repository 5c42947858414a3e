//! A slot that is met on a way, ordered by the place where that is so first.

use ray_slabs::Entry;

// The slot of a box that is met on the way, by where that is so first. Of two at one place the lower slot comes first.
#[derive(Clone, Copy, Debug, PartialEq, Eq, PartialOrd, Ord)]
pub(crate) struct Hit {
    pub entry: Entry,
    pub slot: u32,
}
