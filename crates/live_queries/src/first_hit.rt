//! The box that is met first on a way, as it is told.

use crate::face::Face;
use live_table::Handle;
use ray_slabs::Entry;

/// The live box that a ray or a cast meets first.
#[derive(Clone, Copy, Debug, PartialEq, Eq)]
pub struct FirstHit {
    /// Its handle.
    pub handle: Handle,
    /// Where it is met: the fraction of the ray's direction, or of the way of the cast.
    pub place: Entry,
    /// The side of it that is reached there, and `None` where the way begins in the box and comes in by no side; one that begins on a
    /// side and goes in there has that side.
    pub face: Option<Face>,
}
