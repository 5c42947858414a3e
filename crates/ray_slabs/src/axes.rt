//! The slab test of a line and a box, by pairs of axes.

ghost use Rattle.std.specs.Prelude.{◌≡◌, pos, ◌^◌, ◌≤ℤ◌};
ghost use Rattle.ray_slabs.specs.Mirrored.{all_overlap, meet_ahead, meet_on_way, latest_by};

use crate::Entry;
use crate::mirrored_slab::MirroredSlab;

// A line and a box on the three axes.
//
// Intervals on a line share a point exactly where each two of them do. So the line meets the box where each slab is
// ahead of its start, for a segment no farther than its end, and each two slabs overlap.
#[derive(Drop)]
pub(crate) struct Axes {
    pub x: MirroredSlab,
    pub y: MirroredSlab,
    pub z: MirroredSlab,
}

impl Axes {
    // Whether a ray meets the box.
    pub(crate) fn meet_ahead(&self) -> bool
        ensures { result ≡ meet_ahead self.now.x self.now.y self.now.z }
    {
        self.x.is_ahead() && self.y.is_ahead() && self.z.is_ahead() && self.all_overlap()
    }

    // Whether a segment meets the box.
    pub(crate) fn meet_on_way(&self) -> bool
        ensures { result ≡ meet_on_way self.now.x self.now.y self.now.z }
    {
        self.x.is_on_way() && self.y.is_on_way() && self.z.is_on_way() && self.all_overlap()
    }

    fn all_overlap(&self) -> bool
        ensures { result ≡ all_overlap self.now.x self.now.y self.now.z }
    {
        self.x.overlaps(&self.y) && self.x.overlaps(&self.z) && self.y.overlaps(&self.z)
    }

    // Where a ray has come to each slab.
    pub(crate) fn latest_entry(&self) -> Entry
        requires x { self.now.x.way ≤ℤ pos (2 ^ 34) }
        requires y { self.now.y.way ≤ℤ pos (2 ^ 34) }
        requires z { self.now.z.way ≤ℤ pos (2 ^ 34) }
        ensures { result ≡ latest_by self.now.x self.now.y self.now.z }
    {
        Entry::start()
            .later_by(&self.x)
            .later_by(&self.y)
            .later_by(&self.z)
    }
}
