//! The commands of a scene, as values.

use crate::Version;
use box_cast::Cast;
use fixed_box::{FBox, Point};
use live_table::{Group, Handle, Masks};
use ray_slabs::{Ray, Seg};

/// What one line of a scene asks for. Coordinates are in raw units.
#[derive(Clone, Copy, Debug, PartialEq, Eq)]
pub enum Command {
    /// The line has no words.
    Blank,
    /// `scene`: the scene is of this version.
    Header {
        version: Version,
    },
    /// `add`: a new box.
    Add {
        body: FBox,
        masks: Masks,
        group: Group,
    },
    /// `move`: the box gets a new body.
    Move {
        handle: Handle,
        body: FBox,
    },
    /// `mask`: the box gets new masks.
    Mask {
        handle: Handle,
        masks: Masks,
    },
    /// `remove`: the box goes.
    Remove {
        handle: Handle,
    },
    /// `frame`: the frame ends.
    Frame,
    /// `box`: which boxes of these groups meet this one.
    BoxQ {
        body: FBox,
        mask: u32,
    },
    /// `point`: which boxes of these groups hold the point.
    PointQ {
        at: Point,
        mask: u32,
    },
    /// `ray`: which boxes of these groups meet the ray, in order of entry or of slots.
    RayQ {
        ray: Ray,
        mask: u32,
        entry: bool,
    },
    /// `seg`: which boxes of these groups meet the segment.
    SegQ {
        seg: Seg,
        mask: u32,
    },
    /// `cast`: which boxes of these groups the box meets on its way.
    Cast {
        cast: Cast,
        mask: u32,
    },
    /// `near`: which boxes of these groups are nearest to the point, so many, from 1 to `SLOTS`.
    Near {
        at: Point,
        want: u32,
        mask: u32,
    },
    /// `mark`: the world is kept.
    Mark,
    /// `back`: the world is again the one of the newest mark.
    Back,
}
