//! What a rebuild orders leaves by: about the centre of a box, read along one axis.

use fixed_box::{FBox, Point};

/// A leaf as a rebuild orders it: about the centre of its box, and its number.
#[derive(Clone, Copy)]
pub(crate) struct LeafKey {
    pub(crate) centre: Point,
    pub(crate) number: usize,
}

// An axis, known where the code is made: a partition is written once for each.
pub(crate) trait Along {
    // The coordinate of a centre on this axis.
    fn coordinate(centre: &Point) -> i32;
}

pub(crate) struct AlongX;

pub(crate) struct AlongY;

pub(crate) struct AlongZ;

impl Along for AlongX {
    fn coordinate(centre: &Point) -> i32 {
        centre.x
    }
}

impl Along for AlongY {
    fn coordinate(centre: &Point) -> i32 {
        centre.y
    }
}

impl Along for AlongZ {
    fn coordinate(centre: &Point) -> i32 {
        centre.z
    }
}

// About the centre of a box.
pub(crate) fn centre(fat: &FBox) -> Point {
    let (lo, hi) = (fat.lo(), fat.hi());
    Point {
        x: middle(lo.x, hi.x),
        y: middle(lo.y, hi.y),
        z: middle(lo.z, hi.z),
    }
}

// About the middle of two coordinates.
pub(crate) fn middle(lo: i32, hi: i32) -> i32 {
    (lo >> 1) + (hi >> 1)
}
