//! Rays, moved boxes and nearest boxes as plain structs that C shares.

ghost use Rattle.std.specs.Prelude.{◌≡◌};
ghost use Rattle.held_world.specs.Plain.{groups_in, ray_in, cast_in, near_in, near_box_in};

use crate::plain::{PwBox, PwPoint, body_of, point_of};
use crate::squares::{PwSquare, square_of};
use box_cast::Cast;
use live_queries::{Groups, NearBoxQuery, NearQuery};
use ray_slabs::{Ray, WPoint};

/// A ray without end, for the boxes of the groups that `mask` asks for. With a direction of zero it asks for those that hold `from`.
#[repr(C)]
#[derive(Clone, Copy)]
pub struct PwRay {
    pub mask: u32,
    pub from: PwPoint,
    pub direction: PwPoint,
}

/// A box that is moved along a line by a displacement, for the boxes of the groups that `mask` asks for.
#[repr(C)]
#[derive(Clone, Copy)]
pub struct PwCast {
    pub mask: u32,
    pub body: PwBox,
    pub by: PwPoint,
}

/// The boxes that are nearest to a place: at most `want`, of the groups that `mask` asks for.
#[repr(C)]
#[derive(Clone, Copy)]
pub struct PwNear {
    pub mask: u32,
    pub want: u32,
    pub at: PwPoint,
}

/// The boxes that are nearest to a box, of those whose squared distance from it is at least `from`: at most `want`, of the groups that
/// `mask` asks for. To go on after an answer, ask from the square of its last box on: boxes as near as that are told again.
#[repr(C)]
#[derive(Clone, Copy)]
pub struct PwNearBox {
    pub mask: u32,
    pub want: u32,
    pub body: PwBox,
    pub from: PwSquare,
}

// The groups that a question looks at: with the mask 0 it looks at none, and finds boxes of no group too.
pub(crate) fn groups_of(mask: u32) -> Groups
    ensures { result ≡ groups_in mask }
{
    if mask == 0 {
        Groups::All
    } else {
        Groups::Of(mask)
    }
}

pub(crate) fn ray_of(ray: &PwRay) -> Ray
    ensures { result ≡ ray_in ray.now }
{
    Ray {
        from: WPoint::of(&point_of(&ray.from)),
        dir: WPoint::of(&point_of(&ray.direction)),
    }
}

// None exactly where the box is inverted.
pub(crate) fn cast_of(cast: &PwCast) -> Option<Cast>
    ensures { result ≡ cast_in cast.now }
{
    match body_of(&cast.body) {
        Some(body) => Some(Cast {
            body,
            by: point_of(&cast.by),
        }),
        None => None,
    }
}

pub(crate) fn near_of(near: &PwNear) -> NearQuery
    ensures { result ≡ near_in near.now }
{
    NearQuery {
        at: point_of(&near.at),
        want: near.want,
        groups: groups_of(near.mask),
    }
}

// None exactly where the box is inverted.
pub(crate) fn near_box_of(near: &PwNearBox) -> Option<NearBoxQuery>
    ensures { result ≡ near_box_in near.now }
{
    match body_of(&near.body) {
        Some(body) => Some(NearBoxQuery {
            body,
            from: square_of(&near.from),
            want: near.want,
            groups: groups_of(near.mask),
        }),
        None => None,
    }
}
