//! The face of a box that is reached on a way at a place, and the axis that it stands across.

ghost use Rattle.std.specs.Prelude.{◌≡◌, ◌-ℤ◌, ◌*ℤ◌, IsTrue};
ghost use Rattle.ray_slabs.specs.Vector.{is_in_reach};
ghost use Rattle.live_queries.specs.Face.{entry_face, contact_face, first_face, side_from, side_between, side_at, is_reached};

use box_cast::Cast;
use fixed_box::{FBox, Fix, Point};
use ray_slabs::{Entry, Ray};

/// An axis of space.
#[derive(Clone, Copy, Debug, PartialEq, Eq)]
pub enum Axis {
    X,
    Y,
    Z,
}

/// A face of a box: the lower or the upper one across an axis. Its outward normal goes down or up along that axis.
#[derive(Clone, Copy, Debug, PartialEq, Eq)]
pub struct Face {
    pub axis: Axis,
    pub upper: bool,
}

// The face by which a ray comes into a box at a place.
pub(crate) fn entry_face(ray: &Ray, at: &Entry, body: &FBox) -> Option<Face>
    ensures { result ≡ entry_face ray.now at.now body.now }
{
    let x = entry_side_x(ray, at, body);
    let y = entry_side_y(ray, at, body);
    let z = entry_side_z(ray, at, body);
    first_face(x, y, z)
}

// The face of a box that a cast touches at a place.
pub(crate) fn contact_face(cast: &Cast, at: &Entry, body: &FBox) -> Option<Face>
    ensures { result ≡ contact_face cast.now at.now body.now }
{
    let (near, far) = (cast.body.lo(), cast.body.hi());
    let (lo, hi) = (body.lo(), body.hi());
    let x = contact_side_x(at, &near, &far, &cast.by, &lo, &hi);
    let y = contact_side_y(at, &near, &far, &cast.by, &lo, &hi);
    let z = contact_side_z(at, &near, &far, &cast.by, &lo, &hi);
    first_face(x, y, z)
}

// The face on the first axis that has one.
fn first_face(x: Option<bool>, y: Option<bool>, z: Option<bool>) -> Option<Face>
    ensures { result ≡ first_face x y z }
{
    if let Some(upper) = x {
        return Some(Face {
            axis: Axis::X,
            upper,
        });
    }
    if let Some(upper) = y {
        return Some(Face {
            axis: Axis::Y,
            upper,
        });
    }
    let upper = z?;
    Some(Face {
        axis: Axis::Z,
        upper,
    })
}

// On each axis, whether the side that a ray reaches is the upper one.
#[inline]
fn entry_side_x(ray: &Ray, at: &Entry, body: &FBox) -> Option<bool>
    ensures { result ≡ side_from at.now ray.now.from.x ray.now.dir.x body.now.lo.x body.now.hi.x }
{
    side_from(at, ray.from.x(), ray.dir.x(), body.lo().x, body.hi().x)
}

#[inline]
fn entry_side_y(ray: &Ray, at: &Entry, body: &FBox) -> Option<bool>
    ensures { result ≡ side_from at.now ray.now.from.y ray.now.dir.y body.now.lo.y body.now.hi.y }
{
    side_from(at, ray.from.y(), ray.dir.y(), body.lo().y, body.hi().y)
}

#[inline]
fn entry_side_z(ray: &Ray, at: &Entry, body: &FBox) -> Option<bool>
    ensures { result ≡ side_from at.now ray.now.from.z ray.now.dir.z body.now.lo.z body.now.hi.z }
{
    side_from(at, ray.from.z(), ray.dir.z(), body.lo().z, body.hi().z)
}

// The same of a cast, by the corners of both boxes.
#[inline]
fn contact_side_x(
    at: &Entry,
    near: &Point,
    far: &Point,
    by: &Point,
    lo: &Point,
    hi: &Point,
) -> Option<bool>
    ensures { result ≡ side_between at.now near.now.x far.now.x by.now.x lo.now.x hi.now.x }
{
    side_between(at, near.x, far.x, by.x, lo.x, hi.x)
}

#[inline]
fn contact_side_y(
    at: &Entry,
    near: &Point,
    far: &Point,
    by: &Point,
    lo: &Point,
    hi: &Point,
) -> Option<bool>
    ensures { result ≡ side_between at.now near.now.y far.now.y by.now.y lo.now.y hi.now.y }
{
    side_between(at, near.y, far.y, by.y, lo.y, hi.y)
}

#[inline]
fn contact_side_z(
    at: &Entry,
    near: &Point,
    far: &Point,
    by: &Point,
    lo: &Point,
    hi: &Point,
) -> Option<bool>
    ensures { result ≡ side_between at.now near.now.z far.now.z by.now.z lo.now.z hi.now.z }
{
    side_between(at, near.z, far.z, by.z, lo.z, hi.z)
}

// By a ray's start and direction on an axis, and the two sides.
fn side_from(at: &Entry, from: i64, dir: i64, lo: Fix, hi: Fix) -> Option<bool>
    requires { IsTrue (is_in_reach from) }
    ensures { result ≡ side_from at.now from dir lo hi }
{
    side_at(at, dir, way_to(lo, from), way_to(hi, from))
}

// By the sides of the moved box on an axis, how far it is moved, and the two sides of the other.
fn side_between(at: &Entry, near: Fix, far: Fix, by: Fix, lo: Fix, hi: Fix) -> Option<bool>
    ensures { result ≡ side_between at.now near far by lo hi }
{
    side_at(at, i64::from(by), gap(lo, far), gap(hi, near))
}

// How far it is from a part of a ray's start to a coordinate.
fn way_to(to: Fix, from: i64) -> i64
    requires { IsTrue (is_in_reach from) }
    ensures { result ≡ to -ℤ from }
{
    i64::from(to) - from
}

// A difference of two coordinates has 33 bits.
fn gap(to: Fix, from: Fix) -> i64
    ensures { result ≡ to -ℤ from }
{
    i64::from(to) - i64::from(from)
}

// On an axis, whether the side that is reached at the place is the upper one: by how far the way goes, and how far it is to
// the lower and to the upper side.
fn side_at(place: &Entry, way: i64, lower: i64, upper: i64) -> Option<bool>
    ensures { result ≡ side_at place.now way lower upper }
{
    if way > 0 {
        if is_reached(place, way, lower) {
            return Some(false);
        }
    } else if way < 0 && is_reached(place, way, upper) {
        return Some(true);
    }
    None
}

// Whether a way comes exactly so far at the place, by cross products.
fn is_reached(place: &Entry, way: i64, far: i64) -> bool
    ensures { result ≡ is_reached place.now way far }
{
    product(far, place.den()) == product(place.num(), way)
}

// The product of two numbers of 64 bits fits 128.
fn product(a: i64, b: i64) -> i128
    ensures { result ≡ a *ℤ b }
{
    i128::from(a) * i128::from(b)
}
