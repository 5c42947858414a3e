//! The Minkowski sum that turns a cast of a box into a ray: the standing box widened by the cast one.

ghost use Rattle.std.specs.Prelude.{◌≡◌, ◌-ℤ◌, IsTrue};
ghost use Rattle.ray_slabs.specs.Vector.{is_in_reach};
ghost use Rattle.box_cast.specs.Widening.{apart, origin, widened_by};

use fixed_box::{FBox, Fix, Point};
use ray_slabs::{WBox, WPoint};

// The standing box, wider by the cast box: where the cast box's displacements lie at which the two meet.
pub(crate) fn widened_by(body: &FBox, cast: &FBox) -> WBox
    ensures { result ≡ widened_by body.now cast.now }
{
    let lo = apart(&body.lo(), &cast.hi());
    let hi = apart(&body.hi(), &cast.lo());
    WBox::new(lo, hi).unwrap()
}

// No displacement.
pub(crate) fn origin() -> WPoint
    ensures { result ≡ origin }
{
    WPoint::of(&Point { x: 0, y: 0, z: 0 })
}

// How far it is from the second point to the first.
fn apart(p: &Point, r: &Point) -> WPoint
    ensures { result ≡ apart p.now r.now }
{
    let x = difference(p.x, r.x);
    let y = difference(p.y, r.y);
    let z = difference(p.z, r.z);
    WPoint::new(x, y, z).unwrap()
}

// A difference of two coordinates has 33 bits.
fn difference(a: Fix, b: Fix) -> i64
    ensures value { result ≡ a -ℤ b }
    ensures reach { IsTrue (is_in_reach result) }
{
    i64::from(a) - i64::from(b)
}
