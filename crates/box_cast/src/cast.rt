//! A box swept along a displacement: its hull, whether it meets a standing box, and when first.

ghost use Rattle.std.specs.Prelude.{◌≡◌, IsTrue, is_some};
ghost use Rattle.fixed_box.specs.Bounds.{Bounds, meets};
ghost use Rattle.box_cast.specs.Cast.{in_cast, first_contact, IsSameValue};
ghost use Rattle.fixed_box.specs.Space.{space};
ghost use Rattle.box_cast.specs.Hull.{cast_hull, moved_point};

use crate::law::{cast_law, slide_law};
use crate::widening::{origin, widened_by};
use fixed_box::{FBox, Point};
use ray_slabs::{Entry, Ray, Seg, WPoint, ray_entry, seg_meets};

/// A box that is moved along a line, from where it stands by a displacement in raw units. On the way it may leave the
/// range of coordinates.
#[derive(Clone, Copy, Debug, PartialEq, Eq)]
pub struct Cast {
    pub body: FBox,
    pub by: Point,
}

impl Cast {
    /// The least box that holds the box and the moved box, stopped at the ends of 32 bits. What the cast meets meets it.
    pub fn hull(&self) -> FBox
        ensures corners { result ≡ cast_hull self.now.body self.now.by }
        ensures met { (b : Bounds) → IsTrue (meets space b) → IsTrue (in_cast self.now.body self.now.by b) →
            IsTrue (meets result b) }
    {
        cast_law();
        let lo = moved_point(&self.body.lo(), &self.by);
        let hi = moved_point(&self.body.hi(), &self.by);
        self.body.union(&FBox::new(lo, hi).unwrap())
    }
}

/// Whether the moved box meets the other at some fraction of the way, its ends among them: whether the segment of the
/// displacement meets the other box widened by the cast one. It is exact and takes no memory.
pub fn cast_meets(cast: &Cast, body: &FBox) -> bool
    ensures { result ≡ in_cast cast.now.body cast.now.by body.now }
{
    slide_law();
    let way = Seg {
        a: origin(),
        b: WPoint::of(&cast.by),
    };
    seg_meets(&way, &widened_by(body, &cast.body))
}

/// The fraction of the way at which the moved box first meets the other, and `None` exactly where it doesn't. It is exact
/// and takes no memory.
pub fn cast_entry(cast: &Cast, body: &FBox) -> Option<Entry>
    ensures met { is_some result ≡ in_cast cast.now.body cast.now.by body.now }
    ensures first { IsSameValue result (first_contact cast.now.body cast.now.by body.now) }
{
    slide_law();
    let from = origin();
    let dir = WPoint::of(&cast.by);
    let entry = ray_entry(&Ray { from, dir }, &widened_by(body, &cast.body))?;
    if entry.num() <= entry.den() {
        Some(entry)
    } else {
        None
    }
}

// The point moved, as far as 32 bits go.
fn moved_point(p: &Point, by: &Point) -> Point
    ensures { result ≡ moved_point p.now by.now }
{
    Point {
        x: p.x.saturating_add(by.x),
        y: p.y.saturating_add(by.y),
        z: p.z.saturating_add(by.z),
    }
}
