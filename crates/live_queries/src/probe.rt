//! What goes a way on which it meets boxes: a ray or a cast, where it meets one, and by which face.

ghost use Rattle.std.specs.Prelude.{◌≡◌, Option, IsTrue, is_some};
ghost use Rattle.fixed_box.specs.Bounds.{Bounds, encloses};
ghost use Rattle.ray_slabs.specs.Crossing.{Fraction};
ghost use Rattle.broad_index.specs.Found.{query_meets};
ghost use Rattle.box_cast.specs.Cast.{IsSameValue};
ghost use Rattle.live_queries.specs.declared.face.Face.{Face};
ghost use Rattle.live_queries.specs.Face.{entry_face, contact_face};
ghost use Rattle.live_queries.specs.FirstSeen.{IsMetNoLater};
ghost use Rattle.live_queries.specs.Queries.{entry_of, contact_of};

use crate::face::{Face, contact_face, entry_face};
use crate::ray_test::RayTest;
use box_cast::{Cast, cast_entry, cast_law};
use broad_index::Query;
use fixed_box::{FBox, Fix};
use prepared_query::{BoxTest, CastTest};
use ray_slabs::{Entry, Ray, WBox, first_law, ray_entry, ray_law};

// What goes a way on which it meets boxes.
pub(crate) trait Probe {
    // Whether it meets a box, for many boxes.
    type Test: BoxTest + Drop;

    // Where on the way a box is first met, and none where it isn't met.
    ghost place: { Self → Bounds → Option Fraction };

    // The face of a box that is reached at a place.
    ghost face: { Self → Fraction → Bounds → Option Face };

    fn entry(&self, body: &FBox) -> Option<Entry>
        ensures { IsSameValue result (place self.now body.now) };

    fn face(&self, at: &Entry, body: &FBox) -> Option<Face>
        ensures { result ≡ face self.now at.now body.now };

    // The query that asks for the boxes that are met.
    fn query(&self) -> Query
        ensures { (b : Bounds) → query_meets result b ≡ is_some (place self.now b) };

    // What asks many boxes whether they are met.
    fn test(&self) -> Self::Test
        ensures { (b : Bounds) → query_meets (Self.Test.asks result) b ≡ is_some (place self.now b) };

    // How far along the way the middle of a box lies, in some measure, for speed alone. (A measure that wraps misleads, and no
    // answer is wrong for it.)
    fn measure(&self, body: &FBox) -> i64;

    // A law for proofs, with nothing to run: no box is met before one that encloses it.
    fn place_law(&self)
        ensures { (outer inner : Bounds) → IsTrue (encloses outer inner) → IsMetNoLater (place self.now outer) (place self.now inner) };
}

impl Probe for Ray {
    type Test = RayTest;

    ghost place = { entry_of };

    ghost face = { entry_face };

    fn entry(&self, body: &FBox) -> Option<Entry> {
        ray_entry(self, &WBox::of(body))
    }

    fn face(&self, at: &Entry, body: &FBox) -> Option<Face> {
        entry_face(self, at, body)
    }

    fn query(&self) -> Query {
        Query::Along(*self)
    }

    fn test(&self) -> RayTest {
        RayTest::of(self)
    }

    fn measure(&self, body: &FBox) -> i64 {
        measure([self.dir.x(), self.dir.y(), self.dir.z()], body)
    }

    fn place_law(&self) {
        ray_law();
        first_law();
    }
}

impl Probe for Cast {
    type Test = CastTest;

    ghost place = { contact_of };

    ghost face = { contact_face };

    fn entry(&self, body: &FBox) -> Option<Entry> {
        cast_entry(self, body)
    }

    fn face(&self, at: &Entry, body: &FBox) -> Option<Face> {
        contact_face(self, at, body)
    }

    fn query(&self) -> Query {
        cast_law();
        Query::Swept(*self)
    }

    fn test(&self) -> CastTest {
        cast_law();
        CastTest::of(self)
    }

    fn measure(&self, body: &FBox) -> i64 {
        let by = &self.by;
        measure([i64::from(by.x), i64::from(by.y), i64::from(by.z)], body)
    }

    fn place_law(&self) {
        cast_law();
    }
}

// The product of a way and twice the middle of a box.
fn measure(way: [i64; 3], body: &FBox) -> i64 {
    let (lo, hi) = (body.lo(), body.hi());
    let x = twice_middle(lo.x, hi.x).wrapping_mul(way[0]);
    let y = twice_middle(lo.y, hi.y).wrapping_mul(way[1]);
    let z = twice_middle(lo.z, hi.z).wrapping_mul(way[2]);
    x.wrapping_add(y).wrapping_add(z)
}

fn twice_middle(lo: Fix, hi: Fix) -> i64 {
    i64::from(lo) + i64::from(hi)
}
