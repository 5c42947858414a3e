//! A ray or a segment of 32 bits, asked first by the box around it and then by separating axes.

ghost use Rattle.std.specs.Prelude.{◌≡◌, ◌↔◌, ◌-ℤ◌, true, false, IsTrue, None, IfSome, SomeIff};
ghost use Rattle.fixed_box.specs.Bounds.{meets};
ghost use Rattle.fixed_box.specs.Point.{is_at_most};
ghost use Rattle.fixed_box.specs.Space.{space};
ghost use Rattle.ray_slabs.specs.Vector.{is_in_reach, displacement, widened};
ghost use Rattle.ray_slabs.specs.Examples.{at, opposite};
ghost use Rattle.broad_index.specs.declared.query.Query.TheVariants.{Between};
ghost use Rattle.prepared_query.specs.NarrowLine.{fits_i32, is_narrow, is_narrow_vector};
ghost use Rattle.prepared_query.specs.Prepared.{line_of};

use crate::BoxTest;
use crate::line_hull::line_hull;
use crate::slopes::Slopes;
use broad_index::Query;
use fixed_box::{FBox, Fix, Point, space_law};
use ray_slabs::{WPoint, ray_law, seg_law};
use std::marker::Model;

/// A ray or a segment whose numbers fit 32 bits, prepared to be asked of many boxes. A box is asked at first whether it
/// meets the least one around the line. Then it is enough that the endless line passes through it as it is seen along each
/// axis (the separating axes of Ericson, Real-Time Collision Detection, 2005, 5.3.3). It is exact, and all products fit 64
/// bits.
#[derive(Debug, Drop)]
pub struct LineTest {
    // what it asks, by which the contracts know it
    query: Query,
    // the least box around the line, as far as coordinates go
    hull: FBox,
    // the endless line
    slopes: Slopes,
}

impl Model for LineTest {
    ghost use Rattle.broad_index.specs.declared.query.Query.{Query};
    ghost use Rattle.prepared_query.specs.Prepared.{IsPrepared};

    ghost Value = { Query };

    ghost view = { λ l. l.query };

    ghost invariant = { λ l. IsPrepared l.query l.hull l.slopes };
}

impl LineTest {
    /// The line of a query, and `None` exactly where the query is no line or a number doesn't fit: its start, and how
    /// far it goes on each axis, as a ray by its direction or as a segment from end to end.
    pub fn of(query: &Query) -> Option<LineTest>
        ensures made { IfSome result (λ line. line ≡ query.now) }
        ensures none { (result ≡ None) ↔ (is_narrow query.now ≡ false) }
    {
        match query {
            Query::Region(_) | Query::Spot(_) | Query::Swept(_) => None,
            Query::Along(ray) => {
                let from = narrowed(&ray.from)?;
                let dir = narrowed(&ray.dir)?;
                Some(LineTest::new(query, &from, &dir, false))
            }
            Query::Between(seg) => {
                let from = narrowed(&seg.a)?;
                let dir = displacement(&seg.a, &seg.b)?;
                Some(LineTest::new(query, &from, &dir, true))
            }
        }
    }

    // The line that starts at a point and goes so far on each axis, and ends there or never.
    fn new(query: &Query, from: &Point, dir: &Point, ends: bool) -> LineTest
        requires line { line_of ends (widened from.now) (widened dir.now) ≡ query.now }
        requires start { IsTrue (is_narrow_vector (widened from.now)) }
        ensures { result ≡ query.now }
    {
        LineTest {
            query: *query,
            hull: line_hull(from, dir, ends),
            slopes: Slopes::new(from, dir),
        }
    }
}

impl BoxTest for LineTest {
    ghost asks = { λ line. line };

    #[inline]
    fn meets(&self, body: &FBox) -> bool {
        ray_law();
        seg_law();
        corner_law(body);
        self.hull.overlaps(body) && self.slopes.pass(body)
    }
}

// A law for proofs, with nothing to run: a box has its corners in order and in space.
pub(crate) fn corner_law(body: &FBox)
    ensures ordered { IsTrue (is_at_most body.now.lo body.now.hi) }
    ensures in_space { IsTrue (meets space body.now) }
{
    space_law(body);
    let _lo = body.lo();
}

// The same point in 32 bits.
fn narrowed(at: &WPoint) -> Option<Point>
    ensures { SomeIff result (IsTrue (is_narrow_vector at.now)) (record { x = at.now.x; y = at.now.y; z = at.now.z }) }
{
    Some(Point {
        x: narrow(at.x())?,
        y: narrow(at.y())?,
        z: narrow(at.z())?,
    })
}

// How far it is from `a` to `b` on each axis, in 32 bits.
fn displacement(a: &WPoint, b: &WPoint) -> Option<Point>
    ensures { SomeIff result (IsTrue (is_narrow_vector (displacement a.now b.now)))
        (record { x = b.now.x -ℤ a.now.x; y = b.now.y -ℤ a.now.y; z = b.now.z -ℤ a.now.z }) }
{
    Some(Point {
        x: difference(b.x(), a.x())?,
        y: difference(b.y(), a.y())?,
        z: difference(b.z(), a.z())?,
    })
}

fn difference(b: i64, a: i64) -> Option<Fix>
    requires b { IsTrue (is_in_reach b) }
    requires a { IsTrue (is_in_reach a) }
    ensures { SomeIff result (IsTrue (fits_i32 (b -ℤ a))) (b -ℤ a) }
{
    narrow(b - a)
}

fn narrow(part: i64) -> Option<Fix>
    ensures { SomeIff result (IsTrue (fits_i32 part)) part }
{
    if i64::from(i32::MIN) <= part && part <= i64::from(i32::MAX) {
        Some(part as Fix)
    } else {
        None
    }
}

// A way of 2^31 fits where the line falls and doesn't where it rises.
fn way_examples()
    ensures falling { is_narrow (Between (record { a = at 0 0 0; b = opposite (at 2147483648 0 0) })) ≡ true }
    ensures rising { is_narrow (Between (record { a = opposite (at 2147483648 0 0); b = at 0 0 0 })) ≡ false }
{}
