//! A box that is moved along a line, asked first by its hull and then by separating axes.

ghost use Rattle.std.specs.Prelude.{◌≡◌};
ghost use Rattle.box_cast.specs.declared.cast.Cast.{Cast};
ghost use Rattle.broad_index.specs.declared.query.Query.TheVariants.{Swept};
ghost use Rattle.prepared_query.specs.PreparedCast.{pass_grown};
ghost use Rattle.prepared_query.specs.Slope.{grown};

use crate::BoxTest;
use crate::line_test::corner_law;
use crate::slope::Side;
use crate::slopes::Slopes;
use box_cast::{Cast, slide_law};
use fixed_box::{FBox, Point};
use ray_slabs::seg_law;
use std::marker::Model;

/// A moved box, prepared to be asked of many boxes. It meets a box if the segment of its lower corner meets that box grown by
/// its own sides. So a box is asked as a segment asks it: at first whether it meets the hull of the cast, and then whether the
/// endless line passes through the grown box as it is seen along each axis (the separating axes of Ericson, Real-Time Collision
/// Detection, 2005, 5.3.3). It is exact, and all products fit 64 bits.
#[derive(Debug, Drop)]
pub struct CastTest {
    // what it asks, by which the contracts know it
    cast: Cast,
    // the least box around the way, as far as coordinates go
    hull: FBox,
    // the endless line of the lower corner
    slopes: Slopes,
}

impl Model for CastTest {
    ghost use Rattle.box_cast.specs.declared.cast.Cast.{Cast};
    ghost use Rattle.prepared_query.specs.PreparedCast.{IsPreparedCast};

    ghost Value = { Cast };

    ghost view = { λ c. c.cast };

    ghost invariant = { λ c. IsPreparedCast c.cast c.hull c.slopes };
}

impl CastTest {
    /// The cast, prepared.
    pub fn of(cast: &Cast) -> CastTest
        ensures { result ≡ cast.now }
    {
        CastTest {
            cast: *cast,
            hull: cast.hull(),
            slopes: Slopes::new(&cast.body.lo(), &cast.by),
        }
    }
}

impl BoxTest for CastTest {
    ghost asks = { Swept };

    #[inline]
    fn meets(&self, body: &FBox) -> bool {
        seg_law();
        slide_law();
        corner_law(body);
        corner_law(&self.cast.body);
        self.hull.overlaps(body) && pass_grown(&self.slopes, &self.cast.body, body)
    }
}

// Whether a line from the lower corner of a moved box passes through a box grown by its sides, in each view.
#[inline]
fn pass_grown(slopes: &Slopes, moved: &FBox, body: &FBox) -> bool
    ensures { result ≡ pass_grown slopes.now moved.now body.now }
{
    let x = grown_x(&moved.lo(), &moved.hi(), &body.lo(), &body.hi());
    let y = grown_y(&moved.lo(), &moved.hi(), &body.lo(), &body.hi());
    let z = grown_z(&moved.lo(), &moved.hi(), &body.lo(), &body.hi());
    slopes.pass_sides(&x, &y, &z)
}

// The side between two corners on an axis, grown by the one between two corners of a moved box.
#[inline]
fn grown_x(near: &Point, far: &Point, lo: &Point, hi: &Point) -> Side
    ensures { result ≡ grown near.now.x far.now.x lo.now.x hi.now.x }
{
    Side::grown(near.x, far.x, lo.x, hi.x)
}

#[inline]
fn grown_y(near: &Point, far: &Point, lo: &Point, hi: &Point) -> Side
    ensures { result ≡ grown near.now.y far.now.y lo.now.y hi.now.y }
{
    Side::grown(near.y, far.y, lo.y, hi.y)
}

#[inline]
fn grown_z(near: &Point, far: &Point, lo: &Point, hi: &Point) -> Side
    ensures { result ≡ grown near.now.z far.now.z lo.now.z hi.now.z }
{
    Side::grown(near.z, far.z, lo.z, hi.z)
}
