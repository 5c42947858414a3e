//! An endless line in its three views, and whether it passes through a box in each.

ghost use Rattle.std.specs.Prelude.{◌≡◌};
ghost use Rattle.prepared_query.specs.Prepared.{pass, pass_sides, side_x, side_y, side_z, slopes_of};

use crate::slope::{Side, Slope};
use fixed_box::{FBox, Point};

// An endless line, as it is seen along each axis.
#[derive(Debug, Drop)]
pub(crate) struct Slopes {
    from: Point,
    xy: Slope,
    xz: Slope,
    yz: Slope,
}

impl Slopes {
    // The line through a point that goes so far on each axis.
    pub(crate) fn new(from: &Point, dir: &Point) -> Slopes
        ensures { result ≡ slopes_of from.now dir.now }
    {
        Slopes {
            from: *from,
            xy: Slope::new(dir.x, dir.y),
            xz: Slope::new(dir.x, dir.z),
            yz: Slope::new(dir.y, dir.z),
        }
    }

    // Whether it passes through the box in each view.
    #[inline]
    pub(crate) fn pass(&self, body: &FBox) -> bool
        ensures { result ≡ pass self.now body.now }
    {
        let x = side_x(&self.from, body);
        let y = side_y(&self.from, body);
        let z = side_z(&self.from, body);
        self.pass_sides(&x, &y, &z)
    }

    // The same by the three sides of the box.
    #[inline]
    pub(crate) fn pass_sides(&self, x: &Side, y: &Side, z: &Side) -> bool
        ensures { result ≡ pass_sides self.now x.now y.now z.now }
    {
        self.xy.passes(x, y) && self.xz.passes(x, z) && self.yz.passes(y, z)
    }
}

// The box's side on an axis, from the line's start on.
#[inline]
fn side_x(from: &Point, body: &FBox) -> Side
    ensures { result ≡ side_x from.now body.now }
{
    Side::new(from.x, body.lo().x, body.hi().x)
}

#[inline]
fn side_y(from: &Point, body: &FBox) -> Side
    ensures { result ≡ side_y from.now body.now }
{
    Side::new(from.y, body.lo().y, body.hi().y)
}

#[inline]
fn side_z(from: &Point, body: &FBox) -> Side
    ensures { result ≡ side_z from.now body.now }
{
    Side::new(from.z, body.lo().z, body.hi().z)
}
