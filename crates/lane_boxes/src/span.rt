//! The interval of a box on one axis.

ghost use Rattle.std.specs.Prelude.{◌≡◌, IsTrue, int_le};
ghost use Rattle.lane_boxes.specs.Spans.{x_of, y_of, z_of};

use fixed_box::{FBox, Fix};

// The interval of a box on one axis.
#[derive(Clone, Copy)]
pub(crate) struct Span {
    pub lo: Fix,
    pub hi: Fix,
}

impl Span {
    pub(crate) fn on_x(body: &FBox) -> Span
        ensures span { result ≡ x_of body.now }
        ensures ordered { IsTrue (int_le result.lo result.hi) }
    {
        Span {
            lo: body.lo().x,
            hi: body.hi().x,
        }
    }

    pub(crate) fn on_y(body: &FBox) -> Span
        ensures span { result ≡ y_of body.now }
        ensures ordered { IsTrue (int_le result.lo result.hi) }
    {
        Span {
            lo: body.lo().y,
            hi: body.hi().y,
        }
    }

    pub(crate) fn on_z(body: &FBox) -> Span
        ensures span { result ≡ z_of body.now }
        ensures ordered { IsTrue (int_le result.lo result.hi) }
    {
        Span {
            lo: body.lo().z,
            hi: body.hi().z,
        }
    }
}
