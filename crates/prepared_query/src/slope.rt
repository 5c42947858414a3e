//! An endless line seen along one axis, and whether it passes through a rectangle.

ghost use Rattle.std.specs.Prelude.{◌≡◌, ◌-ℤ◌, ◌*ℤ◌, int_le};
ghost use Rattle.prepared_query.specs.Slope.{course, grown, side, passes, IsWay, IsGap};

use fixed_box::Fix;
use std::marker::Model;

// An endless line seen along an axis: it goes `run` on the first of the other two while it goes `rise` on the second, and
// is turned about where that would be below 0.
#[derive(Debug, Drop)]
pub(crate) struct Slope {
    run: i64,
    rise: i64,
}

impl Model for Slope {
    ghost use Rattle.prepared_query.specs.Slope.{Course, IsWay};

    ghost Value = { Course };

    ghost view = { λ s. record { run = s.run; rise = s.rise } };

    ghost invariant = { λ s. IsWay s.run × IsWay s.rise };
}

// A side of a box, from the line's start on.
#[derive(Drop)]
pub(crate) struct Side {
    lo: i64,
    hi: i64,
}

impl Model for Side {
    ghost use Rattle.prepared_query.specs.Slope.{Side, IsGap};

    ghost Value = { Side };

    ghost view = { λ s. record { lo = s.lo; hi = s.hi } };

    ghost invariant = { λ s. IsGap s.lo × IsGap s.hi };
}

impl Slope {
    pub(crate) fn new(run: Fix, rise: Fix) -> Slope
        ensures { result ≡ course run rise }
    {
        let (run, rise) = (i64::from(run), i64::from(rise));
        if rise >= 0 {
            Slope { run, rise }
        } else {
            Slope {
                run: -run,
                rise: -rise,
            }
        }
    }

    // Whether it passes through the rectangle of two sides, by cross products with two corners. Where it rises from the
    // left to the right, the upper left corner is not below it, and the lower right one not above. Where it falls, the
    // lower left corner is not above it, and the upper right one not below. A way of 0 needs no case of its own.
    #[inline]
    pub(crate) fn passes(&self, x: &Side, y: &Side) -> bool
        ensures { result ≡ passes self.now x.now y.now }
    {
        if self.run >= 0 {
            is_at_most((x.lo, self.rise), (y.hi, self.run))
                && is_at_most((y.lo, self.run), (x.hi, self.rise))
        } else {
            is_at_most((x.lo, self.rise), (y.lo, self.run))
                && is_at_most((y.hi, self.run), (x.hi, self.rise))
        }
    }
}

impl Side {
    #[inline]
    pub(crate) fn new(from: Fix, lo: Fix, hi: Fix) -> Side
        ensures { result ≡ side from lo hi }
    {
        Side {
            lo: difference(lo, from),
            hi: difference(hi, from),
        }
    }

    // A side from `lo` to `hi`, grown by the one from `near` to `far` of a moved box, from `near` on.
    #[inline]
    pub(crate) fn grown(near: Fix, far: Fix, lo: Fix, hi: Fix) -> Side
        ensures { result ≡ grown near far lo hi }
    {
        Side {
            lo: difference(lo, far),
            hi: difference(hi, near),
        }
    }
}

// A gap: a difference of two coordinates, which has 33 bits.
#[inline]
fn difference(a: Fix, b: Fix) -> i64
    ensures value { result ≡ a -ℤ b }
    ensures gap { IsGap result }
{
    i64::from(a) - i64::from(b)
}

// Whether the product of a gap and a way is at most another.
#[inline]
fn is_at_most(first: (i64, i64), second: (i64, i64)) -> bool
    requires first { IsGap first.0 × IsWay first.1 }
    requires second { IsGap second.0 × IsWay second.1 }
    ensures { result ≡ int_le (first.0 *ℤ first.1) (second.0 *ℤ second.1) }
{
    product(first.0, first.1) <= product(second.0, second.1)
}

// 64 bits hold it: a gap is below 2^32, and a way is at most 2^31.
#[inline]
fn product(gap: i64, way: i64) -> i64
    requires gap { IsGap gap }
    requires way { IsWay way }
    ensures { result ≡ gap *ℤ way }
{
    gap * way
}
