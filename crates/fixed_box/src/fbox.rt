//! The axis-aligned box of fixed point: tested, joined and fattened, and the level of a grid that fits it.

ghost use Rattle.std.specs.Prelude.{◌≡◌, ℕ, ◌<◌, ◌≤◌, IsTrue, SomeIff};
ghost use Rattle.fixed_box.specs.Bounds.{Bounds, meets, holds, encloses, hull, fattened, longest_side, cell_side, level_of, level_for};
ghost use Rattle.fixed_box.specs.Point.{is_at_most};

use crate::Point;
use crate::point::{is_at_most, lower_corner, lowered_corner, raised_corner, upper_corner};
use std::marker::Model;

/// An axis-aligned box: a lower and an upper corner, in raw units, with `lo <= hi` on each axis.
/// It is closed, so its faces belong to it, and it may be flat.
#[derive(Clone, Copy, Debug, PartialEq, Eq)]
pub struct FBox {
    lo: Point,
    hi: Point,
}

impl Model for FBox {
    ghost use Rattle.std.specs.Prelude.{IsTrue};
    ghost use Rattle.fixed_box.specs.Bounds.{Bounds};
    ghost use Rattle.fixed_box.specs.Point.{is_at_most};

    ghost Value = { Bounds };

    ghost view = { λ b. record { lo = b.lo; hi = b.hi } };

    ghost invariant = { λ b. IsTrue (is_at_most b.lo b.hi) };

    ghost inverse = { λ v. record { lo = v.lo; hi = v.hi } };
}

impl FBox {
    /// The box between two corners, and `None` exactly where `lo > hi` on some axis.
    pub fn new(lo: Point, hi: Point) -> Option<FBox>
        ensures { SomeIff result (IsTrue (is_at_most lo hi)) (record { lo = lo; hi = hi }) }
    {
        if is_at_most(&lo, &hi) {
            Some(FBox { lo, hi })
        } else {
            None
        }
    }

    /// The lower corner.
    pub fn lo(&self) -> Point
        ensures lo { result ≡ self.now.lo }
        ensures ordered { IsTrue (is_at_most self.now.lo self.now.hi) }
    {
        self.lo
    }

    /// The upper corner.
    pub fn hi(&self) -> Point
        ensures hi { result ≡ self.now.hi }
        ensures ordered { IsTrue (is_at_most self.now.lo self.now.hi) }
    {
        self.hi
    }

    /// Whether the two boxes have a common point. Boxes that touch do.
    pub fn overlaps(&self, other: &FBox) -> bool
        ensures { result ≡ meets self.now other.now }
    {
        is_at_most(&self.lo, &other.hi) & is_at_most(&other.lo, &self.hi)
    }

    /// Whether the point lies in the box. Its faces belong to it.
    pub fn holds_point(&self, at: &Point) -> bool
        ensures { result ≡ holds self.now at.now }
    {
        is_at_most(&self.lo, at) & is_at_most(at, &self.hi)
    }

    /// Whether the other box lies in this one, as a fattened box is asked of the body that it was made for. A box holds
    /// itself.
    pub fn holds_box(&self, other: &FBox) -> bool
        ensures { result ≡ encloses self.now other.now }
    {
        is_at_most(&self.lo, &other.lo) & is_at_most(&other.hi, &self.hi)
    }

    /// The least box that holds both: the bounding volume of two.
    pub fn union(&self, other: &FBox) -> FBox
        ensures corners { result ≡ hull self.now other.now }
        ensures this { IsTrue (encloses result self.now) }
        ensures that { IsTrue (encloses result other.now) }
        ensures least { (b : Bounds) → IsTrue (encloses b self.now) → IsTrue (encloses b other.now)
            → IsTrue (encloses b result) }
    {
        FBox {
            lo: lower_corner(&self.lo, &other.lo),
            hi: upper_corner(&self.hi, &other.hi),
        }
    }

    /// The box with each side moved outwards by so many raw units, stopped at the ends of 32 bits. With such a margin a
    /// structure may keep the box of a body that moves little.
    pub fn fatten(&self, by: u32) -> FBox
        ensures corners { result ≡ fattened self.now by }
        ensures held { IsTrue (encloses result self.now) }
    {
        FBox {
            lo: lowered_corner(&self.lo, by),
            hi: raised_corner(&self.hi, by),
        }
    }

    /// The greatest length over the axes, in raw units.
    pub fn longest_side(&self) -> u32
        ensures { result ≡ longest_side self.now }
    {
        let x = self.hi.x.abs_diff(self.lo.x);
        let y = self.hi.y.abs_diff(self.lo.y);
        let z = self.hi.z.abs_diff(self.lo.z);
        x.max(y).max(z)
    }

    /// The least level of a grid, from 0 to 10, whose cells are longer than the longest side: at level L they have
    /// `2^(12 + 2*L)` raw units.
    pub fn level(&self) -> u8
        ensures value { result ≡ level_of self.now }
        ensures bound { result ≤ 10 }
        ensures fits { longest_side self.now < cell_side result }
        ensures least { (l : ℕ) → l < result → cell_side l ≤ longest_side self.now }
    {
        level_for(self.longest_side())
    }
}

// The least level whose cells are longer than a side.
fn level_for(side: u32) -> u8
    ensures value { result ≡ level_for side }
    ensures bound { result ≤ 10 }
    ensures fits { side < cell_side result }
    ensures least { (l : ℕ) → l < result → cell_side l ≤ side }
{
    for level in 0..10u8 {
        if side < 1 << (12 + 2 * level) {
            return level;
        }
    }
    // its cells have 2^32 raw units, and no side is so long
    10
}
