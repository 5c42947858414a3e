//! A slab and a line, mirrored so that the line rises, compared by cross products of 128 bits.

ghost use Rattle.std.specs.Prelude.{◌≡◌, pos, ◌^◌, ◌≤ℤ◌, ◌-ℤ◌, ◌*ℤ◌, IsTrue};
ghost use Rattle.ray_slabs.specs.Mirrored.{mirrored, is_ahead, is_on_way, enters_by, overlap};
ghost use Rattle.ray_slabs.specs.Range.{IsInRange};
ghost use Rattle.ray_slabs.specs.Vector.{is_in_reach};

use std::marker::Model;

// The slab of a box and a line on one axis, mirrored where the line falls: how far the line goes at the fraction 1, and how
// far its start is from the face that it meets first and from the other one.
#[derive(Drop)]
pub(crate) struct MirroredSlab {
    way: i64,
    near: i64,
    far: i64,
}

impl Model for MirroredSlab {
    ghost use Rattle.ray_slabs.specs.Mirrored.{MirroredSlab as Mirrored};
    ghost use Rattle.ray_slabs.specs.Range.{IsShort};

    ghost Value = { Mirrored };

    ghost view = { λ a. record { way = a.way; near = a.near; far = a.far } };

    ghost invariant = { λ a. IsShort a.way a.near a.far };

    ghost inverse = { λ v. record { way = v.way; near = v.near; far = v.far } };
}

impl MirroredSlab {
    // The slab of a box and a ray on one axis.
    pub(crate) fn of_ray(from: i64, dir: i64, lo: i64, hi: i64) -> MirroredSlab
        requires from { IsTrue (is_in_reach from) }
        requires dir { IsTrue (is_in_reach dir) }
        requires lo { IsTrue (is_in_reach lo) }
        requires hi { IsTrue (is_in_reach hi) }
        ensures slab { result ≡ mirrored (record { from = from; dir = dir; lo = lo; hi = hi }) }
        ensures short { result.way ≤ℤ pos (2 ^ 34) }
    {
        MirroredSlab::new(from, dir, lo, hi)
    }

    // The slab of a box and a segment from `a` to `b` on one axis.
    pub(crate) fn of_seg(a: i64, b: i64, lo: i64, hi: i64) -> MirroredSlab
        requires a { IsTrue (is_in_reach a) }
        requires b { IsTrue (is_in_reach b) }
        requires lo { IsTrue (is_in_reach lo) }
        requires hi { IsTrue (is_in_reach hi) }
        ensures { result ≡ mirrored (record { from = a; dir = b -ℤ a; lo = lo; hi = hi }) }
    {
        MirroredSlab::new(a, b - a, lo, hi)
    }

    // A line that rises meets the lower face first, and one that falls the upper one.
    fn new(from: i64, dir: i64, lo: i64, hi: i64) -> MirroredSlab
        requires { IsInRange from dir lo hi }
        ensures { result ≡ mirrored (record { from = from; dir = dir; lo = lo; hi = hi }) }
    {
        if dir >= 0 {
            MirroredSlab {
                way: dir,
                near: lo - from,
                far: hi - from,
            }
        } else {
            MirroredSlab {
                way: -dir,
                near: from - hi,
                far: from - lo,
            }
        }
    }

    // Where the line comes to the nearer face: `near` parts of the way.
    pub(crate) fn entry(&self) -> (i64, i64)
        ensures near { result.0 ≡ self.now.near }
        ensures most { result.0 ≤ℤ pos (2 ^ 35) }
        ensures way { result.1 ≡ self.now.way }
        ensures least { pos 0 ≤ℤ result.1 }
    {
        (self.near, self.way)
    }

    // Whether a ray comes to the slab. Where it runs along it, it has to start in it.
    pub(crate) fn is_ahead(&self) -> bool
        ensures { result ≡ is_ahead self.now }
    {
        self.far >= 0 && (self.way > 0 || self.near <= 0)
    }

    // Whether a segment comes to the slab.
    pub(crate) fn is_on_way(&self) -> bool
        ensures { result ≡ is_on_way self.now }
    {
        self.far >= 0 && self.near <= self.way
    }

    // Whether the endless line is somewhere in both slabs: it enters neither after it has left the other.
    pub(crate) fn overlaps(&self, other: &MirroredSlab) -> bool
        ensures { result ≡ overlap self.now other.now }
    {
        self.enters_by(other) && other.enters_by(self)
    }

    // near / way is at most the other's far / way, by cross products. A way of 0 needs no case of its own.
    fn enters_by(&self, other: &MirroredSlab) -> bool
        ensures { result ≡ enters_by self.now other.now }
    {
        product(self.near, other.way) <= product(other.far, self.way)
    }
}

// The product of two numbers of 64 bits fits 128.
pub(crate) fn product(a: i64, b: i64) -> i128
    ensures { result ≡ a *ℤ b }
{
    i128::from(a) * i128::from(b)
}
