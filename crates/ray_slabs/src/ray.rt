//! A ray against a box: whether it meets it and where it enters, with the laws and worked examples of both.

ghost use Rattle.std.specs.Prelude.{◌≡◌, ◌↔◌, pos, ◌^◌, ◌≤ℤ◌, IsTrue, true, false, SomeIff};
ghost use Rattle.std.specs.declared.cmp.Ordering.TheVariants.{Less, Equal};
ghost use Rattle.std.specs.List.{Contains};
ghost use Rattle.ray_slabs.specs.Crossing.{candidates, in_ray, slabs_of};
ghost use Rattle.ray_slabs.specs.Vector.{Vector, is_at_most};
ghost use Rattle.ray_slabs.specs.WideBounds.{WideBounds, encloses};
ghost use Rattle.ray_slabs.specs.Law.{RayMeets, RayMeetsFirst};
ghost use Rattle.ray_slabs.specs.First.{first, value_cmp};
ghost use Rattle.ray_slabs.specs.Mirrored.{on_x, on_y, on_z, meet_ahead};
ghost use Rattle.ray_slabs.specs.Examples.{at, opposite, between};

use crate::axes::Axes;
use crate::mirrored_slab::MirroredSlab;
use crate::{Entry, WBox, WPoint};

/// A half line from a point on, in raw units. A direction of zero on all axes makes it that point alone.
#[derive(Clone, Copy, Debug, PartialEq, Eq)]
pub struct Ray {
    pub from: WPoint,
    pub dir: WPoint,
}

/// Whether the ray meets the box: whether `from + dir * p / q` is in it for some whole numbers `p >= 0` and `q > 0`.
/// The comparisons are exact, by products of 128 bits.
pub fn ray_meets(ray: &Ray, body: &WBox) -> bool
    ensures { result ≡ in_ray ray.now.from ray.now.dir body.now }
{
    axes(ray, body).meet_ahead()
}

/// Where the ray first meets the box, and `None` exactly where it misses it: the greatest of 0 and, on each axis on which
/// the ray moves, how far it is to the nearer face (Ericson, Real-Time Collision Detection, 2005, 5.3.3). The comparisons
/// are exact, by products of 128 bits, and no memory is taken.
pub fn ray_entry(ray: &Ray, body: &WBox) -> Option<Entry>
    ensures { SomeIff result (IsTrue (in_ray ray.now.from ray.now.dir body.now)) (first ray.now.from ray.now.dir body.now) }
{
    let axes = axes(ray, body);
    if axes.meet_ahead() {
        Some(axes.latest_entry())
    } else {
        None
    }
}

/// A law for proofs, with nothing to run. A ray meets a box exactly where the fraction `p/q` of its direction is in the
/// box on each axis, for some whole numbers `p >= 0` and `q > 0`. So it meets each box that encloses one that it meets.
/// And it does exactly where no slab lies behind it and each two have a fraction in common, so that pairs of axes decide.
pub fn ray_law()
    ensures fraction { (from dir : Vector) (body : WideBounds) →
        IsTrue (in_ray from dir body) ↔ RayMeets from dir body }
    ensures enclosed { (from dir : Vector) (outer inner : WideBounds) → IsTrue (encloses outer inner) →
        IsTrue (in_ray from dir inner) → IsTrue (in_ray from dir outer) }
    ensures pairs { (from dir : Vector) (body : WideBounds) → IsTrue (is_at_most body.lo body.hi) →
        meet_ahead (on_x from dir body) (on_y from dir body) (on_z from dir body) ≡ in_ray from dir body }
{}

/// A law for proofs, with nothing to run. Where a ray meets a box, it is in the box at the first fraction, and at no
/// smaller one from 0 on. The first fraction is one of the candidates.
pub fn first_law()
    ensures first { (from dir : Vector) (body : WideBounds) → IsTrue (in_ray from dir body) →
        RayMeetsFirst from dir body (first from dir body) }
    ensures candidate { (from dir : Vector) (body : WideBounds) →
        Contains (candidates (slabs_of from dir body)) (first from dir body) }
{}

// The ray and the box on each axis.
fn axes(ray: &Ray, body: &WBox) -> Axes
    ensures x { result.x ≡ on_x ray.now.from ray.now.dir body.now }
    ensures y { result.y ≡ on_y ray.now.from ray.now.dir body.now }
    ensures z { result.z ≡ on_z ray.now.from ray.now.dir body.now }
    ensures short_x { result.x.way ≤ℤ pos (2 ^ 34) }
    ensures short_y { result.y.way ≤ℤ pos (2 ^ 34) }
    ensures short_z { result.z.way ≤ℤ pos (2 ^ 34) }
    ensures ordered { IsTrue (is_at_most body.now.lo body.now.hi) }
{
    let (lo, hi) = (body.lo(), body.hi());
    Axes {
        x: MirroredSlab::of_ray(ray.from.x(), ray.dir.x(), lo.x(), hi.x()),
        y: MirroredSlab::of_ray(ray.from.y(), ray.dir.y(), lo.y(), hi.y()),
        z: MirroredSlab::of_ray(ray.from.z(), ray.dir.z(), lo.z(), hi.z()),
    }
}

// A direction of zero asks whether the start is in the box, a ray may run along a face, and no ray goes back.
#[tactic(auto, unfolding(crate::specs::Crossing::in_ray))]
fn ray_examples()
    ensures still_inside { in_ray (at 65536 65536 65536) (at 0 0 0)
        (between (at 0 0 0) (at 131072 131072 131072)) ≡ true }
    ensures still_outside { in_ray (at 196608 65536 65536) (at 0 0 0)
        (between (at 0 0 0) (at 131072 131072 131072)) ≡ false }
    ensures along_face { in_ray (at 0 131072 65536) (at 65536 0 0)
        (between (at 0 0 0) (at 131072 131072 131072)) ≡ true }
    ensures behind { in_ray (at 0 32768 32768) (opposite (at 65536 0 0))
        (between (at 655360 0 0) (at 720896 65536 65536)) ≡ false }
{}

// A box ahead is met where its nearer face is, also by a ray that falls, and a box around the start at once.
#[tactic(auto, unfolding(crate::specs::First::first))]
fn entry_examples()
    ensures ahead { first (at 0 32768 32768) (at 65536 0 0)
        (between (at 131072 0 0) (at 196608 65536 65536)) ≡ record { num = pos 131072; den = pos 65536 } }
    ensures falling { first (at 655360 32768 32768) (opposite (at 3 0 0))
        (between (at 131072 0 0) (at 196608 65536 65536)) ≡ record { num = pos 458752; den = pos 3 } }
    ensures around { first (at 163840 32768 32768) (at 65536 0 0)
        (between (at 131072 0 0) (at 589824 65536 65536)) ≡ record { num = pos 0; den = pos 1 } }
    ensures same { value_cmp (record { num = pos 1; den = pos 2 }) (record { num = pos 2; den = pos 4 }) ≡ Equal }
    ensures sooner { value_cmp (record { num = pos 5; den = pos 7 }) (record { num = pos 3; den = pos 4 }) ≡ Less }
{}
