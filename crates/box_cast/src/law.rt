//! The law of first contact and worked examples, with nothing to run.

ghost use Rattle.std.specs.Prelude.{◌≡◌, pos, true, false, ◌&&◌, ◌↔◌, Some, None, IsTrue, IfSome, is_some};
ghost use Rattle.fixed_box.specs.Bounds.{Bounds, encloses, meets};
ghost use Rattle.fixed_box.specs.Point.{is_at_most};
ghost use Rattle.fixed_box.specs.declared.point.Point.{Point};
ghost use Rattle.ray_slabs.specs.Crossing.{in_ray, in_seg};
ghost use Rattle.ray_slabs.specs.First.{first};
ghost use Rattle.ray_slabs.specs.Vector.{widened};
ghost use Rattle.ray_slabs.specs.Vector as wide;
ghost use Rattle.box_cast.specs.Cast.{in_cast, first_contact, IsSameValue};
ghost use Rattle.fixed_box.specs.Space.{space};
ghost use Rattle.box_cast.specs.Hull.{cast_hull};
ghost use Rattle.box_cast.specs.Law.{CastMeets, CastMeetsFirst};
ghost use Rattle.box_cast.specs.Widening.{origin, widened_by, reached};
ghost use Rattle.box_cast.specs.Examples.{at, block};

use ray_slabs::{first_law, ray_law, seg_law};

/// A law for proofs, with nothing to run. A cast meets a box exactly where the moved box meets it at the fraction `p/q` of
/// the way, for some whole numbers `p >= 0` and `q > 0` with `p <= q`. It first does so at the least fraction that fits.
/// Where it meets a box of 32 bits, the hull does too. It meets each box that encloses one that it meets.
pub fn cast_law()
    ensures fraction { (c : Bounds) (v : Point) (b : Bounds) → IsTrue (in_cast c v b) ↔ CastMeets c v b }
    ensures some { (c : Bounds) (v : Point) (b : Bounds) → is_some (first_contact c v b) ≡ in_cast c v b }
    ensures first { (c : Bounds) (v : Point) (b : Bounds) → IfSome (first_contact c v b) (CastMeetsFirst c v b) }
    ensures hull { (c : Bounds) (v : Point) (b : Bounds) → IsTrue (meets space b) → IsTrue (in_cast c v b) →
        IsTrue (meets (cast_hull c v) b) }
    ensures enclosed { (c : Bounds) (v : Point) (outer inner : Bounds) → IsTrue (encloses outer inner) →
        IsTrue (in_cast c v inner) → IsTrue (in_cast c v outer) }
{
    ray_law();
    seg_law();
    first_law();
}

/// A law for proofs, with nothing to run. A cast is a segment from the origin along the displacement against the other box
/// widened by the moved one, or the ray that way up to the fraction 1. The corners of that wider box are in order.
pub fn slide_law()
    ensures seg { (c : Bounds) (v : Point) (b : Bounds) → in_cast c v b ≡ in_seg origin (widened v) (widened_by b c) }
    ensures met { (c : Bounds) (v : Point) (b : Bounds) →
        in_cast c v b ≡ (in_ray origin (widened v) (widened_by b c) && reached (first origin (widened v) (widened_by b c))) }
    ensures first { (c : Bounds) (v : Point) (b : Bounds) → IsTrue (in_cast c v b) →
        IsSameValue (Some (first origin (widened v) (widened_by b c))) (first_contact c v b) }
    ensures none { (c : Bounds) (v : Point) (b : Bounds) → in_cast c v b ≡ false → IsSameValue None (first_contact c v b) }
    ensures ordered { (b c : Bounds) → IsTrue (is_at_most b.lo b.hi) → IsTrue (is_at_most c.lo c.hi) →
        IsTrue (wide.is_at_most (widened_by b c).lo (widened_by b c).hi) }
{
    ray_law();
    seg_law();
    first_law();
}

// A box that is moved far enough meets one ahead of it at the fraction at which their faces come together, one raw unit
// less falls short, and one that is moved out of 32 bits meets what it passes.
#[tactic(auto, unfolding(crate::specs::Cast::in_cast, crate::specs::Cast::first_contact))]
fn cast_examples()
    ensures passed { first_contact (block (at 0 0 0) (at 65536 65536 65536)) (at 1310720 0 0)
        (block (at 327680 0 0) (at 393216 65536 65536)) ≡ Some (record { num = pos 262144; den = pos 1310720 }) }
    ensures short { in_cast (block (at 0 0 0) (at 65536 65536 65536)) (at 262143 0 0)
        (block (at 327680 0 0) (at 393216 65536 65536)) ≡ false }
    ensures touching { in_cast (block (at 0 0 0) (at 65536 65536 65536)) (at 262144 0 0)
        (block (at 327680 0 0) (at 393216 65536 65536)) ≡ true }
    ensures beyond { in_cast (block (at 2097152000 0 0) (at 2097152000 0 0)) (at 2147418112 0 0)
        (block (at 2147418112 0 0) (at 2147418112 0 0)) ≡ true }
{}
