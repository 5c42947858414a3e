//! Laws of enclosing, hulls and overlaps, and the number of slots, with nothing to run.

ghost use Rattle.std.specs.Prelude.{◌≡◌, IsTrue};
ghost use Rattle.fixed_box.specs.declared.point.Point.{Point};
ghost use Rattle.fixed_box.specs.Bounds.{Bounds, meets, holds, encloses, hull};
ghost use Rattle.fixed_box.specs.declared.TheConstants.{SLOTS};

/// Laws of boxes for proofs, with nothing to run: a box encloses itself and what its parts enclose, the hull of two
/// boxes encloses both, and what meets a box, or lies in it, meets or lies in each box that encloses it.
pub fn box_laws()
    ensures itself { (a : Bounds) → IsTrue (encloses a a) }
    ensures chain { (a b c : Bounds) → IsTrue (encloses a b) → IsTrue (encloses b c) → IsTrue (encloses a c) }
    ensures hull_this { (a b : Bounds) → IsTrue (encloses (hull a b) a) }
    ensures hull_that { (a b : Bounds) → IsTrue (encloses (hull a b) b) }
    ensures either_way { (a b : Bounds) → meets a b ≡ meets b a }
    ensures met { (outer inner other : Bounds) → IsTrue (encloses outer inner) →
        IsTrue (meets inner other) → IsTrue (meets outer other) }
    ensures held { (outer inner : Bounds) (at : Point) → IsTrue (encloses outer inner) →
        IsTrue (holds inner at) → IsTrue (holds outer at) }
{}

/// A law for proofs, with nothing to run: so many slots there are, and with another number this crate has no proof.
pub fn slot_law()
    ensures slots { SLOTS ≡ 8192 }
{}
