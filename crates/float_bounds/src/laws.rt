//! Laws of rounding floats and of the boxes around them, with nothing to run.

ghost use Rattle.std.specs.Prelude.{◌≡◌, ℕ, ℤ, pos, negsuc, ◌*ℤ◌, ◌≤ℤ◌, IsTrue, List, Ok};
ghost use Rattle.fixed_box.specs.Bounds.{Bounds, meets, encloses};
ghost use Rattle.float_bounds.specs.declared.format.Format.{Format};
ghost use Rattle.float_bounds.specs.Format.{raw_step};
ghost use Rattle.float_bounds.specs.Value.{value};
ghost use Rattle.float_bounds.specs.Rounding.{fix_below, fix_above};
ghost use Rattle.float_bounds.specs.Order.{floats_meet};
ghost use Rattle.float_bounds.specs.Around.{box_around};
ghost use Rattle.float_bounds.specs.Laws.{IsGreatestBelow, IsLeastAbove, HoldsFloats};

/// Laws of floats for proofs, with nothing to run. A float is rounded down to the greatest raw number that is at most its
/// value and up to the least that is at least it, so the first is at most the second, and a whole number of raw units is
/// rounded to itself. The box of fixed point around a box of floats holds it, and lies in each that does. Two boxes of
/// floats that have a common point have boxes around them that do: no pair is lost.
pub fn float_laws()
    ensures below { (f : Format) (bits : ℕ) (v r : ℤ) → value f bits ≡ Ok v → fix_below f bits ≡ Ok r →
        IsGreatestBelow (raw_step f) v r }
    ensures above { (f : Format) (bits : ℕ) (v r : ℤ) → value f bits ≡ Ok v → fix_above f bits ≡ Ok r →
        IsLeastAbove (raw_step f) v r }
    ensures ordered { (f : Format) (bits : ℕ) (r s : ℤ) → fix_below f bits ≡ Ok r → fix_above f bits ≡ Ok s → r ≤ℤ s }
    ensures exact_below { (f : Format) (bits : ℕ) (r : ℤ) → value f bits ≡ Ok (r *ℤ pos (raw_step f)) →
        negsuc 2147483647 ≤ℤ r → r ≤ℤ pos 2147483647 → fix_below f bits ≡ Ok r }
    ensures exact_above { (f : Format) (bits : ℕ) (r : ℤ) → value f bits ≡ Ok (r *ℤ pos (raw_step f)) →
        negsuc 2147483647 ≤ℤ r → r ≤ℤ pos 2147483647 → fix_above f bits ≡ Ok r }
    ensures held { (f : Format) (lo hi : List ℕ) (b : Bounds) → box_around f lo hi ≡ Ok b → HoldsFloats f b lo hi }
    ensures least { (f : Format) (lo hi : List ℕ) (a b : Bounds) → box_around f lo hi ≡ Ok a → HoldsFloats f b lo hi →
        IsTrue (encloses b a) }
    ensures met { (f : Format) (lo hi other_lo other_hi : List ℕ) (a b : Bounds) → box_around f lo hi ≡ Ok a →
        box_around f other_lo other_hi ≡ Ok b → IsTrue (floats_meet f lo hi other_lo other_hi) → IsTrue (meets a b) }
{}
