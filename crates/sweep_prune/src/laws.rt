//! Why counts of overlaps tell which boxes meet, and the order of endpoints where two boxes touch.

ghost use Rattle.std.specs.Prelude.{◌≡◌, ◌&&◌, ◌==◌, nat_lt, [], ◌∷◌, pos};
ghost use Rattle.std.specs.Ordering.{nat_cmp};
ghost use Rattle.std.specs.FinMap.{FinMap};
ghost use Rattle.fixed_box.specs.Bounds.{Bounds};
ghost use Rattle.broad_index.specs.declared.pair.Pair.{Pair};
ghost use Rattle.broad_index.specs.Members.{has_pair};
ghost use Rattle.broad_index.specs.Near.{near};
ghost use Rattle.sweep_prune.specs.Keyed.{keyed_of};
ghost use Rattle.sweep_prune.specs.Overlaps.{axes};
ghost use Rattle.sweep_prune.specs.declared.axis.Axis.TheVariants.{X};

use broad_index::member_laws;

/// Why a sweep may count: two boxes meet exactly where their intervals overlap on all three axes, so the pairs of a map
/// that `near` lists are those of which `Sap::overlap` tells 3. It does nothing.
pub fn overlap_laws()
    ensures { (bodies : FinMap nat_cmp Bounds) (p : Pair) → has_pair (near bodies) p
        ≡ (nat_lt p.a p.b && axes bodies p.a p.b == 3) }
{
    member_laws();
}

// Where one box ends at the value at which another begins, the minimum comes before the maximum, whichever slot is
// lower.
fn worked_orders()
    ensures touching { keyed_of (
        (0, record { lo = record { x = pos 0; y = pos 0; z = pos 0 }; hi = record { x = pos 1; y = pos 1; z = pos 1 } })
        ∷ (1, record { lo = record { x = pos 1; y = pos 0; z = pos 0 }; hi = record { x = pos 2; y = pos 1; z = pos 1 } })
        ∷ [])
        X ≡ 0 ∷ 2 ∷ 1 ∷ 3 ∷ [] }
    ensures turned { keyed_of (
        (0, record { lo = record { x = pos 1; y = pos 0; z = pos 0 }; hi = record { x = pos 2; y = pos 1; z = pos 1 } })
        ∷ (1, record { lo = record { x = pos 0; y = pos 0; z = pos 0 }; hi = record { x = pos 1; y = pos 1; z = pos 1 } })
        ∷ [])
        X ≡ 2 ∷ 0 ∷ 3 ∷ 1 ∷ [] }
{}
