//! Two slots in order, and the order of such pairs.

ghost use Rattle.std.specs.Prelude.{◌≡◌, ◌+◌, ◌*◌, ◌^◌, ◌<◌, refl};
ghost use Rattle.std.specs.Cmp.{partial_order_from_own_ties};
ghost use Rattle.std.specs.Cmp.Rules.{comparing};
ghost use Rattle.std.specs.Ordering.{as_partial_cmp};
ghost use Rattle.std.proofs.Common.{rules};
ghost use Rattle.broad_index.specs.Touched.{ordered};

use std::cmp::Ordering;

/// Two slots whose boxes meet, `a` below `b`.
#[derive(Clone, Copy, Debug, PartialEq, Eq)]
pub struct Pair {
    // before `a`, so that where the lowest byte of a number comes first, both are read as the key that they are sorted by
    pub b: u32,
    pub a: u32,
}

impl Pair {
    /// Two slots, the lower one first.
    pub fn ordered(slot: u32, other: u32) -> Pair
        ensures { result ≡ ordered slot other }
    {
        if slot < other {
            Pair { a: slot, b: other }
        } else {
            Pair { a: other, b: slot }
        }
    }

    // One number that rises as pairs do, so that a sort compares two of them at once.
    #[inline(always)]
    fn key(&self) -> u64
        ensures key { result ≡ self.now.a * 2 ^ 32 + self.now.b }
        ensures low { self.now.b < 2 ^ 32 }
    {
        u64::from(self.a) * 0x1_0000_0000 + u64::from(self.b)
    }
}

impl PartialOrd for Pair {
    ghost use Rattle.broad_index.specs.PairOrder.{pair_cmp};

    ghost partial_cmp = { as_partial_cmp pair_cmp };

    ghost laws = { partial_order_from_own_ties (Prim.search (comparing, rules)) (Prim.search (comparing, rules)) };

    fn partial_cmp(&self, other: &Pair) -> Option<Ordering> {
        Some(self.cmp(other))
    }
}

/// By `a`, and then by `b`.
impl Ord for Pair {
    ghost use Rattle.broad_index.specs.PairOrder.{pair_cmp};

    ghost cmp = { pair_cmp };

    ghost total = { Prim.search (comparing, rules) };

    ghost matches_partial_cmp = { λ x y. refl };

    ghost matches_eq = { Prim.search (comparing, rules) };

    fn cmp(&self, other: &Pair) -> Ordering {
        self.key().cmp(&other.key())
    }
}
