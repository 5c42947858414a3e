//! A slot with its square of the distance, and which of two such comes first.

ghost use Rattle.std.specs.Cmp.{partial_order_from_own_ties};
ghost use Rattle.std.specs.Cmp.Rules.{comparing};
ghost use Rattle.std.specs.Ordering.{as_partial_cmp};
ghost use Rattle.std.proofs.Common.{rules};

use std::cmp::Ordering;

/// A slot, with the square of the distance of its box from what was asked about, in raw units squared.
#[derive(Clone, Copy, Debug, PartialEq, Eq)]
pub struct Near {
    pub slot: u32,
    pub square: u128,
}

impl PartialOrd for Near {
    ghost use Rattle.near_boxes.specs.Nearest.{near_cmp};

    ghost partial_cmp = { as_partial_cmp near_cmp };

    ghost laws = { partial_order_from_own_ties (Prim.search (comparing, rules)) (Prim.search (comparing, rules)) };

    fn partial_cmp(&self, other: &Near) -> Option<Ordering> {
        Some(self.cmp(other))
    }
}

/// By the square, and then by the slot: of two that are as near, the lower slot comes first.
impl Ord for Near {
    ghost use Rattle.near_boxes.specs.Nearest.{near_cmp};

    ghost cmp = { near_cmp };

    ghost total = { Prim.search (comparing, rules) };

    ghost matches_partial_cmp = { Prim.search (comparing, rules) };

    ghost matches_eq = { Prim.search (comparing, rules) };

    fn cmp(&self, other: &Near) -> Ordering {
        self.square
            .cmp(&other.square)
            .then(self.slot.cmp(&other.slot))
    }
}
