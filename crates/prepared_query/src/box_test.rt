//! Whether a box meets a query that is asked of many boxes, compiled once for each kind of query.

ghost use Rattle.std.specs.Prelude.{◌≡◌};
ghost use Rattle.broad_index.specs.declared.query.Query.{Query};
ghost use Rattle.broad_index.specs.declared.query.Query.TheVariants.{Region};
ghost use Rattle.broad_index.specs.Found.{query_meets};

use broad_index::Query;
use fixed_box::FBox;

/// Whether a box meets a query, for a search that asks it of many boxes: the search is compiled once for each kind, so that
/// the kind is told apart before the first box.
pub trait BoxTest {
    /// The query that is asked.
    ghost asks: { Self → Query };

    /// Whether a box meets it.
    fn meets(&self, body: &FBox) -> bool
        ensures { result ≡ query_meets (asks self.now) body.now };
}

/// A region: whether the boxes overlap.
impl BoxTest for FBox {
    ghost asks = { Region };

    #[inline]
    fn meets(&self, body: &FBox) -> bool {
        self.overlaps(body)
    }
}

/// A query of any kind, told apart at each box.
impl BoxTest for Query {
    ghost asks = { λ query. query };

    fn meets(&self, body: &FBox) -> bool {
        Query::meets(self, body)
    }
}
