//! A query that misses a box misses each box inside it.

ghost use Rattle.std.specs.Prelude.{◌≡◌, false, IsTrue};
ghost use Rattle.fixed_box.specs.Bounds.{Bounds, encloses};
ghost use Rattle.broad_index.specs.declared.query.Query.{Query};
ghost use Rattle.broad_index.specs.Found.{query_meets};

use box_cast::cast_law;
use fixed_box::box_laws;
use ray_slabs::{ray_law, seg_law};

/// A law for proofs, with nothing to run: what a query meets of a box lies in each box that encloses it. So a search may
/// pass by all boxes inside one that the query misses.
pub fn enclosing_law()
    ensures enclosed { (query : Query) (outer inner : Bounds) → IsTrue (encloses outer inner) →
        IsTrue (query_meets query inner) → IsTrue (query_meets query outer) }
    ensures missed { (query : Query) (outer inner : Bounds) → IsTrue (encloses outer inner) →
        query_meets query outer ≡ false → query_meets query inner ≡ false }
{
    box_laws();
    cast_law();
    ray_law();
    seg_law();
}
