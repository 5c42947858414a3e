//! A query of each kind asked of a tree: as a box, or as a prepared line.

ghost use Rattle.std.specs.Prelude.{◌≡◌, ◌++◌, IfOk, OnOk, OnErr, length, take};
ghost use Rattle.fixed_box.specs.Bounds.{Bounds, holds, meets};
ghost use Rattle.broad_index.specs.Found.{found_of};
ghost use Rattle.tree_search.specs.Exact.{exact_in};
ghost use Rattle.tree_search.specs.Visits.{visits_by_in};

use crate::BoxedTree;
use crate::descent::descend;
use broad_index::Query;
use fixed_box::{FBox, NoMemory, Point, box_laws};
use prepared_query::{CastTest, LineTest};

/// Appends the slots whose boxes meet a query, in the order of the leaves, and answers how many nodes it looked at. What kind it
/// is is told here, once for all nodes: a region and a spot are asked as boxes, and a cast, and a line whose numbers fit 32 bits, are prepared.
/// After an `Err` there may be some of them behind what was in `out`.
pub fn push_hits(boxes: &BoxedTree, query: &Query, out: &mut Vec<u32>) -> Result<u32, NoMemory>
    ensures ok { OnOk result (out.new.items ≡ out.old.items ++ found_of (exact_in boxes.now.bodies boxes.now.tree) query.now) }
    ensures err { OnErr result (take (length out.old.items) out.new.items ≡ out.old.items) }
    ensures count { IfOk result (λ n. n ≡ visits_by_in boxes.now.tree query.now) }
{
    match query {
        Query::Region(region) => descend(boxes, region, out),
        Query::Spot(at) => descend(boxes, &flat_box(at), out),
        Query::Along(_) | Query::Between(_) => descend_along(boxes, query, out),
        Query::Swept(cast) => descend(boxes, &CastTest::of(cast), out),
    }
}

// The box that is a point: what holds the point is what meets it.
fn flat_box(at: &Point) -> FBox
    ensures { (body : Bounds) → meets result body ≡ holds body at.now }
{
    let flat = FBox::new(*at, *at).unwrap();
    box_laws();
    flat
}

// A descent with a line, prepared where its numbers fit.
fn descend_along(boxes: &BoxedTree, query: &Query, out: &mut Vec<u32>) -> Result<u32, NoMemory>
    ensures count { IfOk result (λ n. n ≡ visits_by_in boxes.now.tree query.now) }
    ensures ok { OnOk result (out.new.items ≡ out.old.items ++ found_of (exact_in boxes.now.bodies boxes.now.tree) query.now) }
    ensures err { OnErr result (take (length out.old.items) out.new.items ≡ out.old.items) }
{
    if let Some(line) = LineTest::of(query) {
        return descend(boxes, &line, out);
    }
    descend(boxes, query, out)
}
