//! What may be asked about boxes: a region, a point, a ray, a segment or a cast, and whether one box meets it.

ghost use Rattle.std.specs.Prelude.{◌≡◌, true, IsTrue};
ghost use Rattle.fixed_box.specs.Bounds.{Bounds, meets};
ghost use Rattle.broad_index.specs.Found.{query_meets, kind_of};
ghost use Rattle.fixed_box.specs.Space.{space};

use crate::regions::{flat_box, ray_box, seg_box};
use box_cast::{Cast, cast_meets};
use fixed_box::{FBox, Point};
use ray_slabs::{Ray, Seg, WBox, ray_meets, seg_meets};

/// A question about the boxes that are present.
#[derive(Clone, Copy, Debug, PartialEq, Eq)]
pub enum Query {
    /// Which boxes meet this one.
    Region(FBox),
    /// Which boxes hold this point.
    Spot(Point),
    /// Which boxes the ray meets.
    Along(Ray),
    /// Which boxes the segment meets.
    Between(Seg),
    /// Which boxes a moved box meets on its way.
    Swept(Cast),
}

/// The kind of a query.
#[derive(Clone, Copy, Debug, PartialEq, Eq)]
pub enum QKind {
    Region,
    Spot,
    Along,
    Between,
    Swept,
}

impl Query {
    /// The variant of the same name.
    pub fn kind(&self) -> QKind
        ensures { result ≡ kind_of self.now }
    {
        match self {
            Query::Region(_) => QKind::Region,
            Query::Spot(_) => QKind::Spot,
            Query::Along(_) => QKind::Along,
            Query::Between(_) => QKind::Between,
            Query::Swept(_) => QKind::Swept,
        }
    }

    /// Whether a box meets the query.
    pub fn meets(&self, body: &FBox) -> bool
        ensures { result ≡ query_meets self.now body.now }
    {
        match self {
            Query::Region(region) => region.overlaps(body),
            Query::Spot(at) => body.holds_point(at),
            Query::Along(ray) => ray_meets(ray, &WBox::of(body)),
            Query::Between(seg) => seg_meets(seg, &WBox::of(body)),
            Query::Swept(cast) => cast_meets(cast, body),
        }
    }

    /// A box that all boxes meet which meet the query, so that a search looks there and tests what it finds: the query's
    /// own, the flat one at a spot, the one from a ray's start to the end of space on each axis in the direction's sign,
    /// the one around a segment's ends, or the hull of a cast.
    pub fn region(&self) -> FBox
        ensures { (b : Bounds) → IsTrue (meets space b) → query_meets self.now b ≡ true → meets result b ≡ true }
    {
        match self {
            Query::Region(region) => *region,
            Query::Spot(at) => flat_box(at),
            Query::Along(ray) => ray_box(ray),
            Query::Between(seg) => seg_box(seg),
            Query::Swept(cast) => cast.hull(),
        }
    }
}
