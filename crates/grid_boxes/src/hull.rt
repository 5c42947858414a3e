//! The hull of boxes, grown by one more, and the part of a region that lies in it.

ghost use Rattle.std.specs.Prelude.{◌≡◌, true, IsTrue};
ghost use Rattle.fixed_box.specs.Bounds.{Bounds, encloses, meets};
ghost use Rattle.fixed_box.specs.Point.{is_at_most};
ghost use Rattle.grid_cells.specs.Sized.{is_held};
ghost use Rattle.grid_boxes.specs.Grid.{meets_part};

use fixed_box::{FBox, Point, box_laws};

/// A hull grown by a box.
pub(crate) fn grown(hull: &Option<FBox>, body: &FBox) -> FBox
    ensures body { IsTrue (encloses result body.now) }
    ensures kept { (b : Bounds) → IsTrue (is_held hull.now b) → IsTrue (encloses result b) }
{
    box_laws();
    match hull {
        Some(hull) => hull.union(body),
        None => *body,
    }
}

/// The part of a region that lies in a hull: a box in the hull meets it where it meets the region. `None` only where no such
/// box does.
pub(crate) fn part_in(hull: &FBox, region: &FBox) -> Option<FBox>
    ensures { (b : Bounds) → IsTrue (is_at_most b.lo b.hi) → IsTrue (encloses hull.now b) → IsTrue (meets region.now b)
        → IsTrue (meets_part result b) }
{
    FBox::new(
        greater(&hull.lo(), &region.lo()),
        lesser(&hull.hi(), &region.hi()),
    )
}

/// The common part of two boxes, or the first of them if they have none: what meets both meets it.
pub fn common_part(a: &FBox, b: &FBox) -> FBox
    ensures { (c : Bounds) → IsTrue (meets a.now c) → IsTrue (meets b.now c) → IsTrue (meets result c) }
{
    let lo = greater(&a.lo(), &b.lo());
    let hi = lesser(&a.hi(), &b.hi());
    match FBox::new(lo, hi) {
        Some(part) => part,
        None => *a,
    }
}

// The greater coordinates of two points.
fn greater(p: &Point, q: &Point) -> Point
    ensures { (r : Point) → IsTrue (is_at_most p.now r) → IsTrue (is_at_most q.now r) → IsTrue (is_at_most result r) }
{
    Point {
        x: p.x.max(q.x),
        y: p.y.max(q.y),
        z: p.z.max(q.z),
    }
}

// The lesser coordinates of two points.
fn lesser(p: &Point, q: &Point) -> Point
    ensures { (r : Point) → IsTrue (is_at_most r p.now) → IsTrue (is_at_most r q.now) → IsTrue (is_at_most r result) }
{
    Point {
        x: p.x.min(q.x),
        y: p.y.min(q.y),
        z: p.z.min(q.z),
    }
}
