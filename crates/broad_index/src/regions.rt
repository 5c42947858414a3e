//! The box around a query: what meets the query meets this box.

ghost use Rattle.std.specs.Prelude.{◌≡◌, true, IsTrue};
ghost use Rattle.fixed_box.specs.Bounds.{Bounds, holds, meets};
ghost use Rattle.ray_slabs.specs.Crossing.{in_ray, in_seg};
ghost use Rattle.ray_slabs.specs.WideBounds.{widened_box};
ghost use Rattle.broad_index.specs.Regions.{IsNearest, IsFar, AreTouched};
ghost use Rattle.fixed_box.specs.Space.{space};

use fixed_box::{FBox, Point, box_laws};
use ray_slabs::{Ray, Seg, WPoint, ray_law, seg_law};

/// The flat box at a point: what holds the point meets it.
pub(crate) fn flat_box(at: &Point) -> FBox
    ensures corners { result ≡ record { lo = at.now; hi = at.now } }
    ensures met { (b : Bounds) → holds b at.now ≡ true → meets result b ≡ true }
{
    box_laws();
    FBox::new(*at, *at).unwrap()
}

/// The box from a ray's start to the end of space, on each axis in the direction's sign: what the ray meets meets it.
pub(crate) fn ray_box(ray: &Ray) -> FBox
    ensures { (b : Bounds) → IsTrue (meets space b) → IsTrue (in_ray ray.now.from ray.now.dir (widened_box b)) → meets result b ≡ true }
{
    ray_law();
    let start = nearest_point(&ray.from);
    box_between(&start, &far_point(&start, &ray.dir))
}

/// The box around a segment's two ends: what the segment meets meets it.
pub(crate) fn seg_box(seg: &Seg) -> FBox
    ensures { (b : Bounds) → IsTrue (meets space b) → IsTrue (in_seg seg.now.a seg.now.b (widened_box b)) → meets result b ≡ true }
{
    seg_law();
    box_between(&nearest_point(&seg.a), &nearest_point(&seg.b))
}

// The box that two points are corners of.
fn box_between(p: &Point, r: &Point) -> FBox
    ensures { (b : Bounds) → AreTouched p.now r.now b → meets result b ≡ true }
{
    flat_box(p).union(&flat_box(r))
}

// The point of space nearest to another.
fn nearest_point(at: &WPoint) -> Point
    ensures x { IsNearest at.now.x result.x }
    ensures y { IsNearest at.now.y result.y }
    ensures z { IsNearest at.now.z result.z }
{
    Point {
        x: nearest(at.x()),
        y: nearest(at.y()),
        z: nearest(at.z()),
    }
}

fn nearest(x: i64) -> i32
    ensures { IsNearest x result }
{
    x.clamp(i64::from(i32::MIN), i64::from(i32::MAX)) as i32
}

// The end of space in a direction. Where a part of it is 0 the start stays.
fn far_point(start: &Point, dir: &WPoint) -> Point
    ensures x { IsFar dir.now.x result.x }
    ensures y { IsFar dir.now.y result.y }
    ensures z { IsFar dir.now.z result.z }
{
    Point {
        x: far_end(start.x, dir.x()),
        y: far_end(start.y, dir.y()),
        z: far_end(start.z, dir.z()),
    }
}

fn far_end(start: i32, dir: i64) -> i32
    ensures { IsFar dir result }
{
    if dir > 0 {
        i32::MAX
    } else if dir < 0 {
        i32::MIN
    } else {
        start
    }
}
