//! The least box of space around a ray or a segment.

ghost use Rattle.std.specs.Prelude.{◌≡◌};
ghost use Rattle.prepared_query.specs.Prepared.{end_on, end_of, flat, line_hull};

use fixed_box::{FBox, Fix, Point, box_laws};

// The least box of space around a line from a point, which ends where it goes so far, or never.
pub(crate) fn line_hull(from: &Point, dir: &Point, ends: bool) -> FBox
    ensures { result ≡ line_hull ends from.now dir.now }
{
    flat(from).union(&flat(&end_of(from, dir, ends)))
}

fn end_of(from: &Point, dir: &Point, ends: bool) -> Point
    ensures { result ≡ end_of ends from.now dir.now }
{
    Point {
        x: end_on(from.x, dir.x, ends),
        y: end_on(from.y, dir.y, ends),
        z: end_on(from.z, dir.z, ends),
    }
}

// The last place of the line on an axis, as far as 32 bits go.
fn end_on(from: Fix, dir: Fix, ends: bool) -> Fix
    ensures { result ≡ end_on ends from dir }
{
    if ends {
        from.saturating_add(dir)
    } else if dir > 0 {
        Fix::MAX
    } else if dir < 0 {
        Fix::MIN
    } else {
        from
    }
}

// The flat box at a point.
fn flat(at: &Point) -> FBox
    ensures { result ≡ flat at.now }
{
    box_laws();
    FBox::new(*at, *at).unwrap()
}
