//! How wide a skin is: a margin by the box's sides, and further ahead on the side to which it moves. Whether a box is in it.

ghost use Rattle.std.specs.Prelude.{◌≡◌, IsTrue};
ghost use Rattle.fixed_box.specs.Bounds.{encloses};
ghost use Rattle.skin_index.specs.Skins.{is_inside};

use fixed_box::{FBox, Point, box_laws};

// A skin reaches beyond its box by this part of the box's shortest side.
const SIDE_PART: u32 = 6;

// On the side to which its box moves it reaches so many ticks ahead, if the box goes on as it did, but no further than half
// a side.
const TICKS_AHEAD: i32 = 8;

// The skin of a box, for speed alone: any box around it serves. `before` is where the box was a tick before, if it was.
//
// A box that is far from where it was jumps, and would leave any skin: its skin is itself, so that a scene in which all jumps
// costs little more than without skins.
pub(crate) fn skin_of(before: &Option<FBox>, body: &FBox) -> FBox
    ensures { IsTrue (encloses result body.now) }
{
    match before {
        Some(before) => next_skin(before, body),
        None => still_skin(body),
    }
}

fn next_skin(before: &FBox, body: &FBox) -> FBox
    ensures { IsTrue (encloses result body.now) }
{
    box_laws();
    let by = displacement(before, body);
    let most = half_side(body);
    if is_beyond(&by, most) {
        return *body;
    }
    still_skin(body).union(&displaced(body, &ahead(&by, most)))
}

// The skin of a box that doesn't move.
fn still_skin(body: &FBox) -> FBox
    ensures { IsTrue (encloses result body.now) }
{
    let (lo, hi) = (body.lo(), body.hi());
    let side = hi
        .x
        .abs_diff(lo.x)
        .min(hi.y.abs_diff(lo.y))
        .min(hi.z.abs_diff(lo.z));
    body.fatten(side / SIDE_PART)
}

// Half of a box's mean side.
fn half_side(body: &FBox) -> i32 {
    let (lo, hi) = (body.lo(), body.hi());
    (hi.x.abs_diff(lo.x) / 6)
        .saturating_add(hi.y.abs_diff(lo.y) / 6)
        .saturating_add(hi.z.abs_diff(lo.z) / 6)
        .min(i32::MAX as u32) as i32
}

fn displacement(before: &FBox, body: &FBox) -> Point {
    let (from, to) = (before.lo(), body.lo());
    Point {
        x: to.x.saturating_sub(from.x),
        y: to.y.saturating_sub(from.y),
        z: to.z.saturating_sub(from.z),
    }
}

// Whether a displacement is longer than this on some axis.
fn is_beyond(by: &Point, most: i32) -> bool {
    let most = most.unsigned_abs();
    by.x.unsigned_abs() > most || by.y.unsigned_abs() > most || by.z.unsigned_abs() > most
}

// Where a displacement leads in some ticks, up to this far on each axis.
fn ahead(by: &Point, most: i32) -> Point {
    Point {
        x: ahead_on(by.x, most),
        y: ahead_on(by.y, most),
        z: ahead_on(by.z, most),
    }
}

fn ahead_on(by: i32, most: i32) -> i32 {
    let far = by.saturating_mul(TICKS_AHEAD);
    far.min(most).max(most.saturating_neg())
}

// A box that is displaced, and as it is where the ends of 32 bits are too near.
fn displaced(body: &FBox, by: &Point) -> FBox {
    let (lo, hi) = (body.lo(), body.hi());
    let low = Point {
        x: lo.x.saturating_add(by.x),
        y: lo.y.saturating_add(by.y),
        z: lo.z.saturating_add(by.z),
    };
    let high = Point {
        x: hi.x.saturating_add(by.x),
        y: hi.y.saturating_add(by.y),
        z: hi.z.saturating_add(by.z),
    };
    FBox::new(low, high).unwrap_or(*body)
}

// Whether a skin is there and encloses a box.
pub(crate) fn is_inside(skin: &Option<FBox>, body: &FBox) -> bool
    ensures { result ≡ is_inside skin.now body.now }
{
    match skin {
        Some(skin) => skin.holds_box(body),
        None => false,
    }
}
