//! Rays and segments against boxes, as rows, at faces, edges and corners.

use fixed_box::{FBox, Point};
use ray_slabs::{Entry, Ray, Seg, WBox, WPoint, ray_entry, ray_meets, seg_meets};
use std::test::Fail;

// Raw units.
const ONE: i64 = 65536;

const HALF: i64 = 32768;

const FAR: i64 = 17179869184;

const LOW: i64 = -2147483648;

const HIGH: i64 = 2147483647;

fn point(parts: [i64; 3]) -> Result<WPoint, Fail> {
    let [x, y, z] = parts;
    Ok(WPoint::new(x, y, z).ok_or("a part is out of range")?)
}

fn bounds(lo: [i64; 3], hi: [i64; 3]) -> Result<WBox, Fail> {
    Ok(WBox::new(point(lo)?, point(hi)?).ok_or("the corners are inverted")?)
}

#[test]
fn parts_reach_two_to_the_34(rt: HostRuntime) -> Result<(), Fail> {
    for (parts, fits) in [
        ([FAR + 1, 0, 0], false),
        ([0, FAR + 1, 0], false),
        ([0, 0, FAR + 1], false),
        ([-FAR - 1, 0, 0], false),
        ([0, 0, -FAR - 1], false),
        ([FAR, -FAR, FAR], true),
    ] {
        let [x, y, z] = parts;
        assert_eq!(rt; WPoint::new(x, y, z).is_some(), fits, "at {x} {y} {z}");
    }
    let far = point([FAR, -FAR, 7])?;
    assert_eq!(rt; (far.x(), far.y(), far.z()), (FAR, -FAR, 7));
    Ok(())
}

#[test]
fn boxes_are_ordered_on_each_axis(rt: HostRuntime) -> Result<(), Fail> {
    let origin = point([0, 0, 0])?;
    for (lo, ordered) in [
        ([1, 0, 0], false),
        ([0, 1, 0], false),
        ([0, 0, 1], false),
        ([0, 0, 0], true),
    ] {
        assert_eq!(rt; WBox::new(point(lo)?, origin).is_some(), ordered);
    }
    let body = FBox::new(Point { x: -1, y: 2, z: 3 }, Point { x: 4, y: 5, z: 6 }).ok_or(
        "inverted",
    )?;
    let wide = WBox::of(&body);
    assert_eq!(rt;
        (wide.lo(), wide.hi()),
        (point([-1, 2, 3])?, point([4, 5, 6])?)
    );
    assert_eq!(rt; WPoint::of(&body.lo()), wide.lo());
    Ok(())
}

#[test]
fn rays_meet_boxes(rt: HostRuntime) -> Result<(), Fail> {
    let zero = [0, 0, 0];
    let two = [2 * ONE, 2 * ONE, 2 * ONE];
    let spot = [ONE, 2 * ONE, 3 * ONE];
    let beside_spot = [ONE, 2 * ONE, 3 * ONE + 1];
    for (name, from, dir, lo, hi, meets) in [
        ("through a point", zero, spot, spot, spot, true),
        ("past a point", zero, spot, beside_spot, beside_spot, false),
        ("still inside", [ONE, ONE, ONE], zero, zero, two, true),
        ("still outside", [3 * ONE, ONE, ONE], zero, zero, two, false),
        ("still on a corner", two, zero, zero, two, true),
        (
            "along a face",
            [0, 2 * ONE, ONE],
            [ONE, 0, 0],
            zero,
            two,
            true,
        ),
        (
            "beside a face",
            [0, 2 * ONE + 1, ONE],
            [ONE, 0, 0],
            zero,
            two,
            false,
        ),
        (
            "behind",
            [0, HALF, HALF],
            [-ONE, 0, 0],
            [10 * ONE, 0, 0],
            [11 * ONE, ONE, ONE],
            false,
        ),
        (
            "ahead",
            [0, HALF, HALF],
            [1, 0, 0],
            [10 * ONE, 0, 0],
            [11 * ONE, ONE, ONE],
            true,
        ),
        (
            "down into a flat box",
            [ONE, 5 * ONE, ONE],
            [0, -3, 0],
            zero,
            [2 * ONE, 0, 2 * ONE],
            true,
        ),
        (
            "over a flat box's edge",
            [3 * ONE, ONE, ONE],
            [-1, -1, 0],
            zero,
            [2 * ONE, 0, 2 * ONE],
            true,
        ),
        (
            "short of a flat box",
            [3 * ONE, ONE - 1, ONE],
            [-1, -1, 0],
            zero,
            [2 * ONE, 0, 2 * ONE],
            false,
        ),
        (
            "across all space",
            [-FAR, -FAR, -FAR],
            [FAR, FAR, FAR],
            [FAR, FAR, FAR],
            [FAR, FAR, FAR],
            true,
        ),
        (
            "just off across all space",
            [-FAR, -FAR, -FAR],
            [FAR, FAR, FAR - 1],
            [FAR, FAR, FAR],
            [FAR, FAR, FAR],
            false,
        ),
    ] {
        let ray = Ray {
            from: point(from)?,
            dir: point(dir)?,
        };
        assert_eq!(rt; ray_meets(&ray, &bounds(lo, hi)?), meets, "{name}");
    }
    Ok(())
}

#[test]
fn segments_meet_boxes(rt: HostRuntime) -> Result<(), Fail> {
    let far_lo = [10 * ONE, 0, 0];
    let far_hi = [11 * ONE, ONE, ONE];
    for (name, a, b, lo, hi, meets) in [
        (
            "one raw unit short",
            [0, HALF, HALF],
            [10 * ONE - 1, HALF, HALF],
            far_lo,
            far_hi,
            false,
        ),
        (
            "ends on the face",
            [0, HALF, HALF],
            [10 * ONE, HALF, HALF],
            far_lo,
            far_hi,
            true,
        ),
        (
            "starts on the face",
            [11 * ONE, HALF, HALF],
            [20 * ONE, HALF, HALF],
            far_lo,
            far_hi,
            true,
        ),
        (
            "back onto the face",
            [20 * ONE, HALF, HALF],
            [11 * ONE, HALF, HALF],
            far_lo,
            far_hi,
            true,
        ),
        (
            "one raw unit short on the way back",
            [20 * ONE, HALF, HALF],
            [11 * ONE + 1, HALF, HALF],
            far_lo,
            far_hi,
            false,
        ),
        ("a point inside", far_lo, far_lo, far_lo, far_hi, true),
        (
            "a point outside",
            [0, 0, 0],
            [0, 0, 0],
            far_lo,
            far_hi,
            false,
        ),
        (
            "the longest of a scene",
            [LOW, LOW, LOW],
            [HIGH, HIGH, HIGH],
            [-ONE, -ONE, -ONE],
            [ONE, ONE, ONE],
            true,
        ),
        (
            "the longest of all",
            [FAR, -FAR, FAR],
            [-FAR, FAR, -FAR],
            [0, 0, 0],
            [0, 0, 0],
            true,
        ),
        (
            "just off the longest",
            [FAR, -FAR, FAR],
            [-FAR, FAR, -FAR],
            [0, 0, 1],
            [0, 0, 1],
            false,
        ),
    ] {
        let seg = Seg {
            a: point(a)?,
            b: point(b)?,
        };
        assert_eq!(rt; seg_meets(&seg, &bounds(lo, hi)?), meets, "{name}");
    }
    Ok(())
}

#[test]
fn rays_enter_boxes(rt: HostRuntime) -> Result<(), Fail> {
    let zero = [0, 0, 0];
    let one = [ONE, ONE, ONE];
    for (name, from, dir, lo, hi, at) in [
        (
            "ahead",
            [-ONE, HALF, HALF],
            [ONE, 0, 0],
            zero,
            one,
            Some((ONE, ONE)),
        ),
        (
            "from above",
            [HALF, 3 * ONE, HALF],
            [0, -4, 0],
            zero,
            one,
            Some((2 * ONE, 4)),
        ),
        (
            "from inside",
            [HALF, HALF, HALF],
            [ONE, ONE, ONE],
            zero,
            one,
            Some((0, 1)),
        ),
        (
            "not at all",
            [HALF, HALF, HALF + ONE],
            [ONE, ONE, 0],
            zero,
            one,
            None,
        ),
        (
            "across all space",
            [-FAR, -FAR, -FAR],
            [FAR, FAR, FAR],
            [FAR, FAR, FAR],
            [FAR, FAR, FAR],
            Some((2 * FAR, FAR)),
        ),
    ] {
        let ray = Ray {
            from: point(from)?,
            dir: point(dir)?,
        };
        let entry = ray_entry(&ray, &bounds(lo, hi)?).map(|e| (e.num(), e.den()));
        assert_eq!(rt; entry, at, "{name}");
    }
    Ok(())
}

// The entry of a ray along x from 0 into a box that begins at a place.
fn entry_at(place: i64, dir: i64) -> Result<Entry, Fail> {
    let ray = Ray {
        from: point([0, 0, 0])?,
        dir: point([dir, 0, 0])?,
    };
    let body = bounds([place, 0, 0], [place, 0, 0])?;
    Ok(ray_entry(&ray, &body).ok_or("the ray misses")?)
}

#[test]
fn entries_compare_by_value(rt: HostRuntime) -> Result<(), Fail> {
    assert_eq!(rt; entry_at(1, 2)?, entry_at(2, 4)?);
    assert!(rt; entry_at(5, 7)? < entry_at(3, 4)?);
    assert!(rt; entry_at(FAR, FAR - 1)? < entry_at(FAR - 1, FAR - 2)?);
    assert!(rt; entry_at(1, 3)? != entry_at(1, 4)?);
    Ok(())
}
