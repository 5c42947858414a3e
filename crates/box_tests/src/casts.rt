//! Casts of boxes along a line: what they meet, and when, as rows.

use box_cast::{Cast, cast_entry, cast_meets};
use fixed_box::{FBox, Point};
use std::test::Fail;

// Raw units.
const ONE: i32 = 65536;

fn point(parts: [i32; 3]) -> Point {
    let [x, y, z] = parts;
    Point { x, y, z }
}

fn body(lo: [i32; 3], hi: [i32; 3]) -> Result<FBox, Fail> {
    Ok(FBox::new(point(lo), point(hi)).ok_or("the corners are inverted")?)
}

#[test]
fn casts_meet_boxes(rt: HostRuntime) -> Result<(), Fail> {
    let one = body([0, 0, 0], [ONE, ONE, ONE])?;
    let near = body([5 * ONE, 0, 0], [6 * ONE, ONE, ONE])?;
    let far = body([10 * ONE, 0, 0], [11 * ONE, ONE, ONE])?;
    let high = 32767 * ONE;
    let low = -32768 * ONE;
    let corner = body([high, 0, 0], [high, 0, 0])?;
    let out = body([32000 * ONE, 0, 0], [32000 * ONE, 0, 0])?;
    let origin = body([0, 0, 0], [0, 0, 0])?;
    let long = 20 * i64::from(ONE);
    for (name, cast, by, other, at) in [
        (
            "the near box",
            one,
            [20 * ONE, 0, 0],
            near,
            Some((4 * i64::from(ONE), long)),
        ),
        (
            "the far box",
            one,
            [20 * ONE, 0, 0],
            far,
            Some((9 * i64::from(ONE), long)),
        ),
        ("one raw unit short", one, [262143, 0, 0], near, None),
        (
            "touching at the end",
            one,
            [262144, 0, 0],
            near,
            Some((262144, 262144)),
        ),
        (
            "out of range",
            out,
            [high, 0, 0],
            corner,
            Some((767 * i64::from(ONE), i64::from(high))),
        ),
        ("away", origin, [low, 0, 0], corner, None),
        ("no way at all", one, [0, 0, 0], one, Some((0, 1))),
        (
            "back onto it",
            far,
            [-8 * ONE, 0, 0],
            near,
            Some((4 * i64::from(ONE), 8 * i64::from(ONE))),
        ),
        (
            "past an edge",
            one,
            [ONE, ONE + 1, 0],
            body([2 * ONE, -ONE, 0], [2 * ONE, 0, ONE])?,
            None,
        ),
    ] {
        let cast = Cast {
            body: cast,
            by: point(by),
        };
        let entry = cast_entry(&cast, &other).map(|e| (e.num(), e.den()));
        assert_eq!(rt; entry, at, "{name}");
        assert_eq!(rt; cast_meets(&cast, &other), at.is_some(), "{name}");
    }
    Ok(())
}

#[test]
fn hulls_hold_both_ends(rt: HostRuntime) -> Result<(), Fail> {
    let one = body([0, 0, 0], [ONE, ONE, ONE])?;
    let cast = Cast {
        body: one,
        by: point([-3 * ONE, 2 * ONE, i32::MAX]),
    };
    assert_eq!(rt;
        cast.hull(),
        body([-3 * ONE, 0, 0], [ONE, 3 * ONE, i32::MAX])?
    );
    Ok(())
}
