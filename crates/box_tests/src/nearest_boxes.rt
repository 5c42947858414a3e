//! The nearest boxes to a point and to a box over an index, with ties and squares.

ghost use Rattle.std.specs.FinMap as map;

use broad_index::{BroadPhase, PlainIndex};
use fixed_box::{FBox, Point, space_law};
use near_boxes::{Bodies, Near, NearRoom, nearest, spot, square, square_apart};
use std::test::Fail;

// Raw units.
const ONE: i32 = 65_536;

const LOW: i32 = i32::MIN;

fn at(x: i32, y: i32, z: i32) -> Point {
    Point { x, y, z }
}

// A crate of one unit whose lower corner has this x.
fn crate_from(x: i32) -> Option<FBox> {
    FBox::new(at(x, 0, 0), at(x.saturating_add(ONE), ONE, ONE))
}

// Boxes under the slots 0 to 2.
#[derive(Clone, Copy)]
struct Three {
    first: FBox,
    second: FBox,
    third: FBox,
}

impl Bodies for Three {
    ghost bodies = { λ three. map.insert (map.insert (map.insert map.empty 0 three.first) 1 three.second) 2 three.third };

    fn body(&self, slot: u32) -> Option<FBox> {
        space_law(&self.first);
        space_law(&self.second);
        space_law(&self.third);
        if slot == 0 {
            Some(self.first)
        } else if slot == 1 {
            Some(self.second)
        } else if slot == 2 {
            Some(self.third)
        } else {
            None
        }
    }
}

// From the middle of the first the other two are as near as each other.
#[test]
fn the_nearest_come_by_square_and_then_by_slot(rt: HostRuntime) -> Result<(), Fail> {
    let bodies = Three {
        first: crate_from(0).ok_or("a box")?,
        second: crate_from(3 * ONE).ok_or("a box")?,
        third: crate_from(-3 * ONE).ok_or("a box")?,
    };
    let mut index = PlainIndex::new(rt.alloc())?;
    index.add(0, bodies.first)?;
    index.add(1, bodies.second)?;
    index.add(2, bodies.third)?;
    let middle = spot(&at(ONE / 2, ONE / 2, ONE / 2));
    let all = [
        Near { slot: 0, square: 0 },
        Near {
            slot: 1,
            square: 26_843_545_600,
        },
        Near {
            slot: 2,
            square: 26_843_545_600,
        },
    ];
    let mut nears = Vec::new(rt.alloc());
    let mut room = NearRoom::new(rt.alloc());
    nearest(&mut room, &index, &bodies, &middle, 2, &mut nears)?;
    assert_eq!(rt; nears.as_slice(), &all[..2]);
    nears.clear();
    nearest(&mut room, &index, &bodies, &middle, 8192, &mut nears)?;
    assert_eq!(rt; nears.as_slice(), all.as_slice());
    Ok(())
}

#[test]
fn squares_may_have_more_than_64_bits(rt: HostRuntime) -> Result<(), Fail> {
    let lowest = at(LOW, LOW, LOW);
    for (corner, wanted) in [
        (lowest, 0),
        (at(LOW, LOW, LOW + 2 * ONE), 1u128 << 34),
        (
            at(i32::MAX, LOW + 2 * ONE, LOW),
            (1u128 << 64) + (1 << 33) + 1,
        ),
    ] {
        let body = FBox::new(corner, corner).ok_or("a box")?;
        assert_eq!(rt; square(&lowest, &body), wanted);
        assert_eq!(rt; square_apart(&body, &spot(&lowest)), wanted);
    }
    Ok(())
}

// Two crates that begin three units apart have a gap of two, whichever is asked about, and those that touch have none.
#[test]
fn gaps_are_measured_between_the_sides_that_face(rt: HostRuntime) -> Result<(), Fail> {
    let first = crate_from(0).ok_or("a box")?;
    for (x, wanted) in [
        (0, 0),
        (ONE, 0),
        (-ONE, 0),
        (3 * ONE, 1u128 << 34),
        (-3 * ONE, 1u128 << 34),
    ] {
        let other = crate_from(x).ok_or("a box")?;
        assert_eq!(rt; square_apart(&first, &other), wanted);
        assert_eq!(rt; square_apart(&other, &first), wanted);
    }
    Ok(())
}
