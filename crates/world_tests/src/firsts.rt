//! The box that a ray or a cast meets first, over each structure.

ghost use Rattle.std.specs.Prelude.{◌<◌};

use crate::worlds::NOBODYS;
use any_world::{AnyWorld, Structure};
use box_cast::Cast;
use fixed_box::{FBox, Point};
use live_queries::{AskRoom, Axis, Face, FirstHit, Groups, cast_meeting, ray_meeting};
use live_table::{Handle, Live, Masks};
use ray_slabs::{Ray, WPoint};
use std::alloc::Global;
use std::mem;
use std::test::Fail;

const LOW: i32 = i32::MIN;

const HIGH: i32 = i32::MAX;

// In any group.
const ALL: Groups = Groups::Of(u32::MAX);

// What goes a way, in raw units.
enum Way {
    Ray { from: [i64; 3], dir: [i64; 3] },
    Cast { body: [[i32; 3]; 2], by: [i32; 3] },
}

// Boxes by their corners, each with its groups, under the slots from 0 on; and what a way meets of them first: the slot, the
// place as a fraction, and the axis of the face with whether it is the upper one.
struct Case<'a> {
    name: &'a str,
    boxes: &'a [([[i32; 3]; 2], u32)],
    way: Way,
    groups: Groups,
    told: Option<(u32, (i64, i64), Option<(Axis, bool)>)>,
}

// Which box is told: the nearest of those that are asked for, and of those at one place the one with the lowest slot.
const WHICH: &[Case<'static>] = &[
    Case {
        name: "nothing in the world",
        boxes: &[],
        way: Way::Ray {
            from: [0, 5, 5],
            dir: [1, 0, 0],
        },
        groups: ALL,
        told: None,
    },
    Case {
        name: "one ahead",
        boxes: &[([[10, 0, 0], [20, 10, 10]], 1)],
        way: Way::Ray {
            from: [0, 5, 5],
            dir: [1, 0, 0],
        },
        groups: ALL,
        told: Some((0, (10, 1), Some((Axis::X, false)))),
    },
    Case {
        name: "one behind",
        boxes: &[([[10, 0, 0], [20, 10, 10]], 1)],
        way: Way::Ray {
            from: [30, 5, 5],
            dir: [1, 0, 0],
        },
        groups: ALL,
        told: None,
    },
    Case {
        name: "one beside",
        boxes: &[([[10, 0, 0], [20, 10, 10]], 1)],
        way: Way::Ray {
            from: [0, 11, 5],
            dir: [1, 0, 0],
        },
        groups: ALL,
        told: None,
    },
    Case {
        name: "the nearer under the higher slot",
        boxes: &[
            ([[30, 0, 0], [40, 10, 10]], 1),
            ([[10, 0, 0], [20, 10, 10]], 1),
        ],
        way: Way::Ray {
            from: [0, 5, 5],
            dir: [1, 0, 0],
        },
        groups: ALL,
        told: Some((1, (10, 1), Some((Axis::X, false)))),
    },
    Case {
        name: "two at one place, the longer one first",
        boxes: &[
            ([[10, 0, 0], [90, 90, 90]], 1),
            ([[10, 0, 0], [20, 10, 10]], 1),
        ],
        way: Way::Ray {
            from: [0, 5, 5],
            dir: [1, 0, 0],
        },
        groups: ALL,
        told: Some((0, (10, 1), Some((Axis::X, false)))),
    },
    Case {
        name: "two at one place, the shorter one first",
        boxes: &[
            ([[10, 0, 0], [20, 10, 10]], 1),
            ([[10, 0, 0], [90, 90, 90]], 1),
        ],
        way: Way::Ray {
            from: [0, 5, 5],
            dir: [1, 0, 0],
        },
        groups: ALL,
        told: Some((0, (10, 1), Some((Axis::X, false)))),
    },
    Case {
        name: "three of which the last two are nearest",
        boxes: &[
            ([[30, 0, 0], [40, 10, 10]], 1),
            ([[10, 0, 0], [20, 10, 10]], 1),
            ([[10, 2, 2], [11, 9, 9]], 1),
        ],
        way: Way::Ray {
            from: [0, 5, 5],
            dir: [1, 0, 0],
        },
        groups: ALL,
        told: Some((1, (10, 1), Some((Axis::X, false)))),
    },
    Case {
        name: "the nearer of another group",
        boxes: &[
            ([[30, 0, 0], [40, 10, 10]], 2),
            ([[10, 0, 0], [20, 10, 10]], 1),
        ],
        way: Way::Ray {
            from: [0, 5, 5],
            dir: [1, 0, 0],
        },
        groups: Groups::Of(2),
        told: Some((0, (30, 1), Some((Axis::X, false)))),
    },
    Case {
        name: "all of another group",
        boxes: &[
            ([[30, 0, 0], [40, 10, 10]], 2),
            ([[10, 0, 0], [20, 10, 10]], 1),
        ],
        way: Way::Ray {
            from: [0, 5, 5],
            dir: [1, 0, 0],
        },
        groups: Groups::Of(4),
        told: None,
    },
    Case {
        name: "one of no group, for any question of no group",
        boxes: &[
            ([[30, 0, 0], [40, 10, 10]], 2),
            ([[10, 0, 0], [20, 10, 10]], 0),
        ],
        way: Way::Ray {
            from: [0, 5, 5],
            dir: [1, 0, 0],
        },
        groups: Groups::All,
        told: Some((1, (10, 1), Some((Axis::X, false)))),
    },
    Case {
        name: "one of no group, passed by for any mask",
        boxes: &[
            ([[30, 0, 0], [40, 10, 10]], 2),
            ([[10, 0, 0], [20, 10, 10]], 0),
        ],
        way: Way::Cast {
            body: [[0, 0, 0], [5, 5, 5]],
            by: [100, 0, 0],
        },
        groups: ALL,
        told: Some((0, (25, 100), Some((Axis::X, false)))),
    },
    Case {
        name: "none for a mask of no group",
        boxes: &[([[10, 0, 0], [20, 10, 10]], 1)],
        way: Way::Ray {
            from: [0, 5, 5],
            dir: [1, 0, 0],
        },
        groups: Groups::Of(0),
        told: None,
    },
    Case {
        name: "around the start, with one ahead",
        boxes: &[
            ([[10, 0, 0], [20, 10, 10]], 1),
            ([[0, 0, 0], [9, 10, 10]], 1),
        ],
        way: Way::Ray {
            from: [5, 5, 5],
            dir: [1, 0, 0],
        },
        groups: ALL,
        told: Some((1, (0, 1), None)),
    },
];

// By which face a ray comes in: along each axis up and down, over an edge and a corner, and from a face on.
const FACES: &[Case<'static>] = &[
    Case {
        name: "down along x",
        boxes: &[([[10, 0, 0], [20, 10, 10]], 1)],
        way: Way::Ray {
            from: [50, 5, 5],
            dir: [-1, 0, 0],
        },
        groups: ALL,
        told: Some((0, (30, 1), Some((Axis::X, true)))),
    },
    Case {
        name: "up along y",
        boxes: &[([[10, 0, 0], [20, 10, 10]], 1)],
        way: Way::Ray {
            from: [15, -7, 5],
            dir: [0, 1, 0],
        },
        groups: ALL,
        told: Some((0, (7, 1), Some((Axis::Y, false)))),
    },
    Case {
        name: "down along y",
        boxes: &[([[10, 0, 0], [20, 10, 10]], 1)],
        way: Way::Ray {
            from: [15, 50, 5],
            dir: [0, -4, 0],
        },
        groups: ALL,
        told: Some((0, (10, 1), Some((Axis::Y, true)))),
    },
    Case {
        name: "up along z",
        boxes: &[([[10, 0, 0], [20, 10, 10]], 1)],
        way: Way::Ray {
            from: [15, 5, -9],
            dir: [0, 0, 2],
        },
        groups: ALL,
        told: Some((0, (9, 2), Some((Axis::Z, false)))),
    },
    Case {
        name: "down along z",
        boxes: &[([[10, 0, 0], [20, 10, 10]], 1)],
        way: Way::Ray {
            from: [15, 5, 11],
            dir: [0, 0, -1],
        },
        groups: ALL,
        told: Some((0, (1, 1), Some((Axis::Z, true)))),
    },
    Case {
        name: "by the later of two axes",
        boxes: &[([[4, 8, 0], [20, 20, 10]], 1)],
        way: Way::Ray {
            from: [0, 0, 5],
            dir: [2, 1, 0],
        },
        groups: ALL,
        told: Some((0, (8, 1), Some((Axis::Y, false)))),
    },
    Case {
        name: "over an edge of x and z",
        boxes: &[([[10, 0, 0], [20, 10, 10]], 1)],
        way: Way::Ray {
            from: [0, 5, 20],
            dir: [1, 0, -1],
        },
        groups: ALL,
        told: Some((0, (10, 1), Some((Axis::X, false)))),
    },
    Case {
        name: "over an edge of y and z",
        boxes: &[([[10, 0, 0], [20, 10, 10]], 1)],
        way: Way::Ray {
            from: [15, 20, -10],
            dir: [0, -1, 1],
        },
        groups: ALL,
        told: Some((0, (10, 1), Some((Axis::Y, true)))),
    },
    Case {
        name: "over a corner",
        boxes: &[([[10, 0, 0], [20, 10, 10]], 1)],
        way: Way::Ray {
            from: [0, -10, -10],
            dir: [5, 5, 5],
        },
        groups: ALL,
        told: Some((0, (10, 5), Some((Axis::X, false)))),
    },
    Case {
        name: "from the face on, inwards",
        boxes: &[([[10, 0, 0], [20, 10, 10]], 1)],
        way: Way::Ray {
            from: [10, 5, 5],
            dir: [1, 0, 0],
        },
        groups: ALL,
        told: Some((0, (0, 1), Some((Axis::X, false)))),
    },
    Case {
        name: "from the face on, outwards",
        boxes: &[([[10, 0, 0], [20, 10, 10]], 1)],
        way: Way::Ray {
            from: [10, 5, 5],
            dir: [-1, 0, 0],
        },
        groups: ALL,
        told: Some((0, (0, 1), None)),
    },
    Case {
        name: "along a face from its edge on",
        boxes: &[([[10, 0, 0], [20, 10, 10]], 1)],
        way: Way::Ray {
            from: [10, 0, 5],
            dir: [0, 1, 0],
        },
        groups: ALL,
        told: Some((0, (0, 1), Some((Axis::Y, false)))),
    },
    Case {
        name: "from within",
        boxes: &[([[10, 0, 0], [20, 10, 10]], 1)],
        way: Way::Ray {
            from: [11, 5, 5],
            dir: [1, 1, 1],
        },
        groups: ALL,
        told: Some((0, (0, 1), None)),
    },
    Case {
        name: "nowhere, from within",
        boxes: &[([[10, 0, 0], [20, 10, 10]], 1)],
        way: Way::Ray {
            from: [11, 5, 5],
            dir: [0, 0, 0],
        },
        groups: ALL,
        told: Some((0, (0, 1), None)),
    },
    Case {
        name: "nowhere, from outside",
        boxes: &[([[10, 0, 0], [20, 10, 10]], 1)],
        way: Way::Ray {
            from: [9, 5, 5],
            dir: [0, 0, 0],
        },
        groups: ALL,
        told: None,
    },
    Case {
        name: "a place that is no whole number",
        boxes: &[([[10, 0, 0], [20, 10, 10]], 1)],
        way: Way::Ray {
            from: [0, 5, 5],
            dir: [3, 0, 0],
        },
        groups: ALL,
        told: Some((0, (10, 3), Some((Axis::X, false)))),
    },
];

// What a cast meets: as far as it goes, by which face, and from its start on.
const CASTS: &[Case<'static>] = &[
    Case {
        name: "a point",
        boxes: &[([[10, 0, 0], [20, 10, 10]], 1)],
        way: Way::Cast {
            body: [[0, 5, 5], [0, 5, 5]],
            by: [100, 0, 0],
        },
        groups: ALL,
        told: Some((0, (10, 100), Some((Axis::X, false)))),
    },
    Case {
        name: "a box",
        boxes: &[([[10, 0, 0], [20, 10, 10]], 1)],
        way: Way::Cast {
            body: [[0, 2, 2], [4, 6, 6]],
            by: [100, 0, 0],
        },
        groups: ALL,
        told: Some((0, (6, 100), Some((Axis::X, false)))),
    },
    Case {
        name: "a box that passes by",
        boxes: &[([[10, 0, 0], [20, 10, 10]], 1)],
        way: Way::Cast {
            body: [[0, 11, 2], [4, 15, 6]],
            by: [100, 0, 0],
        },
        groups: ALL,
        told: None,
    },
    Case {
        name: "a box that is wider than the other",
        boxes: &[([[10, 0, 0], [20, 10, 10]], 1)],
        way: Way::Cast {
            body: [[0, -5, -5], [4, 50, 50]],
            by: [100, 0, 0],
        },
        groups: ALL,
        told: Some((0, (6, 100), Some((Axis::X, false)))),
    },
    Case {
        name: "one raw unit short",
        boxes: &[([[10, 0, 0], [20, 10, 10]], 1)],
        way: Way::Cast {
            body: [[0, 2, 2], [4, 6, 6]],
            by: [5, 0, 0],
        },
        groups: ALL,
        told: None,
    },
    Case {
        name: "up to its face",
        boxes: &[([[10, 0, 0], [20, 10, 10]], 1)],
        way: Way::Cast {
            body: [[0, 2, 2], [4, 6, 6]],
            by: [6, 0, 0],
        },
        groups: ALL,
        told: Some((0, (1, 1), Some((Axis::X, false)))),
    },
    Case {
        name: "down along x",
        boxes: &[([[10, 0, 0], [20, 10, 10]], 1)],
        way: Way::Cast {
            body: [[40, 2, 2], [44, 6, 6]],
            by: [-100, 0, 0],
        },
        groups: ALL,
        told: Some((0, (1, 5), Some((Axis::X, true)))),
    },
    Case {
        name: "up along y",
        boxes: &[([[10, 0, 0], [20, 10, 10]], 1)],
        way: Way::Cast {
            body: [[12, -20, 2], [14, -10, 6]],
            by: [0, 40, 0],
        },
        groups: ALL,
        told: Some((0, (1, 4), Some((Axis::Y, false)))),
    },
    Case {
        name: "down along z",
        boxes: &[([[10, 0, 0], [20, 10, 10]], 1)],
        way: Way::Cast {
            body: [[12, 2, 25], [14, 6, 30]],
            by: [0, 0, -30],
        },
        groups: ALL,
        told: Some((0, (1, 2), Some((Axis::Z, true)))),
    },
    Case {
        name: "over an edge",
        boxes: &[([[10, 0, 0], [20, 10, 10]], 1)],
        way: Way::Cast {
            body: [[0, -14, 2], [4, -6, 6]],
            by: [12, 12, 0],
        },
        groups: ALL,
        told: Some((0, (1, 2), Some((Axis::X, false)))),
    },
    Case {
        name: "from within",
        boxes: &[([[10, 0, 0], [20, 10, 10]], 1)],
        way: Way::Cast {
            body: [[9, 2, 2], [14, 6, 6]],
            by: [100, 0, 0],
        },
        groups: ALL,
        told: Some((0, (0, 1), None)),
    },
    Case {
        name: "from the face on",
        boxes: &[([[10, 0, 0], [20, 10, 10]], 1)],
        way: Way::Cast {
            body: [[0, 2, 2], [10, 6, 6]],
            by: [100, 0, 0],
        },
        groups: ALL,
        told: Some((0, (0, 1), Some((Axis::X, false)))),
    },
    Case {
        name: "nowhere, where both meet",
        boxes: &[([[10, 0, 0], [20, 10, 10]], 1)],
        way: Way::Cast {
            body: [[0, 2, 2], [10, 6, 6]],
            by: [0, 0, 0],
        },
        groups: ALL,
        told: Some((0, (0, 1), None)),
    },
    Case {
        name: "nowhere, apart",
        boxes: &[([[10, 0, 0], [20, 10, 10]], 1)],
        way: Way::Cast {
            body: [[0, 2, 2], [4, 6, 6]],
            by: [0, 0, 0],
        },
        groups: ALL,
        told: None,
    },
    Case {
        name: "the nearer of two",
        boxes: &[
            ([[30, 0, 0], [40, 10, 10]], 1),
            ([[10, 0, 0], [20, 10, 10]], 1),
        ],
        way: Way::Cast {
            body: [[0, 2, 2], [4, 6, 6]],
            by: [100, 0, 0],
        },
        groups: ALL,
        told: Some((1, (3, 50), Some((Axis::X, false)))),
    },
    Case {
        name: "two at one place",
        boxes: &[
            ([[10, 0, 0], [90, 90, 90]], 1),
            ([[10, 0, 0], [20, 10, 10]], 1),
        ],
        way: Way::Cast {
            body: [[0, 2, 2], [4, 6, 6]],
            by: [100, 0, 0],
        },
        groups: ALL,
        told: Some((0, (6, 100), Some((Axis::X, false)))),
    },
    Case {
        name: "the nearer of another group",
        boxes: &[
            ([[30, 0, 0], [40, 10, 10]], 2),
            ([[10, 0, 0], [20, 10, 10]], 1),
        ],
        way: Way::Cast {
            body: [[0, 2, 2], [4, 6, 6]],
            by: [100, 0, 0],
        },
        groups: Groups::Of(2),
        told: Some((0, (26, 100), Some((Axis::X, false)))),
    },
];

// At the ends of the range.
const EXTREMES: &[Case<'static>] = &[
    Case {
        name: "from one end to the other",
        boxes: &[([[HIGH, 0, 0], [HIGH, 0, 0]], 1)],
        way: Way::Ray {
            from: [-2_147_483_648, 0, 0],
            dir: [2_147_483_647, 0, 0],
        },
        groups: ALL,
        told: Some((0, (4_294_967_295, 2_147_483_647), Some((Axis::X, false)))),
    },
    Case {
        name: "from beyond space",
        boxes: &[([[LOW, LOW, LOW], [LOW, HIGH, HIGH]], 1)],
        way: Way::Ray {
            from: [17_179_869_184, 7, 7],
            dir: [-17_179_869_184, 0, 0],
        },
        groups: ALL,
        told: Some((0, (19_327_352_832, 17_179_869_184), Some((Axis::X, true)))),
    },
    Case {
        name: "all of space, from its corner on",
        boxes: &[([[LOW, LOW, LOW], [HIGH, HIGH, HIGH]], 1)],
        way: Way::Ray {
            from: [-2_147_483_648, -2_147_483_648, -2_147_483_648],
            dir: [1, 1, 1],
        },
        groups: ALL,
        told: Some((0, (0, 1), Some((Axis::X, false)))),
    },
    Case {
        name: "a cast to its very end",
        boxes: &[([[-1, LOW, LOW], [-1, HIGH, HIGH]], 1)],
        way: Way::Cast {
            body: [[LOW, 0, 0], [LOW, 0, 0]],
            by: [HIGH, 0, 0],
        },
        groups: ALL,
        told: Some((0, (1, 1), Some((Axis::X, false)))),
    },
    Case {
        name: "a cast out of space",
        boxes: &[([[HIGH, HIGH, HIGH], [HIGH, HIGH, HIGH]], 1)],
        way: Way::Cast {
            body: [[0, 0, 0], [1, 1, 1]],
            by: [HIGH, HIGH, HIGH],
        },
        groups: ALL,
        told: Some((0, (2_147_483_646, 2_147_483_647), Some((Axis::X, false)))),
    },
    Case {
        name: "a cast down all of space",
        boxes: &[([[LOW, LOW, LOW], [LOW, LOW, LOW]], 1)],
        way: Way::Cast {
            body: [[0, 0, 0], [0, 0, 0]],
            by: [LOW, LOW, LOW],
        },
        groups: ALL,
        told: Some((0, (1, 1), Some((Axis::X, true)))),
    },
];

fn point(parts: &[i32; 3]) -> Point {
    Point {
        x: parts[0],
        y: parts[1],
        z: parts[2],
    }
}

fn wide_point(parts: &[i64; 3]) -> Result<WPoint, Fail> {
    Ok(WPoint::new(parts[0], parts[1], parts[2]).ok_or("a point in reach")?)
}

fn body_of(corners: &[[i32; 3]; 2]) -> Result<FBox, Fail> {
    Ok(FBox::new(point(&corners[0]), point(&corners[1])).ok_or("a box")?)
}

// What a way meets first.
fn ask(
    world: &AnyWorld,
    way: &Way,
    groups: Groups,
    room: &mut AskRoom,
) -> Result<Option<FirstHit>, Fail> {
    match way {
        Way::Ray { from, dir } => {
            let from = wide_point(from)?;
            let dir = wide_point(dir)?;
            Ok(world.first_entered(&Ray { from, dir }, groups, room)?)
        }
        Way::Cast { body, by } => {
            let body = body_of(body)?;
            let by = point(by);
            Ok(world.first_cast(&Cast { body, by }, groups, room)?)
        }
    }
}

// Whether a hit is the one that is wanted.
fn is_as_told(hit: &Option<FirstHit>, handles: &[Handle], case: &Case<'_>) -> bool {
    match (hit, &case.told) {
        (None, None) => true,
        (Some(hit), Some((slot, (num, den), face))) => {
            let slot = *slot as usize;
            let is_handle = slot < handles.len() && hit.handle == handles[slot];
            is_handle && is_at(hit, *num, *den) && is_face(hit.face, *face)
        }
        _ => false,
    }
}

// Whether a hit is at a place, by value.
fn is_at(hit: &FirstHit, num: i64, den: i64) -> bool {
    let here = i128::from(hit.place.num()) * i128::from(den);
    here == i128::from(num) * i128::from(hit.place.den())
}

fn is_face(face: Option<Face>, wanted: Option<(Axis, bool)>) -> bool {
    match (face, wanted) {
        (None, None) => true,
        (Some(face), Some((axis, upper))) => face.axis == axis && face.upper == upper,
        _ => false,
    }
}

// Puts the boxes of a case into a world, asks it and takes them out again.
fn answers(alloc: Global, world: &mut AnyWorld, case: &Case<'_>) -> Result<(), Fail> {
    let mut handles = Vec::new(alloc);
    for (corners, is) in case.boxes {
        let masks = Masks { is: *is, sees: 1 };
        handles.push(world.add(body_of(corners)?, masks, NOBODYS)?)?;
    }
    let hit = ask(world, &case.way, case.groups, &mut AskRoom::new(alloc))?;
    let told = is_as_told(&hit, &handles, case);
    for handle in &handles {
        world.remove(*handle)?;
    }
    if told { Ok(()) } else { Err(case.name.into()) }
}

fn answer_all(alloc: Global, world: &mut AnyWorld, cases: &[Case<'_>]) -> Result<(), Fail> {
    for case in cases {
        answers(alloc, world, case)?;
    }
    Ok(())
}

// The cases over a structure. The world isn't let go, as those of `worlds`.
fn answers_over(alloc: Global, structure: Structure, cases: &[Case<'_>]) -> Result<(), Fail> {
    let mut world = AnyWorld::new(alloc, structure)?;
    let answered = answer_all(alloc, &mut world, cases);
    mem::forget(world);
    answered
}

fn each_answers(alloc: Global, cases: &[Case<'_>]) -> Result<(), Fail> {
    answers_over(alloc, Structure::Plain, cases)?;
    answers_over(alloc, Structure::Sap, cases)?;
    answers_over(alloc, Structure::Tree, cases)?;
    answers_over(alloc, Structure::Grid, cases)?;
    answers_over(alloc, Structure::Skin, cases)
}

#[test]
fn the_nearest_of_those_asked_for_is_told(rt: HostRuntime) -> Result<(), Fail> {
    each_answers(rt.alloc(), WHICH)
}

#[test]
fn the_face_is_where_the_ray_comes_in(rt: HostRuntime) -> Result<(), Fail> {
    each_answers(rt.alloc(), FACES)
}

#[test]
fn a_cast_tells_where_it_stops(rt: HostRuntime) -> Result<(), Fail> {
    each_answers(rt.alloc(), CASTS)
}

#[test]
fn the_ends_of_the_range_are_exact(rt: HostRuntime) -> Result<(), Fail> {
    each_answers(rt.alloc(), EXTREMES)
}

// How many random boxes there are, and how many ways are asked of them.
const BOXES: u32 = 400;

const WAYS: u32 = 60;

// Random numbers below a bound, by a linear congruential generator. One start gives the same to each structure.
#[derive(Drop)]
pub(crate) struct Random {
    pub(crate) state: u32,
}

impl Random {
    pub(crate) fn below(&mut self, bound: u16) -> u16
        requires { 0 < bound }
    {
        let next = self
            .state
            .wrapping_mul(1_664_525)
            .wrapping_add(1_013_904_223);
        self.state = next;
        ((next >> 16) as u16) % bound
    }

    fn point(&mut self) -> Point {
        Point {
            x: i32::from(self.below(600)),
            y: i32::from(self.below(600)),
            z: i32::from(self.below(600)),
        }
    }

    // How far a way goes on an axis: up, down or not at all.
    fn step(&mut self) -> i32 {
        let steps = i32::from(self.below(9));
        (steps - 4) * 100
    }

    fn way(&mut self) -> Point {
        Point {
            x: self.step(),
            y: self.step(),
            z: self.step(),
        }
    }

    // A box whose sides are below this.
    fn body(&mut self, most: u16) -> Result<FBox, Fail>
        requires { 0 < most }
    {
        let lo = self.point();
        let hi = Point {
            x: lo.x.saturating_add(i32::from(self.below(most))),
            y: lo.y.saturating_add(i32::from(self.below(most))),
            z: lo.z.saturating_add(i32::from(self.below(most))),
        };
        Ok(FBox::new(lo, hi).ok_or("a box")?)
    }

    // One group, all three, or none.
    pub(crate) fn mask(&mut self) -> u32 {
        match self.below(5) {
            0 => u32::MAX,
            1 => 1,
            2 => 2,
            3 => 4,
            _ => 0,
        }
    }

    // What looks at no group, or at those of a mask.
    pub(crate) fn groups(&mut self) -> Groups {
        match self.below(4) {
            0 => Groups::All,
            _ => Groups::Of(self.mask()),
        }
    }
}

// Whether a hit is that of the first of some handles.
fn is_first_of(hit: &Option<FirstHit>, handles: &[Handle]) -> bool {
    match (hit, handles.first()) {
        (None, None) => true,
        (Some(hit), Some(handle)) => hit.handle == *handle,
        _ => false,
    }
}

// The box of a hit, while it lives.
fn box_of(world: &AnyWorld, hit: &Option<FirstHit>) -> Option<Live> {
    match hit {
        Some(hit) => world.get(hit.handle),
        None => None,
    }
}

// Where a ray meets the box of a hit, asked of that box by itself.
fn entered_alone(world: &AnyWorld, ray: &Ray, hit: &Option<FirstHit>) -> Option<FirstHit> {
    let live = box_of(world, hit)?;
    ray_meeting(ray, &live)
}

// The same of a cast.
fn touched_alone(world: &AnyWorld, cast: &Cast, hit: &Option<FirstHit>) -> Option<FirstHit> {
    let live = box_of(world, hit)?;
    cast_meeting(cast, &live)
}

// Asks for the first box that a ray and a cast meet, and for all of them.
fn is_head(
    world: &AnyWorld,
    random: &mut Random,
    room: &mut AskRoom,
    handles: &mut Vec<Handle>,
) -> Result<bool, Fail> {
    let groups = random.groups();
    let ray = Ray {
        from: WPoint::of(&random.point()),
        dir: WPoint::of(&random.way()),
    };
    handles.clear();
    world.entered(&ray, groups, room, handles)?;
    let first = world.first_entered(&ray, groups, room)?;
    let entered = is_first_of(&first, handles) && first == entered_alone(world, &ray, &first);
    let cast = Cast {
        body: random.body(20)?,
        by: random.way(),
    };
    handles.clear();
    world.cast(&cast, groups, room, handles)?;
    let first = world.first_cast(&cast, groups, room)?;
    let touched = is_first_of(&first, handles) && first == touched_alone(world, &cast, &first);
    Ok(entered && touched)
}

// Many boxes, of which the first is asked for over and over.
fn are_heads(alloc: Global, world: &mut AnyWorld) -> Result<bool, Fail> {
    let mut random = Random { state: 1 };
    for _ in 0..BOXES {
        let masks = Masks {
            is: random.mask(),
            sees: 1,
        };
        world.add(random.body(60)?, masks, NOBODYS)?;
    }
    let mut room = AskRoom::new(alloc);
    let mut handles = Vec::new(alloc);
    for _ in 0..WAYS {
        if !is_head(world, &mut random, &mut room, &mut handles)? {
            return Ok(false);
        }
    }
    Ok(true)
}

fn are_heads_over(alloc: Global, structure: Structure) -> Result<bool, Fail> {
    let mut world = AnyWorld::new(alloc, structure)?;
    let heads = are_heads(alloc, &mut world);
    mem::forget(world);
    heads
}

#[test]
fn the_first_is_the_head_of_all(rt: HostRuntime) -> Result<(), Fail> {
    assert!(rt; are_heads_over(rt.alloc(), Structure::Plain)?);
    assert!(rt; are_heads_over(rt.alloc(), Structure::Sap)?);
    assert!(rt; are_heads_over(rt.alloc(), Structure::Tree)?);
    assert!(rt; are_heads_over(rt.alloc(), Structure::Grid)?);
    assert!(rt; are_heads_over(rt.alloc(), Structure::Skin)?);
    Ok(())
}
