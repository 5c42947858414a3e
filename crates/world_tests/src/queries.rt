//! What live boxes are asked, with memory enough.

ghost use Rattle.std.specs.Prelude.{◌≡◌, false, OnOk};
ghost use Rattle.live_table.specs.Bodies.{bodies_of};
ghost use Rattle.live_table.specs.Table.{IsTable};

use box_cast::Cast;
use broad_index::{BroadPhase, PlainIndex, Query};
use fixed_box::{FBox, Point, SLOTS};
use live_queries::{
    Groups, MetRoom, NearBoxQuery, NearQuery, NearestRoom, push_cast, push_entered, push_hits,
    push_nearest, push_nearest_box,
};
use live_table::{Group, Handle, LiveTable, Masks};
use ray_slabs::{Ray, WPoint};
use std::alloc::Global;
use std::test::Fail;

// Raw units.
const ONE: i32 = 65_536;

const HALF: i32 = 32_768;

const LOW: i32 = i32::MIN;

// In any group.
const ALL: Groups = Groups::Of(u32::MAX);

// What is asked: which boxes a ray along the x axis meets, from a place on, by slot or by entry; which a box that is cast
// along that axis meets; and which are nearest to a point, or to a box between two whole units along it, from a square on.
#[derive(Drop)]
enum Asked {
    Hits(i32),
    Entered(i32),
    Cast { body: [[i32; 3]; 2], by: i32 },
    Nearest { at: [i32; 3], want: u32 },
    NearestBox { a: i16, from: u128, want: u32 },
}

fn point(parts: &[i32; 3]) -> Point {
    Point {
        x: parts[0],
        y: parts[1],
        z: parts[2],
    }
}

fn body_of(corners: &[[i32; 3]; 2]) -> Result<FBox, Fail> {
    Ok(FBox::new(point(&corners[0]), point(&corners[1])).ok_or("a box")?)
}

// A box of the first group under the least free slot.
fn enter(table: &mut LiveTable, index: &mut PlainIndex, corners: &[[i32; 3]; 2]) -> Result<(), Fail>
    requires sound { index.old.spent ≡ false }
    requires boxes { index.old.bodies ≡ bodies_of table.old.entries }
    ensures table { OnOk result (IsTable table.new) }
    ensures sound { OnOk result (index.new.spent ≡ false) }
    ensures boxes { OnOk result (index.new.bodies ≡ bodies_of table.new.entries) }
{
    if table.given() > 100 {
        return Err("few boxes".into());
    }
    let body = body_of(corners)?;
    let masks = Masks { is: 1, sees: 1 };
    let group = Group {
        owner: 0,
        fixed: false,
    };
    let handle = table.give(body, masks, group)?;
    index.add(handle.slot, body)?;
    Ok(())
}

// A box between two whole units on the x axis, and one unit wide on the others.
fn unit(a: i16, b: i16) -> [[i32; 3]; 2] {
    [[i32::from(a) * ONE, 0, 0], [i32::from(b) * ONE, ONE, ONE]]
}

// The flat box at a point.
fn flat(at: [i32; 3]) -> [[i32; 3]; 2] {
    [at, at]
}

// A ray along the x axis, in the middle of boxes of one unit.
fn ray_from(x: i32) -> Ray {
    Ray {
        from: WPoint::of(&Point {
            x,
            y: HALF,
            z: HALF,
        }),
        dir: WPoint::of(&Point { x: ONE, y: 0, z: 0 }),
    }
}

// The handles that come, of some groups.
fn ask(
    alloc: Global,
    table: &LiveTable,
    index: &PlainIndex,
    asked: &Asked,
    groups: Groups,
    out: &mut Vec<Handle>,
) -> Result<(), Fail>
    requires table { IsTable table.now }
    requires sound { index.now.spent ≡ false }
    requires boxes { index.now.bodies ≡ bodies_of table.now.entries }
{
    let mut slots = Vec::new(alloc);
    match asked {
        Asked::Hits(x) => {
            let query = Query::Along(ray_from(*x));
            index.hits(&query, &mut slots)?;
            push_hits(table, &query, groups, &slots, out)?;
        }
        Asked::Entered(x) => {
            let ray = ray_from(*x);
            index.hits(&Query::Along(ray), &mut slots)?;
            push_entered(table, &ray, groups, &slots, &mut MetRoom::new(alloc), out)?;
        }
        Asked::Cast { body, by } => {
            let cast = Cast {
                body: body_of(body)?,
                by: Point { x: *by, y: 0, z: 0 },
            };
            index.hits(&Query::Swept(cast), &mut slots)?;
            push_cast(table, &cast, groups, &slots, &mut MetRoom::new(alloc), out)?;
        }
        Asked::Nearest { at, want } => {
            let query = NearQuery {
                at: point(at),
                want: (*want).clamp(1, SLOTS),
                groups,
            };
            push_nearest(table, index, &query, &mut NearestRoom::new(alloc), out)?;
        }
        Asked::NearestBox { a, from, want } => {
            let query = NearBoxQuery {
                body: body_of(&unit(*a, a.saturating_add(1)))?,
                from: *from,
                want: (*want).clamp(1, SLOTS),
                groups,
            };
            push_nearest_box(table, index, &query, &mut NearestRoom::new(alloc), out)?;
        }
    }
    Ok(())
}

// Boxes by their corners answer a question of some groups with the handles under these slots, in their order.
fn answer(
    alloc: Global,
    name: &str,
    boxes: &[[[i32; 3]; 2]],
    asked: Asked,
    groups: Groups,
    slots: &[u32],
) -> Result<(), Fail> {
    let mut table = LiveTable::new(alloc)?;
    let mut index = PlainIndex::new(alloc)?;
    for corners in boxes {
        enter(&mut table, &mut index, corners)?;
    }
    let mut handles = Vec::new(alloc);
    ask(alloc, &table, &index, &asked, groups, &mut handles)?;
    if are_first_of(&handles, slots) {
        Ok(())
    } else {
        Err(name.into())
    }
}

// Whether these are the handles of the first boxes that the slots had, in the same order.
fn are_first_of(handles: &[Handle], slots: &[u32]) -> bool {
    let mut rest = slots;
    for handle in handles {
        let Some((slot, more)) = rest.split_first() else {
            return false;
        };
        if handle.slot != *slot || handle.generation != 0 {
            return false;
        }
        rest = more;
    }
    rest.is_empty()
}

// One box behind two that begin at one place.
#[test]
fn a_ray_meets_boxes_by_slot_or_by_entry(rt: HostRuntime) -> Result<(), Fail> {
    let alloc = rt.alloc();
    let ahead = [unit(5, 6), unit(2, 3), unit(2, 9)];
    let inside = Asked::Entered(2 * ONE + HALF);
    answer(
        alloc,
        "a ray by slot",
        &ahead,
        Asked::Hits(0),
        ALL,
        &[0, 1, 2],
    )?;
    answer(
        alloc,
        "a ray by entry",
        &ahead,
        Asked::Entered(0),
        ALL,
        &[1, 2, 0],
    )?;
    answer(
        alloc,
        "a ray that begins in two boxes",
        &ahead,
        inside,
        Groups::Of(1),
        &[1, 2, 0],
    )?;
    answer(
        alloc,
        "a ray for another group",
        &ahead,
        Asked::Entered(0),
        Groups::Of(2),
        &[],
    )
}

// A box of one unit, cast this far.
fn cast_by(by: i32) -> Asked {
    Asked::Cast {
        body: unit(0, 1),
        by,
    }
}

#[test]
fn a_cast_meets_boxes_by_entry(rt: HostRuntime) -> Result<(), Fail> {
    let alloc = rt.alloc();
    let ahead = [unit(10, 11), unit(5, 6)];
    answer(alloc, "a cast", &ahead, cast_by(20 * ONE), ALL, &[1, 0])?;
    answer(
        alloc,
        "a cast one raw unit short",
        &ahead,
        cast_by(262_143),
        ALL,
        &[],
    )?;
    answer(
        alloc,
        "a cast that touches at its end",
        &ahead,
        cast_by(4 * ONE),
        ALL,
        &[1],
    )
}

#[test]
fn a_cast_goes_to_the_end_of_space(rt: HostRuntime) -> Result<(), Fail> {
    let alloc = rt.alloc();
    let at_the_end = [flat([i32::MAX, 0, 0])];
    let out = Asked::Cast {
        body: flat([32_000 * ONE, 0, 0]),
        by: i32::MAX,
    };
    let away = Asked::Cast {
        body: flat([0, 0, 0]),
        by: LOW,
    };
    answer(alloc, "a cast out of space", &at_the_end, out, ALL, &[0])?;
    answer(alloc, "a cast away", &at_the_end, away, ALL, &[])
}

// The boxes that are nearest to the middle of the first of three, of which the two others are as far from it.
fn nearest(want: u32) -> Asked {
    Asked::Nearest {
        at: [HALF, HALF, HALF],
        want,
    }
}

#[test]
fn the_nearest_come_first(rt: HostRuntime) -> Result<(), Fail> {
    let alloc = rt.alloc();
    let crates = [unit(0, 1), unit(3, 4), unit(-3, -2)];
    answer(alloc, "the two nearest", &crates, nearest(2), ALL, &[0, 1])?;
    answer(
        alloc,
        "all, by how near they are",
        &crates,
        nearest(8192),
        ALL,
        &[0, 1, 2],
    )?;
    answer(
        alloc,
        "the nearest of another group",
        &crates,
        nearest(3),
        Groups::Of(2),
        &[],
    )
}

// The boxes that are nearest to the first of three, from a square on. The two others are two units from it.
fn nearest_box(from: u128, want: u32) -> Asked {
    Asked::NearestBox { a: 0, from, want }
}

#[test]
fn the_nearest_to_a_box_go_on_from_a_distance(rt: HostRuntime) -> Result<(), Fail> {
    let alloc = rt.alloc();
    let crates = [unit(0, 1), unit(3, 4), unit(-3, -2), unit(5, 6)];
    let two_units = 1 << 34;
    let first = nearest_box(0, 2);
    let as_far = nearest_box(two_units, 2);
    let farther = nearest_box(two_units + 1, 8192);
    answer(alloc, "the two nearest", &crates, first, ALL, &[0, 1])?;
    answer(alloc, "from a tie on", &crates, as_far, ALL, &[1, 2])?;
    answer(alloc, "behind a tie", &crates, farther, ALL, &[3])?;
    answer(
        alloc,
        "the nearest of another group",
        &crates,
        nearest_box(0, 3),
        Groups::Of(2),
        &[],
    )
}

// A box far from the lowest point beside one near by.
#[test]
fn a_square_of_more_than_64_bits_is_farther(rt: HostRuntime) -> Result<(), Fail> {
    let boxes = [
        flat([i32::MAX, LOW + 2 * ONE, LOW]),
        flat([LOW, LOW, LOW + 2 * ONE]),
    ];
    let lowest = Asked::Nearest {
        at: [LOW, LOW, LOW],
        want: 1,
    };
    answer(
        rt.alloc(),
        "a square of more than 64 bits",
        &boxes,
        lowest,
        ALL,
        &[1],
    )
}
