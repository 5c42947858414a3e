//! Worlds that are changed, marked and gone back to, with memory enough.

use any_world::{AnyWorld, Structure};
use box_world::{BoxWorld, Refusal};
use broad_index::{BroadPhase, NoGate, PlainIndex, Query};
use fixed_box::{FBox, Point, SLOTS};
use live_queries::{AskRoom, Groups};
use live_table::{Group, Handle, Masks};
use pair_events::{Event, Events, HPair};
use std::alloc::Global;
use std::mem;
use std::test::Fail;
use std::thread::Threads;
use sweep_prune::Sap;

// Raw units.
const ONE: i32 = 65_536;

pub(crate) const SEEN: Masks = Masks {
    is: 1,
    sees: u32::MAX,
};

pub(crate) const NOBODYS: Group = Group {
    owner: 0,
    fixed: false,
};

// A box of one unit, whose low corner is at whole units.
pub(crate) fn unit(x: i32, yz: i32) -> Result<FBox, Fail> {
    if x.unsigned_abs() > 100 || yz.unsigned_abs() > 100 {
        return Err("whole units near the origin".into());
    }
    let lo = Point {
        x: x * ONE,
        y: yz * ONE,
        z: yz * ONE,
    };
    let hi = Point {
        x: lo.x + ONE,
        y: lo.y + ONE,
        z: lo.z + ONE,
    };
    Ok(FBox::new(lo, hi).ok_or("a box")?)
}

// Whether one event is told, of the first two slots.
fn is_told(events: Events<'_>, event: Event) -> bool {
    let mut rest = events;
    let Some(told) = rest.next() else {
        return false;
    };
    let first_two = told.pair.a.slot == 0 && told.pair.b.slot == 1;
    told.event == event && first_two && rest.next().is_none()
}

// Ends a frame, and answers whether it is the one of this number, with so many exchanges before it, so many pairs, and this
// event.
fn ends_frame<B: BroadPhase + Drop>(
    world: &mut BoxWorld<B>,
    frames: u64,
    exchanges: u64,
    pairs: u32,
    event: Event,
) -> Result<bool, Fail> {
    let counted = world.exchanges();
    let found = world.update()?;
    let told = is_told(world.events(), event);
    Ok(counted == exchanges && found == pairs && world.frames() == frames && told)
}

// A pair, a mark, one box goes and another comes, a frame, back, a frame, and no mark is left.
fn is_there_and_back<B: BroadPhase + Drop>(
    world: &mut BoxWorld<B>,
    exchanges: u64,
) -> Result<bool, Fail> {
    let first = world.add(unit(0, 0)?, SEEN, NOBODYS)?;
    world.add(unit(1, 0)?, SEEN, NOBODYS)?;
    let began = ends_frame(world, 1, exchanges, 1, Event::Begin)?;
    let marked = world.mark()?;
    world.remove(first)?;
    let again = world.add(unit(5, 5)?, SEEN, NOBODYS)?;
    let over = ends_frame(world, 2, 0, 0, Event::Over)?;
    let went = world.back()?;
    let stayed = ends_frame(world, 2, 0, 1, Event::Stay)?;
    let left = world.back()?;
    let numbered = again.slot == 0 && again.generation == 1;
    Ok(began && marked && numbered && over && went && stayed && !left)
}

#[test]
fn a_world_is_there_and_back(rt: HostRuntime) -> Result<(), Fail> {
    let mut world = BoxWorld::new(rt.alloc(), PlainIndex::new(rt.alloc())?)?;
    assert!(rt; is_there_and_back(&mut world, 0)?);
    Ok(())
}

#[test]
fn a_world_with_exchanges_is_there_and_back(rt: HostRuntime) -> Result<(), Fail> {
    let mut world = BoxWorld::new(rt.alloc(), Sap::new(rt.alloc())?)?;
    assert!(rt; is_there_and_back(&mut world, 3)?);
    Ok(())
}

// Whether a handle is refused once its box has gone.
fn is_stale(world: &mut BoxWorld<PlainIndex>, body: FBox) -> Result<bool, Fail> {
    let gone = world.add(body, SEEN, NOBODYS)?;
    world.remove(gone)?;
    let stale = Err(Refusal::Stale);
    Ok(
        world.shift(gone, body) == stale
            && world.mask(gone, SEEN) == stale
            && world.remove(gone) == stale,
    )
}

// Fills a world with boxes at one place, and answers whether one more is refused.
fn is_full(world: &mut BoxWorld<PlainIndex>, body: FBox) -> Result<bool, Fail> {
    for _ in 0..SLOTS {
        world.add(body, SEEN, NOBODYS)?;
    }
    Ok(world.len() == SLOTS && world.add(body, SEEN, NOBODYS) == Err(Refusal::Full))
}

// Marks a world as often as may be, and answers whether one more mark is refused.
fn is_marked_out(world: &mut BoxWorld<PlainIndex>) -> Result<bool, Fail> {
    for _ in 0..64 {
        if !world.mark()? {
            return Ok(false);
        }
    }
    Ok(!world.mark()? && world.held() == 64)
}

// Whether a stale handle, one more box than may live and one more mark than may be held are refused.
fn refuses(world: &mut BoxWorld<PlainIndex>) -> Result<bool, Fail> {
    let body = unit(0, 0)?;
    Ok(is_stale(world, body)? && is_full(world, body)? && is_marked_out(world)?)
}

#[test]
fn stale_handles_more_boxes_and_more_marks_are_refused(rt: HostRuntime) -> Result<(), Fail> {
    let mut world = BoxWorld::new(rt.alloc(), PlainIndex::new(rt.alloc())?)?;
    assert!(rt; refuses(&mut world)?);
    Ok(())
}

// Ends a frame with too few workers, and one with too many behind a change.
fn ends_frames<R: Threads + Sync>(rt: &R, world: &mut BoxWorld<PlainIndex>) -> Result<bool, Fail> {
    let few = world.end_frame(rt, 0, &NoGate);
    world.add(unit(0, 0)?, SEEN, NOBODYS)?;
    let many = world.end_frame(rt, 99, &NoGate);
    Ok(few == Ok(0) && many == Ok(0))
}

// A number of workers out of range counts as the nearest in it.
#[test]
fn a_frame_is_searched_by_any_number_of_workers(rt: HostRuntime) -> Result<(), Fail> {
    let mut world = BoxWorld::new(rt.alloc(), PlainIndex::new(rt.alloc())?)?;
    assert!(rt; ends_frames(&rt, &mut world)?);
    Ok(())
}

// The boxes of a scene: two that touch, and one apart.
#[derive(Clone, Copy)]
struct Boxes {
    first: Handle,
    second: Handle,
    third: Handle,
}

fn place(world: &mut AnyWorld) -> Result<Boxes, Fail> {
    let first = world.add(unit(0, 0)?, SEEN, NOBODYS)?;
    let second = world.add(unit(1, 0)?, SEEN, NOBODYS)?;
    let third = world.add(unit(5, 5)?, SEEN, NOBODYS)?;
    Ok(Boxes {
        first,
        second,
        third,
    })
}

// The two are a pair, and the third moves to them.
fn joins(alloc: Global, world: &mut AnyWorld, third: Handle) -> Result<bool, Fail> {
    let before = are_pairs_now(alloc, world, 1, 0)?;
    let began = world.update()?;
    let ended = are_pairs_now(alloc, world, 1, 1)?;
    world.shift(third, unit(2, 0)?)?;
    let moved = are_pairs_now(alloc, world, 2, 1)?;
    let joined = world.update()?;
    Ok(before && began == 1 && ended && moved && joined == 2)
}

// A mark, one box sees nobody and another goes, and no pair is left.
fn parts(world: &mut AnyWorld, boxes: Boxes) -> Result<bool, Fail> {
    let marked = world.mark()?;
    world.mask(boxes.second, Masks { is: 1, sees: 0 })?;
    world.remove(boxes.first)?;
    let parted = world.update()?;
    Ok(marked && parted == 0)
}

// Whether the pairs of now are those of the frame that comes, and the last ones stay until then.
fn are_pairs_now(
    alloc: Global,
    world: &mut AnyWorld,
    now: usize,
    last: usize,
) -> Result<bool, Fail> {
    let mut pairs = Vec::new(alloc);
    world.current_pairs(&mut pairs)?;
    Ok(pairs.len() == now && world.pairs().len() == last && are_ordered(&pairs))
}

// Whether each pair has its lower slot first.
fn are_ordered(pairs: &[HPair]) -> bool {
    pairs.iter().all(|pair| pair.a.slot < pair.b.slot)
}

// Whether the first two boxes are those that meet the place of the first one.
fn are_found(alloc: Global, world: &AnyWorld, boxes: Boxes) -> Result<bool, Fail> {
    let mut met = Vec::new(alloc);
    let mut room = AskRoom::new(alloc);
    let about = Query::Region(unit(0, 0)?);
    world.hits(&about, Groups::Of(1), &mut room, &mut met)?;
    Ok(met.len() == 2 && met[0] == boxes.first && met[1] == boxes.second)
}

// Two boxes that touch and one apart, which moves to them; a mark, two of them go or see nobody, a frame, and back. Answers
// whether each call came to what it should.
fn plays_a_scene(alloc: Global, world: &mut AnyWorld, structure: Structure) -> Result<bool, Fail> {
    let boxes = place(world)?;
    let exchanges = if structure == Structure::Sap { 3 } else { 0 };
    let counted = world.exchanges() == exchanges;
    let changed = joins(alloc, world, boxes.third)? && parts(world, boxes)? && world.back()?;
    let found = are_found(alloc, world, boxes)?;
    Ok(counted && changed && found && is_as_marked(world) && world.structure() == structure)
}

// Whether the pairs, boxes and frames are those of the mark.
fn is_as_marked(world: &AnyWorld) -> bool {
    world.pairs().len() == 2 && world.len() == 3 && world.frames() == 2
}

// The scene over a structure. The world isn't let go: that would be proved anew for each structure that it may be over, which takes
// minutes, and the test ends.
fn plays_over(alloc: Global, structure: Structure) -> Result<bool, Fail> {
    let mut world = AnyWorld::new(alloc, structure)?;
    let played = plays_a_scene(alloc, &mut world, structure);
    mem::forget(world);
    played
}

#[test]
fn each_structure_plays_a_scene_alike(rt: HostRuntime) -> Result<(), Fail> {
    assert!(rt; plays_over(rt.alloc(), Structure::Plain)?);
    assert!(rt; plays_over(rt.alloc(), Structure::Sap)?);
    assert!(rt; plays_over(rt.alloc(), Structure::Tree)?);
    assert!(rt; plays_over(rt.alloc(), Structure::Grid)?);
    assert!(rt; plays_over(rt.alloc(), Structure::Skin)?);
    Ok(())
}
