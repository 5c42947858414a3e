//! A few frames and ticks of bodies, over the plain list and over the tree.

ghost use Rattle.std.specs.Prelude.{◌≡◌, ◌<◌, false, OnOk};

use super::*;
use box_tree::BoxTree;
use broad_index::{BroadPhase, Pair, PlainIndex, Query};
use fixed_box::{FBox, NoMemory, Point, SLOTS};
use std::alloc::Global;
use std::process::Abort;
use std::test::Fail;

// Two crates, a car, its wheel, and a ghost that sees the crates and is in a group that nobody sees.
fn kinds() -> [Kind; 5] {
    [kind(0, 1), kind(0, 1), kind(7, 1), kind(7, 1), kind(0, 2)]
}

fn kind(owner: u32, groups: u32) -> Kind {
    Kind {
        owner,
        groups,
        sees: 1,
    }
}

// A box on the x axis.
fn body(lo: i32, hi: i32) -> Option<FBox> {
    FBox::new(Point { x: lo, y: 0, z: 0 }, Point { x: hi, y: 0, z: 0 })
}

fn pair(a: u32, b: u32) -> Pair {
    Pair { a, b }
}

// A body comes in, if its slot has none.
fn enter<B: BroadPhase + Drop>(
    world: &mut World<B>,
    slot: u32,
    lo: i32,
    hi: i32,
) -> Result<(), Fail>
    requires sound { B.spent world.old.index ≡ false }
    requires small { slot < SLOTS }
    ensures { OnOk result (B.spent world.new.index ≡ false) }
{
    let body = body(lo, hi).ok_or("a box")?;
    if world.box_of(slot).is_none() {
        world.enter(slot, body)?;
    }
    Ok(())
}

// A body goes out, if its slot has one.
fn leave<B: BroadPhase + Drop>(world: &mut World<B>, slot: u32)
    requires sound { B.spent world.old.index ≡ false }
    requires small { slot < SLOTS }
    ensures { B.spent world.new.index ≡ false }
{
    if world.box_of(slot).is_some() {
        world.leave(slot);
    }
}

// A frame in which one body moves, if its slot has one.
fn frame<B: BroadPhase + Drop>(
    world: &mut World<B>,
    contacts: &mut Contacts,
    slot: u32,
    lo: i32,
    hi: i32,
) -> Result<(), Fail>
    requires sound { B.spent world.old.index ≡ false }
    requires small { slot < SLOTS }
    ensures { OnOk result (B.spent world.new.index ≡ false) }
{
    let body = body(lo, hi).ok_or("a box")?;
    if world.box_of(slot).is_some() {
        world.frame(&[(slot, body)], &kinds(), contacts)?;
    }
    Ok(())
}

// A frame in which nothing moves.
fn still<B: BroadPhase + Drop>(
    world: &mut World<B>,
    contacts: &mut Contacts,
) -> Result<(), NoMemory>
    requires { B.spent world.old.index ≡ false }
    ensures { OnOk result (B.spent world.new.index ≡ false) }
{
    world.frame(&[], &kinds(), contacts)
}

fn same_pairs(rt: &impl Abort, what: &str, pairs: &[Pair], wanted: &[Pair]) {
    assert_eq!(rt; pairs, wanted, "{what}");
}

// What a frame told.
fn same_contacts(
    rt: &impl Abort,
    contacts: &Contacts,
    now: &[Pair],
    began: &[Pair],
    over: &[Pair],
) {
    same_pairs(rt, "now", &contacts.now, now);
    same_pairs(rt, "began", &contacts.began, began);
    same_pairs(rt, "over", &contacts.over, over);
}

// The crates meet each other and the ghost, and the car its wheel.
fn set_out<B: BroadPhase + Drop>(world: &mut World<B>) -> Result<(), Fail>
    requires { B.spent world.old.index ≡ false }
    ensures { OnOk result (B.spent world.new.index ≡ false) }
{
    enter(world, 0, 0, 2)?;
    enter(world, 1, 1, 3)?;
    enter(world, 2, 10, 12)?;
    enter(world, 3, 11, 13)?;
    enter(world, 4, 0, 2)
}

// The crates begin to collide, the car comes to both of them, nothing moves, and a crate is taken away.
fn play_frames<B: BroadPhase + Drop>(
    rt: &impl Abort,
    world: &mut World<B>,
    contacts: &mut Contacts,
) -> Result<(), Fail>
    requires { B.spent world.old.index ≡ false }
    ensures { OnOk result (B.spent world.new.index ≡ false) }
{
    still(world, contacts)?;
    same_contacts(rt, contacts, &[pair(0, 1)], &[pair(0, 1)], &[]);
    frame(world, contacts, 2, 2, 4)?;
    let three = [pair(0, 1), pair(0, 2), pair(1, 2)];
    same_contacts(rt, contacts, &three, &[pair(0, 2), pair(1, 2)], &[]);
    still(world, contacts)?;
    same_contacts(rt, contacts, &three, &[], &[]);
    leave(world, 1);
    still(world, contacts)?;
    same_contacts(rt, contacts, &[pair(0, 2)], &[], &[pair(0, 1), pair(1, 2)]);
    Ok(())
}

// The wheel comes to the car, and a tick tells all that touch, whatever their kinds.
fn tick<B: BroadPhase + Drop>(world: &mut World<B>, touching: &mut Vec<Pair>) -> Result<(), Fail>
    requires { B.spent world.old.index ≡ false }
    ensures { OnOk result (B.spent world.new.index ≡ false) }
{
    let body = body(3, 5).ok_or("a box")?;
    if world.box_of(3).is_some() {
        world.tick(&[(3, body)], touching)?;
    }
    Ok(())
}

fn play_ticks<B: BroadPhase + Drop>(
    rt: &impl Abort,
    alloc: Global,
    world: &mut World<B>,
) -> Result<(), Fail>
    requires { B.spent world.old.index ≡ false }
{
    let mut touching = Vec::new(alloc);
    let mut met = Vec::new(alloc);
    tick(world, &mut touching)?;
    let wanted = [pair(0, 2), pair(0, 4), pair(2, 3), pair(2, 4)];
    same_pairs(rt, "touching", &touching, &wanted);
    let start = body(0, 0).ok_or("a box")?;
    world.hits(&Query::Region(start), &mut met)?;
    assert_eq!(rt; met.as_slice(), [0, 4].as_slice());
    assert_eq!(rt; world.box_of(3), body(3, 5));
    Ok(())
}

fn play<B: BroadPhase + Drop>(
    rt: &impl Abort,
    alloc: Global,
    world: &mut World<B>,
) -> Result<(), Fail>
    requires { B.spent world.old.index ≡ false }
{
    let mut contacts = Contacts::new(alloc);
    set_out(world)?;
    play_frames(rt, world, &mut contacts)?;
    play_ticks(rt, alloc, world)
}

// A test owns its world, and what is done with it stands in functions that borrow it: where a function may return, its
// proof drops each field of each value that it owns.
#[test]
fn bodies_begin_stay_and_end_to_collide_over_the_plain_list(rt: HostRuntime) -> Result<(), Fail> {
    let mut world = World::new(PlainIndex::new(rt.alloc())?);
    let done = play(&rt, rt.alloc(), &mut world);
    drop(world);
    done
}

#[test]
fn bodies_begin_stay_and_end_to_collide_over_the_tree(rt: HostRuntime) -> Result<(), Fail> {
    let mut world = World::new(BoxTree::new(rt.alloc())?);
    let done = play(&rt, rt.alloc(), &mut world);
    drop(world);
    done
}
