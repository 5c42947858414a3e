//! Plain structs that C shares, and what each of them stands for.

ghost use Rattle.std.specs.Prelude.{◌≡◌, Some};
ghost use Rattle.held_world.specs.Plain.{point_in, body_in, masks_in, group_in, handle_in, query_in, structure_in};
ghost use Rattle.held_world.specs.Plain.{handle_out, point_out, box_out, live_out, pair_out, told_out, event_out, structure_out};

use crate::{BEGIN, GRID, OVER, PLAIN, POINT, RAY, REGION, SAP, SEGMENT, SKIN, STAY, TREE};
use broad_index::Query;
use fixed_box::{FBox, Point};
use live_table::{Group, Handle, Live, Masks};
use named_index::Structure;
use pair_events::{Event, HPair, Told};
use ray_slabs::{Ray, Seg, WPoint};

/// A point in raw units of 1/65,536.
#[repr(C)]
#[derive(Clone, Copy)]
pub struct PwPoint {
    pub x: i32,
    pub y: i32,
    pub z: i32,
}

/// A closed box between two corners. It is inverted, and no box, where `lo` is greater on some axis.
#[repr(C)]
#[derive(Clone, Copy)]
pub struct PwBox {
    pub lo: PwPoint,
    pub hi: PwPoint,
}

/// The groups that a box is in, and those that it sees.
#[repr(C)]
#[derive(Clone, Copy)]
pub struct PwMasks {
    pub is: u32,
    pub sees: u32,
}

/// Whose a box is, and whether it is fixed: any number but 0 says that it is.
#[repr(C)]
#[derive(Clone, Copy)]
pub struct PwGroup {
    pub owner: u32,
    pub fixed: u32,
}

/// What names a live box.
#[repr(C)]
#[derive(Clone, Copy)]
pub struct PwHandle {
    pub slot: u32,
    pub generation: u32,
}

/// A live box.
#[repr(C)]
#[derive(Clone, Copy)]
pub struct PwLive {
    pub body: PwBox,
    pub masks: PwMasks,
    pub group: PwGroup,
}

/// Two live boxes that may touch, `a`'s slot below `b`'s.
#[repr(C)]
#[derive(Clone, Copy)]
pub struct PwPair {
    pub a: PwHandle,
    pub b: PwHandle,
}

/// What became of a pair: `BEGIN`, `STAY` or `OVER`.
#[repr(C)]
#[derive(Clone, Copy)]
pub struct PwTold {
    pub event: u32,
    pub pair: PwPair,
}

/// The box that is met first on a way: at `num / den` of it, by the side `LOWER` or `UPPER` of the axis 0, 1 or 2, or with `NO_AXIS` if
/// the way begins in it and comes in by no side: one that begins on a side and goes in there has that side.
#[repr(C)]
#[derive(Clone, Copy)]
pub struct PwHit {
    pub handle: PwHandle,
    pub num: i64,
    pub den: i64,
    pub axis: u32,
    pub side: u32,
}

/// A question about the boxes of the groups that `mask` has, or with the mask 0 about all boxes, those of no group too. What `a` and
/// `b` are is told by its kind: `REGION`, `POINT`, `RAY` or `SEGMENT`.
#[repr(C)]
#[derive(Clone, Copy)]
pub struct PwQuery {
    pub kind: u32,
    pub mask: u32,
    pub a: PwPoint,
    pub b: PwPoint,
}

pub(crate) fn point_of(at: &PwPoint) -> Point
    ensures { result ≡ point_in at.now }
{
    Point {
        x: at.x,
        y: at.y,
        z: at.z,
    }
}

/// The box, and `None` exactly where it is inverted.
pub fn body_of(body: &PwBox) -> Option<FBox>
    ensures { result ≡ body_in body.now }
{
    FBox::new(point_of(&body.lo), point_of(&body.hi))
}

/// The same masks.
pub fn masks_of(masks: &PwMasks) -> Masks
    ensures { result ≡ masks_in masks.now }
{
    Masks {
        is: masks.is,
        sees: masks.sees,
    }
}

/// The same owner, and whether the box is fixed.
pub fn group_of(group: &PwGroup) -> Group
    ensures { result ≡ group_in group.now }
{
    Group {
        owner: group.owner,
        fixed: group.fixed != 0,
    }
}

/// The same handle.
pub fn handle_of(handle: &PwHandle) -> Handle
    ensures { result ≡ handle_in handle.now }
{
    Handle {
        slot: handle.slot,
        generation: handle.generation,
    }
}

/// The same handle for C, so that `handle_of` gives it back.
pub fn handle_out(handle: &Handle) -> PwHandle
    ensures out { result ≡ handle_out handle.now }
    ensures back { handle_in result ≡ handle.now }
{
    PwHandle {
        slot: handle.slot,
        generation: handle.generation,
    }
}

fn point_out(at: Point) -> PwPoint
    ensures { result ≡ point_out at }
{
    PwPoint {
        x: at.x,
        y: at.y,
        z: at.z,
    }
}

pub(crate) fn box_out(body: &FBox) -> PwBox
    ensures { result ≡ box_out body.now }
{
    PwBox {
        lo: point_out(body.lo()),
        hi: point_out(body.hi()),
    }
}

pub(crate) fn live_out(live: &Live) -> PwLive
    ensures { result ≡ live_out live.now }
{
    PwLive {
        body: box_out(&live.body),
        masks: PwMasks {
            is: live.masks.is,
            sees: live.masks.sees,
        },
        group: PwGroup {
            owner: live.group.owner,
            fixed: u32::from(live.group.fixed),
        },
    }
}

pub(crate) fn pair_out(pair: &HPair) -> PwPair
    ensures { result ≡ pair_out pair.now }
{
    PwPair {
        a: handle_out(&pair.a),
        b: handle_out(&pair.b),
    }
}

pub(crate) fn told_out(told: &Told) -> PwTold
    ensures { result ≡ told_out told.now }
{
    PwTold {
        event: event_out(told.event),
        pair: pair_out(&told.pair),
    }
}

fn event_out(event: Event) -> u32
    ensures { result ≡ event_out event }
{
    match event {
        Event::Begin => BEGIN,
        Event::Stay => STAY,
        Event::Over => OVER,
    }
}

/// The question, and `None` exactly where it is of another kind, or a region that is inverted.
pub fn query_of(query: &PwQuery) -> Option<Query>
    ensures { result ≡ query_in query.now }
{
    let a = point_of(&query.a);
    let b = point_of(&query.b);
    if query.kind == REGION {
        return FBox::new(a, b).map(Query::Region);
    }
    if query.kind == POINT {
        return Some(Query::Spot(a));
    }
    let from = WPoint::of(&a);
    let to = WPoint::of(&b);
    if query.kind == RAY {
        Some(Query::Along(Ray { from, dir: to }))
    } else if query.kind == SEGMENT {
        Some(Query::Between(Seg { a: from, b: to }))
    } else {
        None
    }
}

/// The structure of this number, and `None` exactly where none has it.
pub fn structure_of(number: u32) -> Option<Structure>
    ensures { result ≡ structure_in number }
{
    if number == PLAIN {
        Some(Structure::Plain)
    } else if number == SAP {
        Some(Structure::Sap)
    } else if number == TREE {
        Some(Structure::Tree)
    } else if number == GRID {
        Some(Structure::Grid)
    } else if number == SKIN {
        Some(Structure::Skin)
    } else {
        None
    }
}

/// The number of a structure, so that `structure_of` gives it back.
pub(crate) fn structure_out(structure: Structure) -> u32
    ensures out { result ≡ structure_out structure }
    ensures back { structure_in result ≡ Some structure }
{
    match structure {
        Structure::Plain => PLAIN,
        Structure::Sap => SAP,
        Structure::Tree => TREE,
        Structure::Grid => GRID,
        Structure::Skin => SKIN,
    }
}
