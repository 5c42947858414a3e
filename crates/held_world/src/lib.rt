//! A world of live boxes as a caller in C holds it: its boxes, handles and questions as plain structs, its calls with many of
//! them at once, and what they came to as numbers.
#![tactic(auto)]

mod answers;
mod asking;
mod changing;
mod copying;
mod firsts;
mod floats;
mod held;
mod many;
mod meetings;
mod plain;
mod questions;
mod reading;
mod room;
mod squares;

pub use answers::{Reply, number_law, status};
pub use floats::{PwBits32, PwBits64, box_around_32, box_around_64, fault_of};
pub use held::HeldWorld;
pub use plain::{
    PwBox, PwGroup, PwHandle, PwHit, PwLive, PwMasks, PwPair, PwPoint, PwQuery, PwTold, body_of,
    group_of, handle_of, handle_out, masks_of, query_of, structure_of,
};
pub use questions::{PwCast, PwNear, PwNearBox, PwRay};
pub use reading::{PwCounts, PwInfo};
pub use room::HeldRoom;
pub use squares::PwSquare;

/// The call did what it is for.
pub const OK: u32 = 0;

/// No live box has the handle.
pub const STALE: u32 = 1;

/// All slots are taken, or all marks are held.
pub const FULL: u32 = 2;

/// Memory ran out. The world is as before, or it is spent: it has what it had, and answers nothing else from then on.
pub const NO_MEMORY: u32 = 3;

/// A box's lower corner isn't at most its upper one.
pub const INVERTED: u32 = 4;

/// The world isn't open.
pub const CLOSED: u32 = 5;

/// A number names nothing, or there is too little room for the answers.
pub const ARGUMENT: u32 = 6;

/// A number of the world is at its end.
pub const EXHAUSTED: u32 = 7;

/// No mark is held to go back to.
pub const NO_MARK: u32 = 8;

/// A float is a NaN.
pub const NOT_A_NUMBER: u32 = 9;

/// A float is an infinity, or its raw number doesn't fit 32 bits.
pub const OUT_OF_RANGE: u32 = 10;

/// A list that tests all pairs.
pub const PLAIN: u32 = 0;

/// Sweep and prune.
pub const SAP: u32 = 1;

/// The tree of fat boxes.
pub const TREE: u32 = 2;

/// The hashed grid.
pub const GRID: u32 = 3;

/// Boxes in skins over the tree.
pub const SKIN: u32 = 4;

/// A pair began.
pub const BEGIN: u32 = 0;

/// A pair stayed.
pub const STAY: u32 = 1;

/// A pair is over.
pub const OVER: u32 = 2;

/// The side of a box at its lower corner, along an axis.
pub const LOWER: u32 = 0;

/// The side at its upper corner.
pub const UPPER: u32 = 1;

/// The axis of a first hit whose way begins in the box and comes in by no side. The axes are 0, 1 and 2.
pub const NO_AXIS: u32 = 3;

/// Which boxes meet the one from `a` to `b`.
pub const REGION: u32 = 0;

/// Which boxes hold the point `a`.
pub const POINT: u32 = 1;

/// Which boxes the ray from `a` with the direction `b` meets.
pub const RAY: u32 = 2;

/// Which boxes the segment from `a` to `b` meets.
pub const SEGMENT: u32 = 3;
