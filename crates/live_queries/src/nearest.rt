//! The live boxes nearest to a point or to a box, among those of some groups.

ghost use Rattle.std.specs.Prelude.{◌≡◌, ◌≤◌, ◌++◌, ◌&&◌, false, OnOk, OnErr};
ghost use Rattle.std.specs.FinMap.{get};
ghost use Rattle.fixed_box.specs.declared.TheConstants.{SLOTS};
ghost use Rattle.live_table.specs.Bodies.{bodies_of};
ghost use Rattle.live_table.specs.Table.{IsTable};
ghost use Rattle.near_boxes.specs.Bodies.{AreInSpace};
ghost use Rattle.live_queries.specs.Pairs.{is_asked_for};
ghost use Rattle.live_queries.specs.Queries.{is_from, asked_from, nearest_to, nearest_to_box};

use crate::ask_room::NearestRoom;
use crate::groups::Groups;
use crate::handles::push_handles;
use crate::hits::is_asked_for;
use broad_index::BroadPhase;
use fixed_box::{FBox, NoMemory, Point};
use live_table::{Handle, Live, LiveTable};
use near_boxes::{Bodies, nearest, spot, square_apart};

/// A question for the boxes that are nearest to a point: at most `want` of them, of the groups that are asked for.
#[derive(Clone, Copy, Debug, PartialEq, Eq)]
pub struct NearQuery {
    pub at: Point,
    pub want: u32,
    pub groups: Groups,
}

/// A question for the boxes that are nearest to a box, of those that lie at least some distance off: at most `want` of them, of the groups
/// that are asked for. `from` is the square of that distance, in raw units squared, and with 0 none is too near. To go on after an
/// answer, ask from the square of its last box on: boxes as near as that are told again.
#[derive(Clone, Copy, Debug, PartialEq, Eq)]
pub struct NearBoxQuery {
    pub body: FBox,
    pub from: u128,
    pub want: u32,
    pub groups: Groups,
}

// The live boxes of some groups that lie far enough off, as the search for the nearest sees them: no other box is counted.
#[derive(Clone, Copy, Drop)]
struct AskedFrom<'a> {
    table: &'a LiveTable,
    query: &'a NearBoxQuery,
}

impl Bodies for AskedFrom<'_> {
    ghost bodies = { λ asked. let query = asked.query.now in
        bodies_of (asked_from asked.table.now.entries query.body query.from query.groups) };

    fn body(&self, slot: u32) -> Option<FBox> {
        body_at(self.table, self.query, slot)
    }
}

// The box of a slot, where it is of the groups that are asked for, and far enough off.
fn body_at(table: &LiveTable, query: &NearBoxQuery, slot: u32) -> Option<FBox>
    ensures body { result ≡ get (bodies_of (asked_from table.now.entries query.now.body query.now.from query.now.groups)) slot }
    ensures in_space { AreInSpace (bodies_of (asked_from table.now.entries query.now.body query.now.from query.now.groups)) }
{
    match table.at(slot) {
        Some(live) => {
            if is_asked_from(query, &live) {
                Some(live.body)
            } else {
                None
            }
        }
        None => None,
    }
}

// Whether a box is of the groups that are asked for, and far enough off. From 0 on its distance needn't be known.
fn is_asked_from(query: &NearBoxQuery, live: &Live) -> bool
    ensures { result ≡ (is_asked_for query.now.groups live.now && is_from query.now.body query.now.from live.now) }
{
    is_asked_for(query.groups, live) && is_from(query, live)
}

fn is_from(query: &NearBoxQuery, live: &Live) -> bool
    ensures { result ≡ is_from query.now.body query.now.from live.now }
{
    query.from == 0 || query.from <= square_apart(&query.body, &live.body)
}

/// Appends the handles of the live boxes that are nearest to a point, of the groups that the query asks for, at most as
/// many as it wants: in rising order of the square of their distance and then of their slot. The index has the live boxes.
/// After an `Err` `out` is as before.
///
/// It asks the index as `nearest` of `near_boxes` does, and takes memory as that does. What is in `room` doesn't matter.
pub fn push_nearest<B: BroadPhase>(
    table: &LiveTable,
    index: &B,
    query: &NearQuery,
    room: &mut NearestRoom,
    out: &mut Vec<Handle>,
) -> Result<(), NoMemory>
    requires table { IsTable table.now }
    requires sound { B.spent index.now ≡ false }
    requires bodies { B.bodies index.now ≡ bodies_of table.now.entries }
    requires want { (1 ≤ query.now.want) × (query.now.want ≤ SLOTS) }
    ensures ok { OnOk result (out.new.items ≡ out.old.items ++ nearest_to table.now.entries query.now.at query.now.want query.now.groups) }
    ensures err { OnErr result (out.new.items ≡ out.old.items) }
{
    let about = NearBoxQuery {
        body: spot(&query.at),
        from: 0,
        want: query.want,
        groups: query.groups,
    };
    push_nearest_box(table, index, &about, room, out)
}

/// The same for a box, of the live boxes whose squared distance from it is at least the query's `from`. It tests that of
/// each box that the search comes to, so that with many nearer boxes it takes as long as a question for those as well.
pub fn push_nearest_box<B: BroadPhase>(
    table: &LiveTable,
    index: &B,
    query: &NearBoxQuery,
    room: &mut NearestRoom,
    out: &mut Vec<Handle>,
) -> Result<(), NoMemory>
    requires table { IsTable table.now }
    requires sound { B.spent index.now ≡ false }
    requires bodies { B.bodies index.now ≡ bodies_of table.now.entries }
    requires want { (1 ≤ query.now.want) × (query.now.want ≤ SLOTS) }
    ensures ok { OnOk result (out.new.items ≡ out.old.items
        ++ nearest_to_box table.now.entries query.now.body query.now.from query.now.want query.now.groups) }
    ensures err { OnErr result (out.new.items ≡ out.old.items) }
{
    let asked = AskedFrom { table, query };
    let (near, nears) = (&mut room.near, &mut room.nears);
    nears.clear();
    nearest(near, index, &asked, &query.body, query.want, nears)?;
    push_handles(table, nears, out)
}
