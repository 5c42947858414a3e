//! The live boxes of such a world that are nearest to a point or to a box.

ghost use Rattle.std.specs.Prelude.{◌≡◌, ◌++◌, false, min, OnOk, OnErr};
ghost use Rattle.fixed_box.specs.declared.TheConstants.{SLOTS};
ghost use Rattle.live_queries.specs.Queries.{nearest_to, nearest_to_box};
ghost use Rattle.any_world.specs.AnyWorld.{state_of};

use crate::AnyWorld;
use fixed_box::NoMemory;
use live_queries::{AskRoom, NearBoxQuery, NearQuery};
use live_table::Handle;

impl AnyWorld {
    /// Appends the handles of the live boxes that are nearest to a point, of the groups that the query asks for: at most as
    /// many as it wants and at most `SLOTS`, in rising order of the square of their distance and then of their slot. After an
    /// `Err` `out` is as before.
    pub fn nearest(
        &self,
        query: &NearQuery,
        room: &mut AskRoom,
        out: &mut Vec<Handle>,
    ) -> Result<(), NoMemory>
        ensures sound { OnOk result ((state_of self.now).spent ≡ false) }
        ensures ok { OnOk result (out.new.items ≡ out.old.items
            ++ nearest_to (state_of self.now).time.now.table.entries query.now.at (min query.now.want SLOTS) query.now.groups) }
        ensures err { OnErr result (out.new.items ≡ out.old.items) }
    {
        match self {
            AnyWorld::Plain(world) => world.nearest(query, room, out),
            AnyWorld::Sap(world) => world.nearest(query, room, out),
            AnyWorld::Tree(world) => world.nearest(query, room, out),
            AnyWorld::Grid(world) => world.nearest(query, room, out),
            AnyWorld::Skin(world) => world.nearest(query, room, out),
        }
    }

    /// The same for a box, of the live boxes whose squared distance from it is at least the query's `from`.
    pub fn nearest_box(
        &self,
        query: &NearBoxQuery,
        room: &mut AskRoom,
        out: &mut Vec<Handle>,
    ) -> Result<(), NoMemory>
        ensures sound { OnOk result ((state_of self.now).spent ≡ false) }
        ensures ok { let wanted = min query.now.want SLOTS in OnOk result (out.new.items ≡ out.old.items
            ++ nearest_to_box (state_of self.now).time.now.table.entries query.now.body query.now.from wanted query.now.groups) }
        ensures err { OnErr result (out.new.items ≡ out.old.items) }
    {
        match self {
            AnyWorld::Plain(world) => world.nearest_box(query, room, out),
            AnyWorld::Sap(world) => world.nearest_box(query, room, out),
            AnyWorld::Tree(world) => world.nearest_box(query, room, out),
            AnyWorld::Grid(world) => world.nearest_box(query, room, out),
            AnyWorld::Skin(world) => world.nearest_box(query, room, out),
        }
    }
}
