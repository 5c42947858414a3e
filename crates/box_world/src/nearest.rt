//! The live boxes of a world that are nearest to a point or to a box.

ghost use Rattle.std.specs.Prelude.{◌≡◌, ◌++◌, false, min, OnOk, OnErr};
ghost use Rattle.fixed_box.specs.declared.TheConstants.{SLOTS};
ghost use Rattle.live_queries.specs.Queries.{nearest_to, nearest_to_box};

use crate::BoxWorld;
use broad_index::BroadPhase;
use fixed_box::{NoMemory, SLOTS};
use live_queries::{AskRoom, NearBoxQuery, NearQuery, push_nearest, push_nearest_box};
use live_table::Handle;

impl<B: BroadPhase + Drop> BoxWorld<B> {
    /// Appends the handles of the live boxes that are nearest to a point, of the groups that the query asks for: at most as
    /// many as it wants and at most `SLOTS`, in rising order of the square of their distance and then of their slot. After an
    /// `Err` `out` is as before.
    pub fn nearest(
        &self,
        query: &NearQuery,
        room: &mut AskRoom,
        out: &mut Vec<Handle>,
    ) -> Result<(), NoMemory>
        ensures sound { OnOk result (self.now.spent ≡ false) }
        ensures ok { OnOk result (out.new.items ≡ out.old.items
            ++ nearest_to self.now.time.now.table.entries query.now.at (min query.now.want SLOTS) query.now.groups) }
        ensures err { OnErr result (out.new.items ≡ out.old.items) }
    {
        if self.spent {
            return Err(NoMemory);
        }
        if query.want == 0 {
            return Ok(());
        }
        let wanted = NearQuery {
            want: query.want.min(SLOTS),
            ..*query
        };
        push_nearest(
            &self.parts.table,
            &self.parts.index,
            &wanted,
            &mut room.nearest,
            out,
        )
    }

    /// The same for a box, of the live boxes whose squared distance from it is at least the query's `from`.
    pub fn nearest_box(
        &self,
        query: &NearBoxQuery,
        room: &mut AskRoom,
        out: &mut Vec<Handle>,
    ) -> Result<(), NoMemory>
        ensures sound { OnOk result (self.now.spent ≡ false) }
        ensures ok { let wanted = min query.now.want SLOTS in OnOk result (out.new.items ≡ out.old.items
            ++ nearest_to_box self.now.time.now.table.entries query.now.body query.now.from wanted query.now.groups) }
        ensures err { OnErr result (out.new.items ≡ out.old.items) }
    {
        if self.spent {
            return Err(NoMemory);
        }
        if query.want == 0 {
            return Ok(());
        }
        let wanted = NearBoxQuery {
            want: query.want.min(SLOTS),
            ..*query
        };
        push_nearest_box(
            &self.parts.table,
            &self.parts.index,
            &wanted,
            &mut room.nearest,
            out,
        )
    }
}
