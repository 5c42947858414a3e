//! What a world tells of itself, and the queries among its live boxes.

ghost use Rattle.std.specs.Prelude.{◌≡◌, ◌≤◌, ◌++◌, true, false, length, None, IfOk, OnOk, OnErr};
ghost use Rattle.fixed_box.specs.declared.TheConstants.{SLOTS};
ghost use Rattle.live_table.specs.Bodies.{bodies_of};
ghost use Rattle.live_table.specs.Entries.{entry_at, live_at};
ghost use Rattle.live_table.specs.Table.{IsTable};
ghost use Rattle.live_queries.specs.First.{IsFirstEntered, IsFirstTouched, HasFirst};
ghost use Rattle.live_queries.specs.Pairs.{hits_of};
ghost use Rattle.live_queries.specs.Queries.{entered_of, cast_of};
ghost use Rattle.box_world.specs.World.{pairs};

use crate::BoxWorld;
use crate::since::Since;
use box_cast::Cast;
use broad_index::{BroadPhase, Query};
use fixed_box::NoMemory;
use live_queries::{
    AskRoom, FirstHit, Groups, first_cast, first_entered, push_cast, push_entered, push_hits,
    push_pairs,
};
use live_table::{Handle, Live, LiveTable};
use pair_events::{Events, HPair};
use ray_slabs::Ray;

impl<B: BroadPhase + Drop> BoxWorld<B> {
    /// The live box with the handle, and `None` where no live box has it. It is one look-up.
    pub fn get(&self, handle: Handle) -> Option<Live>
        ensures { result ≡ entry_at handle self.now.time.now.table.entries }
    {
        self.parts.table.find(handle).ok()
    }

    /// The live box in a slot, and `None` where no live box has it: a loop over the slots below `SLOTS` reads all live boxes. It is one
    /// look-up, and answers in a spent world too.
    pub fn at(&self, slot: u32) -> Option<Live>
        ensures at { result ≡ live_at slot self.now.time.now.table.entries }
        ensures past { SLOTS ≤ slot → result ≡ None }
    {
        self.parts.table.at(slot)
    }

    /// The number of live boxes.
    pub fn len(&self) -> u32
        ensures { result ≡ length self.now.time.now.table.entries }
    {
        self.parts.table.len()
    }

    /// The number of frames that have ended. A way back lowers it to what it was at the mark.
    pub fn frames(&self) -> u64
        ensures { result ≡ self.now.time.now.frames }
    {
        self.parts.frames
    }

    /// The exchanges of endpoints since the last frame, and 0 where the index doesn't count them and in a spent world.
    pub fn exchanges(&self) -> u64
        ensures sound { self.now.spent ≡ false → result ≡ self.now.time.now.exchanges }
        ensures spent { self.now.spent ≡ true → result ≡ 0 }
    {
        if self.spent {
            return 0;
        }
        self.parts.exchanges()
    }

    /// The number of marks that are held.
    #[tactic(auto, using(crate::proofs::Marked::marks_as_worlds))]
    pub fn held(&self) -> u32
        ensures { result ≡ length self.now.time.marks }
    {
        self.parts.marks.held()
    }

    /// What was told of the last frame that ended: each pair of it, as it began or stayed, and then each pair that was over. The events
    /// are made while they are read, of the pairs of that frame and of `began` and `over`.
    pub fn events(&self) -> Events<'_>
        ensures { result ≡ self.now.told }
    {
        let pairs = match &self.parts.shown {
            Some(shown) => shown.last(),
            None => self.parts.pair_table.last(),
        };
        Events::of(pairs, &self.parts.began, &self.parts.over)
    }

    /// The pairs that began in the last frame that ended, by the slots of their boxes.
    pub fn began(&self) -> &[HPair]
        ensures { result.now ≡ self.now.began }
    {
        &self.parts.began
    }

    /// The pairs of the frame before it that were over then, by the slots of their boxes.
    pub fn over(&self) -> &[HPair]
        ensures { result.now ≡ self.now.over }
    {
        &self.parts.over
    }

    /// The pairs of the last frame, by the slots of their boxes then. After a way back they are those of the last frame before
    /// the mark.
    pub fn pairs(&self) -> &[HPair]
        ensures { result.now ≡ self.now.time.now.last }
    {
        self.parts.pair_table.last()
    }

    /// The index, for queries that the caller asks it, several threads among them. While the world isn't spent it has the live
    /// boxes.
    pub fn index(&self) -> &B
        ensures sound { self.now.spent ≡ false → B.spent result.now ≡ false }
        ensures boxes { self.now.spent ≡ false → B.bodies result.now ≡ bodies_of self.now.time.now.table.entries }
    {
        &self.parts.index
    }

    /// The table of live boxes, beside `index`.
    pub fn table(&self) -> &LiveTable
        ensures same { result.now ≡ self.now.time.now.table }
        ensures table { IsTable result.now }
    {
        let _live = self.parts.table.len();
        &self.parts.table
    }

    /// Appends the pairs that the frame would have if it ended now, in the order of pairs. The frame goes on, and nothing else changes:
    /// what was told stays, and so do the last pairs. After an `Err` `out` is as before. It searches as `update` does, and where nothing
    /// changed since the last frame it copies that one's pairs.
    pub fn current_pairs(&mut self, out: &mut Vec<HPair>) -> Result<(), NoMemory>
        ensures sound { OnOk result (self.old.spent ≡ false) }
        ensures ok { OnOk result (out.new.items ≡ out.old.items ++ pairs self.old.time.now) }
        ensures err { OnErr result (out.new.items ≡ out.old.items) }
        ensures same { self.new ≡ self.old }
    {
        if self.spent {
            return Err(NoMemory);
        }
        match self.parts.since {
            Since::Same => Ok(out.extend_from_slice(self.parts.pair_table.last())?),
            _ => {
                self.parts.pairs.clear();
                self.parts.index.pairs(&mut self.parts.pairs)?;
                push_pairs(&self.parts.table, &self.parts.pairs, out)
            }
        }
    }

    /// Appends the handles of the live boxes that meet a query, of the groups that are asked for, by their slots.
    /// After an `Err` `out` is as before. A spent world answers want of memory, here and in the queries below. They change nothing, so
    /// that several threads may ask one world at once, each with room of its own.
    pub fn hits(
        &self,
        query: &Query,
        groups: Groups,
        room: &mut AskRoom,
        out: &mut Vec<Handle>,
    ) -> Result<(), NoMemory>
        ensures sound { OnOk result (self.now.spent ≡ false) }
        ensures ok { OnOk result (out.new.items ≡ out.old.items ++ hits_of self.now.time.now.table.entries query.now groups) }
        ensures err { OnErr result (out.new.items ≡ out.old.items) }
    {
        if self.spent {
            return Err(NoMemory);
        }
        room.slots.clear();
        self.parts.index.hits(query, &mut room.slots)?;
        push_hits(&self.parts.table, query, groups, &room.slots, out)
    }

    /// Appends the handles of the live boxes that a ray meets, of the groups that are asked for, in the order in which it first
    /// meets them; those that it meets at one place come by their slots. After an `Err` `out` is as before.
    pub fn entered(
        &self,
        ray: &Ray,
        groups: Groups,
        room: &mut AskRoom,
        out: &mut Vec<Handle>,
    ) -> Result<(), NoMemory>
        ensures sound { OnOk result (self.now.spent ≡ false) }
        ensures ok { OnOk result (out.new.items ≡ out.old.items ++ entered_of self.now.time.now.table.entries ray.now groups) }
        ensures err { OnErr result (out.new.items ≡ out.old.items) }
    {
        if self.spent {
            return Err(NoMemory);
        }
        room.slots.clear();
        let along = Query::Along(*ray);
        self.parts.index.hits(&along, &mut room.slots)?;
        push_entered(
            &self.parts.table,
            ray,
            groups,
            &room.slots,
            &mut room.met,
            out,
        )
    }

    /// Appends the handles of the live boxes that a box which is cast meets on its way, of the groups that are asked for, in the
    /// order in which it first meets them; those that it meets at one place come by their slots. After an `Err` `out` is as
    /// before.
    pub fn cast(
        &self,
        cast: &Cast,
        groups: Groups,
        room: &mut AskRoom,
        out: &mut Vec<Handle>,
    ) -> Result<(), NoMemory>
        ensures sound { OnOk result (self.now.spent ≡ false) }
        ensures ok { OnOk result (out.new.items ≡ out.old.items ++ cast_of self.now.time.now.table.entries cast.now groups) }
        ensures err { OnErr result (out.new.items ≡ out.old.items) }
    {
        if self.spent {
            return Err(NoMemory);
        }
        room.slots.clear();
        let swept = Query::Swept(*cast);
        self.parts.index.hits(&swept, &mut room.slots)?;
        push_cast(
            &self.parts.table,
            cast,
            groups,
            &room.slots,
            &mut room.met,
            out,
        )
    }

    /// The live box that a ray enters first, of the groups that are asked for, with the place and the face: the first that
    /// `entered` would tell, and `None` where it would tell none. An index that descends doesn't look at all that the ray
    /// meets.
    pub fn first_entered(
        &self,
        ray: &Ray,
        groups: Groups,
        room: &mut AskRoom,
    ) -> Result<Option<FirstHit>, NoMemory>
        ensures sound { OnOk result (self.now.spent ≡ false) }
        ensures first { IfOk result (IsFirstEntered self.now.time.now.table.entries ray.now groups) }
        ensures handle { IfOk result (HasFirst (entered_of self.now.time.now.table.entries ray.now groups)) }
    {
        if self.spent {
            return Err(NoMemory);
        }
        first_entered(
            &mut room.slots,
            &self.parts.table,
            &self.parts.index,
            ray,
            groups,
        )
    }

    /// The live box that a box which is cast meets first on its way, of the groups that are asked for, with the place and the
    /// face: the first that `cast` would tell, and `None` where it would tell none.
    pub fn first_cast(
        &self,
        cast: &Cast,
        groups: Groups,
        room: &mut AskRoom,
    ) -> Result<Option<FirstHit>, NoMemory>
        ensures sound { OnOk result (self.now.spent ≡ false) }
        ensures first { IfOk result (IsFirstTouched self.now.time.now.table.entries cast.now groups) }
        ensures handle { IfOk result (HasFirst (cast_of self.now.time.now.table.entries cast.now groups)) }
    {
        if self.spent {
            return Err(NoMemory);
        }
        first_cast(
            &mut room.slots,
            &self.parts.table,
            &self.parts.index,
            cast,
            groups,
        )
    }
}
