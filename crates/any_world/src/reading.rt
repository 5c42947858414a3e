//! What such a world tells of itself, and the queries among its live boxes.

ghost use Rattle.std.specs.Prelude.{◌≡◌, ◌≤◌, ◌++◌, true, false, length, None, IfOk, OnOk, OnErr};
ghost use Rattle.fixed_box.specs.declared.TheConstants.{SLOTS};
ghost use Rattle.live_table.specs.Entries.{entry_at, live_at};
ghost use Rattle.live_table.specs.Table.{IsTable};
ghost use Rattle.live_queries.specs.First.{IsFirstEntered, IsFirstTouched, HasFirst};
ghost use Rattle.live_queries.specs.Pairs.{hits_of};
ghost use Rattle.live_queries.specs.Queries.{entered_of, cast_of};
ghost use Rattle.box_world.specs.World.{pairs};
ghost use Rattle.any_world.specs.AnyWorld.{state_of, structure_of};

use crate::AnyWorld;
use box_cast::Cast;
use broad_index::Query;
use fixed_box::NoMemory;
use live_queries::{AskRoom, FirstHit, Groups};
use live_table::{Handle, Live, LiveTable};
use pair_events::{Events, HPair};
use ray_slabs::Ray;

impl AnyWorld {
    /// The live box with the handle, and `None` where no live box has it. It is one look-up.
    pub fn get(&self, handle: Handle) -> Option<Live>
        ensures { result ≡ entry_at handle (state_of self.now).time.now.table.entries }
    {
        match self {
            AnyWorld::Plain(world) => world.get(handle),
            AnyWorld::Sap(world) => world.get(handle),
            AnyWorld::Tree(world) => world.get(handle),
            AnyWorld::Grid(world) => world.get(handle),
            AnyWorld::Skin(world) => world.get(handle),
        }
    }

    /// The live box in a slot, and `None` where no live box has it: a loop over the slots below `SLOTS` reads all live boxes. It is one
    /// look-up, and answers in a spent world too.
    pub fn at(&self, slot: u32) -> Option<Live>
        ensures at { result ≡ live_at slot (state_of self.now).time.now.table.entries }
        ensures past { SLOTS ≤ slot → result ≡ None }
    {
        match self {
            AnyWorld::Plain(world) => world.at(slot),
            AnyWorld::Sap(world) => world.at(slot),
            AnyWorld::Tree(world) => world.at(slot),
            AnyWorld::Grid(world) => world.at(slot),
            AnyWorld::Skin(world) => world.at(slot),
        }
    }

    /// The number of live boxes.
    pub fn len(&self) -> u32
        ensures { result ≡ length (state_of self.now).time.now.table.entries }
    {
        match self {
            AnyWorld::Plain(world) => world.len(),
            AnyWorld::Sap(world) => world.len(),
            AnyWorld::Tree(world) => world.len(),
            AnyWorld::Grid(world) => world.len(),
            AnyWorld::Skin(world) => world.len(),
        }
    }

    /// The number of frames that have ended. A way back lowers it to what it was at the mark.
    pub fn frames(&self) -> u64
        ensures { result ≡ (state_of self.now).time.now.frames }
    {
        match self {
            AnyWorld::Plain(world) => world.frames(),
            AnyWorld::Sap(world) => world.frames(),
            AnyWorld::Tree(world) => world.frames(),
            AnyWorld::Grid(world) => world.frames(),
            AnyWorld::Skin(world) => world.frames(),
        }
    }

    /// The exchanges of endpoints since the last frame, and 0 where the structure doesn't count them and in a spent world.
    pub fn exchanges(&self) -> u64
        ensures sound { (state_of self.now).spent ≡ false → result ≡ (state_of self.now).time.now.exchanges }
        ensures spent { (state_of self.now).spent ≡ true → result ≡ 0 }
    {
        match self {
            AnyWorld::Plain(world) => world.exchanges(),
            AnyWorld::Sap(world) => world.exchanges(),
            AnyWorld::Tree(world) => world.exchanges(),
            AnyWorld::Grid(world) => world.exchanges(),
            AnyWorld::Skin(world) => world.exchanges(),
        }
    }

    /// The number of marks that are held.
    pub fn held(&self) -> u32
        ensures { result ≡ length (state_of self.now).time.marks }
    {
        match self {
            AnyWorld::Plain(world) => world.held(),
            AnyWorld::Sap(world) => world.held(),
            AnyWorld::Tree(world) => world.held(),
            AnyWorld::Grid(world) => world.held(),
            AnyWorld::Skin(world) => world.held(),
        }
    }

    /// What was told of the last frame that ended: each pair of it, as it began or stayed, and then each pair that was over. The events
    /// are made while they are read, of the pairs of that frame and of `began` and `over`.
    pub fn events(&self) -> Events<'_>
        ensures { result ≡ (state_of self.now).told }
    {
        match self {
            AnyWorld::Plain(world) => world.events(),
            AnyWorld::Sap(world) => world.events(),
            AnyWorld::Tree(world) => world.events(),
            AnyWorld::Grid(world) => world.events(),
            AnyWorld::Skin(world) => world.events(),
        }
    }

    /// The pairs that began in the last frame that ended, by the slots of their boxes.
    pub fn began(&self) -> &[HPair]
        ensures { result.now ≡ (state_of self.now).began }
    {
        match self {
            AnyWorld::Plain(world) => world.began(),
            AnyWorld::Sap(world) => world.began(),
            AnyWorld::Tree(world) => world.began(),
            AnyWorld::Grid(world) => world.began(),
            AnyWorld::Skin(world) => world.began(),
        }
    }

    /// The pairs of the frame before it that were over then, by the slots of their boxes.
    pub fn over(&self) -> &[HPair]
        ensures { result.now ≡ (state_of self.now).over }
    {
        match self {
            AnyWorld::Plain(world) => world.over(),
            AnyWorld::Sap(world) => world.over(),
            AnyWorld::Tree(world) => world.over(),
            AnyWorld::Grid(world) => world.over(),
            AnyWorld::Skin(world) => world.over(),
        }
    }

    /// The pairs of the last frame, by the slots of their boxes then. After a way back they are those of the last frame before
    /// the mark.
    pub fn pairs(&self) -> &[HPair]
        ensures { result.now ≡ (state_of self.now).time.now.last }
    {
        match self {
            AnyWorld::Plain(world) => world.pairs(),
            AnyWorld::Sap(world) => world.pairs(),
            AnyWorld::Tree(world) => world.pairs(),
            AnyWorld::Grid(world) => world.pairs(),
            AnyWorld::Skin(world) => world.pairs(),
        }
    }

    /// The table of live boxes.
    pub fn table(&self) -> &LiveTable
        ensures same { result.now ≡ (state_of self.now).time.now.table }
        ensures table { IsTable result.now }
    {
        match self {
            AnyWorld::Plain(world) => world.table(),
            AnyWorld::Sap(world) => world.table(),
            AnyWorld::Tree(world) => world.table(),
            AnyWorld::Grid(world) => world.table(),
            AnyWorld::Skin(world) => world.table(),
        }
    }

    /// Appends the pairs that the frame would have if it ended now, in the order of pairs. The frame goes on, and nothing else changes.
    /// After an `Err` `out` is as before. It searches as `update` does.
    pub fn current_pairs(&mut self, out: &mut Vec<HPair>) -> Result<(), NoMemory>
        ensures sound { OnOk result ((state_of self.old).spent ≡ false) }
        ensures ok { OnOk result (out.new.items ≡ out.old.items ++ pairs (state_of self.old).time.now) }
        ensures err { OnErr result (out.new.items ≡ out.old.items) }
        ensures same { state_of self.new ≡ state_of self.old }
        ensures structure { structure_of self.new ≡ structure_of self.old }
    {
        match self {
            AnyWorld::Plain(world) => world.current_pairs(out),
            AnyWorld::Sap(world) => world.current_pairs(out),
            AnyWorld::Tree(world) => world.current_pairs(out),
            AnyWorld::Grid(world) => world.current_pairs(out),
            AnyWorld::Skin(world) => world.current_pairs(out),
        }
    }

    /// Appends the handles of the live boxes that meet a query, of the groups that are asked for, by their slots.
    /// After an `Err` `out` is as before. A spent world answers want of memory, here and in the queries below. They change nothing, so
    /// that several threads may ask one world at once, each with room of its own.
    pub fn hits(
        &self,
        query: &Query,
        groups: Groups,
        room: &mut AskRoom,
        out: &mut Vec<Handle>,
    ) -> Result<(), NoMemory>
        ensures sound { OnOk result ((state_of self.now).spent ≡ false) }
        ensures ok { OnOk result (out.new.items ≡ out.old.items ++ hits_of (state_of self.now).time.now.table.entries query.now groups) }
        ensures err { OnErr result (out.new.items ≡ out.old.items) }
    {
        match self {
            AnyWorld::Plain(world) => world.hits(query, groups, room, out),
            AnyWorld::Sap(world) => world.hits(query, groups, room, out),
            AnyWorld::Tree(world) => world.hits(query, groups, room, out),
            AnyWorld::Grid(world) => world.hits(query, groups, room, out),
            AnyWorld::Skin(world) => world.hits(query, groups, room, out),
        }
    }

    /// Appends the handles of the live boxes that a ray meets, of the groups that are asked for, in the order in which it first
    /// meets them; those that it meets at one place come by their slots. After an `Err` `out` is as before.
    pub fn entered(
        &self,
        ray: &Ray,
        groups: Groups,
        room: &mut AskRoom,
        out: &mut Vec<Handle>,
    ) -> Result<(), NoMemory>
        ensures sound { OnOk result ((state_of self.now).spent ≡ false) }
        ensures ok { OnOk result (out.new.items ≡ out.old.items ++ entered_of (state_of self.now).time.now.table.entries ray.now groups) }
        ensures err { OnErr result (out.new.items ≡ out.old.items) }
    {
        match self {
            AnyWorld::Plain(world) => world.entered(ray, groups, room, out),
            AnyWorld::Sap(world) => world.entered(ray, groups, room, out),
            AnyWorld::Tree(world) => world.entered(ray, groups, room, out),
            AnyWorld::Grid(world) => world.entered(ray, groups, room, out),
            AnyWorld::Skin(world) => world.entered(ray, groups, room, out),
        }
    }

    /// Appends the handles of the live boxes that a box which is cast meets on its way, of the groups that are asked for, in the
    /// order in which it first meets them; those that it meets at one place come by their slots. After an `Err` `out` is as
    /// before.
    pub fn cast(
        &self,
        cast: &Cast,
        groups: Groups,
        room: &mut AskRoom,
        out: &mut Vec<Handle>,
    ) -> Result<(), NoMemory>
        ensures sound { OnOk result ((state_of self.now).spent ≡ false) }
        ensures ok { OnOk result (out.new.items ≡ out.old.items ++ cast_of (state_of self.now).time.now.table.entries cast.now groups) }
        ensures err { OnErr result (out.new.items ≡ out.old.items) }
    {
        match self {
            AnyWorld::Plain(world) => world.cast(cast, groups, room, out),
            AnyWorld::Sap(world) => world.cast(cast, groups, room, out),
            AnyWorld::Tree(world) => world.cast(cast, groups, room, out),
            AnyWorld::Grid(world) => world.cast(cast, groups, room, out),
            AnyWorld::Skin(world) => world.cast(cast, groups, room, out),
        }
    }

    /// The live box that a ray enters first, of the groups that are asked for, with the place and the face: the first that
    /// `entered` would tell, and `None` where it would tell none. Tree, skins and grid don't look at all that the ray meets.
    pub fn first_entered(
        &self,
        ray: &Ray,
        groups: Groups,
        room: &mut AskRoom,
    ) -> Result<Option<FirstHit>, NoMemory>
        ensures sound { OnOk result ((state_of self.now).spent ≡ false) }
        ensures first { IfOk result (IsFirstEntered (state_of self.now).time.now.table.entries ray.now groups) }
        ensures handle { IfOk result (HasFirst (entered_of (state_of self.now).time.now.table.entries ray.now groups)) }
    {
        match self {
            AnyWorld::Plain(world) => world.first_entered(ray, groups, room),
            AnyWorld::Sap(world) => world.first_entered(ray, groups, room),
            AnyWorld::Tree(world) => world.first_entered(ray, groups, room),
            AnyWorld::Grid(world) => world.first_entered(ray, groups, room),
            AnyWorld::Skin(world) => world.first_entered(ray, groups, room),
        }
    }

    /// The live box that a box which is cast meets first on its way, of the groups that are asked for, with the place and the
    /// face: the first that `cast` would tell, and `None` where it would tell none.
    pub fn first_cast(
        &self,
        cast: &Cast,
        groups: Groups,
        room: &mut AskRoom,
    ) -> Result<Option<FirstHit>, NoMemory>
        ensures sound { OnOk result ((state_of self.now).spent ≡ false) }
        ensures first { IfOk result (IsFirstTouched (state_of self.now).time.now.table.entries cast.now groups) }
        ensures handle { IfOk result (HasFirst (cast_of (state_of self.now).time.now.table.entries cast.now groups)) }
    {
        match self {
            AnyWorld::Plain(world) => world.first_cast(cast, groups, room),
            AnyWorld::Sap(world) => world.first_cast(cast, groups, room),
            AnyWorld::Tree(world) => world.first_cast(cast, groups, room),
            AnyWorld::Grid(world) => world.first_cast(cast, groups, room),
            AnyWorld::Skin(world) => world.first_cast(cast, groups, room),
        }
    }
}
