//! Questions about the live boxes of the world that a reader reads, whose handles are copied into the caller's room.

ghost use Rattle.std.specs.Prelude.{◌≡◌, min, Some, option_map};
ghost use Rattle.fixed_box.specs.declared.TheConstants.{SLOTS};
ghost use Rattle.live_queries.specs.Pairs.{hits_of};
ghost use Rattle.live_queries.specs.Queries.{entered_of, cast_of, nearest_to, nearest_to_box};
ghost use Rattle.any_world.specs.AnyWorld.{state_of};
ghost use Rattle.held_world.specs.declared.TheConstants.{ARGUMENT, INVERTED};
ghost use Rattle.held_world.specs.Asks.{Asks};
ghost use Rattle.held_world.specs.Plain.{groups_in, query_in, ray_in, cast_in, near_in, near_box_in};
ghost use Rattle.world_reader.specs.Reads.{Reads, ReadsNone};

use crate::answers::reads_none;
use crate::reader::WorldReader;
use held_world::{PwCast, PwHandle, PwNear, PwNearBox, PwQuery, PwRay, Reply};

impl WorldReader {
    /// Copies the handles of the live boxes that meet a question, by their slots, as many as there is room for, and tells how many
    /// there are in all. `ARGUMENT` comes if it is no question, and here and below `CLOSED` if the reader reads no world. After any
    /// status but `OK` the count is 0 and `out` is as before. What the reader reads is as it was, whatever is asked.
    pub fn hits(&mut self, query: &PwQuery, out: &mut [PwHandle]) -> Reply
        ensures answer { Reads (λ read. let state = state_of read.world in
            Asks ARGUMENT (option_map (λ asked. hits_of state.time.now.table.entries asked (groups_in query.now.mask)) (query_in query.now)) state.spent
            result out.old out.new) (ReadsNone result out.old out.new) self.old }
        ensures same { self.new ≡ self.old }
    {
        match &self.world {
            Some(held) => self.room.hits(&held.world, query, out),
            None => reads_none(),
        }
    }

    /// Copies the handles of the live boxes that a ray meets, in the order in which it first meets them and then by their slots, as
    /// many as there is room for, and tells how many there are in all.
    pub fn entered(&mut self, ray: &PwRay, out: &mut [PwHandle]) -> Reply
        ensures answer { Reads (λ read. let state = state_of read.world in
            Asks ARGUMENT (Some (entered_of state.time.now.table.entries (ray_in ray.now) (groups_in ray.now.mask))) state.spent
            result out.old out.new) (ReadsNone result out.old out.new) self.old }
        ensures same { self.new ≡ self.old }
    {
        match &self.world {
            Some(held) => self.room.entered(&held.world, ray, out),
            None => reads_none(),
        }
    }

    /// The same for the boxes that a moved box meets on its way. `INVERTED` comes if it is none.
    pub fn cast(&mut self, cast: &PwCast, out: &mut [PwHandle]) -> Reply
        ensures answer { Reads (λ read. let state = state_of read.world in
            Asks INVERTED (option_map (λ asked. cast_of state.time.now.table.entries asked (groups_in cast.now.mask)) (cast_in cast.now)) state.spent
            result out.old out.new) (ReadsNone result out.old out.new) self.old }
        ensures same { self.new ≡ self.old }
    {
        match &self.world {
            Some(held) => self.room.cast(&held.world, cast, out),
            None => reads_none(),
        }
    }

    /// The same for the boxes that are nearest to a place: at most as many as are wanted and at most `SLOTS`, the nearest first and then by
    /// their slots.
    pub fn nearest(&mut self, near: &PwNear, out: &mut [PwHandle]) -> Reply
        ensures answer { Reads (λ read. let state = state_of read.world in
            Asks ARGUMENT (Some (nearest_to state.time.now.table.entries (near_in near.now).at (min near.now.want SLOTS) (groups_in near.now.mask)))
            state.spent result out.old out.new) (ReadsNone result out.old out.new) self.old }
        ensures same { self.new ≡ self.old }
    {
        match &self.world {
            Some(held) => self.room.nearest(&held.world, near, out),
            None => reads_none(),
        }
    }

    /// The same for the boxes that are nearest to a box, of those whose squared distance from it is at least `from`. `INVERTED` comes if
    /// it is no box.
    pub fn nearest_box(&mut self, near: &PwNearBox, out: &mut [PwHandle]) -> Reply
        ensures answer { Reads (λ read. let state = state_of read.world in
            Asks INVERTED (option_map (λ asked. nearest_to_box state.time.now.table.entries asked.body asked.from (min asked.want SLOTS) asked.groups)
            (near_box_in near.now)) state.spent result out.old out.new) (ReadsNone result out.old out.new) self.old }
        ensures same { self.new ≡ self.old }
    {
        match &self.world {
            Some(held) => self.room.nearest_box(&held.world, near, out),
            None => reads_none(),
        }
    }
}
