//! Many questions at once in the world that a reader reads.

ghost use Rattle.std.specs.Prelude.{◌≡◌};
ghost use Rattle.live_queries.specs.First.{IsFirstEntered};
ghost use Rattle.any_world.specs.AnyWorld.{state_of};
ghost use Rattle.held_world.specs.Firsts.{AsksFirst, AsksFirstCast};
ghost use Rattle.held_world.specs.Many.{AsksAll, AsksEach};
ghost use Rattle.held_world.specs.Plain.{cast_in, groups_in, ray_in};
ghost use Rattle.world_reader.specs.Reads.{Reads, ReadsNone};

use crate::answers::reads_none;
use crate::reader::WorldReader;
use held_world::{PwCast, PwHandle, PwHit, PwQuery, PwRay, Reply};

impl WorldReader {
    /// Tells of the live box that each ray meets first, at its place of `out`, where the handle of no box tells that there is none. The
    /// count tells how many rays were answered. `CLOSED` comes if the reader reads no world, here and below: then all is as before.
    pub fn first_entered_each(&mut self, rays: &[PwRay], out: &mut [PwHit]) -> Reply
        ensures answer { Reads (λ read. let state = state_of read.world in
            AsksEach (λ ray. AsksFirst (IsFirstEntered state.time.now.table.entries (ray_in ray) (groups_in ray.mask)) state.spent) rays.now
            result out.old out.new) (ReadsNone result out.old out.new) self.old }
        ensures same { self.new ≡ self.old }
    {
        match &self.world {
            Some(held) => self.room.first_entered_each(&held.world, rays, out),
            None => reads_none(),
        }
    }

    /// The same for the boxes that moved boxes meet first on their ways.
    pub fn first_cast_each(&mut self, casts: &[PwCast], out: &mut [PwHit]) -> Reply
        ensures answer { Reads (λ read. let state = state_of read.world in
            AsksEach (λ cast. AsksFirstCast (cast_in cast) state.time.now.table.entries cast.mask state.spent) casts.now result out.old out.new)
            (ReadsNone result out.old out.new) self.old }
        ensures same { self.new ≡ self.old }
    {
        match &self.world {
            Some(held) => self.room.first_cast_each(&held.world, casts, out),
            None => reads_none(),
        }
    }

    /// Copies the handles of the live boxes that meet each question, one answer behind another, as many as there is room for, and tells in
    /// `ends` how many there are up to the end of each. The count tells how many questions were answered.
    pub fn hits_each(
        &mut self,
        queries: &[PwQuery],
        out: &mut [PwHandle],
        ends: &mut [usize],
    ) -> Reply
        ensures answer { Reads (λ read. let state = state_of read.world in
            AsksAll state.time.now.table.entries state.spent queries.now result out.old out.new ends.old ends.new)
            (ReadsNone result out.old out.new × (ends.new ≡ ends.old)) self.old }
        ensures same { self.new ≡ self.old }
    {
        match &self.world {
            Some(held) => self.room.hits_each(&held.world, queries, out, ends),
            None => reads_none(),
        }
    }
}
