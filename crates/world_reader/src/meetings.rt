//! First hits in the world that a reader reads, and where a way or a place stands to one of its live boxes.

ghost use Rattle.std.specs.Prelude.{◌≡◌, Err, ok_or, option_map};
ghost use Rattle.live_table.specs.Entries.{entry_at};
ghost use Rattle.live_queries.specs.Face.{entry_face};
ghost use Rattle.live_queries.specs.First.{IsFirstEntered};
ghost use Rattle.live_queries.specs.Queries.{entry_of};
ghost use Rattle.near_boxes.specs.Nearest.{square};
ghost use Rattle.any_world.specs.AnyWorld.{state_of};
ghost use Rattle.held_world.specs.declared.TheConstants.{STALE, CLOSED};
ghost use Rattle.held_world.specs.Firsts.{AsksFirst, AsksFirstCast, TellsMeeting, TellsCastMeeting, apart_out};
ghost use Rattle.held_world.specs.Plain.{groups_in, handle_in, point_in, ray_in, cast_in, body_in, square_out};
ghost use Rattle.world_reader.specs.Reads.{Reads, ReadsNone};

use crate::answers::reads_none;
use crate::reader::WorldReader;
use held_world::{CLOSED, PwBox, PwCast, PwHandle, PwHit, PwPoint, PwRay, PwSquare, Reply, STALE};

impl WorldReader {
    /// Tells of the live box that a ray meets first: it, where it is met, and by which side. The count is 1, or 0 if it meets none.
    /// `CLOSED` comes if the reader reads no world, here and below. After any status but `OK`, and if the count is 0, `out` is as
    /// before.
    pub fn first_entered(&mut self, ray: &PwRay, out: &mut PwHit) -> Reply
        ensures answer { Reads (λ read. let state = state_of read.world in
            AsksFirst (IsFirstEntered state.time.now.table.entries (ray_in ray.now) (groups_in ray.now.mask)) state.spent result out.old out.new)
            (ReadsNone result out.old out.new) self.old }
        ensures same { self.new ≡ self.old }
    {
        match &self.world {
            Some(held) => self.room.first_entered(&held.world, ray, out),
            None => reads_none(),
        }
    }

    /// The same for the box that a moved box meets first on its way. `INVERTED` comes if it is none.
    pub fn first_cast(&mut self, cast: &PwCast, out: &mut PwHit) -> Reply
        ensures answer { Reads (λ read. let state = state_of read.world in
            AsksFirstCast (cast_in cast.now) state.time.now.table.entries cast.now.mask state.spent result out.old out.new)
            (ReadsNone result out.old out.new) self.old }
        ensures same { self.new ≡ self.old }
    {
        match &self.world {
            Some(held) => self.room.first_cast(&held.world, cast, out),
            None => reads_none(),
        }
    }

    /// Tells where a ray meets a live box, as of the first hit, whatever groups it asks for: the count is 1, or 0 if it doesn't meet it.
    /// `STALE` comes if no live box has the handle. It answers in a spent world too, as all that stands below, and takes no room of the
    /// reader's, so that a `&` to it is enough.
    pub fn ray_meeting(&self, ray: &PwRay, handle: &PwHandle, out: &mut PwHit) -> Reply
        ensures { Reads (λ read. let entries = (state_of read.world).time.now.table.entries in
            TellsMeeting (entry_of (ray_in ray.now)) (entry_face (ray_in ray.now)) (entry_at (handle_in handle.now) entries) result out.old out.new)
            (ReadsNone result out.old out.new) self.now }
    {
        match &self.world {
            Some(held) => held.ray_meeting(ray, handle, out),
            None => reads_none(),
        }
    }

    /// The same for a moved box. `INVERTED` comes if it is none.
    pub fn cast_meeting(&self, cast: &PwCast, handle: &PwHandle, out: &mut PwHit) -> Reply
        ensures { Reads (λ read. let entries = (state_of read.world).time.now.table.entries in
            TellsCastMeeting (cast_in cast.now) (entry_at (handle_in handle.now) entries) result out.old out.new)
            (ReadsNone result out.old out.new) self.now }
    {
        match &self.world {
            Some(held) => held.cast_meeting(cast, handle, out),
            None => reads_none(),
        }
    }

    /// The square of the distance of a place from a live box, in raw units squared: 0 if the box holds it. `STALE` comes if no live box
    /// has the handle.
    pub fn square_to(&self, at: &PwPoint, handle: &PwHandle) -> Result<PwSquare, u32>
        ensures { Reads (λ read. let entries = (state_of read.world).time.now.table.entries in
            result ≡ ok_or (option_map (λ live. square_out (square (point_in at.now) live.body)) (entry_at (handle_in handle.now) entries)) STALE)
            (result ≡ Err CLOSED) self.now }
    {
        match &self.world {
            Some(held) => held.square_to(at, handle).ok_or(STALE),
            None => Err(CLOSED),
        }
    }

    /// The square of the distance of a box from a live box, in raw units squared: 0 if they meet. `INVERTED` comes if it is no box, and
    /// else `STALE` if no live box has the handle.
    pub fn square_apart(&self, body: &PwBox, handle: &PwHandle) -> Result<PwSquare, u32>
        ensures { Reads (λ read. let entries = (state_of read.world).time.now.table.entries in
            result ≡ apart_out (body_in body.now) (entry_at (handle_in handle.now) entries))
            (result ≡ Err CLOSED) self.now }
    {
        match &self.world {
            Some(held) => held.square_apart(body, handle),
            None => Err(CLOSED),
        }
    }
}
