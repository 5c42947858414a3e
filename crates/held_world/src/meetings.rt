//! Where a ray or a moved box meets one live box, and how far a place or a box lies from it.

ghost use Rattle.std.specs.Prelude.{◌≡◌, option_map};
ghost use Rattle.near_boxes.specs.Nearest.{square};
ghost use Rattle.live_table.specs.Entries.{entry_at};
ghost use Rattle.live_queries.specs.Face.{entry_face};
ghost use Rattle.live_queries.specs.Queries.{entry_of};
ghost use Rattle.any_world.specs.AnyWorld.{state_of};
ghost use Rattle.held_world.specs.Firsts.{TellsMeeting, TellsCastMeeting, apart_out};
ghost use Rattle.held_world.specs.Plain.{handle_in, point_in, body_in, ray_in, cast_in, square_out};

use crate::firsts::put_hit;
use crate::plain::{PwBox, PwHandle, PwHit, PwPoint, body_of, handle_of, point_of};
use crate::questions::{PwCast, PwRay, cast_of, ray_of};
use crate::squares::{PwSquare, square_out};
use crate::{HeldWorld, INVERTED, Reply, STALE};
use live_queries::{cast_meeting, ray_meeting};
use near_boxes::{square, square_apart};

impl HeldWorld {
    /// Tells where a ray meets a live box, as of the first hit, whatever groups it asks for: the count is 1, or 0 where it doesn't meet
    /// it. `STALE` comes where no live box has the handle. After any status but `OK`, and where the count is 0, `out` is as before. It
    /// takes no memory, and answers in a spent world too, as all that stands here.
    pub fn ray_meeting(&self, ray: &PwRay, handle: &PwHandle, out: &mut PwHit) -> Reply
        ensures { let entries = (state_of self.now.world).time.now.table.entries in
            TellsMeeting (entry_of (ray_in ray.now)) (entry_face (ray_in ray.now)) (entry_at (handle_in handle.now) entries) result out.old out.new }
    {
        match self.world.get(handle_of(handle)) {
            Some(live) => put_hit(&ray_meeting(&ray_of(ray), &live), out),
            None => unanswered(STALE),
        }
    }

    /// The same for a moved box. `INVERTED` comes where it is none.
    pub fn cast_meeting(&self, cast: &PwCast, handle: &PwHandle, out: &mut PwHit) -> Reply
        ensures { let entries = (state_of self.now.world).time.now.table.entries in
            TellsCastMeeting (cast_in cast.now) (entry_at (handle_in handle.now) entries) result out.old out.new }
    {
        let Some(asked) = cast_of(cast) else {
            return unanswered(INVERTED);
        };
        match self.world.get(handle_of(handle)) {
            Some(live) => put_hit(&cast_meeting(&asked, &live), out),
            None => unanswered(STALE),
        }
    }

    /// The square of the distance of a place from a live box, in raw units squared: 0 where the box holds it. `None` comes where no
    /// live box has the handle.
    pub fn square_to(&self, at: &PwPoint, handle: &PwHandle) -> Option<PwSquare>
        ensures { let entries = (state_of self.now.world).time.now.table.entries in
            result ≡ option_map (λ live. square_out (square (point_in at.now) live.body)) (entry_at (handle_in handle.now) entries) }
    {
        match self.world.get(handle_of(handle)) {
            Some(live) => Some(square_out(square(&point_of(at), &live.body))),
            None => None,
        }
    }

    /// The square of the distance of a box from a live box, in raw units squared: 0 if they have a common point. `INVERTED` comes where it
    /// is no box, and else `STALE` where no live box has the handle.
    pub fn square_apart(&self, body: &PwBox, handle: &PwHandle) -> Result<PwSquare, u32>
        ensures { let entries = (state_of self.now.world).time.now.table.entries in
            result ≡ apart_out (body_in body.now) (entry_at (handle_in handle.now) entries) }
    {
        let Some(asked) = body_of(body) else {
            return Err(INVERTED);
        };
        match self.world.get(handle_of(handle)) {
            Some(live) => Ok(square_out(square_apart(&asked, &live.body))),
            None => Err(STALE),
        }
    }
}

fn unanswered(status: u32) -> Reply
    ensures { result ≡ record { status = status; count = 0 } }
{
    Reply { status, count: 0 }
}
