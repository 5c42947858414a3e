//! The exports that tell where a way meets one live box, and how far a place or a box lies from it.

ghost use Rattle.std.specs.Prelude.{◌≡◌, ok_or, option_map};
ghost use Rattle.live_table.specs.Entries.{entry_at};
ghost use Rattle.live_queries.specs.Face.{entry_face};
ghost use Rattle.live_queries.specs.Queries.{entry_of};
ghost use Rattle.near_boxes.specs.Nearest.{square};
ghost use Rattle.any_world.specs.AnyWorld.{state_of};
ghost use Rattle.held_world.specs.declared.TheConstants.{STALE, CLOSED};
ghost use Rattle.held_world.specs.declared.answers.Reply.{Reply};
ghost use Rattle.held_world.specs.Firsts.{TellsMeeting, TellsCastMeeting, apart_out};
ghost use Rattle.held_world.specs.Plain.{handle_in, point_in, body_in, ray_in, cast_in, square_out};
ghost use Rattle.pungwelair.specs.Exports.{Calls, IsClosed, Puts};

use crate::world::PwWorld;
use held_world::{CLOSED, OK, PwBox, PwCast, PwHandle, PwHit, PwPoint, PwRay, PwSquare, STALE};
use std::alloc::Global;

/// Where a ray meets a live box, and by which side, in `out`: the count is 1, or 0 where it doesn't meet it.
#[unsafe(no_mangle)]
pub extern "C" fn pw_ray_meets(
    alloc: Global,
    world: &mut PwWorld,
    ray: &PwRay,
    handle: PwHandle,
    out: &mut PwHit,
    count: &mut usize,
) -> u32
    ensures { let reply : Reply = record { status = result; count = count.new } in
        Calls (λ was now. (now ≡ was) × TellsMeeting (entry_of (ray_in ray.now)) (entry_face (ray_in ray.now))
        (entry_at (handle_in handle) (state_of was.world).time.now.table.entries) reply out.old out.new)
        (IsClosed reply out.old out.new) world.old.held.inner world.new.held.inner }
{
    let Some(held) = world.take(alloc) else {
        *count = 0;
        return CLOSED;
    };
    let reply = held.ray_meeting(ray, &handle, out);
    world.put(held);
    *count = reply.count;
    reply.status
}

/// The same for a moved box.
#[unsafe(no_mangle)]
pub extern "C" fn pw_cast_meets(
    alloc: Global,
    world: &mut PwWorld,
    cast: &PwCast,
    handle: PwHandle,
    out: &mut PwHit,
    count: &mut usize,
) -> u32
    ensures { let reply : Reply = record { status = result; count = count.new } in
        Calls (λ was now. (now ≡ was) × TellsCastMeeting (cast_in cast.now) (entry_at (handle_in handle) (state_of was.world).time.now.table.entries)
        reply out.old out.new)
        (IsClosed reply out.old out.new) world.old.held.inner world.new.held.inner }
{
    let Some(held) = world.take(alloc) else {
        *count = 0;
        return CLOSED;
    };
    let reply = held.cast_meeting(cast, &handle, out);
    world.put(held);
    *count = reply.count;
    reply.status
}

/// The square of the distance of a place from a live box.
#[unsafe(no_mangle)]
pub extern "C" fn pw_square_to(
    alloc: Global,
    world: &mut PwWorld,
    at: &PwPoint,
    handle: PwHandle,
    out: &mut PwSquare,
) -> u32
    ensures { Calls (λ was now. (now ≡ was) × Puts
        (ok_or (option_map (λ live. square_out (square (point_in at.now) live.body))
        (entry_at (handle_in handle) (state_of was.world).time.now.table.entries)) STALE) result out.old out.new)
        ((result ≡ CLOSED) × (out.new ≡ out.old)) world.old.held.inner world.new.held.inner }
{
    let Some(held) = world.take(alloc) else {
        return CLOSED;
    };
    let square = held.square_to(at, &handle);
    world.put(held);
    match square {
        Some(square) => {
            *out = square;
            OK
        }
        None => STALE,
    }
}

/// The square of the distance of a box from a live box.
#[unsafe(no_mangle)]
pub extern "C" fn pw_square_apart(
    alloc: Global,
    world: &mut PwWorld,
    body: &PwBox,
    handle: PwHandle,
    out: &mut PwSquare,
) -> u32
    ensures { Calls (λ was now. (now ≡ was) × Puts
        (apart_out (body_in body.now) (entry_at (handle_in handle) (state_of was.world).time.now.table.entries)) result out.old out.new)
        ((result ≡ CLOSED) × (out.new ≡ out.old)) world.old.held.inner world.new.held.inner }
{
    let Some(held) = world.take(alloc) else {
        return CLOSED;
    };
    let square = held.square_apart(body, &handle);
    world.put(held);
    match square {
        Ok(square) => {
            *out = square;
            OK
        }
        Err(status) => status,
    }
}
