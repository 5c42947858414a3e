//! The exports that ask many questions at once, in order up to the first that is refused.

ghost use Rattle.std.specs.Prelude.{◌≡◌};
ghost use Rattle.live_queries.specs.First.{IsFirstEntered};
ghost use Rattle.any_world.specs.AnyWorld.{state_of};
ghost use Rattle.held_world.specs.Firsts.{AsksFirst, AsksFirstCast};
ghost use Rattle.held_world.specs.Many.{AsksAll, AsksEach};
ghost use Rattle.held_world.specs.Plain.{cast_in, groups_in, ray_in};
ghost use Rattle.held_world.specs.declared.answers.Reply.{Reply};
ghost use Rattle.pungwelair.specs.Exports.{Calls, IsAsBefore, IsClosed};

use crate::world::PwWorld;
use held_world::{CLOSED, PwCast, PwHandle, PwHit, PwQuery, PwRay};
use std::alloc::Global;

/// The live boxes that meet each of several questions, one answer behind another in `out`, and in `ends` how many there are up to the
/// end of each. The count tells how many questions were answered, all or those before the first that is refused.
#[unsafe(no_mangle)]
pub extern "C" fn pw_hits_each(
    alloc: Global,
    world: &mut PwWorld,
    queries: &[PwQuery],
    out: &mut [PwHandle],
    ends: &mut [usize],
    count: &mut usize,
) -> u32
    ensures { let reply : Reply = record { status = result; count = count.new } in
        Calls (λ was now. IsAsBefore was.world now.world × (let state = state_of was.world in
        AsksAll state.time.now.table.entries state.spent queries.now reply out.old out.new ends.old ends.new))
        (IsClosed reply out.old out.new × (ends.new ≡ ends.old)) world.old.held.inner world.new.held.inner }
{
    let Some(mut held) = world.take(alloc) else {
        *count = 0;
        return CLOSED;
    };
    let open = &mut *held;
    let reply = open.room.hits_each(&open.world, queries, out, ends);
    world.put(held);
    *count = reply.count;
    reply.status
}

/// The box that each ray meets first, each at its place of `out`, where the handle of no box tells that there is none. The count tells
/// how many rays were answered.
#[unsafe(no_mangle)]
pub extern "C" fn pw_ray_first_each(
    alloc: Global,
    world: &mut PwWorld,
    rays: &[PwRay],
    out: &mut [PwHit],
    count: &mut usize,
) -> u32
    ensures { let reply : Reply = record { status = result; count = count.new } in
        Calls (λ was now. (now ≡ was) × (let state = state_of was.world in
        AsksEach (λ ray. AsksFirst (IsFirstEntered state.time.now.table.entries (ray_in ray) (groups_in ray.mask)) state.spent) rays.now
        reply out.old out.new))
        (IsClosed reply out.old out.new) world.old.held.inner world.new.held.inner }
{
    let Some(mut held) = world.take(alloc) else {
        *count = 0;
        return CLOSED;
    };
    let open = &mut *held;
    let reply = open.room.first_entered_each(&open.world, rays, out);
    world.put(held);
    *count = reply.count;
    reply.status
}

/// The same for the boxes that moved boxes meet first on their ways.
#[unsafe(no_mangle)]
pub extern "C" fn pw_cast_first_each(
    alloc: Global,
    world: &mut PwWorld,
    casts: &[PwCast],
    out: &mut [PwHit],
    count: &mut usize,
) -> u32
    ensures { let reply : Reply = record { status = result; count = count.new } in
        Calls (λ was now. (now ≡ was) × (let state = state_of was.world in
        AsksEach (λ cast. AsksFirstCast (cast_in cast) state.time.now.table.entries cast.mask state.spent) casts.now reply out.old out.new))
        (IsClosed reply out.old out.new) world.old.held.inner world.new.held.inner }
{
    let Some(mut held) = world.take(alloc) else {
        *count = 0;
        return CLOSED;
    };
    let open = &mut *held;
    let reply = open.room.first_cast_each(&open.world, casts, out);
    world.put(held);
    *count = reply.count;
    reply.status
}
