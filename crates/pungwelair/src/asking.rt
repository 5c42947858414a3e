//! The exports that ask which live boxes meet something.

ghost use Rattle.std.specs.Prelude.{◌≡◌, min, Some, option_map};
ghost use Rattle.fixed_box.specs.declared.TheConstants.{SLOTS};
ghost use Rattle.live_queries.specs.Pairs.{hits_of};
ghost use Rattle.live_queries.specs.First.{IsFirstEntered};
ghost use Rattle.live_queries.specs.Queries.{entered_of, cast_of, nearest_to, nearest_to_box};
ghost use Rattle.any_world.specs.AnyWorld.{state_of};
ghost use Rattle.held_world.specs.declared.TheConstants.{ARGUMENT, INVERTED};
ghost use Rattle.held_world.specs.Firsts.{AsksFirst, AsksFirstCast};
ghost use Rattle.held_world.specs.Plain.{groups_in, query_in, ray_in, cast_in, near_in, near_box_in};
ghost use Rattle.held_world.specs.declared.answers.Reply.{Reply};
ghost use Rattle.pungwelair.specs.Exports.{Asked, Calls, IsClosed};

use crate::world::PwWorld;
use held_world::{CLOSED, PwCast, PwHandle, PwHit, PwNear, PwNearBox, PwQuery, PwRay};
use std::alloc::Global;

/// The live boxes that meet a question, by their slots: how many there are in all, and the first of them in `out`.
#[unsafe(no_mangle)]
pub extern "C" fn pw_hits(
    alloc: Global,
    world: &mut PwWorld,
    query: &PwQuery,
    out: &mut [PwHandle],
    count: &mut usize,
) -> u32
    ensures { let reply : Reply = record { status = result; count = count.new } in
        Calls (λ was now. Asked ARGUMENT (λ entries. option_map (λ asked. hits_of entries asked (groups_in query.now.mask)) (query_in query.now))
        reply out.old out.new was.world now.world)
        (IsClosed reply out.old out.new) world.old.held.inner world.new.held.inner }
{
    let Some(mut held) = world.take(alloc) else {
        *count = 0;
        return CLOSED;
    };
    let open = &mut *held;
    let reply = open.room.hits(&open.world, query, out);
    world.put(held);
    *count = reply.count;
    reply.status
}

/// The same for the boxes that a ray meets, in the order in which it first meets them.
#[unsafe(no_mangle)]
pub extern "C" fn pw_ray_hits(
    alloc: Global,
    world: &mut PwWorld,
    ray: &PwRay,
    out: &mut [PwHandle],
    count: &mut usize,
) -> u32
    ensures { let reply : Reply = record { status = result; count = count.new } in
        Calls (λ was now. Asked ARGUMENT (λ entries. Some (entered_of entries (ray_in ray.now) (groups_in ray.now.mask)))
        reply out.old out.new was.world now.world)
        (IsClosed reply out.old out.new) world.old.held.inner world.new.held.inner }
{
    let Some(mut held) = world.take(alloc) else {
        *count = 0;
        return CLOSED;
    };
    let open = &mut *held;
    let reply = open.room.entered(&open.world, ray, out);
    world.put(held);
    *count = reply.count;
    reply.status
}

/// The same for the boxes that a moved box meets on its way, in the order in which it first meets them.
#[unsafe(no_mangle)]
pub extern "C" fn pw_cast_hits(
    alloc: Global,
    world: &mut PwWorld,
    cast: &PwCast,
    out: &mut [PwHandle],
    count: &mut usize,
) -> u32
    ensures { let reply : Reply = record { status = result; count = count.new } in
        Calls (λ was now. Asked INVERTED (λ entries. option_map (λ asked. cast_of entries asked (groups_in cast.now.mask)) (cast_in cast.now))
        reply out.old out.new was.world now.world)
        (IsClosed reply out.old out.new) world.old.held.inner world.new.held.inner }
{
    let Some(mut held) = world.take(alloc) else {
        *count = 0;
        return CLOSED;
    };
    let open = &mut *held;
    let reply = open.room.cast(&open.world, cast, out);
    world.put(held);
    *count = reply.count;
    reply.status
}

/// The same for the boxes that are nearest to a place, the nearest first.
#[unsafe(no_mangle)]
pub extern "C" fn pw_nearest(
    alloc: Global,
    world: &mut PwWorld,
    near: &PwNear,
    out: &mut [PwHandle],
    count: &mut usize,
) -> u32
    ensures { let reply : Reply = record { status = result; count = count.new } in
        Calls (λ was now. Asked ARGUMENT (λ entries. Some (nearest_to entries (near_in near.now).at (min near.now.want SLOTS) (groups_in near.now.mask)))
        reply out.old out.new was.world now.world)
        (IsClosed reply out.old out.new) world.old.held.inner world.new.held.inner }
{
    let Some(mut held) = world.take(alloc) else {
        *count = 0;
        return CLOSED;
    };
    let open = &mut *held;
    let reply = open.room.nearest(&open.world, near, out);
    world.put(held);
    *count = reply.count;
    reply.status
}

/// The same for the boxes that are nearest to a box, of those whose squared distance from it is at least `from`.
#[unsafe(no_mangle)]
pub extern "C" fn pw_nearest_box(
    alloc: Global,
    world: &mut PwWorld,
    near: &PwNearBox,
    out: &mut [PwHandle],
    count: &mut usize,
) -> u32
    ensures { let reply : Reply = record { status = result; count = count.new } in
        Calls (λ was now. Asked INVERTED (λ entries. option_map (λ asked. nearest_to_box entries asked.body asked.from (min asked.want SLOTS) asked.groups)
        (near_box_in near.now)) reply out.old out.new was.world now.world)
        (IsClosed reply out.old out.new) world.old.held.inner world.new.held.inner }
{
    let Some(mut held) = world.take(alloc) else {
        *count = 0;
        return CLOSED;
    };
    let open = &mut *held;
    let reply = open.room.nearest_box(&open.world, near, out);
    world.put(held);
    *count = reply.count;
    reply.status
}

/// The box that a ray meets first, where, and by which side, in `out`: the count is 1, or 0 where it meets none.
#[unsafe(no_mangle)]
pub extern "C" fn pw_ray_first(
    alloc: Global,
    world: &mut PwWorld,
    ray: &PwRay,
    out: &mut PwHit,
    count: &mut usize,
) -> u32
    ensures { let reply : Reply = record { status = result; count = count.new } in
        Calls (λ was now. (now ≡ was) × AsksFirst (IsFirstEntered (state_of was.world).time.now.table.entries (ray_in ray.now) (groups_in ray.now.mask))
        (state_of was.world).spent reply out.old out.new)
        (IsClosed reply out.old out.new) world.old.held.inner world.new.held.inner }
{
    let Some(mut held) = world.take(alloc) else {
        *count = 0;
        return CLOSED;
    };
    let open = &mut *held;
    let reply = open.room.first_entered(&open.world, ray, out);
    world.put(held);
    *count = reply.count;
    reply.status
}

/// The same for the box that a moved box meets first on its way.
#[unsafe(no_mangle)]
pub extern "C" fn pw_cast_first(
    alloc: Global,
    world: &mut PwWorld,
    cast: &PwCast,
    out: &mut PwHit,
    count: &mut usize,
) -> u32
    ensures { let reply : Reply = record { status = result; count = count.new } in
        Calls (λ was now. (now ≡ was) × AsksFirstCast (cast_in cast.now) (state_of was.world).time.now.table.entries cast.now.mask
        (state_of was.world).spent reply out.old out.new)
        (IsClosed reply out.old out.new) world.old.held.inner world.new.held.inner }
{
    let Some(mut held) = world.take(alloc) else {
        *count = 0;
        return CLOSED;
    };
    let open = &mut *held;
    let reply = open.room.first_cast(&open.world, cast, out);
    world.put(held);
    *count = reply.count;
    reply.status
}
