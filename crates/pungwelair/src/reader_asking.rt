//! The exports that ask, by a reader, which live boxes meet something.

ghost use Rattle.std.specs.Prelude.{◌≡◌, min, Some, option_map};
ghost use Rattle.fixed_box.specs.declared.TheConstants.{SLOTS};
ghost use Rattle.live_queries.specs.Pairs.{hits_of};
ghost use Rattle.live_queries.specs.First.{IsFirstEntered};
ghost use Rattle.live_queries.specs.Queries.{entered_of, cast_of, nearest_to, nearest_to_box};
ghost use Rattle.any_world.specs.AnyWorld.{state_of};
ghost use Rattle.held_world.specs.declared.TheConstants.{ARGUMENT, INVERTED};
ghost use Rattle.held_world.specs.Asks.{Asks};
ghost use Rattle.held_world.specs.Firsts.{AsksFirst, AsksFirstCast};
ghost use Rattle.held_world.specs.Plain.{groups_in, query_in, ray_in, cast_in, near_in, near_box_in};
ghost use Rattle.held_world.specs.declared.answers.Reply.{Reply};
ghost use Rattle.pungwelair.specs.Exports.{IsClosed};
ghost use Rattle.pungwelair.specs.Readers.{AsksReader};

use crate::reader::PwReader;
use held_world::{CLOSED, PwCast, PwHandle, PwHit, PwNear, PwNearBox, PwQuery, PwRay};
use std::alloc::Global;

/// The live boxes that meet a question, by their slots: how many there are in all, and the first of them in `out`. `CLOSED` comes, here
/// and below, if the reader isn't open or reads no world.
#[unsafe(no_mangle)]
pub extern "C" fn pw_reader_hits(
    alloc: Global,
    reader: &mut PwReader,
    query: &PwQuery,
    out: &mut [PwHandle],
    count: &mut usize,
) -> u32
    ensures { let reply : Reply = record { status = result; count = count.new } in
        AsksReader (λ read. let state = state_of read.world in
        Asks ARGUMENT (option_map (λ asked. hits_of state.time.now.table.entries asked (groups_in query.now.mask)) (query_in query.now)) state.spent
        reply out.old out.new)
        (IsClosed reply out.old out.new) reader.old.held.inner reader.new.held.inner }
{
    let Some(mut open) = reader.take(alloc) else {
        *count = 0;
        return CLOSED;
    };
    let asker = &mut *open;
    let reply = asker.hits(query, out);
    reader.put(open);
    *count = reply.count;
    reply.status
}

/// The same for the boxes that a ray meets, in the order in which it first meets them.
#[unsafe(no_mangle)]
pub extern "C" fn pw_reader_ray_hits(
    alloc: Global,
    reader: &mut PwReader,
    ray: &PwRay,
    out: &mut [PwHandle],
    count: &mut usize,
) -> u32
    ensures { let reply : Reply = record { status = result; count = count.new } in
        AsksReader (λ read. let state = state_of read.world in
        Asks ARGUMENT (Some (entered_of state.time.now.table.entries (ray_in ray.now) (groups_in ray.now.mask))) state.spent
        reply out.old out.new)
        (IsClosed reply out.old out.new) reader.old.held.inner reader.new.held.inner }
{
    let Some(mut open) = reader.take(alloc) else {
        *count = 0;
        return CLOSED;
    };
    let asker = &mut *open;
    let reply = asker.entered(ray, out);
    reader.put(open);
    *count = reply.count;
    reply.status
}

/// The same for the boxes that a moved box meets on its way, in the order in which it first meets them.
#[unsafe(no_mangle)]
pub extern "C" fn pw_reader_cast_hits(
    alloc: Global,
    reader: &mut PwReader,
    cast: &PwCast,
    out: &mut [PwHandle],
    count: &mut usize,
) -> u32
    ensures { let reply : Reply = record { status = result; count = count.new } in
        AsksReader (λ read. let state = state_of read.world in
        Asks INVERTED (option_map (λ asked. cast_of state.time.now.table.entries asked (groups_in cast.now.mask)) (cast_in cast.now)) state.spent
        reply out.old out.new)
        (IsClosed reply out.old out.new) reader.old.held.inner reader.new.held.inner }
{
    let Some(mut open) = reader.take(alloc) else {
        *count = 0;
        return CLOSED;
    };
    let asker = &mut *open;
    let reply = asker.cast(cast, out);
    reader.put(open);
    *count = reply.count;
    reply.status
}

/// The same for the boxes that are nearest to a place, the nearest first.
#[unsafe(no_mangle)]
pub extern "C" fn pw_reader_nearest(
    alloc: Global,
    reader: &mut PwReader,
    near: &PwNear,
    out: &mut [PwHandle],
    count: &mut usize,
) -> u32
    ensures { let reply : Reply = record { status = result; count = count.new } in
        AsksReader (λ read. let state = state_of read.world in
        Asks ARGUMENT (Some (nearest_to state.time.now.table.entries (near_in near.now).at (min near.now.want SLOTS) (groups_in near.now.mask)))
        state.spent reply out.old out.new)
        (IsClosed reply out.old out.new) reader.old.held.inner reader.new.held.inner }
{
    let Some(mut open) = reader.take(alloc) else {
        *count = 0;
        return CLOSED;
    };
    let asker = &mut *open;
    let reply = asker.nearest(near, out);
    reader.put(open);
    *count = reply.count;
    reply.status
}

/// The same for the boxes that are nearest to a box, from a distance on. `INVERTED` comes if it is no box.
#[unsafe(no_mangle)]
pub extern "C" fn pw_reader_nearest_box(
    alloc: Global,
    reader: &mut PwReader,
    near: &PwNearBox,
    out: &mut [PwHandle],
    count: &mut usize,
) -> u32
    ensures { let reply : Reply = record { status = result; count = count.new } in
        AsksReader (λ read. let state = state_of read.world in
        Asks INVERTED (option_map (λ asked. nearest_to_box state.time.now.table.entries asked.body asked.from (min asked.want SLOTS) asked.groups)
        (near_box_in near.now)) state.spent reply out.old out.new)
        (IsClosed reply out.old out.new) reader.old.held.inner reader.new.held.inner }
{
    let Some(mut open) = reader.take(alloc) else {
        *count = 0;
        return CLOSED;
    };
    let asker = &mut *open;
    let reply = asker.nearest_box(near, out);
    reader.put(open);
    *count = reply.count;
    reply.status
}

/// The box that a ray meets first, where, and by which side, in `out`: the count is 1, or 0 if it meets none.
#[unsafe(no_mangle)]
pub extern "C" fn pw_reader_ray_first(
    alloc: Global,
    reader: &mut PwReader,
    ray: &PwRay,
    out: &mut PwHit,
    count: &mut usize,
) -> u32
    ensures { let reply : Reply = record { status = result; count = count.new } in
        AsksReader (λ read. let state = state_of read.world in
        AsksFirst (IsFirstEntered state.time.now.table.entries (ray_in ray.now) (groups_in ray.now.mask)) state.spent reply out.old out.new)
        (IsClosed reply out.old out.new) reader.old.held.inner reader.new.held.inner }
{
    let Some(mut open) = reader.take(alloc) else {
        *count = 0;
        return CLOSED;
    };
    let asker = &mut *open;
    let reply = asker.first_entered(ray, out);
    reader.put(open);
    *count = reply.count;
    reply.status
}

/// The same for the box that a moved box meets first on its way.
#[unsafe(no_mangle)]
pub extern "C" fn pw_reader_cast_first(
    alloc: Global,
    reader: &mut PwReader,
    cast: &PwCast,
    out: &mut PwHit,
    count: &mut usize,
) -> u32
    ensures { let reply : Reply = record { status = result; count = count.new } in
        AsksReader (λ read. let state = state_of read.world in
        AsksFirstCast (cast_in cast.now) state.time.now.table.entries cast.now.mask state.spent reply out.old out.new)
        (IsClosed reply out.old out.new) reader.old.held.inner reader.new.held.inner }
{
    let Some(mut open) = reader.take(alloc) else {
        *count = 0;
        return CLOSED;
    };
    let asker = &mut *open;
    let reply = asker.first_cast(cast, out);
    reader.put(open);
    *count = reply.count;
    reply.status
}
