//! The exports that ask, by a reader, many questions at once.

ghost use Rattle.std.specs.Prelude.{◌≡◌};
ghost use Rattle.live_queries.specs.First.{IsFirstEntered};
ghost use Rattle.any_world.specs.AnyWorld.{state_of};
ghost use Rattle.held_world.specs.Firsts.{AsksFirst, AsksFirstCast};
ghost use Rattle.held_world.specs.Many.{AsksAll, AsksEach};
ghost use Rattle.held_world.specs.Plain.{cast_in, groups_in, ray_in};
ghost use Rattle.held_world.specs.declared.answers.Reply.{Reply};
ghost use Rattle.pungwelair.specs.Exports.{IsClosed};
ghost use Rattle.pungwelair.specs.Readers.{AsksReader};

use crate::reader::PwReader;
use held_world::{CLOSED, PwCast, PwHandle, PwHit, PwQuery, PwRay};
use std::alloc::Global;

/// The live boxes that meet each of several questions, one answer behind another in `out`, and in `ends` how many there are up to the
/// end of each. The count tells how many questions were answered. `CLOSED` comes, here and below, if the reader isn't open or reads no
/// world.
#[unsafe(no_mangle)]
pub extern "C" fn pw_reader_hits_each(
    alloc: Global,
    reader: &mut PwReader,
    queries: &[PwQuery],
    out: &mut [PwHandle],
    ends: &mut [usize],
    count: &mut usize,
) -> u32
    ensures { let reply : Reply = record { status = result; count = count.new } in
        AsksReader (λ read. let state = state_of read.world in
        AsksAll state.time.now.table.entries state.spent queries.now reply out.old out.new ends.old ends.new)
        (IsClosed reply out.old out.new × (ends.new ≡ ends.old)) reader.old.held.inner reader.new.held.inner }
{
    let Some(mut open) = reader.take(alloc) else {
        *count = 0;
        return CLOSED;
    };
    let asker = &mut *open;
    let reply = asker.hits_each(queries, out, ends);
    reader.put(open);
    *count = reply.count;
    reply.status
}

/// The box that each ray meets first, each at its place of `out`, where the handle of no box tells that there is none. The count tells
/// how many rays were answered.
#[unsafe(no_mangle)]
pub extern "C" fn pw_reader_ray_first_each(
    alloc: Global,
    reader: &mut PwReader,
    rays: &[PwRay],
    out: &mut [PwHit],
    count: &mut usize,
) -> u32
    ensures { let reply : Reply = record { status = result; count = count.new } in
        AsksReader (λ read. let state = state_of read.world in
        AsksEach (λ ray. AsksFirst (IsFirstEntered state.time.now.table.entries (ray_in ray) (groups_in ray.mask)) state.spent) rays.now
        reply out.old out.new)
        (IsClosed reply out.old out.new) reader.old.held.inner reader.new.held.inner }
{
    let Some(mut open) = reader.take(alloc) else {
        *count = 0;
        return CLOSED;
    };
    let asker = &mut *open;
    let reply = asker.first_entered_each(rays, out);
    reader.put(open);
    *count = reply.count;
    reply.status
}

/// The same for the boxes that moved boxes meet first on their ways.
#[unsafe(no_mangle)]
pub extern "C" fn pw_reader_cast_first_each(
    alloc: Global,
    reader: &mut PwReader,
    casts: &[PwCast],
    out: &mut [PwHit],
    count: &mut usize,
) -> u32
    ensures { let reply : Reply = record { status = result; count = count.new } in
        AsksReader (λ read. let state = state_of read.world in
        AsksEach (λ cast. AsksFirstCast (cast_in cast) state.time.now.table.entries cast.mask state.spent) casts.now reply out.old out.new)
        (IsClosed reply out.old out.new) reader.old.held.inner reader.new.held.inner }
{
    let Some(mut open) = reader.take(alloc) else {
        *count = 0;
        return CLOSED;
    };
    let asker = &mut *open;
    let reply = asker.first_cast_each(casts, out);
    reader.put(open);
    *count = reply.count;
    reply.status
}
