//! The exports that tell, by a reader, where a way meets one live box, and how far a place lies from it.

ghost use Rattle.std.specs.Prelude.{◌≡◌, ok_or, option_map};
ghost use Rattle.live_table.specs.Entries.{entry_at};
ghost use Rattle.live_queries.specs.Face.{entry_face};
ghost use Rattle.live_queries.specs.Queries.{entry_of};
ghost use Rattle.near_boxes.specs.Nearest.{square};
ghost use Rattle.any_world.specs.AnyWorld.{state_of};
ghost use Rattle.held_world.specs.declared.TheConstants.{STALE, CLOSED};
ghost use Rattle.held_world.specs.declared.answers.Reply.{Reply};
ghost use Rattle.held_world.specs.Firsts.{TellsMeeting, TellsCastMeeting, apart_out};
ghost use Rattle.held_world.specs.Plain.{body_in, handle_in, point_in, ray_in, cast_in, square_out};
ghost use Rattle.pungwelair.specs.Exports.{IsClosed, Puts};
ghost use Rattle.pungwelair.specs.Readers.{AsksReader};

use crate::reader::PwReader;
use held_world::{CLOSED, OK, PwBox, PwCast, PwHandle, PwHit, PwPoint, PwRay, PwSquare};
use std::alloc::Global;

/// Where a ray meets a live box, and by which side, in `out`: the count is 1, or 0 if it doesn't meet it. `CLOSED` comes, here and below,
/// if the reader isn't open or reads no world.
#[unsafe(no_mangle)]
pub extern "C" fn pw_reader_ray_meets(
    alloc: Global,
    reader: &mut PwReader,
    ray: &PwRay,
    handle: PwHandle,
    out: &mut PwHit,
    count: &mut usize,
) -> u32
    ensures { let reply : Reply = record { status = result; count = count.new } in
        AsksReader (λ read. TellsMeeting (entry_of (ray_in ray.now)) (entry_face (ray_in ray.now))
        (entry_at (handle_in handle) (state_of read.world).time.now.table.entries) reply out.old out.new)
        (IsClosed reply out.old out.new) reader.old.held.inner reader.new.held.inner }
{
    let Some(open) = reader.take(alloc) else {
        *count = 0;
        return CLOSED;
    };
    let reply = open.ray_meeting(ray, &handle, out);
    reader.put(open);
    *count = reply.count;
    reply.status
}

/// The same for a moved box.
#[unsafe(no_mangle)]
pub extern "C" fn pw_reader_cast_meets(
    alloc: Global,
    reader: &mut PwReader,
    cast: &PwCast,
    handle: PwHandle,
    out: &mut PwHit,
    count: &mut usize,
) -> u32
    ensures { let reply : Reply = record { status = result; count = count.new } in
        AsksReader (λ read. TellsCastMeeting (cast_in cast.now)
        (entry_at (handle_in handle) (state_of read.world).time.now.table.entries) reply out.old out.new)
        (IsClosed reply out.old out.new) reader.old.held.inner reader.new.held.inner }
{
    let Some(open) = reader.take(alloc) else {
        *count = 0;
        return CLOSED;
    };
    let reply = open.cast_meeting(cast, &handle, out);
    reader.put(open);
    *count = reply.count;
    reply.status
}

/// The square of the distance of a place from a live box.
#[unsafe(no_mangle)]
pub extern "C" fn pw_reader_square_to(
    alloc: Global,
    reader: &mut PwReader,
    at: &PwPoint,
    handle: PwHandle,
    out: &mut PwSquare,
) -> u32
    ensures { AsksReader (λ read. Puts
        (ok_or (option_map (λ live. square_out (square (point_in at.now) live.body))
        (entry_at (handle_in handle) (state_of read.world).time.now.table.entries)) STALE) result out.old out.new)
        ((result ≡ CLOSED) × (out.new ≡ out.old)) reader.old.held.inner reader.new.held.inner }
{
    let Some(open) = reader.take(alloc) else {
        return CLOSED;
    };
    let square = open.square_to(at, &handle);
    reader.put(open);
    match square {
        Ok(square) => {
            *out = square;
            OK
        }
        Err(status) => status,
    }
}

/// The square of the distance of a box from a live box.
#[unsafe(no_mangle)]
pub extern "C" fn pw_reader_square_apart(
    alloc: Global,
    reader: &mut PwReader,
    body: &PwBox,
    handle: PwHandle,
    out: &mut PwSquare,
) -> u32
    ensures { AsksReader (λ read. Puts
        (apart_out (body_in body.now) (entry_at (handle_in handle) (state_of read.world).time.now.table.entries)) result out.old out.new)
        ((result ≡ CLOSED) × (out.new ≡ out.old)) reader.old.held.inner reader.new.held.inner }
{
    let Some(open) = reader.take(alloc) else {
        return CLOSED;
    };
    let square = open.square_apart(body, &handle);
    reader.put(open);
    match square {
        Ok(square) => {
            *out = square;
            OK
        }
        Err(status) => status,
    }
}
