//! The exports by which many boxes come, move and go at once.

ghost use Rattle.std.specs.Prelude.{◌≡◌, ◌≢◌, length, zip};
ghost use Rattle.any_world.specs.AnyWorld.{state_of, structure_of, counts_of};
ghost use Rattle.held_world.specs.declared.TheConstants.{ARGUMENT, CLOSED};
ghost use Rattle.held_world.specs.Batches.{IsBatch};
ghost use Rattle.held_world.specs.Changes.{moves, removes};
ghost use Rattle.held_world.specs.Plain.{masks_in, group_in};
ghost use Rattle.held_world.specs.declared.answers.Reply.{Reply};
ghost use Rattle.pungwelair.specs.Exports.{Calls, IsClosed, Adds, Moves, Removes};

use crate::world::PwWorld;
use held_world::{CLOSED, PwBox, PwGroup, PwHandle, PwMasks, group_of, masks_of};
use std::alloc::Global;

/// How boxes come: their masks, and whose they are.
#[repr(C)]
#[derive(Clone, Copy)]
pub struct PwNew {
    pub masks: PwMasks,
    pub group: PwGroup,
}

/// Boxes come, in order up to the first that is refused, whose status it gives; `done` tells how many came, and the first of `out` are
/// their handles.
#[unsafe(no_mangle)]
pub extern "C" fn pw_add(
    alloc: Global,
    world: &mut PwWorld,
    boxes: &[PwBox],
    how: &PwNew,
    out: &mut [PwHandle],
    done: &mut usize,
) -> u32
    ensures { let reply : Reply = record { status = result; count = done.new } in
        Calls (λ was now. Adds boxes.now (masks_in how.now.masks) (group_in how.now.group) out.old out.new reply was.world now.world)
        (IsClosed reply out.old out.new) world.old.held.inner world.new.held.inner }
{
    let Some(mut held) = world.take(alloc) else {
        *done = 0;
        return CLOSED;
    };
    let reply = held.add_all(boxes, masks_of(&how.masks), group_of(&how.group), out);
    world.put(held);
    *done = reply.count;
    reply.status
}

/// Boxes move, each with its handle, in order up to the first that is refused, whose status it gives; `done` tells how many moved.
#[unsafe(no_mangle)]
pub extern "C" fn pw_move(
    alloc: Global,
    world: &mut PwWorld,
    handles: &[PwHandle],
    boxes: &[PwBox],
    done: &mut usize,
) -> u32
    ensures { let reply : Reply = record { status = result; count = done.new } in
        Calls (λ was now. Moves handles.now boxes.now reply was.world now.world)
        (reply ≡ record { status = CLOSED; count = 0 }) world.old.held.inner world.new.held.inner }
{
    let Some(mut held) = world.take(alloc) else {
        *done = 0;
        return CLOSED;
    };
    let reply = held.move_all(handles, boxes);
    world.put(held);
    *done = reply.count;
    reply.status
}

/// Boxes go, in order up to the first that is refused, whose status it gives; `done` tells how many went.
#[unsafe(no_mangle)]
pub extern "C" fn pw_remove(
    alloc: Global,
    world: &mut PwWorld,
    handles: &[PwHandle],
    done: &mut usize,
) -> u32
    ensures { let reply : Reply = record { status = result; count = done.new } in
        Calls (λ was now. Removes handles.now reply was.world now.world)
        (reply ≡ record { status = CLOSED; count = 0 }) world.old.held.inner world.new.held.inner }
{
    let Some(mut held) = world.take(alloc) else {
        *done = 0;
        return CLOSED;
    };
    let reply = held.remove_all(handles);
    world.put(held);
    *done = reply.count;
    reply.status
}
