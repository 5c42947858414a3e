//! The exports that set masks and owners, end a frame, mark the world, give up old marks and go back.

ghost use Rattle.std.specs.Prelude.{◌≡◌};
ghost use Rattle.held_world.specs.declared.TheConstants.{CLOSED};
ghost use Rattle.held_world.specs.Plain.{handle_in, masks_in, group_in};
ghost use Rattle.pungwelair.specs.Exports.{Calls, SetsMasks, SetsGroup, Updates, MarksWorld, Forgets, GoesBack};

use crate::world::PwWorld;
use held_world::{CLOSED, PwCounts, PwGroup, PwHandle, PwMasks};
use std::alloc::Global;

/// A box gets other masks.
#[unsafe(no_mangle)]
pub extern "C" fn pw_mask(
    alloc: Global,
    world: &mut PwWorld,
    handle: PwHandle,
    masks: PwMasks,
) -> u32
    ensures { Calls (λ was now. SetsMasks (handle_in handle) (masks_in masks) result was.world now.world) (result ≡ CLOSED)
        world.old.held.inner world.new.held.inner }
{
    let Some(mut held) = world.take(alloc) else {
        return CLOSED;
    };
    let status = held.mask(&handle, &masks);
    world.put(held);
    status
}

/// A box gets another owner and fixed mark.
#[unsafe(no_mangle)]
pub extern "C" fn pw_regroup(
    alloc: Global,
    world: &mut PwWorld,
    handle: PwHandle,
    group: PwGroup,
) -> u32
    ensures { Calls (λ was now. SetsGroup (handle_in handle) (group_in group) result was.world now.world) (result ≡ CLOSED)
        world.old.held.inner world.new.held.inner }
{
    let Some(mut held) = world.take(alloc) else {
        return CLOSED;
    };
    let status = held.regroup(&handle, &group);
    world.put(held);
    status
}

/// Ends the frame, and tells how many pairs, events and changes it has.
#[unsafe(no_mangle)]
pub extern "C" fn pw_update(alloc: Global, world: &mut PwWorld, counts: &mut PwCounts) -> u32
    ensures { Calls (λ was now. Updates result counts.new was.world now.world)
        ((result ≡ CLOSED) × (counts.new ≡ record { pairs = 0; events = 0; changes = 0 })) world.old.held.inner world.new.held.inner }
{
    let Some(mut held) = world.take(alloc) else {
        *counts = PwCounts {
            pairs: 0,
            events: 0,
            changes: 0,
        };
        return CLOSED;
    };
    let status = held.update(counts);
    world.put(held);
    status
}

/// Marks the world as it stands.
#[unsafe(no_mangle)]
pub extern "C" fn pw_mark(alloc: Global, world: &mut PwWorld) -> u32
    ensures { Calls (λ was now. MarksWorld result was.world now.world) (result ≡ CLOSED) world.old.held.inner world.new.held.inner }
{
    let Some(mut held) = world.take(alloc) else {
        return CLOSED;
    };
    let status = held.mark();
    world.put(held);
    status
}

/// Gives up the oldest marks, so many of them.
#[unsafe(no_mangle)]
pub extern "C" fn pw_forget(alloc: Global, world: &mut PwWorld, count: u32) -> u32
    ensures { Calls (λ was now. Forgets count result was.world now.world) (result ≡ CLOSED) world.old.held.inner world.new.held.inner }
{
    let Some(mut held) = world.take(alloc) else {
        return CLOSED;
    };
    let status = held.forget(count);
    world.put(held);
    status
}

/// Goes back to the newest mark.
#[unsafe(no_mangle)]
pub extern "C" fn pw_back(alloc: Global, world: &mut PwWorld) -> u32
    ensures { Calls (λ was now. GoesBack result was.world now.world) (result ≡ CLOSED) world.old.held.inner world.new.held.inner }
{
    let Some(mut held) = world.take(alloc) else {
        return CLOSED;
    };
    let status = held.back();
    world.put(held);
    status
}
