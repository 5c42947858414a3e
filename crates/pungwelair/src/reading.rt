//! The exports that read a world: a live box, pairs, events, changes and numbers.

ghost use Rattle.std.specs.Prelude.{◌≡◌, ok_or, option_map};
ghost use Rattle.live_table.specs.Entries.{entry_at};
ghost use Rattle.any_world.specs.AnyWorld.{state_of};
ghost use Rattle.held_world.specs.declared.TheConstants.{OK, STALE, CLOSED};
ghost use Rattle.held_world.specs.Copies.{Copies};
ghost use Rattle.held_world.specs.Plain.{handle_in, live_out, pair_out, told_out};
ghost use Rattle.held_world.specs.Reading.{changes_of};
ghost use Rattle.held_world.specs.declared.answers.Reply.{Reply};
ghost use Rattle.pungwelair.specs.Exports.{Calls, IsClosed, ListsPairs, Puts, Places, IsInfo};

use crate::world::PwWorld;
use held_world::{CLOSED, OK, PwHandle, PwInfo, PwLive, PwPair, PwTold, STALE};
use std::alloc::Global;

/// The live box that has a handle.
#[unsafe(no_mangle)]
pub extern "C" fn pw_get(
    alloc: Global,
    world: &mut PwWorld,
    handle: PwHandle,
    out: &mut PwLive,
) -> u32
    ensures { Calls (λ was now. (now ≡ was) × Puts
        (ok_or (option_map live_out (entry_at (handle_in handle) (state_of was.world).time.now.table.entries)) STALE) result out.old out.new)
        ((result ≡ CLOSED) × (out.new ≡ out.old)) world.old.held.inner world.new.held.inner }
{
    let Some(held) = world.take(alloc) else {
        return CLOSED;
    };
    let live = held.get(&handle);
    world.put(held);
    match live {
        Some(live) => {
            *out = live;
            OK
        }
        None => STALE,
    }
}

/// The live box in a slot, with its handle.
#[unsafe(no_mangle)]
pub extern "C" fn pw_at(
    alloc: Global,
    world: &mut PwWorld,
    slot: u32,
    handle: &mut PwHandle,
    out: &mut PwLive,
) -> u32
    ensures { Calls (λ was now. (now ≡ was) × Places slot result was.world (handle.old, out.old) (handle.new, out.new))
        ((result ≡ CLOSED) × (handle.new ≡ handle.old) × (out.new ≡ out.old)) world.old.held.inner world.new.held.inner }
{
    let Some(held) = world.take(alloc) else {
        return CLOSED;
    };
    let placed = held.at(slot);
    world.put(held);
    match placed {
        Some((its, live)) => {
            *handle = its;
            *out = live;
            OK
        }
        None => STALE,
    }
}

/// Copies the pairs of the last frame from number `from` on, as many as there is room for, and tells how many those are.
#[unsafe(no_mangle)]
pub extern "C" fn pw_pairs(
    alloc: Global,
    world: &mut PwWorld,
    from: usize,
    out: &mut [PwPair],
    copied: &mut usize,
) -> u32
    ensures { let reply : Reply = record { status = result; count = copied.new } in
        Calls (λ was now. (now ≡ was) × Copies pair_out from (state_of was.world).time.now.last reply out.old out.new)
        (IsClosed reply out.old out.new) world.old.held.inner world.new.held.inner }
{
    let Some(held) = world.take(alloc) else {
        *copied = 0;
        return CLOSED;
    };
    *copied = held.copy_pairs(from, out);
    world.put(held);
    OK
}

/// How many pairs the frame would have if it ended now, and those from number `from` on in `out`, as many as there is room for.
#[unsafe(no_mangle)]
pub extern "C" fn pw_pairs_now(
    alloc: Global,
    world: &mut PwWorld,
    from: usize,
    out: &mut [PwPair],
    count: &mut usize,
) -> u32
    ensures { let reply : Reply = record { status = result; count = count.new } in
        Calls (λ was now. ListsPairs from reply out.old out.new was.world now.world)
        (IsClosed reply out.old out.new) world.old.held.inner world.new.held.inner }
{
    let Some(mut held) = world.take(alloc) else {
        *count = 0;
        return CLOSED;
    };
    let reply = held.pairs_now(from, out);
    world.put(held);
    *count = reply.count;
    reply.status
}

/// Copies the events of the last frame from number `from` on, as many as there is room for, and tells how many those are.
#[unsafe(no_mangle)]
pub extern "C" fn pw_events(
    alloc: Global,
    world: &mut PwWorld,
    from: usize,
    out: &mut [PwTold],
    copied: &mut usize,
) -> u32
    ensures { let reply : Reply = record { status = result; count = copied.new } in
        Calls (λ was now. (now ≡ was) × Copies told_out from (state_of was.world).told reply out.old out.new)
        (IsClosed reply out.old out.new) world.old.held.inner world.new.held.inner }
{
    let Some(held) = world.take(alloc) else {
        *copied = 0;
        return CLOSED;
    };
    *copied = held.copy_events(from, out);
    world.put(held);
    OK
}

/// Copies the changes of the last frame from number `from` on, as many as there is room for, and tells how many those are: `BEGIN` of
/// each pair that began, and then `OVER` of each that was over.
#[unsafe(no_mangle)]
pub extern "C" fn pw_changes(
    alloc: Global,
    world: &mut PwWorld,
    from: usize,
    out: &mut [PwTold],
    copied: &mut usize,
) -> u32
    ensures { let reply : Reply = record { status = result; count = copied.new } in
        Calls (λ was now. (now ≡ was) × Copies told_out from (changes_of (state_of was.world)) reply out.old out.new)
        (IsClosed reply out.old out.new) world.old.held.inner world.new.held.inner }
{
    let Some(held) = world.take(alloc) else {
        *copied = 0;
        return CLOSED;
    };
    *copied = held.copy_changes(from, out);
    world.put(held);
    OK
}

/// What the world is. Over the tree, the grid or skins none is spent.
#[unsafe(no_mangle)]
pub extern "C" fn pw_info(alloc: Global, world: &mut PwWorld, out: &mut PwInfo) -> u32
    ensures { Calls (λ was now. (now ≡ was) × IsInfo result out.new was.world) ((result ≡ CLOSED) × (out.new ≡ out.old))
        world.old.held.inner world.new.held.inner }
{
    let Some(held) = world.take(alloc) else {
        return CLOSED;
    };
    *out = held.info();
    world.put(held);
    OK
}
