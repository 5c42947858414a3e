//! The exports that tell, by a reader, of one live box, of the last frame and of the world's numbers.

ghost use Rattle.std.specs.Prelude.{◌≡◌, ok_or, option_map};
ghost use Rattle.live_table.specs.Entries.{entry_at};
ghost use Rattle.any_world.specs.AnyWorld.{state_of};
ghost use Rattle.held_world.specs.declared.TheConstants.{STALE, CLOSED};
ghost use Rattle.held_world.specs.Copies.{Copies};
ghost use Rattle.held_world.specs.Plain.{handle_in, live_out, pair_out, told_out};
ghost use Rattle.held_world.specs.Reading.{changes_of};
ghost use Rattle.held_world.specs.declared.answers.Reply.{Reply};
ghost use Rattle.pungwelair.specs.Exports.{IsClosed, IsInfo, Places, Puts};
ghost use Rattle.pungwelair.specs.Readers.{AsksReader};

use crate::reader::PwReader;
use held_world::{CLOSED, OK, PwHandle, PwInfo, PwLive, PwPair, PwTold};
use std::alloc::Global;

/// The live box that has a handle. `CLOSED` comes, here and below, if the reader isn't open or reads no world.
#[unsafe(no_mangle)]
pub extern "C" fn pw_reader_get(
    alloc: Global,
    reader: &mut PwReader,
    handle: PwHandle,
    out: &mut PwLive,
) -> u32
    ensures { AsksReader (λ read. Puts
        (ok_or (option_map live_out (entry_at (handle_in handle) (state_of read.world).time.now.table.entries)) STALE) result out.old out.new)
        ((result ≡ CLOSED) × (out.new ≡ out.old)) reader.old.held.inner reader.new.held.inner }
{
    let Some(open) = reader.take(alloc) else {
        return CLOSED;
    };
    let live = open.get(&handle);
    reader.put(open);
    match live {
        Ok(live) => {
            *out = live;
            OK
        }
        Err(status) => status,
    }
}

/// The live box in a slot, with its handle.
#[unsafe(no_mangle)]
pub extern "C" fn pw_reader_at(
    alloc: Global,
    reader: &mut PwReader,
    slot: u32,
    handle: &mut PwHandle,
    out: &mut PwLive,
) -> u32
    ensures { AsksReader (λ read. Places slot result read.world (handle.old, out.old) (handle.new, out.new))
        ((result ≡ CLOSED) × (handle.new ≡ handle.old) × (out.new ≡ out.old)) reader.old.held.inner reader.new.held.inner }
{
    let Some(open) = reader.take(alloc) else {
        return CLOSED;
    };
    let placed = open.at(slot);
    reader.put(open);
    match placed {
        Ok((its, live)) => {
            *handle = its;
            *out = live;
            OK
        }
        Err(status) => status,
    }
}

/// Copies the pairs of the last frame from number `from` on, as many as there is room for, and tells how many those are.
#[unsafe(no_mangle)]
pub extern "C" fn pw_reader_pairs(
    alloc: Global,
    reader: &mut PwReader,
    from: usize,
    out: &mut [PwPair],
    copied: &mut usize,
) -> u32
    ensures { let reply : Reply = record { status = result; count = copied.new } in
        AsksReader (λ read. Copies pair_out from (state_of read.world).time.now.last reply out.old out.new)
        (IsClosed reply out.old out.new) reader.old.held.inner reader.new.held.inner }
{
    let Some(open) = reader.take(alloc) else {
        *copied = 0;
        return CLOSED;
    };
    let reply = open.copy_pairs(from, out);
    reader.put(open);
    *copied = reply.count;
    reply.status
}

/// The same for the events of the last frame.
#[unsafe(no_mangle)]
pub extern "C" fn pw_reader_events(
    alloc: Global,
    reader: &mut PwReader,
    from: usize,
    out: &mut [PwTold],
    copied: &mut usize,
) -> u32
    ensures { let reply : Reply = record { status = result; count = copied.new } in
        AsksReader (λ read. Copies told_out from (state_of read.world).told reply out.old out.new)
        (IsClosed reply out.old out.new) reader.old.held.inner reader.new.held.inner }
{
    let Some(open) = reader.take(alloc) else {
        *copied = 0;
        return CLOSED;
    };
    let reply = open.copy_events(from, out);
    reader.put(open);
    *copied = reply.count;
    reply.status
}

/// The same for the changes of the last frame: `BEGIN` of each pair that began, and then `OVER` of each that was over.
#[unsafe(no_mangle)]
pub extern "C" fn pw_reader_changes(
    alloc: Global,
    reader: &mut PwReader,
    from: usize,
    out: &mut [PwTold],
    copied: &mut usize,
) -> u32
    ensures { let reply : Reply = record { status = result; count = copied.new } in
        AsksReader (λ read. Copies told_out from (changes_of (state_of read.world)) reply out.old out.new)
        (IsClosed reply out.old out.new) reader.old.held.inner reader.new.held.inner }
{
    let Some(open) = reader.take(alloc) else {
        *copied = 0;
        return CLOSED;
    };
    let reply = open.copy_changes(from, out);
    reader.put(open);
    *copied = reply.count;
    reply.status
}

/// What the world is that the reader reads. Over the tree, the grid or skins none is spent.
#[unsafe(no_mangle)]
pub extern "C" fn pw_reader_info(alloc: Global, reader: &mut PwReader, out: &mut PwInfo) -> u32
    ensures { AsksReader (λ read. IsInfo result out.new read.world) ((result ≡ CLOSED) × (out.new ≡ out.old))
        reader.old.held.inner reader.new.held.inner }
{
    let Some(open) = reader.take(alloc) else {
        return CLOSED;
    };
    let info = open.info();
    reader.put(open);
    match info {
        Ok(info) => {
            *out = info;
            OK
        }
        Err(status) => status,
    }
}
