//! The exports that open readers and close them, and those by which readers get a world, pass it on and give it back.

ghost use Rattle.std.specs.Prelude.{◌≡◌, ◌≢◌, None, Some};
ghost use Rattle.held_world.specs.declared.TheConstants.{OK};
ghost use Rattle.world_reader.specs.declared.TheConstants.{SHARED};
ghost use Rattle.pungwelair.specs.Held.{nowhere};
ghost use Rattle.pungwelair.specs.Readers.{OpensReader, ClosesReader, Shares, Joins, Unshares};

use crate::reader::PwReader;
use crate::world::PwWorld;
use held_world::{ARGUMENT, CLOSED, NO_MEMORY, OK};
use std::alloc::Global;
use world_reader::{SHARED, WorldReader};

/// Opens a closed reader, which reads no world. `ARGUMENT` comes exactly if the reader is open.
#[unsafe(no_mangle)]
pub extern "C" fn pw_reader_open(alloc: Global, reader: &mut PwReader) -> u32
    ensures { OpensReader result reader.old.held.inner reader.new.held.inner }
{
    if reader.state == 1 {
        return ARGUMENT;
    }
    match Box::new(alloc, WorldReader::new(alloc)) {
        Ok(open) => {
            reader.put(open);
            OK
        }
        Err(_) => NO_MEMORY,
    }
}

/// Closes a reader that reads no world, and frees its memory. `SHARED` comes exactly if it reads one: then it stays open and reads on.
#[unsafe(no_mangle)]
pub extern "C" fn pw_reader_close(alloc: Global, reader: &mut PwReader) -> u32
    ensures closes { ClosesReader result reader.old.held.inner reader.new.held.inner }
    ensures zero { result ≢ SHARED → (reader.new.state ≡ 0) × (reader.new.held.at ≡ nowhere) }
{
    let Some(open) = reader.take(alloc) else {
        return CLOSED;
    };
    if open.is_reading() {
        reader.put(open);
        return SHARED;
    }
    OK
}

/// Gives an open world to an open reader that reads none, and others may join it. The world isn't open from then on, but read. `CLOSED`
/// comes exactly if the world or the reader isn't open, `SHARED` if both are and the reader reads a world.
#[unsafe(no_mangle)]
pub extern "C" fn pw_share(alloc: Global, world: &mut PwWorld, reader: &mut PwReader) -> u32
    ensures shares { Shares result (world.old.held.inner, reader.old.held.inner) (world.new.held.inner, reader.new.held.inner) }
    ensures zero { result ≡ OK → (world.new.state ≡ 0) × (world.new.held.at ≡ nowhere) }
{
    let Some(held) = world.take(alloc) else {
        return CLOSED;
    };
    let Some(mut open) = reader.take(alloc) else {
        world.put(held);
        return CLOSED;
    };
    if open.is_reading() {
        reader.put(open);
        world.put(held);
        return SHARED;
    }
    let shared = open.share(alloc, held);
    reader.put(open);
    match shared {
        Ok(()) => OK,
        Err(held) => {
            world.put(held);
            NO_MEMORY
        }
    }
}

/// Lets `other`, which is open and reads no world, read from now on what `reader` reads. They are two readers. `CLOSED` comes exactly if
/// one of them isn't open or `reader` reads no world, `SHARED` if `other` reads one. It takes no memory: `NO_MEMORY` comes only if 2^63
/// readers read that world.
#[unsafe(no_mangle)]
pub extern "C" fn pw_join(alloc: Global, reader: &mut PwReader, other: &mut PwReader) -> u32
    ensures { Joins result (reader.old.held.inner, other.old.held.inner) (reader.new.held.inner, other.new.held.inner) }
{
    let Some(open) = reader.take(alloc) else {
        return CLOSED;
    };
    let status = joined(alloc, &open, other);
    reader.put(open);
    status
}

// What joining an open reader comes to.
fn joined(alloc: Global, reader: &WorldReader, other: &mut PwReader) -> u32
    ensures { Joins result (Some reader.now, other.old.held.inner) (Some reader.now, other.new.held.inner) }
{
    if !reader.is_reading() {
        return CLOSED;
    }
    let Some(mut open) = other.take(alloc) else {
        return CLOSED;
    };
    if open.is_reading() {
        other.put(open);
        return SHARED;
    }
    let joined = open.join(reader);
    other.put(open);
    match joined {
        Ok(()) => OK,
        Err(_) => NO_MEMORY,
    }
}

/// Lets a reader read no world from now on. If it was the last reader of its world, that is open again in `world`, as it was when it was
/// shared, and the status is `OK`. If others read it still, `world` stays closed, and the status is `SHARED`. `ARGUMENT` comes exactly if
/// `world` is open, `CLOSED` if it isn't and the reader isn't open or reads none: then nothing changes. If several leave at once, just
/// one of them gets the world.
#[unsafe(no_mangle)]
pub extern "C" fn pw_unshare(alloc: Global, reader: &mut PwReader, world: &mut PwWorld) -> u32
    ensures { Unshares result (reader.old.held.inner, world.old.held.inner) (reader.new.held.inner, world.new.held.inner) }
{
    if world.state == 1 {
        return ARGUMENT;
    }
    let Some(mut open) = reader.take(alloc) else {
        return CLOSED;
    };
    if !open.is_reading() {
        reader.put(open);
        return CLOSED;
    }
    let left = open.leave();
    reader.put(open);
    match left {
        Some(held) => {
            world.put(held);
            OK
        }
        None => SHARED,
    }
}
