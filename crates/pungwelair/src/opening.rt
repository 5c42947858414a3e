//! The exports that open a world and close it.

ghost use Rattle.std.specs.Prelude.{◌≡◌, ◌⊎◌, true, None, Some, is_some, IfOk, IfErr};
ghost use Rattle.box_world.specs.Answers.{opened};
ghost use Rattle.any_world.specs.AnyWorld.{state_of, structure_of};
ghost use Rattle.held_world.specs.declared.TheConstants.{NO_MEMORY, ARGUMENT};
ghost use Rattle.held_world.specs.Plain.{structure_in};
ghost use Rattle.pungwelair.specs.Exports.{Opens, closing};
ghost use Rattle.pungwelair.specs.Held.{nowhere};

use crate::world::PwWorld;
use held_world::{ARGUMENT, CLOSED, HeldWorld, NO_MEMORY, OK};
use std::alloc::Global;

/// Opens a closed world over the structure of this number, with no box. `ARGUMENT` comes exactly where the world is open or none has
/// the number.
#[unsafe(no_mangle)]
pub extern "C" fn pw_open(alloc: Global, world: &mut PwWorld, structure: u32) -> u32
    ensures { Opens structure result world.old.held.inner world.new.held.inner }
{
    if world.state == 1 {
        return ARGUMENT;
    }
    match boxed(alloc, structure) {
        Ok(held) => {
            world.put(held);
            OK
        }
        Err(status) => status,
    }
}

// The opening world, or why there is none.
fn boxed(alloc: Global, structure: u32) -> Result<Box<HeldWorld>, u32>
    ensures opened { IfOk result (λ held. state_of held.value.world ≡ opened) }
    ensures named { IfOk result (λ held. structure_in structure ≡ Some (structure_of held.value.world)) }
    ensures err { IfErr result (λ status. ((status ≡ ARGUMENT) × (structure_in structure ≡ None))
        ⊎ ((status ≡ NO_MEMORY) × (is_some (structure_in structure) ≡ true))) }
{
    let made = HeldWorld::new(alloc, structure)?;
    match Box::new(alloc, made) {
        Ok(held) => Ok(held),
        Err(_) => Err(NO_MEMORY),
    }
}

/// Closes a world and frees its memory. It may be opened again.
#[unsafe(no_mangle)]
pub extern "C" fn pw_close(alloc: Global, world: &mut PwWorld) -> u32
    ensures closed { world.new.held.inner ≡ None }
    ensures zero { (world.new.state ≡ 0) × (world.new.held.at ≡ nowhere) }
    ensures status { result ≡ closing world.old.held.inner }
{
    match world.take(alloc) {
        Some(_held) => OK,
        None => CLOSED,
    }
}
