//! A reader of a world: how it gets one, passes it on and gives it back.

ghost use Rattle.std.specs.Prelude.{◌≡◌, None, Some, is_some, IfSome, IfErr, IsOk, OnOk, OnErr};

use fixed_box::NoMemory;
use held_world::{HeldRoom, HeldWorld};
use std::alloc::Global;
use std::marker::Model;
use std::sync::Arc;

/// One asker of a world that several may ask at once, each on a thread of its own. It has room of its own for answers, and reads one
/// world, or none.
///
/// A world that readers read is nobody's to change: `share` takes it, and `leave` of its last reader gives it back. A clause sees of a
/// reader the world that it reads. How many readers a world has is no part of that.
#[derive(Drop)]
pub struct WorldReader {
    pub(crate) world: Option<Arc<Box<HeldWorld>>>,
    pub(crate) room: HeldRoom,
}

impl Model for WorldReader {
    ghost use Rattle.std.specs.Prelude.{Option};
    ghost use Rattle.held_world.specs.declared.held.HeldWorld.{HeldWorld};
    ghost use Rattle.world_reader.specs.Shared.{shared_value};

    ghost Value = { Option HeldWorld };

    ghost view = { λ reader. shared_value reader.world };
}

impl WorldReader {
    /// A reader of no world. It takes no memory.
    pub fn new(alloc: Global) -> WorldReader
        ensures { result ≡ None }
    {
        WorldReader {
            world: None,
            room: HeldRoom::new(alloc),
        }
    }

    /// Whether it reads a world.
    pub fn is_reading(&self) -> bool
        ensures { result ≡ is_some self.now }
    {
        self.world.is_some()
    }

    /// It reads this world from now on, which others may join. If there is no memory for that, a few words, it gives the world back.
    pub fn share(&mut self, alloc: Global, held: Box<HeldWorld>) -> Result<(), Box<HeldWorld>>
        requires reads_none { self.old ≡ None }
        ensures ok { OnOk result (self.new ≡ Some held.value) }
        ensures err { IfErr result (λ back. back.value ≡ held.value) }
        ensures same { OnErr result (self.new ≡ self.old) }
    {
        match Arc::new(alloc, held) {
            Ok(world) => {
                self.world = Some(world);
                Ok(())
            }
            Err(refused) => Err(refused.value),
        }
    }

    /// It reads from now on what another reads. It takes no memory: `NoMemory` comes only if 2^63 readers read that world.
    pub fn join(&mut self, other: &WorldReader) -> Result<(), NoMemory>
        requires reads_none { self.old ≡ None }
        ensures ok { OnOk result (self.new ≡ other.now) }
        ensures err { OnErr result (self.new ≡ self.old) }
        ensures nothing { other.now ≡ None → IsOk result }
    {
        let Some(world) = &other.world else {
            return Ok(());
        };
        match Arc::try_clone(world) {
            Ok(world) => {
                self.world = Some(world);
                Ok(())
            }
            Err(_) => Err(NoMemory),
        }
    }

    /// It reads no world from now on. The last reader of a world gives it back, as it was when it was shared; `None` comes while others
    /// read it, or if it read none. If several leave at once, just one of them is the last.
    pub fn leave(&mut self) -> Option<Box<HeldWorld>>
        ensures left { self.new ≡ None }
        ensures back { IfSome result (λ held. Some held.value ≡ self.old) }
    {
        match self.world.take() {
            Some(world) => Arc::into_inner(world),
            None => None,
        }
    }
}
