//! What a world tells of itself as plain structs: one live box, and its numbers.

ghost use Rattle.std.specs.Prelude.{◌≡◌, ◌≤◌, false, None, option_map};
ghost use Rattle.fixed_box.specs.declared.TheConstants.{SLOTS};
ghost use Rattle.live_table.specs.Entries.{entry_at, live_at};
ghost use Rattle.any_world.specs.AnyWorld.{state_of, structure_of, runs_out};
ghost use Rattle.held_world.specs.Plain.{handle_in, live_out, placed_out};
ghost use Rattle.held_world.specs.Reading.{info_of};

use crate::HeldWorld;
use crate::plain::{PwHandle, PwLive, handle_of, handle_out, live_out, structure_out};

/// How many pairs the frame that ended last has, how many events, and how many pairs began or were over in it.
#[repr(C)]
#[derive(Clone, Copy)]
pub struct PwCounts {
    pub pairs: usize,
    pub events: usize,
    pub changes: usize,
}

/// What a world is: its structure's number, whether it is spent (1, or 0), the numbers of its live boxes, of the marks that are held
/// and of the frames that ended, and the exchanges of endpoints since the last frame, where its structure counts them.
#[repr(C)]
#[derive(Clone, Copy)]
pub struct PwInfo {
    pub structure: u32,
    pub spent: u32,
    pub boxes: u32,
    pub marks: u32,
    pub frames: u64,
    pub exchanges: u64,
}

impl HeldWorld {
    /// The live box with the handle, and `None` where no live box has it.
    pub fn get(&self, handle: &PwHandle) -> Option<PwLive>
        ensures { result ≡ option_map live_out (entry_at (handle_in handle.now) (state_of self.now.world).time.now.table.entries) }
    {
        match self.world.get(handle_of(handle)) {
            Some(live) => Some(live_out(&live)),
            None => None,
        }
    }

    /// The live box in a slot with its handle, and `None` where no live box has it, as in none from `SLOTS` on.
    pub fn at(&self, slot: u32) -> Option<(PwHandle, PwLive)>
        ensures at { result ≡ option_map placed_out (live_at slot (state_of self.now.world).time.now.table.entries) }
        ensures past { SLOTS ≤ slot → result ≡ None }
    {
        match self.world.at(slot) {
            Some(live) => Some((handle_out(&live.handle), live_out(&live))),
            None => None,
        }
    }

    /// What the world is. A spent world has no exchanges, and over the tree, the grid or skins none is spent.
    pub fn info(&self) -> PwInfo
        ensures told { result ≡ info_of self.now.world }
        ensures lasting { runs_out (structure_of self.now.world) ≡ false → result.spent ≡ 0 }
    {
        PwInfo {
            structure: structure_out(self.world.structure()),
            spent: u32::from(self.world.is_spent()),
            boxes: self.world.len(),
            marks: self.world.held(),
            frames: self.world.frames(),
            exchanges: self.world.exchanges(),
        }
    }
}
