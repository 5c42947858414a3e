//! What the world that a reader reads tells without a search: a live box, the last frame's pairs, events and changes, and its numbers.

ghost use Rattle.std.specs.Prelude.{◌≡◌, ◌≤◌, false, Ok, Err, ok_or, option_map};
ghost use Rattle.fixed_box.specs.declared.TheConstants.{SLOTS};
ghost use Rattle.live_table.specs.Entries.{entry_at, live_at};
ghost use Rattle.any_world.specs.AnyWorld.{state_of, structure_of, runs_out};
ghost use Rattle.held_world.specs.declared.TheConstants.{OK, STALE, CLOSED};
ghost use Rattle.held_world.specs.Copies.{Copies};
ghost use Rattle.held_world.specs.Plain.{handle_in, live_out, pair_out, placed_out, told_out};
ghost use Rattle.held_world.specs.Reading.{changes_of, info_of};
ghost use Rattle.world_reader.specs.Reads.{Reads, ReadsNone};

use crate::answers::reads_none;
use crate::reader::WorldReader;
use held_world::{CLOSED, OK, PwHandle, PwInfo, PwLive, PwPair, PwTold, Reply, STALE};

// These take no room of the reader's, so that a `&` to it is enough. They take no memory, and answer in a spent world too.
impl WorldReader {
    /// The live box with the handle. `STALE` comes if no live box has it, and here and below `CLOSED` if the reader reads no world.
    pub fn get(&self, handle: &PwHandle) -> Result<PwLive, u32>
        ensures { Reads (λ read. result
            ≡ ok_or (option_map live_out (entry_at (handle_in handle.now) (state_of read.world).time.now.table.entries)) STALE)
            (result ≡ Err CLOSED) self.now }
    {
        match &self.world {
            Some(held) => held.get(handle).ok_or(STALE),
            None => Err(CLOSED),
        }
    }

    /// The live box in a slot with its handle. `STALE` comes if no live box is there, as in each slot from `SLOTS` on.
    pub fn at(&self, slot: u32) -> Result<(PwHandle, PwLive), u32>
        ensures at { Reads (λ read. result ≡ ok_or (option_map placed_out (live_at slot (state_of read.world).time.now.table.entries)) STALE)
            (result ≡ Err CLOSED) self.now }
        ensures past { SLOTS ≤ slot → Reads (λ _. result ≡ Err STALE) (result ≡ Err CLOSED) self.now }
    {
        match &self.world {
            Some(held) => held.at(slot).ok_or(STALE),
            None => Err(CLOSED),
        }
    }

    /// Copies the pairs of the last frame from number `from` on, as many as there is room for, and tells how many those are. After
    /// `CLOSED` the count is 0 and `out` is as before, here and below.
    pub fn copy_pairs(&self, from: usize, out: &mut [PwPair]) -> Reply
        ensures { Reads (λ read. Copies pair_out from (state_of read.world).time.now.last result out.old out.new)
            (ReadsNone result out.old out.new) self.now }
    {
        match &self.world {
            Some(held) => copied(held.copy_pairs(from, out)),
            None => reads_none(),
        }
    }

    /// The same for the events of the last frame. It takes a step for each event before `from` too.
    pub fn copy_events(&self, from: usize, out: &mut [PwTold]) -> Reply
        ensures { Reads (λ read. Copies told_out from (state_of read.world).told result out.old out.new)
            (ReadsNone result out.old out.new) self.now }
    {
        match &self.world {
            Some(held) => copied(held.copy_events(from, out)),
            None => reads_none(),
        }
    }

    /// The same for what changed in the last frame: `BEGIN` of each pair that began, and then `OVER` of each that was over.
    pub fn copy_changes(&self, from: usize, out: &mut [PwTold]) -> Reply
        ensures { Reads (λ read. Copies told_out from (changes_of (state_of read.world)) result out.old out.new)
            (ReadsNone result out.old out.new) self.now }
    {
        match &self.world {
            Some(held) => copied(held.copy_changes(from, out)),
            None => reads_none(),
        }
    }

    /// What the world is that it reads. Over the tree, the grid or skins none is spent.
    pub fn info(&self) -> Result<PwInfo, u32>
        ensures told { Reads (λ read. result ≡ Ok (info_of read.world)) (result ≡ Err CLOSED) self.now }
        ensures lasting { Reads (λ read. runs_out (structure_of read.world) ≡ false → (info_of read.world).spent ≡ 0)
            (result ≡ Err CLOSED) self.now }
    {
        match &self.world {
            Some(held) => Ok(held.info()),
            None => Err(CLOSED),
        }
    }
}

// So many items were copied.
fn copied(count: usize) -> Reply
    ensures { result ≡ record { status = OK; count = count } }
{
    Reply { status: OK, count }
}
