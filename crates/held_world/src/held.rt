//! The world behind a caller in C, and its batches of boxes that come, move and go.

ghost use Rattle.std.specs.Prelude.{◌≡◌, ◌≢◌, ◌↔◌, ◌⊎◌, ◌<◌, ◌≤◌, ◌-◌, ◌++◌, [], false, min, length, map, zip, take, drop};
ghost use Rattle.std.specs.Prelude.{Some, None, Err, IfOk, IfErr};
ghost use Rattle.box_world.specs.Answers.{opened};
ghost use Rattle.box_world.specs.World.{pairs};
ghost use Rattle.any_world.specs.AnyWorld.{state_of, structure_of, counts_of};
ghost use Rattle.live_table.specs.Table.{next_handle};
ghost use Rattle.held_world.specs.declared.TheConstants.{NO_MEMORY, ARGUMENT};
ghost use Rattle.held_world.specs.Asks.{AsksPairs};
ghost use Rattle.held_world.specs.Batches.{IsBatch};
ghost use Rattle.held_world.specs.Changes.{adds, moves, removes, handles_given};
ghost use Rattle.held_world.specs.Copies.{copied};
ghost use Rattle.held_world.specs.Plain.{handle_out, pair_out, told_out, structure_in};
ghost use Rattle.held_world.specs.Reading.{changes_of};
ghost use Rattle.held_world.specs.Steps.{Stepped};

use crate::answers::status_of;
use crate::copying::{copy_pairs, copy_told};
use crate::plain::{body_of, handle_of, handle_out, structure_of};
use crate::room::HeldRoom;
use crate::{ARGUMENT, INVERTED, NO_MEMORY, OK, PwBox, PwHandle, PwPair, PwTold, Reply};
use any_world::AnyWorld;
use live_table::{Group, Handle, Masks};
use pair_events::Events;
use std::alloc::Global;

/// What stands behind a world that C holds: the world, and room for the answers to the questions that bring none.
///
/// A batch does its steps in order, up to the first that is refused, whose status it tells with the number of those before it.
/// Those stay done, and where memory runs out in a step and spends the world, that step isn't done: the world has what those before it
/// made.
#[derive(Drop)]
pub struct HeldWorld {
    pub world: AnyWorld,
    pub room: HeldRoom,
}

impl HeldWorld {
    /// The opening world over the structure of this number. `ARGUMENT` comes where none has it, and else only `NO_MEMORY`.
    pub fn new(alloc: Global, structure: u32) -> Result<HeldWorld, u32>
        ensures opened { IfOk result (λ held. state_of held.world ≡ opened) }
        ensures named { IfOk result (λ held. structure_in structure ≡ Some (structure_of held.world)) }
        ensures argument { (result ≡ Err ARGUMENT) ↔ (structure_in structure ≡ None) }
        ensures err { IfErr result (λ status. (status ≡ ARGUMENT) ⊎ (status ≡ NO_MEMORY)) }
    {
        let Some(structure) = structure_of(structure) else {
            return Err(ARGUMENT);
        };
        match AnyWorld::new(alloc, structure) {
            Ok(world) => Ok(HeldWorld {
                world,
                room: HeldRoom::new(alloc),
            }),
            Err(_) => Err(NO_MEMORY),
        }
    }

    /// Boxes come, in order, with the same masks and group. The handles of those that came are the first of `out`; the rest of it
    /// is as before. `ARGUMENT` comes where `out` has less room than there are boxes, and then nothing changes.
    pub fn add_all(
        &mut self,
        boxes: &[PwBox],
        masks: Masks,
        group: Group,
        out: &mut [PwHandle],
    ) -> Reply
        ensures short { length out.old < length boxes.now
            → (result ≡ record { status = ARGUMENT; count = 0 }) × (state_of self.new.world ≡ state_of self.old.world) × (out.new ≡ out.old) }
        ensures added { length boxes.now ≤ length out.old → IsBatch (adds (counts_of self.old.world) masks group) boxes.now
            result.count result.status (state_of self.old.world) (state_of self.new.world) }
        ensures handles { let given = handles_given (counts_of self.old.world) masks group (state_of self.old.world).time.now boxes.now in
            length boxes.now ≤ length out.old → out.new ≡ map handle_out (take result.count given) ++ drop result.count out.old }
        ensures structure { structure_of self.new.world ≡ structure_of self.old.world }
        ensures room { self.new.room ≡ self.old.room }
    {
        if out.len() < boxes.len() {
            return Reply {
                status: ARGUMENT,
                count: 0,
            };
        }
        let mut count = 0;
        let mut rest = boxes;
        'adds: while let Some((next, more)) = rest.split_first() {
            match self.add(next, masks, group) {
                Ok(handle) => out[count] = handle_out(&handle),
                Err(status) => return Reply { status, count },
            }
            count += 1;
            rest = more;
        }
        Reply { status: OK, count }
    }

    /// Boxes move, in order, each with its handle. `ARGUMENT` comes where there are more of the one than of the other, and then
    /// nothing changes.
    pub fn move_all(&mut self, handles: &[PwHandle], boxes: &[PwBox]) -> Reply
        ensures uneven { length handles.now ≢ length boxes.now
            → (result ≡ record { status = ARGUMENT; count = 0 }) × (state_of self.new.world ≡ state_of self.old.world) }
        ensures moved { length handles.now ≡ length boxes.now → IsBatch (moves (counts_of self.old.world)) (zip handles.now boxes.now)
            result.count result.status (state_of self.old.world) (state_of self.new.world) }
        ensures structure { structure_of self.new.world ≡ structure_of self.old.world }
        ensures room { self.new.room ≡ self.old.room }
    {
        if handles.len() != boxes.len() {
            return Reply {
                status: ARGUMENT,
                count: 0,
            };
        }
        let mut count = 0;
        let mut rest = handles;
        'moves: while let Some((next, more)) = rest.split_first() {
            match self.shift(next, &boxes[count]) {
                Ok(()) => {}
                Err(status) => return Reply { status, count },
            }
            count += 1;
            rest = more;
        }
        Reply { status: OK, count }
    }

    /// Boxes go, in order. It takes memory only where a mark is held, and no world is spent by it.
    pub fn remove_all(&mut self, handles: &[PwHandle]) -> Reply
        ensures removed { IsBatch removes handles.now result.count result.status (state_of self.old.world) (state_of self.new.world) }
        ensures unmarked { let old = state_of self.old.world in old.spent ≡ false → old.time.marks ≡ [] → result.status ≢ NO_MEMORY }
        ensures spent { (state_of self.new.world).spent ≡ (state_of self.old.world).spent }
        ensures structure { structure_of self.new.world ≡ structure_of self.old.world }
        ensures room { self.new.room ≡ self.old.room }
    {
        let mut count = 0;
        let mut rest = handles;
        'removes: while let Some((next, more)) = rest.split_first() {
            match self.remove(next) {
                Ok(()) => {}
                Err(status) => return Reply { status, count },
            }
            count += 1;
            rest = more;
        }
        Reply { status: OK, count }
    }

    /// Copies the pairs of the last frame from number `from` on, as many as there is room for, and answers how many those are.
    pub fn copy_pairs(&self, from: usize, out: &mut [PwPair]) -> usize
        ensures copied { out.new ≡ copied pair_out (drop from (state_of self.now.world).time.now.last) out.old }
        ensures count { result ≡ min (length (state_of self.now.world).time.now.last - from) (length out.old) }
    {
        copy_pairs(self.world.pairs(), from, out)
    }

    /// Tells how many pairs the frame would have if it ended now, and copies them from number `from` on, as many as there is room for.
    /// The frame goes on. After any status but `OK` the count is 0 and `out` is as before. It searches as a frame's end does.
    pub fn pairs_now(&mut self, from: usize, out: &mut [PwPair]) -> Reply
        ensures told { let old = state_of self.old.world in AsksPairs (pairs old.time.now) from old.spent result out.old out.new }
        ensures same { state_of self.new.world ≡ state_of self.old.world }
        ensures structure { structure_of self.new.world ≡ structure_of self.old.world }
    {
        self.room.pairs.clear();
        match self.world.current_pairs(&mut self.room.pairs) {
            Ok(()) => {
                copy_pairs(&self.room.pairs, from, out);
                Reply {
                    status: OK,
                    count: self.room.pairs.len(),
                }
            }
            Err(_) => Reply {
                status: NO_MEMORY,
                count: 0,
            },
        }
    }

    /// Copies what was told of the last frame that ended from number `from` on, as many as there is room for, and answers how many
    /// those are. It takes a step for each event before `from` too.
    pub fn copy_events(&self, from: usize, out: &mut [PwTold]) -> usize
        ensures copied { out.new ≡ copied told_out (drop from (state_of self.now.world).told) out.old }
        ensures count { result ≡ min (length (state_of self.now.world).told - from) (length out.old) }
    {
        copy_told(self.world.events(), from, out)
    }

    /// Copies what changed in the last frame that ended from number `from` on, as many as there is room for, and answers how many those
    /// are: `BEGIN` of each pair that began, in the order of the pairs, and then `OVER` of each that was over. It takes a step for each
    /// change before `from` too, and none for a pair that stayed.
    pub fn copy_changes(&self, from: usize, out: &mut [PwTold]) -> usize
        ensures copied { out.new ≡ copied told_out (drop from (changes_of (state_of self.now.world))) out.old }
        ensures count { result ≡ min (length (changes_of (state_of self.now.world)) - from) (length out.old) }
    {
        let changes = Events::of_changes(self.world.began(), self.world.over());
        copy_told(changes, from, out)
    }

    // One box comes.
    fn add(&mut self, body: &PwBox, masks: Masks, group: Group) -> Result<Handle, u32>
        ensures step { Stepped (adds (counts_of self.old.world) masks group) body.now result (state_of self.old.world) (state_of self.new.world) }
        ensures handle { IfOk result (λ handle. handle ≡ next_handle (state_of self.old.world).time.now.table) }
        ensures structure { structure_of self.new.world ≡ structure_of self.old.world }
        ensures room { self.new.room ≡ self.old.room }
    {
        let Some(body) = body_of(body) else {
            if self.world.is_spent() {
                return Err(NO_MEMORY);
            }
            return Err(INVERTED);
        };
        self.world.add(body, masks, group).map_err(status_of)
    }

    // One box moves.
    fn shift(&mut self, handle: &PwHandle, body: &PwBox) -> Result<(), u32>
        ensures step { Stepped (moves (counts_of self.old.world)) (handle.now, body.now) result (state_of self.old.world) (state_of self.new.world) }
        ensures structure { structure_of self.new.world ≡ structure_of self.old.world }
        ensures room { self.new.room ≡ self.old.room }
    {
        let Some(body) = body_of(body) else {
            if self.world.is_spent() {
                return Err(NO_MEMORY);
            }
            return Err(INVERTED);
        };
        match self.world.shift(handle_of(handle), body) {
            Ok(()) => Ok(()),
            Err(refusal) => Err(status_of(refusal)),
        }
    }

    // One box goes.
    fn remove(&mut self, handle: &PwHandle) -> Result<(), u32>
        ensures step { Stepped removes handle.now result (state_of self.old.world) (state_of self.new.world) }
        ensures unmarked { let old = state_of self.old.world in old.spent ≡ false → old.time.marks ≡ [] → result ≢ Err NO_MEMORY }
        ensures spent { (state_of self.new.world).spent ≡ (state_of self.old.world).spent }
        ensures structure { structure_of self.new.world ≡ structure_of self.old.world }
        ensures room { self.new.room ≡ self.old.room }
    {
        self.world.remove(handle_of(handle)).map_err(status_of)
    }
}
