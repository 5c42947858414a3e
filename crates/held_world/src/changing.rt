//! The calls that change a world once: other masks, another owner, the end of a frame, a mark, the end of old marks and a way back.

ghost use Rattle.std.specs.Prelude.{◌≡◌, ◌≢◌, ◌↔◌, ◌<◌, ◌+◌, [], true, false, None, length};
ghost use Rattle.box_world.specs.World.{masked, regrouped, marked, forgotten, gone_back};
ghost use Rattle.box_world.specs.Answers.{with_world, with_time, after_frame, change_refusal, frame_refusal};
ghost use Rattle.any_world.specs.AnyWorld.{state_of, structure_of};
ghost use Rattle.held_world.specs.declared.TheConstants.{OK, NO_MEMORY, NO_MARK};
ghost use Rattle.held_world.specs.Plain.{handle_in, masks_in, group_in};
ghost use Rattle.held_world.specs.Tells.{Tells, mark_refusal};

use crate::answers::{status, status_of};
use crate::plain::{PwGroup, PwHandle, PwMasks, group_of, handle_of, masks_of};
use crate::reading::PwCounts;
use crate::{FULL, HeldWorld, NO_MARK, OK};

impl HeldWorld {
    /// The handle's box gets other masks. It takes memory only where a mark is held.
    pub fn mask(&mut self, handle: &PwHandle, masks: &PwMasks) -> u32
        ensures answer { let old = state_of self.old.world in let world = old.time.now in
            Tells (change_refusal world (handle_in handle.now)) (with_world old (masked world (handle_in handle.now) (masks_in masks.now)))
            result old (state_of self.new.world) }
        ensures unmarked { let old = state_of self.old.world in old.spent ≡ false → old.time.marks ≡ [] → result ≢ NO_MEMORY }
        ensures same { result ≢ OK → state_of self.new.world ≡ state_of self.old.world }
        ensures structure { structure_of self.new.world ≡ structure_of self.old.world }
    {
        status(&self.world.mask(handle_of(handle), masks_of(masks)))
    }

    /// The handle's box gets another owner and fixed mark. It takes memory only where a mark is held.
    pub fn regroup(&mut self, handle: &PwHandle, group: &PwGroup) -> u32
        ensures answer { let old = state_of self.old.world in let world = old.time.now in
            Tells (change_refusal world (handle_in handle.now)) (with_world old (regrouped world (handle_in handle.now) (group_in group.now)))
            result old (state_of self.new.world) }
        ensures unmarked { let old = state_of self.old.world in old.spent ≡ false → old.time.marks ≡ [] → result ≢ NO_MEMORY }
        ensures same { result ≢ OK → state_of self.new.world ≡ state_of self.old.world }
        ensures structure { structure_of self.new.world ≡ structure_of self.old.world }
    {
        status(&self.world.regroup(handle_of(handle), group_of(group)))
    }

    /// The frame ends, and `counts` tells how many pairs, events and changes it has: none where it doesn't end, and then all is as before.
    pub fn update(&mut self, counts: &mut PwCounts) -> u32
        ensures answer { let old = state_of self.old.world in
            Tells (frame_refusal old.time.now) (after_frame old) result old (state_of self.new.world) }
        ensures counts { let new = state_of self.new.world in
            result ≡ OK → counts.new ≡ record {
              pairs = length new.time.now.last;
              events = length new.told;
              changes = length new.began + length new.over;
            } }
        ensures none { result ≢ OK → counts.new ≡ record { pairs = 0; events = 0; changes = 0 } }
        ensures same { result ≢ OK → state_of self.new.world ≡ state_of self.old.world }
        ensures structure { structure_of self.new.world ≡ structure_of self.old.world }
    {
        match self.world.update() {
            Ok(_) => {
                *counts = PwCounts {
                    pairs: self.world.pairs().len(),
                    events: self.world.events().len(),
                    changes: self.world.began().len() + self.world.over().len(),
                };
                OK
            }
            Err(refusal) => {
                *counts = PwCounts {
                    pairs: 0,
                    events: 0,
                    changes: 0,
                };
                status_of(refusal)
            }
        }
    }

    /// Marks the world as it stands. `FULL` comes where `MOST_MARKS` are held. It takes no memory: `NO_MEMORY` comes where the world is
    /// spent. After any status but `OK` all is as before.
    pub fn mark(&mut self) -> u32
        ensures answer { let old = state_of self.old.world in
            Tells (mark_refusal old.time) (with_time old (marked old.time)) result old (state_of self.new.world) }
        ensures spent { result ≡ NO_MEMORY → (state_of self.old.world).spent ≡ true }
        ensures same { result ≢ OK → state_of self.new.world ≡ state_of self.old.world }
        ensures structure { structure_of self.new.world ≡ structure_of self.old.world }
    {
        match self.world.mark() {
            Ok(true) => OK,
            Ok(false) => FULL,
            Err(refusal) => status_of(refusal),
        }
    }

    /// Gives up the oldest marks, so many of them: the world as it stands and the newer marks are as before. `NO_MARK` comes where fewer are
    /// held. It takes no memory: `NO_MEMORY` comes where the world is spent. After any status but `OK` all is as before.
    pub fn forget(&mut self, count: u32) -> u32
        ensures no_mark { let old = state_of self.old.world in (result ≡ NO_MARK) ↔ ((old.spent ≡ false) × (length old.time.marks < count)) }
        ensures answer { let old = state_of self.old.world in
            result ≢ NO_MARK → Tells None (with_time old (forgotten count old.time)) result old (state_of self.new.world) }
        ensures spent { result ≡ NO_MEMORY → (state_of self.old.world).spent ≡ true }
        ensures same { result ≢ OK → state_of self.new.world ≡ state_of self.old.world }
        ensures structure { structure_of self.new.world ≡ structure_of self.old.world }
    {
        match self.world.forget(count) {
            Ok(true) => OK,
            Ok(false) => NO_MARK,
            Err(refusal) => status_of(refusal),
        }
    }

    /// Goes back to the newest mark, which is then gone. `NO_MARK` comes where none is held, and then nothing changes.
    pub fn back(&mut self) -> u32
        ensures no_mark { let old = state_of self.old.world in (result ≡ NO_MARK) ↔ ((old.spent ≡ false) × (old.time.marks ≡ [])) }
        ensures kept { result ≡ NO_MARK → state_of self.new.world ≡ state_of self.old.world }
        ensures answer { let old = state_of self.old.world in
            result ≢ NO_MARK → Tells None (with_time old (gone_back old.time)) result old (state_of self.new.world) }
        ensures structure { structure_of self.new.world ≡ structure_of self.old.world }
    {
        match self.world.back() {
            Ok(true) => OK,
            Ok(false) => NO_MARK,
            Err(refusal) => status_of(refusal),
        }
    }
}
