//! The player's world, and what each command makes of it.

ghost use Rattle.std.specs.Prelude.{◌≡◌, ◌≢◌, ◌++◌, ◌<◌, Bool, false, Some, length, Ok, OnOk, OnErr, IfOk};
ghost use Rattle.fixed_box.specs.declared.TheConstants.{SLOTS};
ghost use Rattle.live_table.specs.Table.{IsTable};
ghost use Rattle.broad_index.specs.Fresh.{IsFresh};
ghost use Rattle.box_world.specs.Answers.{add_refusal, shift_refusal, frame_refusal, after_frame};
ghost use Rattle.box_world.specs.World.{pairs};
ghost use Rattle.box_world.specs.declared.refusal.Refusal.TheVariants.{Exhausted};
ghost use Rattle.play_rules.specs.World.{opening, after, allowed, reply, shown};
ghost use Rattle.frame_player.specs.FrameText.{shown_number};
ghost use Rattle.frame_player.specs.Outlet.{IsAppended};
ghost use Rattle.frame_player.specs.Deed.{changing};
ghost use Rattle.frame_player.specs.Player.{world_of, live_in, HasRoom};
ghost use Rattle.scene_words.specs.declared.command.Command.{Command};

use crate::deed::Change;
use crate::frame_text::send_frame;
use crate::report::Report;
use crate::setup::Setup;
use box_world::{BoxWorld, Refusal, stale_law};
use broad_index::{BroadPhase, Gate};
use fixed_box::{FBox, NoMemory};
use live_table::{Group, Handle, Masks};
use pair_report::{HandleTexts, put_add, put_back, put_mark, put_nomark, put_stale};
use play_io::{Sink, SinkFault};
use scene_words::Version;
use std::alloc::Global;
use std::thread::Threads;

// The state of a play between two lines.
#[derive(Drop)]
pub(crate) struct Player<B: BroadPhase + Drop> {
    pub alloc: Global,
    pub world: BoxWorld<B>,
    pub version: Option<Version>,
    // What the handles of events were printed as.
    pub texts: HandleTexts,
}

impl<B: BroadPhase + Drop> Player<B> {
    // The opening world.
    pub(crate) fn new(alloc: Global, index: B) -> Result<Player<B>, NoMemory>
        requires { IsFresh (B.bodies index) (B.spent index) (B.exchanges index) }
        ensures opening { IfOk result (λ player. world_of player.version player.world ≡ opening) }
        ensures sound { IfOk result (λ player. player.world.spent ≡ false) }
    {
        let world = BoxWorld::new(alloc, index)?;
        Ok(Player {
            alloc,
            world,
            version: None,
            texts: HandleTexts::new(alloc),
        })
    }

    // The number of live boxes.
    pub(crate) fn live(&self) -> u32
        ensures live { result ≡ length (live_in self.now.world) }
        ensures table { IsTable self.now.world.time.now.table }
    {
        let _table = self.world.table();
        self.world.len()
    }

    // Changes the world, and appends the reply of at most one line.
    pub(crate) fn change(&mut self, change: &Change, out: &mut Vec<u8>) -> Result<(), NoMemory>
        requires sound { self.old.world.spent ≡ false }
        requires allowed { allowed (world_of self.old.version self.old.world) (Ok (changing change.now)) ≡ Ok (changing change.now) }
        requires room { HasRoom self.old.world.time.now }
        ensures obeyed { OnOk result (world_of self.new.version self.new.world
            ≡ after B.COUNTS (world_of self.old.version self.old.world) (changing change.now)) }
        ensures sound { OnOk result (self.new.world.spent ≡ false) }
        ensures text { (shows : Bool) → OnOk result (out.new.items ≡ out.old.items
            ++ reply shows (world_of self.old.version self.old.world) (changing change.now)) }
        ensures err { OnErr result (out.new.items ≡ out.old.items) }
    {
        match *change {
            Change::Header { version } => {
                self.version = Some(version);
                Ok(())
            }
            Change::Add { body, masks, group } => self.add(body, masks, group, out),
            Change::Move { handle, body } => self.shift(handle, body, out),
            Change::Mask { handle, masks } => self.mask(handle, masks, out),
            Change::Remove { handle } => self.remove(handle, out),
            Change::Mark => self.mark(out),
            Change::Back => self.back(out),
        }
    }

    // A new box under the least free slot.
    fn add(
        &mut self,
        body: FBox,
        masks: Masks,
        group: Group,
        out: &mut Vec<u8>,
    ) -> Result<(), NoMemory>
        requires sound { self.old.world.spent ≡ false }
        requires free { length self.old.world.time.now.table.entries < SLOTS }
        requires room { add_refusal self.old.world.time.now ≢ Some Exhausted }
        ensures obeyed { OnOk result (world_of self.new.version self.new.world
            ≡ after B.COUNTS (world_of self.old.version self.old.world) (Command.Add body masks group)) }
        ensures sound { OnOk result (self.new.world.spent ≡ false) }
        ensures text { OnOk result (out.new.items ≡ out.old.items
            ++ reply false (world_of self.old.version self.old.world) (Command.Add body masks group)) }
        ensures err { OnErr result (out.new.items ≡ out.old.items) }
    {
        match self.world.add(body, masks, group) {
            Ok(handle) => put_add(handle, out),
            Err(Refusal::NoMemory) => Err(NoMemory),
            Err(_) => unreachable!(),
        }
    }

    // The handle's box gets another body.
    fn shift(&mut self, handle: Handle, body: FBox, out: &mut Vec<u8>) -> Result<(), NoMemory>
        requires sound { self.old.world.spent ≡ false }
        requires room { shift_refusal self.old.world.time.now handle ≢ Some Exhausted }
        ensures obeyed { OnOk result (world_of self.new.version self.new.world
            ≡ after B.COUNTS (world_of self.old.version self.old.world) (Command.Move handle body)) }
        ensures sound { OnOk result (self.new.world.spent ≡ false) }
        ensures text { OnOk result (out.new.items ≡ out.old.items ++ reply false (world_of self.old.version self.old.world) (Command.Move handle body)) }
        ensures err { OnErr result (out.new.items ≡ out.old.items) }
    {
        stale_law();
        match self.world.shift(handle, body) {
            Ok(()) => Ok(()),
            Err(Refusal::Stale) => put_stale(handle, out),
            Err(Refusal::NoMemory) => Err(NoMemory),
            Err(_) => unreachable!(),
        }
    }

    // The handle's box gets other masks.
    fn mask(&mut self, handle: Handle, masks: Masks, out: &mut Vec<u8>) -> Result<(), NoMemory>
        requires sound { self.old.world.spent ≡ false }
        ensures obeyed { OnOk result (world_of self.new.version self.new.world
            ≡ after B.COUNTS (world_of self.old.version self.old.world) (Command.Mask handle masks)) }
        ensures sound { OnOk result (self.new.world.spent ≡ false) }
        ensures text { OnOk result (out.new.items ≡ out.old.items ++ reply false (world_of self.old.version self.old.world) (Command.Mask handle masks)) }
        ensures err { OnErr result (out.new.items ≡ out.old.items) }
    {
        stale_law();
        match self.world.mask(handle, masks) {
            Ok(()) => Ok(()),
            Err(Refusal::Stale) => put_stale(handle, out),
            Err(Refusal::NoMemory) => Err(NoMemory),
            Err(_) => unreachable!(),
        }
    }

    // The handle's box goes.
    fn remove(&mut self, handle: Handle, out: &mut Vec<u8>) -> Result<(), NoMemory>
        requires sound { self.old.world.spent ≡ false }
        ensures obeyed { OnOk result (world_of self.new.version self.new.world
            ≡ after B.COUNTS (world_of self.old.version self.old.world) (Command.Remove handle)) }
        ensures sound { OnOk result (self.new.world.spent ≡ false) }
        ensures text { OnOk result (out.new.items ≡ out.old.items ++ reply false (world_of self.old.version self.old.world) (Command.Remove handle)) }
        ensures err { OnErr result (out.new.items ≡ out.old.items) }
    {
        stale_law();
        match self.world.remove(handle) {
            Ok(()) => Ok(()),
            Err(Refusal::Stale) => put_stale(handle, out),
            Err(Refusal::NoMemory) => Err(NoMemory),
            Err(_) => unreachable!(),
        }
    }

    // The world is marked, if there is room for one more mark.
    fn mark(&mut self, out: &mut Vec<u8>) -> Result<(), NoMemory>
        requires sound { self.old.world.spent ≡ false }
        ensures obeyed { OnOk result (world_of self.new.version self.new.world ≡ after B.COUNTS (world_of self.old.version self.old.world) Command.Mark) }
        ensures sound { OnOk result (self.new.world.spent ≡ false) }
        ensures text { OnOk result (out.new.items ≡ out.old.items ++ reply false (world_of self.old.version self.old.world) Command.Mark) }
        ensures err { OnErr result (out.new.items ≡ out.old.items) }
    {
        match self.world.mark() {
            Ok(true) => put_mark(self.world.held(), out),
            Ok(false) => put_nomark(self.world.held(), out),
            Err(_) => unreachable!(),
        }
    }

    // The world is that of the newest mark again, if one is held.
    fn back(&mut self, out: &mut Vec<u8>) -> Result<(), NoMemory>
        requires sound { self.old.world.spent ≡ false }
        ensures obeyed { OnOk result (world_of self.new.version self.new.world ≡ after B.COUNTS (world_of self.old.version self.old.world) Command.Back) }
        ensures sound { OnOk result (self.new.world.spent ≡ false) }
        ensures text { OnOk result (out.new.items ≡ out.old.items ++ reply false (world_of self.old.version self.old.world) Command.Back) }
        ensures err { OnErr result (out.new.items ≡ out.old.items) }
    {
        match self.world.back() {
            Ok(true) => put_back(self.world.held(), out),
            Ok(false) => put_nomark(self.world.held(), out),
            Err(Refusal::NoMemory) => Err(NoMemory),
            Err(_) => unreachable!(),
        }
    }

    // The frame ends: its pairs, and what became of each since the last one.
    pub(crate) fn end_frame<R: Threads + Sync, G: Gate + Sync, K: Sink>(
        &mut self,
        setup: &Setup<'_, R, G>,
        out: &mut Report<'_, K>,
    ) -> Result<(), SinkFault>
    where
        B: Sync,
        requires sound { self.old.world.spent ≡ false }
        requires room { frame_refusal self.old.world.time.now ≢ Some Exhausted }
        ensures obeyed { OnOk result (world_of self.new.version self.new.world ≡ after B.COUNTS (world_of self.old.version self.old.world) Command.Frame) }
        ensures sound { OnOk result (self.new.world.spent ≡ false) }
        ensures sent { IsAppended K.written K.faults K.since out.old out.new
            (reply setup.now.options.exchanges (world_of self.old.version self.old.world) Command.Frame) result }
    {
        let exchanges = self.shown_exchanges(setup.options.exchanges);
        let pairs = self.count_pairs(setup)?;
        send_frame(
            self.world.frames(),
            pairs,
            self.world.events(),
            exchanges,
            &mut self.texts,
            out,
        )
    }

    // The number of exchanges since the last frame, if it is to be shown.
    fn shown_exchanges(&self, shows: bool) -> Option<u64>
        requires { self.now.world.spent ≡ false }
        ensures { shown_number result ≡ shown shows self.now.world.time.now.exchanges }
    {
        if shows {
            Some(self.world.exchanges())
        } else {
            None
        }
    }

    // The frame ends in the world. Answers how many pairs it has.
    fn count_pairs<R: Threads + Sync, G: Gate + Sync>(
        &mut self,
        setup: &Setup<'_, R, G>,
    ) -> Result<u32, NoMemory>
    where
        B: Sync,
        requires sound { self.old.world.spent ≡ false }
        requires room { frame_refusal self.old.world.time.now ≢ Some Exhausted }
        ensures count { IfOk result (λ count. count ≡ length (pairs self.old.world.time.now)) }
        ensures framed { OnOk result (self.new.world ≡ after_frame self.old.world) }
        ensures sound { OnOk result (self.new.world.spent ≡ false) }
        ensures version { self.new.version ≡ self.old.version }
    {
        match self
            .world
            .end_frame(setup.rt, setup.options.workers, setup.gate)
        {
            Ok(count) => Ok(count),
            Err(Refusal::NoMemory) => Err(NoMemory),
            Err(_) => unreachable!(),
        }
    }
}
