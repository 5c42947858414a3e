//! The live boxes, the index, the last pairs and the marks of a world, changed together.

ghost use Rattle.std.specs.Prelude.{◌≡◌, ◌≢◌, ◌≤◌, ◌<◌, ◌↔◌, ◌+◌, ◌^◌, ◌++◌, [], true, false, length, sum, nat_lt, is_some, None, IfOk, IfErr, OnOk};
ghost use Rattle.std.specs.Prelude.{OnErr, Ok, Err, not};
ghost use Rattle.std.specs.FinMap.{contains_key};
ghost use Rattle.fixed_box.specs.declared.TheConstants.{SLOTS};
ghost use Rattle.live_table.specs.Entries.{entry_at};
ghost use Rattle.box_world.specs.declared.TheConstants.{MOST_FRAMES_COUNTED, MOST_EXCHANGES};

use crate::since::Since;
use crate::{MOST_EXCHANGES, Refusal, exchange_law};
use broad_index::{BroadPhase, Pair};
use fixed_box::{FBox, NoMemory};
use live_queries::current_laws;
use live_table::{Group, Handle, Live, LiveTable, Masks, map_laws, undo_laws};
use pair_events::{HPair, PairTable};
use std::alloc::Global;
use std::mem;
use world_marks::{Marks, Restored, Undo, undone_laws};

// What a world keeps in step: the live boxes, an index that has them, the last pairs, and the marks with the way back to each.
#[derive(Drop)]
pub(crate) struct Parts<B: Drop> {
    pub alloc: Global,
    pub index: B,
    pub table: LiveTable,
    pub pair_table: PairTable,
    pub marks: Marks,
    pub frames: u64,
    // The exchanges of the world before the index was last cleared on a way back.
    pub earlier: u64,
    pub since: Since,
    // What the last frame that ended changed.
    pub began: Vec<HPair>,
    pub over: Vec<HPair>,
    // The pairs of that frame, where they aren't the last ones any more, since the world went back behind it.
    pub shown: Option<PairTable>,
    // Room, kept from call to call.
    pub next_began: Vec<HPair>,
    pub next_over: Vec<HPair>,
    pub pairs: Vec<Pair>,
}

impl<B: BroadPhase + Drop> Parts<B> {
    ghost use Rattle.broad_index.specs.Fresh.{IsFresh};
    ghost use Rattle.live_table.specs.Bodies.{bodies_of};
    ghost use Rattle.live_table.specs.Table.{IsTable, IsLeastFree, next_handle};
    ghost use Rattle.world_marks.specs.declared.TheConstants.{MOST_MARKS};
    ghost use Rattle.box_world.specs.declared.refusal.Refusal.TheVariants.{Stale, NoMemory as no_memory};
    ghost use Rattle.box_world.specs.World.{beginning, added, moved, masked, regrouped, removed, marked, forgotten, gone_back};
    ghost use Rattle.box_world.specs.Answers.{is_counted_out};
    ghost use Rattle.box_world.specs.Parts.{world_in, timeline_in, IsSound, IsChanged, IsCutOff, IsToNote, Explains, TellSame, told_in, restored};

    // The opening world.
    pub(crate) fn new(alloc: Global, index: B) -> Result<Parts<B>, NoMemory>
        requires { IsFresh (B.bodies index) (B.spent index) (B.exchanges index) }
        ensures opening { IfOk result (λ parts. timeline_in B.exchanges parts ≡ beginning) }
        ensures told { IfOk result (λ parts. told_in parts ≡ []) }
        ensures began { IfOk result (λ parts. parts.began.items ≡ []) }
        ensures over { IfOk result (λ parts. parts.over.items ≡ []) }
        ensures sound { IfOk result (IsSound B.bodies B.spent B.exchanges) }
    {
        let table = LiveTable::new(alloc)?;
        let marks = Marks::new(alloc)?;
        Ok(Parts {
            alloc,
            index,
            table,
            pair_table: PairTable::new(alloc),
            marks,
            frames: 0,
            earlier: 0,
            since: Since::Changed,
            began: Vec::new(alloc),
            over: Vec::new(alloc),
            shown: None,
            next_began: Vec::new(alloc),
            next_over: Vec::new(alloc),
            pairs: Vec::new(alloc),
        })
    }

    // The exchanges since the last frame of the world.
    pub(crate) fn exchanges(&self) -> u64
        requires sound { IsSound B.bodies B.spent B.exchanges self.now }
        ensures { result ≡ self.now.earlier + B.exchanges self.now.index }
    {
        self.earlier + self.index.exchanges()
    }

    // Whether no more exchanges are counted.
    pub(crate) fn is_counted_out(&self) -> bool
        requires sound { IsSound B.bodies B.spent B.exchanges self.now }
        ensures { result ≡ is_counted_out (world_in B.exchanges self.now) }
    {
        self.exchanges() > MOST_EXCHANGES
    }

    // A new box under the next handle of the table, in the index first, which alone takes memory. There is room to note it.
    pub(crate) fn add(
        &mut self,
        handle: Handle,
        body: FBox,
        masks: Masks,
        group: Group,
    ) -> Result<(), NoMemory>
        requires sound { IsSound B.bodies B.spent B.exchanges self.old }
        requires next { handle ≡ next_handle self.old.table }
        requires small { handle.slot < SLOTS }
        requires free { IsLeastFree handle.slot self.old.table }
        requires absent { contains_key (bodies_of self.old.table.entries) handle.slot ≡ false }
        requires countable { self.old.earlier + B.exchanges self.old.index ≤ MOST_EXCHANGES }
        requires room { 0 < self.old.marks.spare }
        ensures added { OnOk result (IsChanged B.bodies B.spent B.exchanges (added B.COUNTS (world_in B.exchanges self.old) body masks group) self.old
            self.new) }
        ensures cut_off { OnErr result (IsCutOff B.spent self.old self.new) }
    {
        undo_laws();
        undone_laws();
        current_laws();
        exchange_law();
        self.index.add(handle.slot, body)?;
        let Ok(_) = self.table.give(body, masks, group) else {
            unreachable!()
        };
        self.since = self.since.still_current();
        self.marks.note(Undo::Given { handle });
        Ok(())
    }

    // The handle's box gets another body, in the index first, which alone takes memory. Where a mark is held, `before` is the box as it
    // was, and there is room to note it.
    pub(crate) fn shift(
        &mut self,
        handle: Handle,
        body: FBox,
        before: Option<Live>,
    ) -> Result<(), Refusal>
        requires sound { IsSound B.bodies B.spent B.exchanges self.old }
        requires countable { self.old.earlier + B.exchanges self.old.index ≤ MOST_EXCHANGES }
        requires before { IsToNote self.old.marks.marks (entry_at handle self.old.table.entries) self.old.marks.spare before }
        ensures moved { OnOk result (IsChanged B.bodies B.spent B.exchanges (moved B.COUNTS (world_in B.exchanges self.old) handle body) self.old self.new) }
        ensures live { OnOk result (is_some (entry_at handle self.old.table.entries) ≡ true) }
        ensures err { IfErr result (Explains (entry_at handle self.old.table.entries)) }
        ensures same { result ≡ Err Stale → self.new ≡ self.old }
        ensures cut_off { result ≡ Err no_memory → IsCutOff B.spent self.old self.new }
    {
        undo_laws();
        undone_laws();
        map_laws();
        current_laws();
        exchange_law();
        self.table.find(handle)?;
        self.index.shift(handle.slot, body)?;
        let Ok(()) = self.table.set_box(handle, body) else {
            unreachable!()
        };
        self.since = self.since.still_current();
        if let Some(live) = before {
            self.marks.note(Undo::Moved {
                handle,
                body: live.body,
            });
        }
        Ok(())
    }

    // The handle's box gets other masks. Where a mark is held, `before` is the box as it was, and there is room to note it.
    pub(crate) fn mask(
        &mut self,
        handle: Handle,
        masks: Masks,
        before: Option<Live>,
    ) -> Result<(), Refusal>
        requires sound { IsSound B.bodies B.spent B.exchanges self.old }
        requires before { IsToNote self.old.marks.marks (entry_at handle self.old.table.entries) self.old.marks.spare before }
        ensures masked { OnOk result (IsChanged B.bodies B.spent B.exchanges (masked (world_in B.exchanges self.old) handle masks) self.old self.new) }
        ensures live { OnOk result (is_some (entry_at handle self.old.table.entries) ≡ true) }
        ensures err { OnErr result (self.new ≡ self.old) }
        ensures stale { IfErr result (λ refusal. (refusal ≡ Stale) × (entry_at handle self.old.table.entries ≡ None)) }
    {
        undo_laws();
        undone_laws();
        self.table.set_masks(handle, masks)?;
        self.since = Since::Changed;
        if let Some(live) = before {
            self.marks.note(Undo::Masked {
                handle,
                masks: live.masks,
            });
        }
        Ok(())
    }

    // The handle's box gets another owner and fixed mark. Where a mark is held, `before` is the box as it was, and there is room to note it.
    pub(crate) fn regroup(
        &mut self,
        handle: Handle,
        group: Group,
        before: Option<Live>,
    ) -> Result<(), Refusal>
        requires sound { IsSound B.bodies B.spent B.exchanges self.old }
        requires before { IsToNote self.old.marks.marks (entry_at handle self.old.table.entries) self.old.marks.spare before }
        ensures regrouped { OnOk result (IsChanged B.bodies B.spent B.exchanges (regrouped (world_in B.exchanges self.old) handle group) self.old self.new) }
        ensures live { OnOk result (is_some (entry_at handle self.old.table.entries) ≡ true) }
        ensures err { OnErr result (self.new ≡ self.old) }
        ensures stale { IfErr result (λ refusal. (refusal ≡ Stale) × (entry_at handle self.old.table.entries ≡ None)) }
    {
        undo_laws();
        undone_laws();
        self.table.set_group(handle, group)?;
        self.since = Since::Changed;
        if let Some(live) = before {
            self.marks.note(Undo::Regrouped {
                handle,
                group: live.group,
            });
        }
        Ok(())
    }

    // The handle's box goes. Where a mark is held, `before` is the box as it was, and there is room to note it.
    pub(crate) fn remove(&mut self, handle: Handle, before: Option<Live>) -> Result<(), Refusal>
        requires sound { IsSound B.bodies B.spent B.exchanges self.old }
        requires before { IsToNote self.old.marks.marks (entry_at handle self.old.table.entries) self.old.marks.spare before }
        ensures removed { OnOk result (IsChanged B.bodies B.spent B.exchanges (removed (world_in B.exchanges self.old) handle) self.old self.new) }
        ensures live { OnOk result (is_some (entry_at handle self.old.table.entries) ≡ true) }
        ensures err { OnErr result (self.new ≡ self.old) }
        ensures stale { IfErr result (λ refusal. (refusal ≡ Stale) × (entry_at handle self.old.table.entries ≡ None)) }
    {
        undo_laws();
        undone_laws();
        self.table.take(handle)?;
        self.index.leave(handle.slot);
        self.since = Since::Changed;
        if let Some(live) = before {
            self.marks.note(Undo::Taken { live });
        }
        Ok(())
    }

    // Marks the world. False where no more marks may be held.
    pub(crate) fn mark(&mut self) -> bool
        requires sound { IsSound B.bodies B.spent B.exchanges self.old }
        ensures held { result ≡ nat_lt (length (timeline_in B.exchanges self.old).marks) MOST_MARKS }
        ensures marked { timeline_in B.exchanges self.new ≡ marked (timeline_in B.exchanges self.old) }
        ensures tells { TellSame self.old self.new }
        ensures sound { IsSound B.bodies B.spent B.exchanges self.new }
    {
        let exchanges = self.exchanges();
        self.marks.mark(self.frames, exchanges)
    }

    // Gives up the oldest marks, so many of them. False where fewer are held, and then nothing changes.
    pub(crate) fn forget(&mut self, count: u32) -> bool
        requires sound { IsSound B.bodies B.spent B.exchanges self.old }
        ensures held { result ≡ not (nat_lt (length (timeline_in B.exchanges self.old).marks) count) }
        ensures forgotten { timeline_in B.exchanges self.new ≡ forgotten count (timeline_in B.exchanges self.old) }
        ensures tells { TellSame self.old self.new }
        ensures sound { IsSound B.bodies B.spent B.exchanges self.new }
    {
        self.marks.forget(count)
    }

    // Goes back to the newest mark. False where none is held. After an `Err` the index is spent, and all else is as before.
    pub(crate) fn back(&mut self) -> Result<bool, NoMemory>
        requires sound { IsSound B.bodies B.spent B.exchanges self.old }
        ensures held { IfOk result (λ went. went ≡ nat_lt 0 (length (timeline_in B.exchanges self.old).marks)) }
        ensures none { self.old.marks.marks ≡ [] → result ≡ Ok false }
        ensures back { OnOk result (timeline_in B.exchanges self.new ≡ gone_back (timeline_in B.exchanges self.old)) }
        ensures cut_off { OnErr result (IsCutOff B.spent self.old self.new) }
        ensures tells { TellSame self.old self.new }
        ensures sound { OnOk result (IsSound B.bodies B.spent B.exchanges self.new) }
    {
        let keeps_pairs = self.marks.keeps_pairs();
        let mut last = PairTable::new(self.alloc);
        let Some(Restored { frames, exchanges }) = self
            .marks
            .back(&mut self.index, &mut self.table, &mut last)?
        else {
            return Ok(false);
        };
        self.since = Since::Changed;
        self.earlier = count_from(exchanges, &mut self.index);
        self.frames = frames;
        self.restore(keeps_pairs, last);
        Ok(true)
    }

    // Makes these the last pairs, where the mark kept some. Those of the frame that was told of are kept then, so that what was told stays.
    fn restore(&mut self, keeps_pairs: bool, last: PairTable)
        ensures { self.new ≡ restored keeps_pairs last self.old }
    {
        if !keeps_pairs {
            return;
        }
        let former = mem::replace(&mut self.pair_table, last);
        if self.shown.is_none() {
            self.shown = Some(former);
        }
    }
}

// Has an index count anew, so that exchanges are counted from this number on, which is the answer.
fn count_from<B: BroadPhase>(earlier: u64, index: &mut B) -> u64
    ensures earlier { result ≡ earlier }
    ensures fits { result < 2 ^ 64 }
    ensures cleared { B.spent index.old ≡ false → B.exchanges index.new ≡ 0 }
    ensures bodies { B.bodies index.new ≡ B.bodies index.old }
    ensures spent { B.spent index.new ≡ B.spent index.old }
{
    index.clear_exchanges();
    earlier
}
