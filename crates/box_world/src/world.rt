//! A world and its changes: boxes come, move and go, frames end, and marks are gone back to.

ghost use Rattle.std.specs.Prelude.{◌≡◌, ◌≢◌, [], true, false, length, Ok, Err, None, not, nat_lt, IfOk, OnErr};
ghost use Rattle.live_table.specs.Table.{next_handle};
ghost use Rattle.world_marks.specs.declared.TheConstants.{MOST_MARKS};
ghost use Rattle.box_world.specs.declared.refusal.Refusal.TheVariants.{NoMemory as no_memory};
ghost use Rattle.box_world.specs.World.{added, moved, masked, regrouped, removed, marked, forgotten, gone_back, pairs};
ghost use Rattle.box_world.specs.Answers.{Answers, opened, with_world, with_time, after_frame};
ghost use Rattle.box_world.specs.Answers.{add_refusal, shift_refusal, change_refusal, frame_refusal};

use crate::noting::box_to_note;
use crate::parts::Parts;
use crate::since::Since;
use crate::{MOST_FRAMES_COUNTED, Refusal};
use broad_index::{BroadPhase, Gate};
use fixed_box::{FBox, NoMemory, SLOTS};
use live_table::{Group, Handle, Masks, Stale};
use std::alloc::Global;
use std::marker::Model;
use std::thread::Threads;
use work_pieces::MOST_WORKERS;

/// Live boxes under handles with an index that has the same boxes, the pairs of the last frame and what was told of it, and
/// marks that can be gone back to: what an engine owns, over any broad phase.
///
/// Clauses see the world with its marks, what was told, and whether memory ran out in a change. No call but `new` asks for
/// anything. What an answer says is the table `Answers`: an `Ok` made the world that the call is for, `Stale`, `Full` and
/// `Exhausted` come exactly where that cause stands, the earlier one first, and leave the world as it was; `answer_law` has this
/// as a law. `NoMemory` may come wherever memory is taken, and leaves the world as it was, or spent. Without a mark `mask`, `regroup` and
/// `remove` take no memory.
///
/// A world is spent where memory ran out while its index was changed, since index and table may disagree then. That change wasn't
/// done: the world has the live boxes, pairs, events, frames and marks that it had before. From then on it answers `NoMemory` to each
/// change, frame, mark, way back and query, and stays as it is: `get`, `len`, `frames`, `held`, `events`, `pairs` and `table` tell what
/// it has, `exchanges` is 0, and nothing is said of `index`. Over an index that can't run out of memory in a change, whose `RUNS_OUT`
/// is false, no world is ever spent.
///
/// A change costs what the index takes for it, and a look-up. While a mark is held it is noted too, with one more look-up and
/// memory for the note; without one that costs a test.
#[derive(Drop)]
pub struct BoxWorld<B: BroadPhase + Drop> {
    pub(crate) parts: Parts<B>,
    // Whether memory ran out in a change, so that the index may disagree with the table, which has what it had.
    pub(crate) spent: bool,
}

impl<B: BroadPhase + Drop> Model for BoxWorld<B> {
    ghost use Rattle.std.specs.Prelude.{◌≡◌, false};
    ghost use Rattle.box_world.specs.Answers.{State};

    ghost Value = { State };

    ghost use Rattle.box_world.specs.Parts.{state_in, IsSound};

    ghost view = { λ w. state_in B.exchanges w.spent w.parts };

    ghost invariant = { λ w. (w.spent ≡ false → IsSound B.bodies B.spent B.exchanges w.parts) × (B.RUNS_OUT ≡ false → w.spent ≡ false) };
}

impl<B: BroadPhase + Drop> BoxWorld<B> {
    ghost use Rattle.broad_index.specs.Fresh.{IsFresh};

    /// The opening world, over an index that has no box and has counted nothing. It takes memory for all boxes that may live at
    /// once, some half a megabyte.
    pub fn new(alloc: Global, index: B) -> Result<BoxWorld<B>, NoMemory>
        requires { IsFresh (B.bodies index) (B.spent index) (B.exchanges index) }
        ensures { IfOk result (λ world. world ≡ opened) }
    {
        let parts = Parts::new(alloc, index)?;
        Ok(BoxWorld {
            parts,
            spent: false,
        })
    }

    /// Whether memory ran out in a change. That change wasn't done, and a spent world has what it had before.
    pub fn is_spent(&self) -> bool
        ensures spent { result ≡ self.now.spent }
        ensures lasting { B.RUNS_OUT ≡ false → result ≡ false }
    {
        self.spent
    }

    /// A new box under the least free slot, a proxy that is created. `Full` comes where `SLOTS` boxes are live, and `Exhausted`
    /// where each slot without a box was given `MOST_GIVES` times or more than `MOST_EXCHANGES` exchanges were counted.
    #[tactic(auto, using(crate::proofs::Refused::may_add))]
    pub fn add(&mut self, body: FBox, masks: Masks, group: Group) -> Result<Handle, Refusal>
        ensures answer { Answers (add_refusal self.old.time.now) (with_world self.old (added B.COUNTS self.old.time.now body masks group)) result
            self.old self.new }
        ensures handle { IfOk result (λ handle. handle ≡ next_handle self.old.time.now.table) }
        ensures lasting { B.RUNS_OUT ≡ false → self.new.spent ≡ false }
    {
        if self.spent {
            return Err(Refusal::NoMemory);
        }
        if self.parts.table.len() == SLOTS {
            return Err(Refusal::Full);
        }
        if self.parts.is_counted_out() {
            return Err(Refusal::Exhausted);
        }
        let Some(handle) = self.parts.table.next() else {
            return Err(Refusal::Exhausted);
        };
        self.parts.marks.room()?;
        match self.parts.add(handle, body, masks, group) {
            Ok(()) => Ok(handle),
            Err(NoMemory) => {
                self.spent = true;
                Err(Refusal::NoMemory)
            }
        }
    }

    /// The handle's box gets another body. `Stale` comes where no live box has the handle, and `Exhausted` where more than
    /// `MOST_EXCHANGES` exchanges were counted.
    pub fn shift(&mut self, handle: Handle, body: FBox) -> Result<(), Refusal>
        ensures answer { Answers (shift_refusal self.old.time.now handle) (with_world self.old (moved B.COUNTS self.old.time.now handle body)) result
            self.old self.new }
        ensures lasting { B.RUNS_OUT ≡ false → self.new.spent ≡ false }
    {
        if self.spent {
            return Err(Refusal::NoMemory);
        }
        if self.parts.is_counted_out() {
            return match self.parts.table.find(handle) {
                Ok(_) => Err(Refusal::Exhausted),
                Err(Stale) => Err(Refusal::Stale),
            };
        }
        let before = box_to_note(&mut self.parts.marks, &self.parts.table, handle)?;
        match self.parts.shift(handle, body, before) {
            Ok(()) => Ok(()),
            Err(Refusal::NoMemory) => {
                self.spent = true;
                Err(Refusal::NoMemory)
            }
            Err(refusal) => Err(refusal),
        }
    }

    /// The handle's box gets other masks. `Stale` comes where no live box has the handle. It takes memory only where a mark is
    /// held, and never spends the world.
    pub fn mask(&mut self, handle: Handle, masks: Masks) -> Result<(), Refusal>
        ensures answer { Answers (change_refusal self.old.time.now handle) (with_world self.old (masked self.old.time.now handle masks)) result
            self.old self.new }
        ensures unmarked { self.old.spent ≡ false → self.old.time.marks ≡ [] → result ≢ Err no_memory }
        ensures same { OnErr result (self.new ≡ self.old) }
    {
        if self.spent {
            return Err(Refusal::NoMemory);
        }
        let before = box_to_note(&mut self.parts.marks, &self.parts.table, handle)?;
        self.parts.mask(handle, masks, before)
    }

    /// The handle's box gets another owner and fixed mark. `Stale` comes where no live box has the handle. It takes memory only where a mark is
    /// held, and never spends the world.
    pub fn regroup(&mut self, handle: Handle, group: Group) -> Result<(), Refusal>
        ensures answer { Answers (change_refusal self.old.time.now handle) (with_world self.old (regrouped self.old.time.now handle group)) result
            self.old self.new }
        ensures unmarked { self.old.spent ≡ false → self.old.time.marks ≡ [] → result ≢ Err no_memory }
        ensures same { OnErr result (self.new ≡ self.old) }
    {
        if self.spent {
            return Err(Refusal::NoMemory);
        }
        let before = box_to_note(&mut self.parts.marks, &self.parts.table, handle)?;
        self.parts.regroup(handle, group, before)
    }

    /// The handle's box goes. `Stale` comes where no live box has the handle. It takes memory only where a mark is held, and never
    /// spends the world.
    pub fn remove(&mut self, handle: Handle) -> Result<(), Refusal>
        ensures answer { Answers (change_refusal self.old.time.now handle) (with_world self.old (removed self.old.time.now handle)) result self.old self.new }
        ensures unmarked { self.old.spent ≡ false → self.old.time.marks ≡ [] → result ≢ Err no_memory }
        ensures same { OnErr result (self.new ≡ self.old) }
    {
        if self.spent {
            return Err(Refusal::NoMemory);
        }
        let before = box_to_note(&mut self.parts.marks, &self.parts.table, handle)?;
        self.parts.remove(handle, before)
    }

    /// The frame ends: its pairs are those of the boxes as they stand, and what became of each since the last frame is told. Answers
    /// how many pairs there are; `pairs` has them, and `began`, `over` and `events` tell what became of each. `Exhausted` comes where `MOST_FRAMES_COUNTED` frames have ended. After
    /// any `Err` all is as before.
    ///
    /// It searches on the caller's thread, and takes a step for each pair of both frames. Where boxes only moved and came since the last
    /// frame, boxes are looked up for pairs alone that weren't there; nothing is written of a pair that stays. The list of pairs is a new
    /// one, since it is kept as the last.
    ///
    /// Where no box came, moved, got other masks or went since the last frame, and nobody went back, nothing is searched, nothing began and
    /// nothing is over: such a frame costs the same however many boxes and pairs there are.
    pub fn update(&mut self) -> Result<u32, Refusal>
        ensures answer { Answers (frame_refusal self.old.time.now) (after_frame self.old) result self.old self.new }
        ensures count { IfOk result (λ count. count ≡ length (pairs self.old.time.now)) }
        ensures same { OnErr result (self.new ≡ self.old) }
    {
        if self.spent {
            return Err(Refusal::NoMemory);
        }
        if self.parts.frames == MOST_FRAMES_COUNTED {
            return Err(Refusal::Exhausted);
        }
        match self.parts.since {
            Since::Same => {}
            _ => {
                self.parts.pairs.clear();
                self.parts.index.pairs(&mut self.parts.pairs)?;
            }
        }
        Ok(self.parts.end_frame()?)
    }

    /// Does what `update` does, with the pairs searched by several threads where the index shares them, by `pairs_with` of
    /// `BroadPhase`. A number of workers below 1 or above `MOST_WORKERS` counts as the nearest that isn't. Where nothing is searched no
    /// thread starts, and the gate isn't entered.
    pub fn end_frame<R: Threads + Sync, G: Gate + Sync>(
        &mut self,
        rt: &R,
        workers: u32,
        gate: &G,
    ) -> Result<u32, Refusal>
    where
        B: Sync,
        ensures answer { Answers (frame_refusal self.old.time.now) (after_frame self.old) result self.old self.new }
        ensures count { IfOk result (λ count. count ≡ length (pairs self.old.time.now)) }
        ensures same { OnErr result (self.new ≡ self.old) }
    {
        if self.spent {
            return Err(Refusal::NoMemory);
        }
        if self.parts.frames == MOST_FRAMES_COUNTED {
            return Err(Refusal::Exhausted);
        }
        match self.parts.since {
            Since::Same => {}
            _ => {
                let workers = workers.max(1).min(MOST_WORKERS);
                self.parts.pairs.clear();
                self.parts
                    .index
                    .pairs_with(rt, workers, gate, &mut self.parts.pairs)?;
            }
        }
        Ok(self.parts.end_frame()?)
    }

    /// Marks the world as it stands. It answers false where `MOST_MARKS` are held, and then nothing changes. It takes no memory:
    /// `NoMemory` comes where the world is spent.
    pub fn mark(&mut self) -> Result<bool, Refusal>
        ensures answer { Answers None (with_time self.old (marked self.old.time)) result self.old self.new }
        ensures held { IfOk result (λ marked. marked ≡ nat_lt (length self.old.time.marks) MOST_MARKS) }
        ensures spent { OnErr result (self.old.spent ≡ true) }
    {
        if self.spent {
            return Err(Refusal::NoMemory);
        }
        Ok(self.parts.mark())
    }

    /// Gives up the oldest marks, so many of them: the world as it stands and the newer marks are as before, and the older worlds can't be
    /// gone back to any more. It answers false where fewer are held, and then nothing changes. It takes no memory: `NoMemory` comes where
    /// the world is spent. It frees what the marks kept, except one list of changes, which the next mark gets.
    pub fn forget(&mut self, count: u32) -> Result<bool, Refusal>
        ensures answer { Answers None (with_time self.old (forgotten count self.old.time)) result self.old self.new }
        ensures held { IfOk result (λ gone. gone ≡ not (nat_lt (length self.old.time.marks) count)) }
        ensures spent { OnErr result (self.old.spent ≡ true) }
    {
        if self.spent {
            return Err(Refusal::NoMemory);
        }
        Ok(self.parts.forget(count))
    }

    /// Goes back to the newest mark, which is then gone: the live boxes, their handles and those of later boxes, the last pairs, the
    /// frames and the exchanges are what they were. It answers false where none is held, and then nothing changes. What was told
    /// stays.
    ///
    /// It takes a step for each change since the mark, the latest first, so it costs nothing by the number of boxes.
    #[tactic(auto, using(crate::proofs::Marked::no_worlds))]
    pub fn back(&mut self) -> Result<bool, Refusal>
        ensures answer { Answers None (with_time self.old (gone_back self.old.time)) result self.old self.new }
        ensures held { IfOk result (λ went. went ≡ nat_lt 0 (length self.old.time.marks)) }
        ensures none { self.old.spent ≡ false → self.old.time.marks ≡ [] → result ≡ Ok false }
        ensures lasting { B.RUNS_OUT ≡ false → self.new.spent ≡ false }
    {
        if self.spent {
            return Err(Refusal::NoMemory);
        }
        match self.parts.back() {
            Ok(went) => Ok(went),
            Err(NoMemory) => {
                self.spent = true;
                Err(Refusal::NoMemory)
            }
        }
    }
}
