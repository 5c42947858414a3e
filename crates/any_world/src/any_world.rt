//! A world over one of five structures, and its changes.

ghost use Rattle.std.specs.Prelude.{◌≡◌, ◌≢◌, [], true, false, length, Ok, Err, None, not, nat_lt, IfOk, OnErr};
ghost use Rattle.live_table.specs.Table.{next_handle};
ghost use Rattle.world_marks.specs.declared.TheConstants.{MOST_MARKS};
ghost use Rattle.box_world.specs.declared.refusal.Refusal.TheVariants.{NoMemory as no_memory};
ghost use Rattle.box_world.specs.World.{added, moved, masked, regrouped, removed, marked, forgotten, gone_back, pairs};
ghost use Rattle.box_world.specs.Answers.{Answers, opened, with_world, with_time, after_frame};
ghost use Rattle.box_world.specs.Answers.{add_refusal, shift_refusal, change_refusal, frame_refusal};
ghost use Rattle.any_world.specs.AnyWorld.{state_of, structure_of, counts_of, runs_out};

use box_tree::BoxTree;
use box_world::{BoxWorld, Refusal};
use broad_index::{Gate, PlainIndex};
use fixed_box::{FBox, NoMemory};
use hier_grid::HierGrid;
use live_table::{Group, Handle, Masks};
use named_index::{Named, SkinTree, Structure};
use std::alloc::Global;
use std::thread::Threads;
use sweep_prune::Sap;

/// A world of live boxes over one of the structures, which is named when the world is made and stays. All answer alike: what
/// each call does is what `BoxWorld` says of it, and only the exchanges and the time depend on the structure.
///
/// A call costs what that of the `BoxWorld` does, and a test of which it is. There is no call for the index itself, which is of
/// five types: who wants to ask it from several threads owns a `BoxWorld`.
#[derive(Drop)]
pub enum AnyWorld {
    Plain(BoxWorld<PlainIndex>),
    Sap(BoxWorld<Sap>),
    Tree(BoxWorld<BoxTree>),
    Grid(BoxWorld<HierGrid>),
    Skin(BoxWorld<SkinTree>),
}

impl AnyWorld {
    /// The opening world over the structure of this name. It takes memory for all boxes that may live at once, some half a
    /// megabyte, and what the structure takes for them.
    pub fn new(alloc: Global, structure: Structure) -> Result<AnyWorld, NoMemory>
        ensures opened { IfOk result (λ world. state_of world ≡ opened) }
        ensures named { IfOk result (λ world. structure_of world ≡ structure) }
    {
        match structure {
            Structure::Plain => Ok(AnyWorld::Plain(opened_over(alloc)?)),
            Structure::Sap => Ok(AnyWorld::Sap(opened_over(alloc)?)),
            Structure::Tree => Ok(AnyWorld::Tree(opened_over(alloc)?)),
            Structure::Grid => Ok(AnyWorld::Grid(opened_over(alloc)?)),
            Structure::Skin => Ok(AnyWorld::Skin(opened_over(alloc)?)),
        }
    }

    /// The structure that keeps the boxes.
    pub fn structure(&self) -> Structure
        ensures { result ≡ structure_of self.now }
    {
        match self {
            AnyWorld::Plain(_) => Structure::Plain,
            AnyWorld::Sap(_) => Structure::Sap,
            AnyWorld::Tree(_) => Structure::Tree,
            AnyWorld::Grid(_) => Structure::Grid,
            AnyWorld::Skin(_) => Structure::Skin,
        }
    }

    /// Whether memory ran out in a change. That change wasn't done, and a spent world has what it had before. Over the tree, the
    /// grid or skins no world is ever spent.
    pub fn is_spent(&self) -> bool
        ensures spent { result ≡ (state_of self.now).spent }
        ensures lasting { runs_out (structure_of self.now) ≡ false → result ≡ false }
    {
        match self {
            AnyWorld::Plain(world) => world.is_spent(),
            AnyWorld::Sap(world) => world.is_spent(),
            AnyWorld::Tree(world) => world.is_spent(),
            AnyWorld::Grid(world) => world.is_spent(),
            AnyWorld::Skin(world) => world.is_spent(),
        }
    }

    /// A new box under the least free slot. `Full` comes where `SLOTS` boxes are live, and `Exhausted` where each slot without a box
    /// was given `MOST_GIVES` times or more than `MOST_EXCHANGES` exchanges were counted.
    pub fn add(&mut self, body: FBox, masks: Masks, group: Group) -> Result<Handle, Refusal>
        ensures answer { let old = state_of self.old in let world = old.time.now in
            Answers (add_refusal world) (with_world old (added (counts_of self.old) world body masks group)) result old (state_of self.new) }
        ensures handle { IfOk result (λ handle. handle ≡ next_handle (state_of self.old).time.now.table) }
        ensures lasting { runs_out (structure_of self.old) ≡ false → (state_of self.new).spent ≡ false }
        ensures structure { structure_of self.new ≡ structure_of self.old }
    {
        match self {
            AnyWorld::Plain(world) => world.add(body, masks, group),
            AnyWorld::Sap(world) => world.add(body, masks, group),
            AnyWorld::Tree(world) => world.add(body, masks, group),
            AnyWorld::Grid(world) => world.add(body, masks, group),
            AnyWorld::Skin(world) => world.add(body, masks, group),
        }
    }

    /// The handle's box gets another body. `Stale` comes where no live box has the handle, and `Exhausted` where more than
    /// `MOST_EXCHANGES` exchanges were counted.
    pub fn shift(&mut self, handle: Handle, body: FBox) -> Result<(), Refusal>
        ensures answer { let old = state_of self.old in let world = old.time.now in
            Answers (shift_refusal world handle) (with_world old (moved (counts_of self.old) world handle body)) result old (state_of self.new) }
        ensures lasting { runs_out (structure_of self.old) ≡ false → (state_of self.new).spent ≡ false }
        ensures structure { structure_of self.new ≡ structure_of self.old }
    {
        match self {
            AnyWorld::Plain(world) => world.shift(handle, body),
            AnyWorld::Sap(world) => world.shift(handle, body),
            AnyWorld::Tree(world) => world.shift(handle, body),
            AnyWorld::Grid(world) => world.shift(handle, body),
            AnyWorld::Skin(world) => world.shift(handle, body),
        }
    }

    /// The handle's box gets other masks. `Stale` comes where no live box has the handle. It takes memory only where a mark is
    /// held, and never spends the world.
    pub fn mask(&mut self, handle: Handle, masks: Masks) -> Result<(), Refusal>
        ensures answer { let old = state_of self.old in let world = old.time.now in
            Answers (change_refusal world handle) (with_world old (masked world handle masks)) result old (state_of self.new) }
        ensures unmarked { (state_of self.old).spent ≡ false → (state_of self.old).time.marks ≡ [] → result ≢ Err no_memory }
        ensures same { OnErr result (state_of self.new ≡ state_of self.old) }
        ensures structure { structure_of self.new ≡ structure_of self.old }
    {
        match self {
            AnyWorld::Plain(world) => world.mask(handle, masks),
            AnyWorld::Sap(world) => world.mask(handle, masks),
            AnyWorld::Tree(world) => world.mask(handle, masks),
            AnyWorld::Grid(world) => world.mask(handle, masks),
            AnyWorld::Skin(world) => world.mask(handle, masks),
        }
    }

    /// The handle's box gets another owner and fixed mark. `Stale` comes where no live box has the handle. It takes memory only where a mark is
    /// held, and never spends the world.
    pub fn regroup(&mut self, handle: Handle, group: Group) -> Result<(), Refusal>
        ensures answer { let old = state_of self.old in let world = old.time.now in
            Answers (change_refusal world handle) (with_world old (regrouped world handle group)) result old (state_of self.new) }
        ensures unmarked { (state_of self.old).spent ≡ false → (state_of self.old).time.marks ≡ [] → result ≢ Err no_memory }
        ensures same { OnErr result (state_of self.new ≡ state_of self.old) }
        ensures structure { structure_of self.new ≡ structure_of self.old }
    {
        match self {
            AnyWorld::Plain(world) => world.regroup(handle, group),
            AnyWorld::Sap(world) => world.regroup(handle, group),
            AnyWorld::Tree(world) => world.regroup(handle, group),
            AnyWorld::Grid(world) => world.regroup(handle, group),
            AnyWorld::Skin(world) => world.regroup(handle, group),
        }
    }

    /// The handle's box goes. `Stale` comes where no live box has the handle. It takes memory only where a mark is held, and never
    /// spends the world.
    pub fn remove(&mut self, handle: Handle) -> Result<(), Refusal>
        ensures answer { let old = state_of self.old in let world = old.time.now in
            Answers (change_refusal world handle) (with_world old (removed world handle)) result old (state_of self.new) }
        ensures unmarked { (state_of self.old).spent ≡ false → (state_of self.old).time.marks ≡ [] → result ≢ Err no_memory }
        ensures same { OnErr result (state_of self.new ≡ state_of self.old) }
        ensures structure { structure_of self.new ≡ structure_of self.old }
    {
        match self {
            AnyWorld::Plain(world) => world.remove(handle),
            AnyWorld::Sap(world) => world.remove(handle),
            AnyWorld::Tree(world) => world.remove(handle),
            AnyWorld::Grid(world) => world.remove(handle),
            AnyWorld::Skin(world) => world.remove(handle),
        }
    }

    /// The frame ends: its pairs are those of the boxes as they stand, and what became of each since the last frame is told. Answers
    /// how many pairs there are; `pairs` and `events` have them. `Exhausted` comes where `MOST_FRAMES_COUNTED` frames have ended. After
    /// any `Err` all is as before. It searches on the caller's thread.
    pub fn update(&mut self) -> Result<u32, Refusal>
        ensures answer { let old = state_of self.old in
            Answers (frame_refusal old.time.now) (after_frame old) result old (state_of self.new) }
        ensures count { IfOk result (λ count. count ≡ length (pairs (state_of self.old).time.now)) }
        ensures same { OnErr result (state_of self.new ≡ state_of self.old) }
        ensures structure { structure_of self.new ≡ structure_of self.old }
    {
        match self {
            AnyWorld::Plain(world) => world.update(),
            AnyWorld::Sap(world) => world.update(),
            AnyWorld::Tree(world) => world.update(),
            AnyWorld::Grid(world) => world.update(),
            AnyWorld::Skin(world) => world.update(),
        }
    }

    /// Does what `update` does, with the pairs searched by several threads where the structure shares them. A number of workers
    /// below 1 or above `MOST_WORKERS` counts as the nearest that isn't.
    pub fn end_frame<R: Threads + Sync, G: Gate + Sync>(
        &mut self,
        rt: &R,
        workers: u32,
        gate: &G,
    ) -> Result<u32, Refusal>
        ensures answer { let old = state_of self.old in
            Answers (frame_refusal old.time.now) (after_frame old) result old (state_of self.new) }
        ensures count { IfOk result (λ count. count ≡ length (pairs (state_of self.old).time.now)) }
        ensures same { OnErr result (state_of self.new ≡ state_of self.old) }
        ensures structure { structure_of self.new ≡ structure_of self.old }
    {
        match self {
            AnyWorld::Plain(world) => world.end_frame(rt, workers, gate),
            AnyWorld::Sap(world) => world.end_frame(rt, workers, gate),
            AnyWorld::Tree(world) => world.end_frame(rt, workers, gate),
            AnyWorld::Grid(world) => world.end_frame(rt, workers, gate),
            AnyWorld::Skin(world) => world.end_frame(rt, workers, gate),
        }
    }

    /// Marks the world as it stands. It answers false where `MOST_MARKS` are held, and then nothing changes. It takes no memory:
    /// `NoMemory` comes where the world is spent.
    pub fn mark(&mut self) -> Result<bool, Refusal>
        ensures answer { let old = state_of self.old in Answers None (with_time old (marked old.time)) result old (state_of self.new) }
        ensures held { IfOk result (λ marked. marked ≡ nat_lt (length (state_of self.old).time.marks) MOST_MARKS) }
        ensures spent { OnErr result ((state_of self.old).spent ≡ true) }
        ensures structure { structure_of self.new ≡ structure_of self.old }
    {
        match self {
            AnyWorld::Plain(world) => world.mark(),
            AnyWorld::Sap(world) => world.mark(),
            AnyWorld::Tree(world) => world.mark(),
            AnyWorld::Grid(world) => world.mark(),
            AnyWorld::Skin(world) => world.mark(),
        }
    }

    /// Gives up the oldest marks, so many of them: the world as it stands and the newer marks are as before, and the older worlds can't be
    /// gone back to any more. It answers false where fewer are held, and then nothing changes. It takes no memory: `NoMemory` comes where
    /// the world is spent. It frees what the marks kept, except one list of changes, which the next mark gets.
    pub fn forget(&mut self, count: u32) -> Result<bool, Refusal>
        ensures answer { let old = state_of self.old in Answers None (with_time old (forgotten count old.time)) result old (state_of self.new) }
        ensures held { IfOk result (λ gone. gone ≡ not (nat_lt (length (state_of self.old).time.marks) count)) }
        ensures spent { OnErr result ((state_of self.old).spent ≡ true) }
        ensures structure { structure_of self.new ≡ structure_of self.old }
    {
        match self {
            AnyWorld::Plain(world) => world.forget(count),
            AnyWorld::Sap(world) => world.forget(count),
            AnyWorld::Tree(world) => world.forget(count),
            AnyWorld::Grid(world) => world.forget(count),
            AnyWorld::Skin(world) => world.forget(count),
        }
    }

    /// Goes back to the newest mark, which is then gone: the live boxes, their handles and those of later boxes, the last pairs, the
    /// frames and the exchanges are what they were. It answers false where none is held, and then nothing changes. What was told
    /// stays. It takes a step for each change since the mark.
    pub fn back(&mut self) -> Result<bool, Refusal>
        ensures answer { let old = state_of self.old in Answers None (with_time old (gone_back old.time)) result old (state_of self.new) }
        ensures held { IfOk result (λ went. went ≡ nat_lt 0 (length (state_of self.old).time.marks)) }
        ensures none { (state_of self.old).spent ≡ false → (state_of self.old).time.marks ≡ [] → result ≡ Ok false }
        ensures lasting { runs_out (structure_of self.old) ≡ false → (state_of self.new).spent ≡ false }
        ensures structure { structure_of self.new ≡ structure_of self.old }
    {
        match self {
            AnyWorld::Plain(world) => world.back(),
            AnyWorld::Sap(world) => world.back(),
            AnyWorld::Tree(world) => world.back(),
            AnyWorld::Grid(world) => world.back(),
            AnyWorld::Skin(world) => world.back(),
        }
    }
}

// The opening world over a structure.
fn opened_over<B: Named>(alloc: Global) -> Result<BoxWorld<B>, NoMemory>
    ensures { IfOk result (λ world. world ≡ opened) }
{
    BoxWorld::new(alloc, B::made(alloc)?)
}
