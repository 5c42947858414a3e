//! The end of a frame: its pairs, and what became of each since the last one. Where no box changed, neither is searched for.

ghost use Rattle.std.specs.Prelude.{◌≡◌, ◌≢◌, ◌<◌, true, length, IfOk, OnOk, OnErr};
ghost use Rattle.live_table.specs.Bodies.{bodies_of};
ghost use Rattle.live_table.specs.Table.{IsTable};
ghost use Rattle.broad_index.specs.Near.{near};
ghost use Rattle.pair_events.specs.PairEvents.{is_in_order, missing};
ghost use Rattle.live_queries.specs.Pairs.{pairs_of};
ghost use Rattle.box_world.specs.declared.TheConstants.{MOST_FRAMES_COUNTED};
ghost use Rattle.box_world.specs.Parts.{StillHolds};

use crate::parts::Parts;
use crate::since::Since;
use broad_index::{BroadPhase, Pair};
use fixed_box::NoMemory;
use live_queries::{pairs_law, push_pairs, push_pairs_and_changes};
use live_table::LiveTable;
use pair_events::{HPair, PairTable, change_laws};
use std::mem;

impl<B: BroadPhase + Drop> Parts<B> {
    ghost use Rattle.box_world.specs.declared.since.Since.TheVariants.{Same};
    ghost use Rattle.box_world.specs.World.{framed};
    ghost use Rattle.box_world.specs.Parts.{world_in, timeline_in, IsSound, IsTold, TellSame, TellsOf};

    // The frame ends: its pairs, and what became of each since the last one. Where anything changed since, `pairs` has the pairs of slots.
    // Answers how many pairs there are. After an `Err` all but room is as before.
    pub(crate) fn end_frame(&mut self) -> Result<u32, NoMemory>
        requires sound { IsSound B.bodies B.spent B.exchanges self.old }
        requires pairs { self.old.since ≢ Same → self.old.pairs.items ≡ near (bodies_of self.old.table.entries) }
        requires frames { self.old.frames < MOST_FRAMES_COUNTED }
        ensures count { IfOk result (λ count. count ≡ length (pairs_of self.old.table.entries)) }
        ensures time { OnOk result (timeline_in B.exchanges self.new
            ≡ record (timeline_in B.exchanges self.old) { now = framed (world_in B.exchanges self.old) }) }
        ensures tells { OnOk result (TellsOf self.old.pair_table (pairs_of self.old.table.entries) self.new) }
        ensures sound { OnOk result (IsSound B.bodies B.spent B.exchanges self.new) }
        ensures err { OnErr result ((timeline_in B.exchanges self.new ≡ timeline_in B.exchanges self.old) × TellSame self.old self.new
            × IsSound B.bodies B.spent B.exchanges self.new) }
    {
        pairs_law();
        match self.since {
            Since::Changed => self.compare()?,
            Since::Current => self.compare()?,
            Since::Same => self.rest(),
        }
        self.index.clear_exchanges();
        self.earlier = 0;
        self.frames += 1;
        Ok(self.pair_table.last().len() as u32)
    }

    // The pairs of slots in `pairs`, told in handles, are compared with those of the last frame.
    fn compare(&mut self) -> Result<(), NoMemory>
        requires sound { IsSound B.bodies B.spent B.exchanges self.old }
        requires pairs { self.old.pairs.items ≡ near (bodies_of self.old.table.entries) }
        ensures told { OnOk result (IsTold B.bodies B.spent B.exchanges self.old self.new) }
        ensures err { OnErr result ((timeline_in B.exchanges self.new ≡ timeline_in B.exchanges self.old) × TellSame self.old self.new
            × IsSound B.bodies B.spent B.exchanges self.new) }
    {
        pairs_law();
        change_laws();
        let former = turn_pairs(
            &self.table,
            &self.pairs,
            self.since,
            &mut self.pair_table,
            &mut self.next_began,
            &mut self.next_over,
        )?;
        mem::swap(&mut self.began, &mut self.next_began);
        mem::swap(&mut self.over, &mut self.next_over);
        self.shown = None;
        self.marks.keep(former);
        self.since = Since::Same;
        Ok(())
    }

    // Each pair of the last frame stays.
    fn rest(&mut self)
        requires sound { IsSound B.bodies B.spent B.exchanges self.old }
        requires since { self.old.since ≡ Same }
        ensures { IsTold B.bodies B.spent B.exchanges self.old self.new }
    {
        pairs_law();
        change_laws();
        self.began.clear();
        self.over.clear();
        self.shown = None;
    }
}

// Makes the pairs of the boxes the last ones, replaces two lists by those that began and those that are over, and answers the former ones. An
// index has these pairs of slots. Where boxes only moved and came, the pairs of the last frame needn't be looked up.
fn turn_pairs(
    table: &LiveTable,
    pairs: &[Pair],
    since: Since,
    pair_table: &mut PairTable,
    began: &mut Vec<HPair>,
    over: &mut Vec<HPair>,
) -> Result<Vec<HPair>, NoMemory>
    requires table { IsTable table.now }
    requires near { pairs.now ≡ near (bodies_of table.now.entries) }
    requires since { StillHolds since table.now.entries pair_table.old }
    ensures former { IfOk result (λ former. former.items ≡ pair_table.old) }
    ensures order { IfOk result (λ former. is_in_order former.items ≡ true) }
    ensures last { OnOk result (pair_table.new ≡ pairs_of table.now.entries) }
    ensures began { OnOk result (began.new.items ≡ missing (pairs_of table.now.entries) pair_table.old) }
    ensures over { OnOk result (over.new.items ≡ missing pair_table.old (pairs_of table.now.entries)) }
    ensures err { OnErr result (pair_table.new ≡ pair_table.old) }
{
    pairs_law();
    // as many as the last frame had are asked for at once
    let few = pairs.len().min(pair_table.last().len());
    let mut now = Vec::with_capacity(*began.allocator(), few)?;
    match since {
        Since::Current => {
            began.clear();
            over.clear();
            push_pairs_and_changes(table, pairs, pair_table.last(), &mut now, began, over)?;
            Ok(pair_table.set_last(now))
        }
        _ => {
            push_pairs(table, pairs, &mut now)?;
            pair_table.turn_changes(now, began, over)
        }
    }
}
