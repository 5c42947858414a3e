//! A run of queries that are answered together, by several threads if it pays.

ghost use Rattle.std.specs.Prelude.{◌≡◌, ◌≤◌, ◌++◌, ◌∷◌, [], false, length, map, OnOk};
ghost use Rattle.broad_index.specs.Found.{found};
ghost use Rattle.live_table.specs.Bodies.{bodies_of};
ghost use Rattle.live_table.specs.Table.{IsTable};
ghost use Rattle.frame_player.specs.Outlet.{IsAppended, IsSentBy};
ghost use Rattle.frame_player.specs.Owed.{answer_line, answers, owed, query_for, IsRun};
ghost use Rattle.frame_player.specs.Player.{live_in};

use crate::asked::Asked;
use crate::player::Player;
use crate::report::Report;
use crate::setup::Setup;
use broad_index::{BroadPhase, Gate, Query};
use fixed_box::NoMemory;
use live_table::{Handle, LiveTable};
use par_phase::hits_many;
use play_io::{Sink, SinkFault};
use std::alloc::Global;
use std::thread::Threads;

// The most queries that are answered together.
pub(crate) const LONGEST_RUN: usize = 256;

// Queries that were read one after another and not answered yet, each beside what an index is asked for it.
#[derive(Drop)]
pub(crate) struct QueryRun {
    pub asked: Vec<Asked>,
    pub queries: Vec<Query>,
}

impl QueryRun {
    // A run of no query.
    pub(crate) fn new(alloc: Global) -> QueryRun
        ensures asked { result.asked.items ≡ [] }
        ensures queries { result.queries.items ≡ [] }
    {
        QueryRun {
            asked: Vec::new(alloc),
            queries: Vec::new(alloc),
        }
    }

    // One more query.
    fn push(&mut self, asked: Asked) -> Result<(), NoMemory>
        ensures asked { OnOk result (self.new.asked.items ≡ self.old.asked.items ++ asked ∷ []) }
        ensures queries { OnOk result (self.new.queries.items ≡ self.old.queries.items ++ query_for asked ∷ []) }
    {
        let query = asked.query();
        self.asked.push(asked)?;
        self.queries.push(query)?;
        Ok(())
    }
}

// Holds one more query, and answers the run if it is long enough.
#[tactic(auto, using(crate::proofs::Sending::report_out_of_memory))]
pub(crate) fn gather<R: Threads + Sync, B: BroadPhase + Sync + Drop, G: Gate + Sync, K: Sink>(
    setup: &Setup<'_, R, G>,
    player: &Player<B>,
    run: &mut QueryRun,
    asked: Asked,
    out: &mut Report<'_, K>,
) -> Result<(), SinkFault>
    requires sound { player.now.world.spent ≡ false }
    requires run { IsRun run.old }
    ensures sent { IsSentBy K.written K.faults K.since out.old out.new
        ((out.old.text.now.items ++ owed (live_in player.now.world) run.old) ++ answer_line (live_in player.now.world) asked)
        (out.new.text.now.items ++ owed (live_in player.now.world) run.new) result }
    ensures run { OnOk result (IsRun run.new) }
{
    run.push(asked)?;
    if run.asked.len() < LONGEST_RUN {
        return Ok(());
    }
    settle(setup, player, run, out)
}

// Answers a run, by as many threads as there may be.
#[tactic(auto, using(crate::proofs::Sending::report_out_of_memory))]
pub(crate) fn settle<R: Threads + Sync, B: BroadPhase + Sync + Drop, G: Gate + Sync, K: Sink>(
    setup: &Setup<'_, R, G>,
    player: &Player<B>,
    run: &mut QueryRun,
    out: &mut Report<'_, K>,
) -> Result<(), SinkFault>
    requires sound { player.now.world.spent ≡ false }
    requires same { run.old.queries.items ≡ map query_for run.old.asked.items }
    requires few { length run.old.asked.items ≤ LONGEST_RUN }
    ensures sent { IsAppended K.written K.faults K.since out.old out.new (owed (live_in player.now.world) run.old) result }
    ensures asked { OnOk result (run.new.asked.items ≡ []) }
    ensures queries { OnOk result (run.new.queries.items ≡ []) }
{
    if run.asked.is_empty() {
        return Ok(());
    }
    let lists = hits_many(
        setup.rt,
        player.alloc,
        player.world.index(),
        &run.queries,
        setup.options.workers,
        setup.gate,
    )?;
    send_answers(player.alloc, player.world.table(), &run.asked, &lists, out)?;
    run.asked.clear();
    run.queries.clear();
    Ok(())
}

// A line for each query, from the slots that an index has found for it.
fn send_answers<K: Sink>(
    alloc: Global,
    table: &LiveTable,
    asked: &[Asked],
    lists: &[Vec<u32>],
    out: &mut Report<'_, K>,
) -> Result<(), SinkFault>
    requires table { IsTable table.now }
    requires lists { map (λ l. l.items) lists.now ≡ map (λ a. found (bodies_of table.now.entries) (query_for a)) asked.now }
    ensures { IsAppended K.written K.faults K.since out.old out.new (answers table.now.entries asked.now) result }
{
    let mut handles = Vec::new(alloc);
    let mut rest = asked;
    let mut found = lists;
    'answers: while let Some((one, later)) = rest.split_first() {
        let Some((slots, later_lists)) = found.split_first() else {
            unreachable!()
        };
        send_answer(table, one, slots, &mut handles, out)?;
        rest = later;
        found = later_lists;
    }
    Ok(())
}

// The line of one query. The list of handles is used again and again.
#[tactic(auto, using(crate::proofs::Sending::report_out_of_memory))]
fn send_answer<K: Sink>(
    table: &LiveTable,
    asked: &Asked,
    slots: &[u32],
    handles: &mut Vec<Handle>,
    out: &mut Report<'_, K>,
) -> Result<(), SinkFault>
    requires table { IsTable table.now }
    requires found { slots.now ≡ found (bodies_of table.now.entries) (query_for asked.now) }
    ensures { IsAppended K.written K.faults K.since out.old out.new (answer_line table.now.entries asked.now) result }
{
    asked.put_answer(table, slots, handles, out.text)?;
    out.hand_on()
}
