//! The pair cache of a frame: the pairs of the last frame, and the turn to those of the next.

ghost use Rattle.std.specs.Prelude.{◌≡◌, ◌++◌, [], true, IfOk, OnOk, OnErr};
ghost use Rattle.pair_events.specs.PairEvents.{events, is_in_order, missing};

use crate::changes::push_changes;
use crate::events::push_events;
use crate::{Events, HPair, Told, change_laws};
use fixed_box::NoMemory;
use std::alloc::Global;
use std::marker::Model;
use std::mem;

/// The pairs of the last frame, against which the next one is told.
#[derive(Drop)]
pub struct PairTable {
    last: Vec<HPair>,
    // Room for `turn` and `turn_keep`.
    began: Vec<HPair>,
    over: Vec<HPair>,
}

impl Model for PairTable {
    ghost use Rattle.std.specs.Prelude.{◌≡◌, List, true};
    ghost use Rattle.pair_events.specs.declared.hpair.HPair.{HPair};
    ghost use Rattle.pair_events.specs.PairEvents.{is_in_order};

    ghost Value = { List HPair };

    ghost view = { λ t. t.last.items };

    ghost invariant = { λ t. is_in_order t.last.items ≡ true };
}

impl PairTable {
    /// A table with no pair.
    pub fn new(alloc: Global) -> PairTable
        ensures { result ≡ [] }
    {
        PairTable {
            last: Vec::new(alloc),
            began: Vec::new(alloc),
            over: Vec::new(alloc),
        }
    }

    /// The pairs of the last frame, which rise as those of `turn` do.
    pub fn last(&self) -> &[HPair]
        ensures value { result.now ≡ self.now }
        ensures order { is_in_order self.now ≡ true }
    {
        &self.last
    }

    /// Appends what the present pairs change, and keeps them: first each present pair, as it begins or stays, and then
    /// each former one that is over. The present pairs rise by their slots, each with its lower slot first. After an `Err`
    /// the table and `out` are as before, and `now` is dropped. It takes a step for each pair of both lists.
    pub fn turn(&mut self, now: Vec<HPair>, out: &mut Vec<Told>) -> Result<(), NoMemory>
        requires { is_in_order now.items ≡ true }
        ensures told { OnOk result (out.new.items ≡ out.old.items ++ events self.old now.items) }
        ensures kept { OnOk result (self.new ≡ now.items) }
        ensures err { OnErr result ((out.new.items ≡ out.old.items) × (self.new ≡ self.old)) }
    {
        let _former = self.turn_keep(now, out)?;
        Ok(())
    }

    /// Does what `turn` does, and answers the former pairs, which rise as the present ones do. No list is copied.
    pub fn turn_keep(
        &mut self,
        now: Vec<HPair>,
        out: &mut Vec<Told>,
    ) -> Result<Vec<HPair>, NoMemory>
        requires { is_in_order now.items ≡ true }
        ensures former { IfOk result (λ former. former.items ≡ self.old) }
        ensures order { IfOk result (λ former. is_in_order former.items ≡ true) }
        ensures told { OnOk result (out.new.items ≡ out.old.items ++ events self.old now.items) }
        ensures kept { OnOk result (self.new ≡ now.items) }
        ensures err { OnErr result ((out.new.items ≡ out.old.items) × (self.new ≡ self.old)) }
    {
        change_laws();
        self.began.clear();
        self.over.clear();
        push_changes(&self.last, &now, &mut self.began, &mut self.over)?;
        push_events(Events::of(&now, &self.began, &self.over), out)?;
        Ok(mem::replace(&mut self.last, now))
    }

    /// Keeps the present pairs, and answers the former ones. The two lists are replaced by the pairs that began and by those that are
    /// over, in order; nothing is written of a pair that stayed, and no list is copied. The present pairs rise as those of `turn` do.
    /// After an `Err` the table is as before, `now` is dropped, and the two lists may have any pairs.
    pub fn turn_changes(
        &mut self,
        now: Vec<HPair>,
        began: &mut Vec<HPair>,
        over: &mut Vec<HPair>,
    ) -> Result<Vec<HPair>, NoMemory>
        requires { is_in_order now.items ≡ true }
        ensures former { IfOk result (λ former. former.items ≡ self.old) }
        ensures order { IfOk result (λ former. is_in_order former.items ≡ true) }
        ensures began { OnOk result (began.new.items ≡ missing now.items self.old) }
        ensures over { OnOk result (over.new.items ≡ missing self.old now.items) }
        ensures kept { OnOk result (self.new ≡ now.items) }
        ensures err { OnErr result (self.new ≡ self.old) }
    {
        began.clear();
        over.clear();
        push_changes(&self.last, &now, began, over)?;
        Ok(mem::replace(&mut self.last, now))
    }

    /// Makes these the pairs of the last frame, and answers the former ones. Nothing is told of what that changes. They rise as those
    /// of `turn` do.
    pub fn set_last(&mut self, last: Vec<HPair>) -> Vec<HPair>
        requires { is_in_order last.items ≡ true }
        ensures former { result.items ≡ self.old }
        ensures order { is_in_order result.items ≡ true }
        ensures kept { self.new ≡ last.items }
    {
        mem::replace(&mut self.last, last)
    }
}
