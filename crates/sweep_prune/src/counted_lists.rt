//! The lists with their counts, and the slots that come and go in both.

ghost use Rattle.std.specs.Prelude.{◌≡◌, ◌++◌, [], ◌+◌, ◌*◌, ◌<◌, ◌≤◌, ℕ, List, true, false};
ghost use Rattle.std.specs.Prelude.{◌&&◌, ◌==◌, nat_lt, OnOk, OnErr, IfOk};
ghost use Rattle.broad_index.specs.declared.pair.Pair.{Pair};
ghost use Rattle.broad_index.specs.Members.{has_pair};
ghost use Rattle.broad_index.specs.Near.{rises};
ghost use Rattle.endpoint_list.specs.NodeList.{has};
ghost use Rattle.sweep_prune.specs.Core.{AreWhole, entered, left};
ghost use Rattle.sweep_prune.specs.Places.{on, places};
ghost use Rattle.sweep_prune.specs.declared.axis.Axis.{Axis};

use crate::Axis;
use crate::lists::Lists;
use broad_index::{Pair, member_laws};
use endpoint_list::EndList;
use fixed_box::{NoMemory, SLOTS};
use overlap_count::Counts;
use std::alloc::Global;
use std::marker::Model;

/// Three lists of endpoints, the number of lists in which each two slots overlap, and the number of exchanges.
///
/// Two slots overlap in a list where each one's minimum node stands before the other's maximum node. Nothing but exchanges,
/// walks, and slots that come and go changes a core, and the counts are those of the lists after each of them.
#[derive(Drop)]
pub struct Core {
    pub(crate) lists: Lists,
    pub(crate) counts: Counts,
    pub(crate) exchanged: u64,
}

impl Model for Core {
    ghost use Rattle.sweep_prune.specs.Core.{CoreState};
    ghost use Rattle.sweep_prune.specs.CoreKeeps.{IsCore};

    ghost Value = { CoreState };

    ghost view = { λ c. record { lists = c.lists; exchanged = c.exchanged } };

    ghost invariant = { λ c. IsCore c.lists c.counts };
}

impl Core {
    /// A core with no slot, and with the memory for all nodes. Counts take memory as they are needed.
    pub fn new(alloc: Global) -> Result<Core, NoMemory>
        ensures { IfOk result (λ core. core ≡ record { lists = record { x = []; y = []; z = [] }; exchanged = 0 }) }
    {
        Ok(Core {
            lists: Lists::new(alloc)?,
            counts: Counts::new(alloc)?,
            exchanged: 0,
        })
    }

    /// The list of an axis.
    pub fn list(&self, axis: Axis) -> &EndList
        ensures list { result.now ≡ on axis self.now.lists }
        ensures whole { AreWhole self.now.lists }
    {
        self.lists.list(axis)
    }

    /// The number of lists in which two slots overlap: the kept count, and 0 where one is absent. A pair has its
    /// lower slot first.
    pub fn count(&self, pair: Pair) -> u8
        ensures count { pair.a < pair.b → result ≡ places self.now.lists pair.a pair.b }
        ensures unordered { pair.b ≤ pair.a → result ≡ 0 }
        ensures whole { AreWhole self.now.lists }
    {
        if pair.a < pair.b && pair.b < SLOTS {
            self.counts.count(pair)
        } else {
            0
        }
    }

    /// How many exchanges there were since the core was made or last cleared.
    pub fn exchanged(&self) -> u64
        ensures exchanged { result ≡ self.now.exchanged }
        ensures whole { AreWhole self.now.lists }
    {
        self.exchanged
    }

    // Appends the pairs that overlap in all three lists, in rising order. After an `Err` `out` is as before.
    pub(crate) fn push_full(&self, out: &mut Vec<Pair>) -> Result<(), NoMemory>
        ensures ok { OnOk result ((pairs : List Pair) → rises pairs ≡ true
            → ((p : Pair) → has_pair pairs p ≡ (nat_lt p.a p.b && places self.now.lists p.a p.b == 3))
            → out.new.items ≡ out.old.items ++ pairs) }
        ensures err { OnErr result (out.new.items ≡ out.old.items) }
    {
        member_laws();
        self.counts.threes(out)
    }
}

/// Puts an absent slot's minimum and then its maximum last, on all three lists.
pub fn enter(core: &mut Core, slot: u32)
    requires small { slot < SLOTS }
    requires absent { (axis : Axis) → has (2 * slot) (on axis core.old.lists) ≡ false }
    ensures entered { core.new ≡ record core.old { lists = entered slot core.old.lists } }
    ensures whole { AreWhole core.new.lists }
{
    core.lists.enter(slot);
}

/// Takes a present slot's nodes and counts out. The other nodes keep their order.
pub fn quit(core: &mut Core, slot: u32)
    requires present { (axis : Axis) → has (2 * slot) (on axis core.old.lists) ≡ true }
    ensures left { core.new ≡ record core.old { lists = left slot core.old.lists } }
    ensures whole { AreWhole core.new.lists }
{
    core.counts.forget(slot);
    core.lists.quit(slot);
}

/// Counts exchanges from 0 on again. The lists and the counts stay.
pub fn clear(core: &mut Core)
    ensures cleared { core.new ≡ record core.old { exchanged = 0 } }
    ensures whole { AreWhole core.new.lists }
{
    core.exchanged = 0;
}
