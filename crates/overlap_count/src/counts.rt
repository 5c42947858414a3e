//! The counts of all pairs of slots, and for each slot the set of higher ones with which it overlaps on all axes.

ghost use Rattle.std.specs.Prelude.{◌≡◌, ◌≢◌, ◌+◌, ◌-◌, ◌*◌, ◌<◌, ◌≤◌, ◌==◌, ◌&&◌, ◌||◌};
ghost use Rattle.std.specs.Prelude.{◌++◌, true, ℕ, if◌then◌else◌, IfOk, OnOk, OnErr, length, take, vec_len};
ghost use Rattle.broad_index.specs.declared.pair.Pair.{Pair};
ghost use Rattle.overlap_count.specs.Counts.{count_of, IsCounts};
ghost use Rattle.broad_index.specs.Members.{has_pair};
ghost use Rattle.broad_index.specs.Near.{rises};
ghost use Rattle.overlap_count.specs.FullPairs.{full_pairs, pairs_below};
ghost use Rattle.overlap_count.specs.SlotCounts.{is_marked};

use crate::slot_counts::{PLACES, SlotCounts};
use crate::slot_set::SlotSet;
use broad_index::Pair;
use fixed_box::{NoMemory, SLOTS};
use std::alloc::Global;
use std::marker::Model;

/// For each pair of slots the number of axes on which their boxes overlap, 0 to 3, as sweep and prune keeps it while
/// endpoints change places (Cohen, Lin, Manocha, Ponamgi, *I-COLLIDE*, 1995).
///
/// A pair has its lower slot first. Its count takes two bits in the list of its higher slot, so that a slot that passes
/// lower ones stays within one list of 2 KB. The pairs that count 3 stand once more in sets by the lower slot, which
/// change only where a count comes to 3 or leaves it. Lists and sets are made as they are needed: 8.5 MB of counts and
/// 8.4 MB of sets where all slots have pairs.
#[derive(Drop)]
pub struct Counts {
    by_slot: Vec<SlotCounts>,
    full: Vec<SlotSet>,
}

impl Model for Counts {
    ghost use Rattle.std.specs.Prelude.{List, ℕ};
    ghost use Rattle.overlap_count.specs.SlotCounts.{IsTable};

    ghost Value = { List (List ℕ) };

    ghost view = { λ c. c.by_slot.items };

    ghost invariant = { λ c. IsTable c.by_slot.items c.full.items };
}

impl Counts {
    /// Every count is 0.
    pub fn new(alloc: Global) -> Result<Counts, NoMemory>
        ensures { IfOk result (λ counts. (a b : ℕ) → count_of counts a b ≡ 0) }
    {
        let mut by_slot = Vec::with_capacity(alloc, SLOTS as usize)?;
        let mut full = Vec::with_capacity(alloc, SLOTS as usize)?;
        'by_slot: for _slot in 0..SLOTS {
            by_slot.push(SlotCounts::new(alloc))?;
            full.push(SlotSet::new(alloc))?;
        }
        Ok(Counts { by_slot, full })
    }

    /// The pair's count, in constant time.
    pub fn count(&self, pair: Pair) -> u8
        requires order { pair.a < pair.b }
        requires small { pair.b < SLOTS }
        ensures count { result ≡ count_of self.now pair.a pair.b }
        ensures counts { IsCounts self.now }
    {
        self.by_slot[pair.b as usize].count(pair.a)
    }

    /// The pair's count rises by one, in constant time but where the list of its higher slot, or at 3 the set of its
    /// lower slot, is made.
    pub fn raise(&mut self, pair: Pair) -> Result<(), NoMemory>
        requires order { pair.a < pair.b }
        requires small { pair.b < SLOTS }
        requires room { count_of self.old pair.a pair.b < 3 }
        ensures ok { OnOk result ((a b : ℕ) → count_of self.new a b
            ≡ (if a == pair.a && b == pair.b then count_of self.old pair.a pair.b + 1 else count_of self.old a b)) }
        ensures counts { IsCounts self.new }
        ensures err { OnErr result (self.new ≡ self.old) }
    {
        self.raise_if(pair, true)
    }

    /// The pair's count rises by one where `rises`, and else all stays.
    ///
    /// Which of the two is as good as random where a walk passes endpoints of both kinds, so it is no branch: only a
    /// count that comes to 3, or a list that has to grow, takes another path.
    #[inline]
    pub fn raise_if(&mut self, pair: Pair, rises: bool) -> Result<(), NoMemory>
        requires order { pair.a < pair.b }
        requires small { pair.b < SLOTS }
        requires room { rises ≡ true → count_of self.old pair.a pair.b < 3 }
        ensures ok { OnOk result ((a b : ℕ) → count_of self.new a b ≡ (if a == pair.a && b == pair.b
            then (if rises then count_of self.old pair.a pair.b + 1 else count_of self.old pair.a pair.b)
            else count_of self.old a b)) }
        ensures counts { IsCounts self.new }
        ensures err { OnErr result (self.new ≡ self.old) }
    {
        if self.by_slot[pair.b as usize].raises_within(pair.a, rises) {
            self.by_slot[pair.b as usize].raise_within(pair.a, rises);
            return Ok(());
        }
        if rises {
            return self.raise_apart(pair);
        }
        Ok(())
    }

    /// The pair's count falls by one, in constant time.
    pub fn lower(&mut self, pair: Pair)
        requires order { pair.a < pair.b }
        requires small { pair.b < SLOTS }
        requires above { count_of self.old pair.a pair.b ≢ 0 }
        ensures lowered { (a b : ℕ) → count_of self.new a b
            ≡ (if a == pair.a && b == pair.b then count_of self.old pair.a pair.b - 1 else count_of self.old a b) }
        ensures counts { IsCounts self.new }
    {
        self.lower_if(pair, true);
    }

    /// The pair's count falls by one where `lowers`, and else all stays. Only a count that was 3 takes a branch.
    #[inline]
    pub fn lower_if(&mut self, pair: Pair, lowers: bool)
        requires order { pair.a < pair.b }
        requires small { pair.b < SLOTS }
        requires above { lowers ≡ true → count_of self.old pair.a pair.b ≢ 0 }
        ensures lowered { (a b : ℕ) → count_of self.new a b ≡ (if a == pair.a && b == pair.b
            then (if lowers then count_of self.old pair.a pair.b - 1 else count_of self.old pair.a pair.b)
            else count_of self.old a b) }
        ensures counts { IsCounts self.new }
    {
        if self.by_slot[pair.b as usize].lowers_within(pair.a, lowers) {
            self.by_slot[pair.b as usize].lower_within(pair.a, lowers);
            return;
        }
        if lowers {
            self.lower_apart(pair);
        }
    }

    /// Each pair with a slot counts 0. The slot's own list and those of higher slots are looked at.
    pub fn forget(&mut self, slot: u32)
        requires { slot < SLOTS }
        ensures forgotten { (a b : ℕ) → count_of self.new a b ≡ (if a == slot || b == slot then 0 else count_of self.old a b) }
        ensures counts { IsCounts self.new }
    {
        self.forget_lower(slot);
        self.forget_higher(slot);
    }

    /// Appends the pairs whose count is 3, by `a` and then by `b`. After `NoMemory` `out` is as before.
    ///
    /// Slots without such a pair are passed over, and the sets of the others are read by words of 64 slots.
    pub fn threes(&self, out: &mut Vec<Pair>) -> Result<(), NoMemory>
        ensures ok { OnOk result (out.new.items ≡ out.old.items ++ full_pairs self.now) }
        ensures members { (p : Pair) → has_pair (full_pairs self.now) p ≡ (count_of self.now p.a p.b == 3) }
        ensures rises { rises (full_pairs self.now) ≡ true }
        ensures err { OnErr result (out.new.items ≡ out.old.items) }
        ensures counts { IsCounts self.now }
    {
        let before = out.len();
        let pushed = push_sets(&self.full, out);
        if pushed.is_err() {
            out.truncate(before);
        }
        pushed
    }

    // The pair's count rises. The list grows where it lacks the place, and at 3 the set gets the pair. This stands apart, so
    // that a count that has its place rises in few steps.
    #[cold]
    #[inline(never)]
    fn raise_apart(&mut self, pair: Pair) -> Result<(), NoMemory>
        requires order { pair.a < pair.b }
        requires small { pair.b < SLOTS }
        requires room { count_of self.old pair.a pair.b < 3 }
        ensures ok { OnOk result ((a b : ℕ) → count_of self.new a b
            ≡ (if a == pair.a && b == pair.b then count_of self.old pair.a pair.b + 1 else count_of self.old a b)) }
        ensures counts { IsCounts self.new }
        ensures err { OnErr result (self.new ≡ self.old) }
    {
        if self.by_slot[pair.b as usize].count(pair.a) == 2 {
            self.full[pair.a as usize].insert(pair.b)?;
            self.by_slot[pair.b as usize].raise_within(pair.a, true);
            return Ok(());
        }
        self.by_slot[pair.b as usize].raise(pair.a, tallies_of(pair.b))
    }

    // The pair's count falls from 3, and the set loses the pair. This stands apart too.
    #[cold]
    #[inline(never)]
    fn lower_apart(&mut self, pair: Pair)
        requires order { pair.a < pair.b }
        requires small { pair.b < SLOTS }
        requires full { count_of self.old pair.a pair.b ≡ 3 }
        ensures lowered { (a b : ℕ) → count_of self.new a b
            ≡ (if a == pair.a && b == pair.b then count_of self.old pair.a pair.b - 1 else count_of self.old a b) }
        ensures counts { IsCounts self.new }
    {
        self.by_slot[pair.b as usize].lower_within(pair.a, true);
        self.full[pair.a as usize].remove(pair.b);
    }

    // Each pair with a lower slot counts 0: those of the slot's own list.
    fn forget_lower(&mut self, slot: u32)
        requires { slot < SLOTS }
        ensures { (a b : ℕ) → count_of self.new a b ≡ (if b == slot then 0 else count_of self.old a b) }
    {
        'sets: for a in 0..slot {
            if self.by_slot[slot as usize].count(a) == 3 {
                self.full[a as usize].remove(slot);
            }
        }
        self.by_slot[slot as usize].clear();
    }

    // Each pair with a higher slot counts 0: those of the slot's place in later lists.
    fn forget_higher(&mut self, slot: u32)
        requires { slot < SLOTS }
        ensures forgotten { (a b : ℕ) → count_of self.new a b ≡ (if a == slot then 0 else count_of self.old a b) }
        ensures counts { IsCounts self.new }
    {
        self.full[slot as usize].clear();
        'by_slot: for b in slot + 1..SLOTS {
            self.by_slot[b as usize].unset(slot);
        }
    }
}

// Appends the pairs of each slot in turn. What was there stays, after an `Err` too.
fn push_sets(sets: &[SlotSet], out: &mut Vec<Pair>) -> Result<(), NoMemory>
    requires { length sets.now ≡ SLOTS }
    ensures ok { OnOk result (out.new.items ≡ out.old.items ++ pairs_below (is_marked sets.now) SLOTS) }
    ensures kept { take (vec_len out.old) out.new.items ≡ out.old.items }
{
    'sets: for a in 0..SLOTS {
        sets[a as usize].push_pairs(a, out)?;
    }
    Ok(())
}

// How many tallies have a place for each slot that is lower than this one.
fn tallies_of(slot: u32) -> u32
    requires { slot < SLOTS }
    ensures reach { slot < 64 * result }
{
    slot / PLACES + 1
}
