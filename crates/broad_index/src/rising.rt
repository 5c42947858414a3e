//! Pairs and slots put in order, each once.

ghost use Rattle.std.specs.Prelude.{◌≡◌, ℕ, ◌≤◌, Bool, true, ◌++◌, drop, length, take, vec_len, OnOk, OnErr};
ghost use Rattle.std.specs.List.{dedup};
ghost use Rattle.std.specs.Prelude.{eqb};
ghost use Rattle.broad_index.specs.declared.pair.Pair.{Pair};
ghost use Rattle.broad_index.specs.declared.query.Query.{Query};
ghost use Rattle.std.specs.Ordering.{nat_cmp};
ghost use Rattle.std.specs.FinMap.{FinMap};
ghost use Rattle.fixed_box.specs.Bounds.{Bounds};
ghost use Rattle.broad_index.specs.Found.{found, listed};
ghost use Rattle.broad_index.specs.Near.{near, rises};
ghost use Rattle.broad_index.specs.Members.{has_pair, has_slot, slots_rise, is_near, is_listed, is_found, is_reached};
ghost use Rattle.broad_index.specs.Reach.{reach};

use crate::Pair;
use fixed_box::NoMemory;

/// Puts pairs in rising order, each once.
pub fn settle_pairs(pairs: &mut Vec<Pair>)
    ensures members { (p : Pair) → has_pair pairs.new.items p ≡ has_pair pairs.old.items p }
    ensures rises { rises pairs.new.items ≡ true }
{
    pairs.sort_unstable();
    pairs.dedup();
}

// Puts slots in rising order, each once.
fn settle_slots(slots: &mut Vec<u32>)
    ensures members { (k : ℕ) → has_slot slots.new.items k ≡ has_slot slots.old.items k }
    ensures rises { slots_rise slots.new.items ≡ true }
{
    slots.sort_unstable();
    slots.dedup();
}

/// Appends pairs that were found in any order, and any number of times, in rising order and each once. `found` is sorted in
/// place, and its repeats dropped.
pub fn push_rising_pairs(found: &mut Vec<Pair>, out: &mut Vec<Pair>) -> Result<(), NoMemory>
    ensures near { (bodies : FinMap nat_cmp Bounds) → ((p : Pair) → has_pair found.old.items p ≡ is_near bodies p)
        → OnOk result (out.new.items ≡ out.old.items ++ near bodies) }
    ensures err { OnErr result (out.new.items ≡ out.old.items) }
{
    settle_pairs(found);
    out.extend_from_slice(found)?;
    Ok(())
}

/// Appends slots that were found in any order, and any number of times, in rising order and each once. `slots` is sorted in
/// place, and its repeats dropped.
pub fn push_rising_slots(slots: &mut Vec<u32>, out: &mut Vec<u32>) -> Result<(), NoMemory>
    ensures found { (bodies : FinMap nat_cmp Bounds) (query : Query) → ((k : ℕ) → has_slot slots.old.items k ≡ is_found bodies query k)
        → OnOk result (out.new.items ≡ out.old.items ++ found bodies query) }
    ensures reach { (bodies : FinMap nat_cmp Bounds) (slot : ℕ) → ((k : ℕ) → has_slot slots.old.items k ≡ is_reached bodies slot k)
        → OnOk result (out.new.items ≡ out.old.items ++ reach bodies slot) }
    ensures err { OnErr result (out.new.items ≡ out.old.items) }
{
    settle_slots(slots);
    out.extend_from_slice(slots)?;
    Ok(())
}

/// Puts the slots from one place of a list on in rising order, each once. What stands before stays. It takes no memory.
pub fn settle_slots_from(from: usize, slots: &mut Vec<u32>)
    requires within { from ≤ vec_len slots.old }
    ensures listed { (bodies : FinMap nat_cmp Bounds) (p : ℕ × Bounds → Bool) → ((k : ℕ) → has_slot (drop from slots.old.items) k ≡ is_listed p bodies k)
        → slots.new.items ≡ take from slots.old.items ++ listed p bodies }
    ensures found { (bodies : FinMap nat_cmp Bounds) (query : Query) → ((k : ℕ) → has_slot (drop from slots.old.items) k ≡ is_found bodies query k)
        → slots.new.items ≡ take from slots.old.items ++ found bodies query }
    ensures reach { (bodies : FinMap nat_cmp Bounds) (slot : ℕ) → ((k : ℕ) → has_slot (drop from slots.old.items) k ≡ is_reached bodies slot k)
        → slots.new.items ≡ take from slots.old.items ++ reach bodies slot }
{
    let kept = settle_front(&mut slots[from..]);
    slots.truncate(from + kept);
}

// Puts slots in rising order, each once, at the front of a list, and answers how many they are.
fn settle_front(slots: &mut [u32]) -> usize
    ensures bound { result ≤ length slots.new }
    ensures members { (k : ℕ) → has_slot (take result slots.new) k ≡ has_slot slots.old k }
    ensures rises { slots_rise (take result slots.new) ≡ true }
{
    slots.sort_unstable();
    move_distinct(slots)
}

// Moves the slots that differ from the one before them to the front of a list, and answers how many they are.
fn move_distinct(slots: &mut [u32]) -> usize
    ensures bound { result ≤ length slots.new }
    ensures distinct { take result slots.new ≡ dedup eqb slots.old }
{
    if slots.is_empty() {
        return 0;
    }
    let mut last = slots[0];
    let mut kept = 0;
    for at in 1..slots.len() {
        let slot = slots[at];
        kept += usize::from(slot != last);
        // it is written whether it is kept or not, so that there is no branch to guess wrong
        slots[kept] = slot;
        last = slot;
    }
    kept + 1
}
