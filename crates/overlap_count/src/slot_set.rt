//! A set of slots, one bit each.

ghost use Rattle.std.specs.Prelude.{◌≡◌, ◌+◌, ◌*◌, ◌<◌, ◌≤◌, ◌==◌, ◌++◌, []};
ghost use Rattle.std.specs.Prelude.{ℕ, if◌then◌else◌, OnOk, OnErr, length, slice_index, slice_set, take, vec_len};
ghost use Rattle.overlap_count.specs.FullPairs.{pairs_with};

use crate::full_pairs::push_words;
use crate::slot_counts::PLACES;
use broad_index::Pair;
use fixed_box::{NoMemory, SLOTS};
use std::alloc::Global;
use std::marker::Model;

// How many words have a bit for each slot.
const WORDS: usize = 128;

// A set of slots. Clauses see it as a list of bits, past whose end no slot is in the set.
#[derive(Drop)]
pub(crate) struct SlotSet {
    words: Vec<u64>,
    // How many slots there are, so that a set without any is passed over.
    number: u32,
}

impl Model for SlotSet {
    ghost use Rattle.std.specs.Prelude.{List, ℕ};
    ghost use Rattle.overlap_count.specs.SlotCounts.{bits_of, IsSet};

    ghost Value = { List ℕ };

    ghost view = { λ s. bits_of s.words.items };

    ghost invariant = { λ s. IsSet s.words.items s.number };
}

impl SlotSet {
    // No slot, and no memory is taken.
    pub(crate) fn new(alloc: Global) -> SlotSet
        ensures { result ≡ [] }
    {
        SlotSet {
            words: Vec::new(alloc),
            number: 0,
        }
    }

    // A slot that isn't in the set comes into it. Memory is taken at the first.
    #[inline(never)]
    pub(crate) fn insert(&mut self, slot: u32) -> Result<(), NoMemory>
        requires small { slot < SLOTS }
        requires absent { slice_index self.old slot ≡ 0 }
        ensures ok { OnOk result ((k : ℕ) → slice_index self.new k ≡ (if k == slot then 1 else slice_index self.old k)) }
        ensures err { OnErr result (self.new ≡ self.old) }
    {
        self.grow()?;
        let at = (slot / PLACES) as usize;
        self.words[at] |= 1 << (slot % PLACES);
        self.number += 1;
        Ok(())
    }

    // A slot of the set goes out of it.
    #[inline(never)]
    pub(crate) fn remove(&mut self, slot: u32)
        requires { slice_index self.old slot ≡ 1 }
        ensures { self.new ≡ slice_set self.old slot 0 }
    {
        let at = (slot / PLACES) as usize;
        self.words[at] &= !(1 << (slot % PLACES));
        self.number -= 1;
    }

    // All slots go out. The memory is kept.
    pub(crate) fn clear(&mut self)
        ensures { self.new ≡ [] }
    {
        self.words.clear();
        self.number = 0;
    }

    // Appends the pairs of slot `a` with those of the set. What was there stays, after an `Err` too.
    pub(crate) fn push_pairs(&self, a: u32, out: &mut Vec<Pair>) -> Result<(), NoMemory>
        ensures ok { OnOk result (out.new.items ≡ out.old.items ++ pairs_with a (λ b. slice_index self.now b == 1) SLOTS) }
        ensures kept { take (vec_len out.old) out.new.items ≡ out.old.items }
    {
        if self.number == 0 {
            return Ok(());
        }
        push_words(a, &self.words, out)
    }

    // Makes room for all slots.
    fn grow(&mut self) -> Result<(), NoMemory>
        ensures ok { OnOk result ((k : ℕ) → slice_index self.new k ≡ slice_index self.old k) }
        ensures len { OnOk result (SLOTS ≤ length self.new) }
        ensures err { OnErr result (self.new ≡ self.old) }
    {
        if self.words.len() < WORDS {
            self.words.resize(WORDS, 0)?;
        }
        Ok(())
    }
}
