//! The hash table of cells: which cell each slot is in, put, taken and found in constant time.

ghost use Rattle.std.specs.Prelude.{◌≡◌, ℕ, ◌+◌, ◌<◌, ◌++◌, true, false, Some, IfOk, OnOk, OnErr, length, take};
ghost use Rattle.std.specs.FinMap as map;
ghost use Rattle.cell_table.specs.declared.cell_key.CellKey as key;
ghost use Rattle.cell_table.specs.Cells.{slots_in, slots_at, VisitsRow};
ghost use Rattle.cell_table.specs.Kept.{AreStarts};
ghost use Rattle.cell_table.specs.Listed.{Lists};

use crate::buckets::bucket_of;
use crate::cells::{no_counts, no_keys, push_cell, push_level, push_row, put_rings, sort_from};
use crate::rings::{link, nodes, unlink};
use crate::{BUCKETS, CellKey, LEVELS};
use fixed_box::{NoMemory, SLOTS};
use std::alloc::Global;
use std::marker::Model;

/// The cell of each slot that has one, seen as a map from slot to key.
///
/// The slots of a bucket stand in a ring of links in arrays, so a slot comes and goes in constant time. Only `new` takes
/// memory of the table's own.
#[derive(Drop)]
pub struct CellTable {
    keys: Vec<Option<CellKey>>,
    next: Vec<u32>,
    prev: Vec<u32>,
    // How many slots each level has.
    levels: Vec<u32>,
}

impl Model for CellTable {
    ghost use Rattle.std.specs.Ordering.{nat_cmp};
    ghost use Rattle.std.specs.Coded.{coded_ℕ};
    ghost use Rattle.std.specs.FinMap.{FinMap, code};
    ghost use Rattle.cell_table.specs.declared.cell_key.CellKey.{CellKey};
    ghost use Rattle.cell_table.specs.Cells.{coded_key};
    ghost use Rattle.slot_lists.specs.SlotMap.{map_of};
    ghost use Rattle.cell_table.specs.Kept.{IsCellTable};

    ghost Value = { FinMap nat_cmp CellKey };

    ghost coded = { code coded_ℕ coded_key };

    ghost view = { λ t. map_of t.keys.items };

    ghost invariant = { λ t. IsCellTable t.keys.items t.next.items t.prev.items t.levels.items };
}

impl CellTable {
    /// A table in which no slot has a cell, with the memory for all slots.
    pub fn new(alloc: Global) -> Result<CellTable, NoMemory>
        ensures { IfOk result (λ table. table ≡ map.empty) }
    {
        Ok(CellTable {
            keys: no_keys(alloc)?,
            next: nodes(alloc)?,
            prev: nodes(alloc)?,
            levels: no_counts(alloc)?,
        })
    }

    /// A law for proofs, with nothing to run: each slot that has a key is one of those that there may be.
    pub fn slots_law(&self)
        ensures { (slot : ℕ) (k : key.CellKey) → map.get self.now slot ≡ Some k → slot < SLOTS }
    {
        // what a value keeps is known where it is read
        let _keys = &self.keys;
    }

    /// The key of a slot.
    pub fn key_of(&self, slot: u32) -> Option<CellKey>
        ensures { result ≡ map.get self.now slot }
    {
        let slot = slot as usize;
        if slot < self.keys.len() {
            self.keys[slot]
        } else {
            None
        }
    }

    /// How many slots have keys of a level, in constant time.
    pub fn level_len(&self, level: u8) -> u32
        requires { level < LEVELS }
        ensures { result ≡ length (slots_at self.now level) }
    {
        self.levels[level as usize]
    }

    /// Gives a slot that has none a key, in constant time.
    pub fn put(&mut self, slot: u32, key: CellKey)
        requires small { slot < SLOTS }
        requires level { key.level < LEVELS }
        requires absent { map.contains_key self.old slot ≡ false }
        ensures { self.new ≡ map.insert self.old slot key }
    {
        self.keys[slot as usize] = Some(key);
        self.levels[key.level as usize] += 1;
        link(
            &mut self.next,
            &mut self.prev,
            slot,
            SLOTS + bucket_of(&key),
        );
    }

    /// Takes a slot's key away, in constant time.
    pub fn take(&mut self, slot: u32)
        requires { map.contains_key self.old slot ≡ true }
        ensures { self.new ≡ map.remove self.old slot }
    {
        let Some(key) = self.keys[slot as usize] else {
            return;
        };
        self.keys[slot as usize] = None;
        self.levels[key.level as usize] -= 1;
        unlink(&mut self.next, &mut self.prev, slot);
    }

    /// Appends the slots with exactly this key, rising. After `NoMemory` `out` is as before.
    pub fn each_in(&self, key: &CellKey, out: &mut Vec<u32>) -> Result<(), NoMemory>
        ensures ok { OnOk result (out.new.items ≡ out.old.items ++ slots_in self.now key.now) }
        ensures err { OnErr result (out.new.items ≡ out.old.items) }
    {
        let before = out.len();
        push_cell(&self.keys, &self.next, key, out)?;
        sort_from(out, before);
        Ok(())
    }

    /// Appends the slots in the buckets of a row of cells, one bucket after the other: from the cell of a key on, below an
    /// end of z. A slot comes again where buckets of the row are one. After `NoMemory` `out` is as before.
    pub fn visit_row(&self, key: &CellKey, end: i32, out: &mut Vec<u32>) -> Result<(), NoMemory>
        ensures ok { OnOk result (VisitsRow self.now key.now end out.old.items out.new.items) }
        ensures err { OnErr result (out.new.items ≡ out.old.items) }
    {
        let before = out.len();
        let pushed = push_row(&self.next, key, end, out);
        if pushed.is_err() {
            out.truncate(before);
        }
        pushed
    }

    // Writes the slots of each bucket, one bucket after the other, and where each bucket's slots start, and answers the
    // end. There is room for one slot more than there can be.
    pub(crate) fn put_buckets(&self, starts: &mut [u32], slots: &mut [u32]) -> usize
        requires starts { length starts.old ≡ BUCKETS + 1 }
        requires slots { length slots.old ≡ SLOTS + 1 }
        ensures starts { AreStarts starts.new (take result slots.new) }
        ensures slots { Lists self.now (record { starts = starts.new; slots = take result slots.new }) }
    {
        // a slot that comes is linked in front, so backward they stand in the order in which they came
        put_rings(&self.prev, starts, slots)
    }

    /// Appends the slots whose keys have a level, rising, by a walk over all slots. After `NoMemory` `out` is as before.
    pub fn each_at(&self, level: u8, out: &mut Vec<u32>) -> Result<(), NoMemory>
        ensures ok { OnOk result (out.new.items ≡ out.old.items ++ slots_at self.now level) }
        ensures err { OnErr result (out.new.items ≡ out.old.items) }
    {
        let before = out.len();
        let pushed = push_level(&self.keys, level, out);
        if pushed.is_err() {
            out.truncate(before);
        }
        pushed
    }
}
