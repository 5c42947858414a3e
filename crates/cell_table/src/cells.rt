//! Walks over the rings of links: the slots of a level, of a cell, of a row of cells and of a bucket.

ghost use Rattle.std.specs.Prelude.{◌≡◌, ℕ, ◌+◌, ◌<◌, ◌≤◌, ◌++◌, ◌==◌, None, IfOk, OnOk, OnErr, length, take, drop, vec_len, slice_index, slice_index_or};
ghost use Rattle.std.specs.Ordering.{nat_cmp};
ghost use Rattle.std.specs.List.Sorted.{IsPermutation, IsSorted};
ghost use Rattle.cell_table.specs.Cells.{bucket_of, same_cell};
ghost use Rattle.cell_table.specs.Kept.{walk, picked, at, meets_test, slots_from, ring_of, rings_to, Rings, AreRings, StartsRing};

use crate::buckets::{bucket_of, is_same};
use crate::rings::NODES;
use crate::{BUCKETS, CellKey, LEVELS};
use fixed_box::{NoMemory, SLOTS};
use std::alloc::Global;

// No slot has a key.
pub(crate) fn no_keys(alloc: Global) -> Result<Vec<Option<CellKey>>, NoMemory>
    ensures len { IfOk result (λ keys. length keys.items ≡ SLOTS) }
    ensures none { IfOk result (λ keys. (k : ℕ) → slice_index_or keys.items k None ≡ None) }
{
    let mut keys = Vec::with_capacity(alloc, SLOTS as usize)?;
    'keys: for _slot in 0..SLOTS {
        keys.push(None)?;
    }
    Ok(keys)
}

// No level has a slot.
pub(crate) fn no_counts(alloc: Global) -> Result<Vec<u32>, NoMemory>
    ensures len { IfOk result (λ counts. length counts.items ≡ LEVELS) }
    ensures zero { IfOk result (λ counts. (k : ℕ) → slice_index counts.items k ≡ 0) }
{
    Ok(vec![in alloc; 0; LEVELS as usize]?)
}

// Appends the slots of a level. What was there stays, after an `Err` too.
pub(crate) fn push_level(
    keys: &[Option<CellKey>],
    level: u8,
    out: &mut Vec<u32>,
) -> Result<(), NoMemory>
    requires { length keys.now ≡ SLOTS }
    ensures ok { OnOk result (out.new.items ≡ out.old.items ++ slots_from (λ k. k.level == level) 0 keys.now) }
    ensures kept { take (vec_len out.old) out.new.items ≡ out.old.items }
{
    let mut rest = keys;
    let mut slot = 0;
    'slots: while let [key, more @ ..] = rest {
        if has_level(key, level) {
            out.push(slot)?;
        }
        slot += 1;
        rest = more;
    }
    Ok(())
}

fn has_level(key: &Option<CellKey>, level: u8) -> bool
    ensures { result ≡ meets_test (λ k. k.level == level) key.now }
{
    match key {
        Some(key) => key.level == level,
        None => false,
    }
}

// Appends the slots of a cell in the order of its bucket. After an `Err` `out` is as before.
pub(crate) fn push_cell(
    keys: &[Option<CellKey>],
    next: &[u32],
    key: &CellKey,
    out: &mut Vec<u32>,
) -> Result<(), NoMemory>
    requires keys { length keys.now ≡ SLOTS }
    requires next { length next.now ≡ NODES }
    ensures ok { OnOk result (out.new.items
        ≡ out.old.items ++ picked key.now keys.now (walk next.now SLOTS (slice_index next.now (SLOTS + bucket_of key.now)))) }
    ensures err { OnErr result (out.new.items ≡ out.old.items) }
{
    let before = out.len();
    let first = next[(SLOTS + bucket_of(key)) as usize];
    let pushed = push_chain(keys, next, first, key, out);
    if pushed.is_err() {
        out.truncate(before);
    }
    pushed
}

// Appends the slots of a chain that have this key. What was there stays, after an `Err` too.
fn push_chain(
    keys: &[Option<CellKey>],
    next: &[u32],
    first: u32,
    key: &CellKey,
    out: &mut Vec<u32>,
) -> Result<(), NoMemory>
    requires keys { length keys.now ≡ SLOTS }
    requires next { length next.now ≡ NODES }
    ensures ok { OnOk result (out.new.items ≡ out.old.items ++ picked key.now keys.now (walk next.now SLOTS first)) }
    ensures kept { take (vec_len out.old) out.new.items ≡ out.old.items }
{
    let mut at = first;
    'walk: for _step in 0..SLOTS {
        if at >= SLOTS {
            break;
        }
        if has_key(keys, at, key) {
            out.push(at)?;
        }
        at = next[at as usize];
    }
    Ok(())
}

// Appends the slots in the buckets of a row of cells: from a cell on, below an end of z. What was there stays, after an
// `Err` too.
pub(crate) fn push_row(
    next: &[u32],
    key: &CellKey,
    end: i32,
    out: &mut Vec<u32>,
) -> Result<(), NoMemory>
    requires { length next.now ≡ NODES }
    ensures ok { OnOk result (Rings next.now key.now end out.old.items out.new.items) }
    ensures kept { take (vec_len out.old) out.new.items ≡ out.old.items }
{
    'row: for z in key.z..end {
        push_bucket(next, &with_z(key, z), out)?;
    }
    Ok(())
}

fn with_z(key: &CellKey, z: i32) -> CellKey
    ensures { result ≡ record key.now { z = z } }
{
    CellKey { z, ..*key }
}

// Appends the slots in the bucket of a key. What was there stays, after an `Err` too.
pub(crate) fn push_bucket(next: &[u32], key: &CellKey, out: &mut Vec<u32>) -> Result<(), NoMemory>
    requires { length next.now ≡ NODES }
    ensures ok { OnOk result (out.new.items ≡ out.old.items ++ ring_of next.now key.now) }
    ensures kept { take (vec_len out.old) out.new.items ≡ out.old.items }
{
    push_ring(next, next[(SLOTS + bucket_of(key)) as usize], out)
}

// Writes the slots of each bucket, one bucket after the other, and where each bucket's slots start, and answers the end.
// There is room for one slot more than there can be.
pub(crate) fn put_rings(next: &[u32], starts: &mut [u32], slots: &mut [u32]) -> usize
    requires next { length next.now ≡ NODES }
    requires starts { length starts.old ≡ BUCKETS + 1 }
    requires slots { length slots.old ≡ SLOTS + 1 }
    requires rings { (b : ℕ) → b < BUCKETS → StartsRing next.now (slice_index next.now (SLOTS + b)) }
    requires few { (b : ℕ) → b ≤ BUCKETS → length (rings_to next.now b) ≤ SLOTS }
    ensures { AreRings next.now starts.new (take result slots.new) }
{
    let mut len = 0;
    'buckets: for bucket in 0..BUCKETS {
        starts[bucket as usize] = len as u32;
        len = put_ring(next, next[(SLOTS + bucket) as usize], len, slots);
    }
    starts[BUCKETS as usize] = len as u32;
    len
}

// Writes the slots that a walk meets from a place on, and answers the place behind them. The first node is written even
// where it is no slot, and only counted if it is one: a branch on it, taken in half of the rings, would cost more.
fn put_ring(next: &[u32], first: u32, place: usize, slots: &mut [u32]) -> usize
    requires next { length next.now ≡ NODES }
    requires first { StartsRing next.now first }
    requires room { place + length (walk next.now SLOTS first) < length slots.old }
    ensures len { result ≡ place + length (walk next.now SLOTS first) }
    ensures met { take result slots.new ≡ take place slots.old ++ walk next.now SLOTS first }
{
    slots[place] = first;
    let mut len = place + usize::from(first < SLOTS);
    let mut later = next[first as usize];
    'ring: for _step in 1..SLOTS {
        if later >= SLOTS {
            break;
        }
        slots[len] = later;
        len += 1;
        later = next[later as usize];
    }
    len
}

// Appends the slots that a walk meets. What was there stays, after an `Err` too.
fn push_ring(next: &[u32], first: u32, out: &mut Vec<u32>) -> Result<(), NoMemory>
    requires { length next.now ≡ NODES }
    ensures ok { OnOk result (out.new.items ≡ out.old.items ++ walk next.now SLOTS first) }
    ensures kept { take (vec_len out.old) out.new.items ≡ out.old.items }
{
    let mut node = first;
    'ring: for _step in 0..SLOTS {
        if node >= SLOTS {
            break;
        }
        out.push(node)?;
        node = next[node as usize];
    }
    Ok(())
}

// Whether a slot has a key.
fn has_key(keys: &[Option<CellKey>], slot: u32, key: &CellKey) -> bool
    requires { slot < length keys.now }
    ensures { result ≡ at (λ k. same_cell k key.now) keys.now slot }
{
    match &keys[slot as usize] {
        Some(own) => is_same(own, key),
        None => false,
    }
}

// Sorts what stands from a place on.
pub(crate) fn sort_from(out: &mut Vec<u32>, from: usize)
    requires { from ≤ vec_len out.old }
    ensures kept { take from out.new.items ≡ take from out.old.items }
    ensures moved { IsPermutation (drop from out.old.items) (drop from out.new.items) }
    ensures sorted { IsSorted nat_cmp (drop from out.new.items) }
{
    out[from..].sort_unstable();
}
