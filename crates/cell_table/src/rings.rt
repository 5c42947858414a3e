//! Circular doubly linked lists in arrays, one for each bucket: linking and unlinking a slot.

ghost use Rattle.std.specs.Prelude.{◌≡◌, ℕ, ◌<◌, IfOk, length, slice_index};
ghost use Rattle.cell_table.specs.Kept.{put_next, put_prev, take_next, take_prev};

use crate::BUCKETS;
use fixed_box::{NoMemory, SLOTS};
use std::alloc::Global;

// The slots, and then one node for each bucket, which closes its ring. So no link has an end case.
pub(crate) const NODES: u32 = SLOTS + BUCKETS;

// Each node is its own neighbour: every ring is empty.
pub(crate) fn nodes(alloc: Global) -> Result<Vec<u32>, NoMemory>
    ensures len { IfOk result (λ nodes. length nodes.items ≡ NODES) }
    ensures own { IfOk result (λ nodes. (k : ℕ) → k < NODES → slice_index nodes.items k ≡ k) }
{
    let mut nodes = Vec::with_capacity(alloc, NODES as usize)?;
    'nodes: for node in 0..NODES {
        nodes.push(node)?;
    }
    Ok(nodes)
}

// Puts a slot behind a node.
pub(crate) fn link(next: &mut Vec<u32>, prev: &mut Vec<u32>, slot: u32, node: u32)
    requires next { length next.old.items ≡ NODES }
    requires prev { length prev.old.items ≡ NODES }
    requires slot { slot < SLOTS }
    requires node { node < NODES }
    requires inside { slice_index next.old.items node < NODES }
    ensures next { next.new.items ≡ put_next next.old.items slot node }
    ensures prev { prev.new.items ≡ put_prev next.old.items prev.old.items slot node }
{
    let first = next[node as usize];
    next[slot as usize] = first;
    prev[first as usize] = slot;
    next[node as usize] = slot;
    prev[slot as usize] = node;
}

// Takes a slot out of its ring.
pub(crate) fn unlink(next: &mut Vec<u32>, prev: &mut Vec<u32>, slot: u32)
    requires next { length next.old.items ≡ NODES }
    requires prev { length prev.old.items ≡ NODES }
    requires slot { slot < SLOTS }
    requires before { slice_index prev.old.items slot < NODES }
    requires after { slice_index next.old.items slot < NODES }
    ensures next { next.new.items ≡ take_next next.old.items prev.old.items slot }
    ensures prev { prev.new.items ≡ take_prev next.old.items prev.old.items slot }
{
    let before = prev[slot as usize];
    let after = next[slot as usize];
    next[before as usize] = after;
    prev[after as usize] = before;
}
