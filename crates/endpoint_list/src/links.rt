//! The links to the next and the previous node, and how each call changes them.

ghost use Rattle.std.specs.Prelude.{◌≡◌, ◌+◌, ◌<◌, ◌≤◌, length, slice_index, slice_set};
ghost use Rattle.endpoint_list.specs.Links.{neighbour, put_next, put_prev, unlinked_next, unlinked_prev, exchanged_next, exchanged_prev};

use crate::NODES;

// The node before the first and behind the last. With it no link has an end case.
pub(crate) const END: u32 = NODES;

// In place of the link to the next node, where a node isn't in the list.
pub(crate) const ABSENT: u16 = (NODES + 1) as u16;

// The node that a link leads to, or `None` where it leads to the end.
pub(crate) fn neighbour(links: &Vec<u16>, node: u32) -> Option<u32>
    requires { node < length links.now.items }
    ensures { result ≡ neighbour (slice_index links.now.items node) }
{
    let to = u32::from(links[node as usize]);
    if to == END { None } else { Some(to) }
}

// Puts a node before another, or behind the last where that is the end.
pub(crate) fn put(next: &mut Vec<u16>, prev: &mut Vec<u16>, node: u32, other: u32)
    requires next { length next.old.items ≡ NODES + 1 }
    requires prev { length prev.old.items ≡ NODES + 1 }
    requires node { node < NODES }
    requires other { other ≤ NODES }
    requires before { slice_index prev.old.items other ≤ NODES }
    ensures next { next.new.items ≡ put_next next.old.items prev.old.items node other }
    ensures prev { prev.new.items ≡ put_prev prev.old.items node other }
{
    let before = u32::from(prev[other as usize]);
    join(next, prev, before, node);
    join(next, prev, node, other);
}

// Takes a node out.
pub(crate) fn unlink(next: &mut Vec<u16>, prev: &mut Vec<u16>, node: u32)
    requires next { length next.old.items ≡ NODES + 1 }
    requires prev { length prev.old.items ≡ NODES + 1 }
    requires node { node < NODES }
    requires before { slice_index prev.old.items node ≤ NODES }
    requires after { slice_index next.old.items node ≤ NODES }
    ensures next { next.new.items ≡ unlinked_next next.old.items prev.old.items node }
    ensures prev { prev.new.items ≡ unlinked_prev next.old.items prev.old.items node }
{
    let before = u32::from(prev[node as usize]);
    let after = u32::from(next[node as usize]);
    join(next, prev, before, after);
    next[node as usize] = ABSENT;
}

// A node and the next one change places.
pub(crate) fn exchange(next: &mut Vec<u16>, prev: &mut Vec<u16>, node: u32, other: u32)
    requires next { length next.old.items ≡ NODES + 1 }
    requires prev { length prev.old.items ≡ NODES + 1 }
    requires node { node < NODES }
    requires other { other < NODES }
    requires before { slice_index prev.old.items node ≤ NODES }
    requires after { slice_index next.old.items other ≤ NODES }
    ensures next { next.new.items ≡ exchanged_next next.old.items prev.old.items node other }
    ensures prev { prev.new.items ≡ exchanged_prev next.old.items prev.old.items node other }
{
    let before = u32::from(prev[node as usize]);
    let after = u32::from(next[other as usize]);
    join(next, prev, before, other);
    join(next, prev, node, after);
    join(next, prev, other, node);
}

// Makes a node the next of another.
fn join(next: &mut Vec<u16>, prev: &mut Vec<u16>, from: u32, to: u32)
    requires next { length next.old.items ≡ NODES + 1 }
    requires prev { length prev.old.items ≡ NODES + 1 }
    requires from { from ≤ NODES }
    requires to { to ≤ NODES }
    ensures next { next.new.items ≡ slice_set next.old.items from to }
    ensures prev { prev.new.items ≡ slice_set prev.old.items to from }
{
    next[from as usize] = to as u16;
    prev[to as usize] = from as u16;
}
