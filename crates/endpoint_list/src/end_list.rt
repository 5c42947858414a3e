//! The list of endpoints on an axis: its calls by node number, and the laws of nodes in a list.

ghost use Rattle.std.specs.Prelude.{◌≡◌, ◌<◌, ◌++◌, ◌∷◌, [], true, false, List, ℕ, IfOk, Some};
ghost use Rattle.endpoint_list.specs.NodeList.{has, first_of, last_of, IsNodeList};

use crate::NODES;
use crate::links::{ABSENT, END, exchange, neighbour, put, unlink};
use fixed_box::NoMemory;
use std::alloc::Global;
use std::marker::Model;

const PLACES: usize = NODES as usize + 1;

/// A list of node numbers, each at most once, as sort and sweep keeps its endpoints on an axis (Ericson, *Real-Time
/// Collision Detection*, 2005, 7.5).
///
/// The links stand in two arrays by node number, in 16 bits each, so every call but `new` takes constant time and no memory.
#[derive(Drop)]
pub struct EndList {
    next: Vec<u16>,
    prev: Vec<u16>,
}

impl Model for EndList {
    ghost use Rattle.std.specs.Prelude.{List, ℕ};
    ghost use Rattle.endpoint_list.specs.Links.{listed, AreLinked};

    ghost Value = { List ℕ };

    ghost view = { λ l. listed l.next.items };

    ghost invariant = { λ l. AreLinked l.next.items l.prev.items (listed l.next.items) };
}

impl EndList {
    /// The empty list, with the memory for all nodes.
    pub fn new(alloc: Global) -> Result<EndList, NoMemory>
        ensures { IfOk result (λ list. list ≡ []) }
    {
        let mut next = vec![in alloc; ABSENT; PLACES]?;
        next[END as usize] = END as u16;
        Ok(EndList {
            next,
            prev: vec![in alloc; END as u16; PLACES]?,
        })
    }

    /// Whether a node is in the list.
    pub fn has(&self, node: u32) -> bool
        ensures has { result ≡ has node self.now }
        ensures list { IsNodeList self.now }
    {
        node < NODES && self.next[node as usize] != ABSENT
    }

    /// The first node, or `None` where the list is empty.
    pub fn first(&self) -> Option<u32>
        ensures first { result ≡ first_of self.now }
        ensures list { IsNodeList self.now }
    {
        neighbour(&self.next, END)
    }

    /// The last node, or `None` where the list is empty.
    pub fn last(&self) -> Option<u32>
        ensures last { result ≡ last_of self.now }
        ensures list { IsNodeList self.now }
    {
        neighbour(&self.prev, END)
    }

    /// The node after a present one, or `None` at the list's end.
    pub fn next(&self, node: u32) -> Option<u32>
        requires { (before : List ℕ) × (after : List ℕ) × (self.now ≡ before ++ node ∷ after) }
        ensures next { (before after : List ℕ) → self.now ≡ before ++ node ∷ after → result ≡ first_of after }
        ensures list { IsNodeList self.now }
    {
        neighbour(&self.next, node)
    }

    /// The node before a present one, or `None` at the list's start.
    pub fn prev(&self, node: u32) -> Option<u32>
        requires { (before : List ℕ) × (after : List ℕ) × (self.now ≡ before ++ node ∷ after) }
        ensures prev { (before after : List ℕ) → self.now ≡ before ++ node ∷ after → result ≡ last_of before }
        ensures list { IsNodeList self.now }
    {
        neighbour(&self.prev, node)
    }

    /// Puts an absent node behind the last.
    pub fn push_last(&mut self, node: u32)
        requires small { node < NODES }
        requires absent { has node self.old ≡ false }
        ensures pushed { self.new ≡ self.old ++ node ∷ [] }
        ensures list { IsNodeList self.new }
    {
        put(&mut self.next, &mut self.prev, node, END);
    }

    /// Puts an absent node before a present one.
    pub fn put_before(&mut self, node: u32, other: u32)
        requires small { node < NODES }
        requires absent { has node self.old ≡ false }
        requires present { (before : List ℕ) × (after : List ℕ) × (self.old ≡ before ++ other ∷ after) }
        ensures put { (before after : List ℕ) → self.old ≡ before ++ other ∷ after
            → self.new ≡ before ++ node ∷ other ∷ after }
        ensures list { IsNodeList self.new }
    {
        put(&mut self.next, &mut self.prev, node, other);
    }

    /// Takes a present node out. The others keep their order.
    pub fn unlink(&mut self, node: u32)
        requires { (before : List ℕ) × (after : List ℕ) × (self.old ≡ before ++ node ∷ after) }
        ensures unlinked { (before after : List ℕ) → self.old ≡ before ++ node ∷ after → self.new ≡ before ++ after }
        ensures list { IsNodeList self.new }
    {
        unlink(&mut self.next, &mut self.prev, node);
    }

    /// A node that isn't the last changes places with the next one.
    pub fn exchange_with_next(&mut self, node: u32)
        requires { (before : List ℕ) × (after : List ℕ) × (other : ℕ) × (self.old ≡ before ++ node ∷ other ∷ after) }
        ensures exchanged { (before after : List ℕ) (other : ℕ) → self.old ≡ before ++ node ∷ other ∷ after
            → self.new ≡ before ++ other ∷ node ∷ after }
        ensures list { IsNodeList self.new }
    {
        let other = u32::from(self.next[node as usize]);
        self.exchange_neighbours(node, other);
    }

    /// A node and the next one, which the caller knows, change places.
    #[inline]
    pub fn exchange_neighbours(&mut self, node: u32, other: u32)
        requires { (before : List ℕ) × (after : List ℕ) × (self.old ≡ before ++ node ∷ other ∷ after) }
        ensures exchanged { (before after : List ℕ) → self.old ≡ before ++ node ∷ other ∷ after
            → self.new ≡ before ++ other ∷ node ∷ after }
        ensures list { IsNodeList self.new }
    {
        exchange(&mut self.next, &mut self.prev, node, other);
    }
}

/// Laws for callers that tested by `has` and `next`: a node is present exactly where the list can be cut before it, and a
/// list with a first node is that one and a rest.
pub fn list_laws()
    ensures cut { (node : ℕ) (nodes : List ℕ) → has node nodes ≡ true
        → (before : List ℕ) × (after : List ℕ) × (nodes ≡ before ++ node ∷ after) }
    ensures present { (node : ℕ) (before after : List ℕ) → has node (before ++ node ∷ after) ≡ true }
    ensures begins { (node : ℕ) (nodes : List ℕ) → first_of nodes ≡ Some node → (rest : List ℕ) × (nodes ≡ node ∷ rest) }
{}
