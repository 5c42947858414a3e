//! The nodes under numbers that stay, each with its kin noted, and room for all that there may be.

ghost use Rattle.std.specs.Prelude.{◌≡◌, ◌≢◌, ℕ, ◌+◌, ◌<◌, [], Some, None, IfOk, option_map};
ghost use Rattle.fixed_box.specs.Bounds.{Bounds};
ghost use Rattle.slab.specs.Slab.{get, slab_len, ContainsKey, Updates};
ghost use Rattle.tree_nodes.specs.Resized.{Rebounded};
ghost use Rattle.tree_nodes.specs.Shown.{shown};
ghost use Rattle.tree_nodes.specs.Stored.{Holds, KeepsKeys};
ghost use Rattle.tree_nodes.specs.Tree.{Tree, top, bounds, height};
ghost use Rattle.tree_nodes.specs.declared.TheConstants.{MOST_NODES};
ghost use Rattle.tree_nodes.specs.declared.node_view.NodeView.TheVariants.{Leaf as LeafNode, Inner as InnerNode};

use crate::kin::Kin;
use crate::{MOST_NODES, Node, NodeView, Role};
use fixed_box::{FBox, NoMemory};
use slab::Slab;
use std::alloc::Global;
use std::marker::Model;

// How many numbers there are of 16 bits.
const MOST_KEYS: usize = 65_536;

/// The nodes of a tree by their numbers, with the kin of each. Clauses see of each node what it shows.
#[derive(Drop)]
pub(crate) struct LinkedNodes {
    slab: Slab<Node>,
    // For each node where its parent and its sibling stand.
    kin: Vec<Kin>,
}

impl Model for LinkedNodes {
    ghost use Rattle.std.specs.Prelude.{◌≤◌};
    ghost use Rattle.slab.specs.Slab.{Slab as Slots};
    ghost use Rattle.tree_nodes.specs.Shown.{shown_slab};
    ghost use Rattle.tree_nodes.specs.declared.TheConstants.{MOST_NODES};
    ghost use Rattle.tree_nodes.specs.declared.linked_nodes.TheConstants.{MOST_KEYS};
    ghost use Rattle.tree_nodes.specs.declared.node_view.NodeView.{NodeView};

    ghost Value = { Slots NodeView };

    ghost view = { λ s. shown_slab s.slab };

    // There is room for all, and each number fits 16 bits.
    ghost invariant = { λ s. (MOST_NODES ≤ s.slab.capacity) × (s.slab.capacity ≤ MOST_KEYS) };
}

impl LinkedNodes {
    /// No node, with room for all that there may ever be.
    pub(crate) fn new(alloc: Global) -> Result<LinkedNodes, NoMemory>
        ensures { IfOk result (λ s. s.slots ≡ []) }
    {
        let slab = Slab::with_capacity(alloc, MOST_NODES)?;
        // No allocator gives four times as much as it is asked for.
        if slab.capacity() > MOST_KEYS {
            return Err(NoMemory);
        }
        Ok(LinkedNodes {
            slab,
            kin: vec![in alloc; Kin::new(0, 0); MOST_NODES]?,
        })
    }

    /// How many nodes there are.
    pub(crate) fn len(&self) -> usize
        ensures { result ≡ slab_len self.now }
    {
        self.slab.len()
    }

    /// The node under a number.
    #[inline]
    pub(crate) fn node(&self, key: usize) -> &Node
        requires { ContainsKey self.now key }
        ensures { get self.now key ≡ Some (shown result.now) }
    {
        &self.slab[key]
    }

    /// What it shows.
    #[inline]
    pub(crate) fn view(&self, key: usize) -> NodeView
        requires { ContainsKey self.now key }
        ensures { get self.now key ≡ Some result }
    {
        self.node(key).view()
    }

    /// The node under a number, if there is one.
    #[inline]
    pub(crate) fn get(&self, key: usize) -> Option<&Node>
        ensures { option_map (λ node. shown node.now) result ≡ get self.now key }
    {
        self.slab.get(key)
    }

    /// Puts a leaf under a number that has no node.
    pub(crate) fn insert_reserved(&mut self, slot: u32, fat: FBox) -> usize
        requires { slab_len self.old < MOST_NODES }
        ensures was_vacant { get self.old result ≡ None }
        ensures updates { Updates self.old self.new result (Some (LeafNode slot fat)) }
        ensures len { slab_len self.new ≡ slab_len self.old + 1 }
    {
        self.slab.insert_reserved(Node {
            bounds: fat,
            role: Role::Leaf { slot },
        })
    }

    /// Takes a node out.
    pub(crate) fn remove(&mut self, key: usize)
        requires { ContainsKey self.old key }
        ensures updates { Updates self.old self.new key None }
        ensures len { slab_len self.new + 1 ≡ slab_len self.old }
    {
        self.slab.remove(key);
    }

    /// Writes an inner node over two others.
    #[inline]
    pub(crate) fn write_inner(
        &mut self,
        key: usize,
        left: usize,
        right: usize,
        hull: FBox,
        height: u8,
    )
        requires key { ContainsKey self.old key }
        requires left { ContainsKey self.old left }
        requires right { ContainsKey self.old right }
        ensures there { get self.new key ≡ Some (InnerNode left right hull height) }
        ensures kept { (k : ℕ) → k ≢ key → get self.new k ≡ get self.old k }
        ensures keys { KeepsKeys self.old self.new }
    {
        let role = self.inner_role(left, right, height);
        self.slab[key] = Node { bounds: hull, role };
    }

    // An inner node's role. The numbers of nodes fit.
    #[inline]
    fn inner_role(&self, left: usize, right: usize, height: u8) -> Role
        requires left { ContainsKey self.now left }
        requires right { ContainsKey self.now right }
        ensures { (b : Bounds) → shown (record { bounds = b; role = result }) ≡ InnerNode left right b height }
    {
        Role::Inner {
            left: self.short(left),
            right: self.short(right),
            height,
        }
    }

    // The number of a node in 16 bits.
    #[inline]
    fn short(&self, key: usize) -> u16
        requires { ContainsKey self.now key }
        ensures { result ≡ key }
    {
        let _most = self.slab.capacity();
        key as u16
    }

    /// Writes other bounds to a node.
    #[inline]
    pub(crate) fn write_bounds(&mut self, key: usize, bounds: &FBox)
        requires { ContainsKey self.old key }
        ensures written { Rebounded self.old self.new key bounds.now }
        ensures keys { KeepsKeys self.old self.new }
    {
        self.slab[key].bounds = *bounds;
    }

    /// The height of the node under a number.
    #[inline]
    pub(crate) fn height_at(&self, at: usize) -> u8
        requires { (t : Tree) × Holds self.now t × (top t ≡ at) }
        ensures { (t : Tree) → Holds self.now t → top t ≡ at → result ≡ height t }
    {
        match self.view(at) {
            NodeView::Leaf { slot: _, fat: _ } => 0,
            NodeView::Inner {
                left: _,
                right: _,
                hull: _,
                height,
            } => height,
        }
    }

    /// A leaf's box, or an inner node's hull.
    #[inline]
    pub(crate) fn bounds_at(&self, at: usize) -> FBox
        requires { (t : Tree) × Holds self.now t × (top t ≡ at) }
        ensures { (t : Tree) → Holds self.now t → top t ≡ at → result ≡ bounds t }
    {
        self.node(at).bounds
    }

    /// The parent and the sibling of a node, as they were noted last.
    #[inline]
    pub(crate) fn kin_of(&self, key: usize) -> Option<&Kin> {
        self.kin.get(key)
    }

    /// Notes two nodes as children of a third.
    #[inline]
    pub(crate) fn note_kin(&mut self, parent: usize, left: usize, right: usize)
        ensures { self.new ≡ self.old }
    {
        if let Some(place) = self.kin.get_mut(left) {
            *place = Kin::new(parent, right);
        }
        if let Some(place) = self.kin.get_mut(right) {
            *place = Kin::new(parent, left);
        }
    }
}
