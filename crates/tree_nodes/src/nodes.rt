//! The tree itself: leaves added, moved, dropped and rebuilt, and what each node shows.

ghost use Rattle.std.specs.Prelude.{◌≡◌, ◌≢◌, ◌↔◌, ℕ, ◌<◌, ◌≤◌, ◌^◌, IfOk, IfSome, IsSome, option_map, map, length, [], ◌∷◌};
ghost use Rattle.std.specs.List.{All};
ghost use Rattle.std.specs.List.Sorted.{IsPermutation};
ghost use Rattle.fixed_box.specs.Bounds.{Bounds};
ghost use Rattle.tree_nodes.specs.Tree.{top, height_in, view_in, leaves_in, IsTreeIn, IsLeafOf, ChildrenShown};
ghost use Rattle.tree_nodes.specs.Moved.{with_fat, leaf_moved};
ghost use Rattle.tree_nodes.specs.Shown.{shown};
ghost use Rattle.tree_nodes.specs.declared.node_view.NodeView.TheVariants.{Leaf as LeafNode};

use crate::leaf_key::LeafKey;
use crate::linked_nodes::LinkedNodes;
use crate::{MOST_HEIGHT, Node, NodeView};
use fixed_box::{FBox, NoMemory, SLOTS};
use std::alloc::Global;
use std::marker::Model;

/// A balanced binary tree of boxes, each under a slot, at most 8,192.
///
/// Clauses see the tree itself, or `None` where there is no leaf. Each node has a number. A leaf keeps its number until
/// it goes, while an inner node may come and go, and stand elsewhere, with each call that adds or drops a leaf, and with
/// a rebuild. Only `new` takes memory.
///
/// Insertion goes down to the child whose centre is nearer. On the way up each node is rebalanced by a rotation where the
/// heights of its children differ by two, up to one whose hull and height stay. Removal goes up in the same way, to the
/// root. So a call that adds, drops or moves a leaf writes to a few nodes per level. The more such calls, the more hulls
/// overlap: a rebuild now and then, from the top down, keeps searches short.
#[derive(Drop)]
pub struct Nodes {
    links: LinkedNodes,
    root: Option<usize>,
    alloc: Global,
    // Room for a rebuild: the leaves, and the numbers of the inner nodes.
    keys: Vec<LeafKey>,
    inner: Vec<usize>,
}

impl Model for Nodes {
    ghost use Rattle.std.specs.Prelude.{Option, ◌≤◌, vec_capacity};
    ghost use Rattle.fixed_box.specs.declared.TheConstants.{SLOTS};
    ghost use Rattle.tree_nodes.specs.Tree.{Tree};
    ghost use Rattle.tree_nodes.specs.TreeCode.{coded_tree};
    ghost use Rattle.tree_nodes.specs.Stored.{tree_of, SoundIn};

    ghost Value = { Option Tree };

    ghost coded = { coded_tree };

    ghost view = { λ s. tree_of s.links s.root };

    ghost invariant = { λ s. ((SLOTS ≤ vec_capacity s.keys) × (SLOTS ≤ vec_capacity s.inner)) ×
        SoundIn s.links s.root (tree_of s.links s.root) };
}

impl Nodes {
    /// No tree, with room for all nodes that there may ever be.
    pub fn new(alloc: Global) -> Result<Nodes, NoMemory>
        ensures { IfOk result (λ nodes. nodes ≡ None) }
    {
        Ok(Nodes {
            links: LinkedNodes::new(alloc)?,
            root: None,
            alloc,
            keys: Vec::with_capacity(alloc, SLOTS as usize)?,
            inner: Vec::with_capacity(alloc, SLOTS as usize)?,
        })
    }

    /// Puts a box under a slot that has none, and answers the number of the new leaf. The other leaves keep theirs.
    pub fn add_leaf(&mut self, slot: u32, fat: FBox) -> usize
        requires few { length (leaves_in self.old) < SLOTS }
        requires absent { All (λ x. x.slot ≢ slot) (leaves_in self.old) }
        ensures leaves { IsPermutation
            (record { node = result; slot = slot; fat = fat } ∷ leaves_in self.old) (leaves_in self.new) }
        ensures leaf { view_in self.new result ≡ Some (LeafNode slot fat) }
        ensures others { (other s : ℕ) (b : Bounds) → view_in self.old other ≡ Some (LeafNode s b) →
            view_in self.new other ≡ Some (LeafNode s b) }
        ensures tree { IsTreeIn self.new }
    {
        let (leaf, root) = self.links.insert_leaf(self.root, slot, fat);
        self.root = Some(root);
        leaf
    }

    /// Takes a leaf out. The other leaves keep their numbers.
    pub fn drop_leaf(&mut self, node: usize)
        requires { IsLeafOf self.old node }
        ensures leaves { (slot : ℕ) (fat : Bounds) → view_in self.old node ≡ Some (LeafNode slot fat) →
            IsPermutation (record { node = node; slot = slot; fat = fat } ∷ leaves_in self.new) (leaves_in self.old) }
        ensures others { (other s : ℕ) (b : Bounds) → view_in self.old other ≡ Some (LeafNode s b) →
            other ≢ node → view_in self.new other ≡ Some (LeafNode s b) }
        ensures tree { IsTreeIn self.new }
    {
        self.root = self.links.remove_leaf(self.root, node, self.alloc);
    }

    /// Gives a leaf another box in its place: each node keeps its number, its place and its height. The hulls above the
    /// leaf are refitted, up to one that stays. The tree isn't made tighter, so a leaf that goes far is better dropped
    /// and added.
    pub fn move_leaf(&mut self, node: usize, fat: FBox)
        requires { IsLeafOf self.old node }
        ensures moved { self.new ≡ option_map (with_fat node fat) self.old }
        ensures leaves { leaves_in self.new ≡ map (leaf_moved node fat) (leaves_in self.old) }
        ensures height { height_in self.new ≡ height_in self.old }
        ensures leaf { (slot : ℕ) (old : Bounds) → view_in self.old node ≡ Some (LeafNode slot old) →
            view_in self.new node ≡ Some (LeafNode slot fat) }
        ensures others { (other s : ℕ) (b : Bounds) → view_in self.old other ≡ Some (LeafNode s b) →
            other ≢ node → view_in self.new other ≡ Some (LeafNode s b) }
        ensures tree { IsTreeIn self.new }
    {
        self.links.move_in_place(self.root, node, &fat, self.alloc);
    }

    /// Links all inner nodes anew, so that a search looks at few nodes after many changes, and answers how many leaves
    /// there are. Leaves keep their numbers, slots and boxes, and no tree of so many leaves is lower.
    ///
    /// From the top down the leaves are divided at their median, on the axis on which the centres of their boxes spread
    /// most, and each half stands below a child (Ericson, 2005, 6.2.1). For n leaves that takes about n times the height.
    pub fn rebuild(&mut self) -> usize
        ensures leaves { IsPermutation (leaves_in self.old) (leaves_in self.new) }
        ensures others { (other s : ℕ) (b : Bounds) → view_in self.old other ≡ Some (LeafNode s b) →
            view_in self.new other ≡ Some (LeafNode s b) }
        ensures least { (h : ℕ) → length (leaves_in self.new) ≤ 2 ^ h → height_in self.new ≤ h }
        ensures count { result ≡ length (leaves_in self.new) }
        ensures tree { IsTreeIn self.new }
    {
        let (root, count) = self
            .links
            .rebuild_tree(self.root, &mut self.keys, &mut self.inner);
        self.root = root;
        count
    }

    /// The number of the top node, and `None` where there is no leaf.
    pub fn root(&self) -> Option<usize>
        ensures value { result ≡ option_map top self.now }
        ensures none { (result ≡ None) ↔ (leaves_in self.now ≡ []) }
        ensures shown { IfSome result (λ node. IsSome (view_in self.now node)) }
        ensures tree { IsTreeIn self.now }
    {
        self.root
    }

    /// How many leaves there are, at most 8,192. It looks at none of them.
    pub fn len(&self) -> usize
        ensures value { result ≡ length (leaves_in self.now) }
        ensures most { result ≤ SLOTS }
    {
        // a tree has one inner node fewer than leaves
        (self.links.len() + 1) / 2
    }

    /// The height of the top node, 0 for a leaf and where there is none, and at most 18.
    pub fn height(&self) -> u8
        ensures value { result ≡ height_in self.now }
        ensures most { result ≤ MOST_HEIGHT }
        ensures tree { IsTreeIn self.now }
    {
        match self.root {
            None => 0,
            Some(at) => self.links.height_at(at),
        }
    }

    /// The node with a number.
    pub fn view(&self, node: usize) -> NodeView
        requires { IsSome (view_in self.now node) }
        ensures value { view_in self.now node ≡ Some result }
        ensures children { ChildrenShown self.now result }
        ensures tree { IsTreeIn self.now }
    {
        self.node(node).view()
    }

    /// The same in its place, for a search that looks at many nodes: it reads of each no more than it needs.
    pub fn node(&self, node: usize) -> &Node
        requires { IsSome (view_in self.now node) }
        ensures value { view_in self.now node ≡ Some (shown result.now) }
        ensures children { ChildrenShown self.now (shown result.now) }
        ensures tree { IsTreeIn self.now }
    {
        self.links.node(node)
    }
}
