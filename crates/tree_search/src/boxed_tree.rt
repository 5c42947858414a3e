//! A tree of fat boxes together with the exact boxes of its slots, as a search reads both.

ghost use Rattle.std.specs.Prelude.{◌≡◌, option_map};
ghost use Rattle.slot_lists.specs.SlotMap.{map_of};
ghost use Rattle.broad_index.specs.Held.{Holds};
ghost use Rattle.tree_nodes.specs.Tree.{top, IsTreeIn};
ghost use Rattle.tree_search.specs.Exact.{exact_in, IsInsideIn};

use fixed_box::FBox;
use std::marker::Model;
use tree_nodes::Nodes;

/// A tree of fat boxes with the exact boxes by their slots, for a search to read: each slot that has a box has a leaf, whose
/// fat box encloses it.
#[derive(Drop)]
pub struct BoxedTree<'a> {
    nodes: &'a Nodes,
    bodies: &'a [Option<FBox>],
}

impl<'a> Model for BoxedTree<'a> {
    ghost use Rattle.slot_lists.specs.SlotMap.{map_of};
    ghost use Rattle.broad_index.specs.Held.{Holds};
    ghost use Rattle.tree_search.specs.Boxed.{Boxed, coded_boxed};
    ghost use Rattle.tree_search.specs.Exact.{exact_in, IsInsideIn};

    ghost Value = { Boxed };

    ghost coded = { coded_boxed };

    ghost view = { λ t. record { bodies = t.bodies.now; tree = t.nodes.now } };

    ghost invariant = { λ t. IsInsideIn t.bodies.now t.nodes.now × Holds (map_of t.bodies.now) (exact_in t.bodies.now t.nodes.now) };
}

impl<'a> BoxedTree<'a> {
    /// The tree with the boxes by their slots.
    pub fn new(nodes: &'a Nodes, bodies: &'a [Option<FBox>]) -> BoxedTree<'a>
        requires inside { IsInsideIn bodies.now nodes.now }
        requires held { Holds (map_of bodies.now) (exact_in bodies.now nodes.now) }
        ensures { result ≡ record { bodies = bodies.now; tree = nodes.now } }
    {
        BoxedTree { nodes, bodies }
    }

    // A law for proofs, with nothing to run: each box has a leaf, and lies in its fat box.
    pub(crate) fn boxed_law(&self)
        ensures tree { IsTreeIn self.now.tree }
        ensures inside { IsInsideIn self.now.bodies self.now.tree }
        ensures held { Holds (map_of self.now.bodies) (exact_in self.now.bodies self.now.tree) }
    {
        let _root = self.nodes.root();
    }

    // The tree.
    pub(crate) fn nodes(&self) -> &'a Nodes
        ensures { result.now ≡ self.now.tree }
    {
        self.nodes
    }

    // The number of the top node, if there is one.
    pub(crate) fn root(&self) -> Option<usize>
        ensures { result ≡ option_map top self.now.tree }
    {
        self.nodes.root()
    }

    // The boxes by their slots.
    pub(crate) fn bodies(&self) -> &'a [Option<FBox>]
        ensures { result.now ≡ self.now.bodies }
    {
        self.bodies
    }
}
