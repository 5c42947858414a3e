//! Removal of a leaf: its sibling takes the parent's place, and the way up is rebalanced.

ghost use Rattle.std.specs.Prelude.{◌≡◌, ℕ, ◌⊎◌, ◌∷◌};
ghost use Rattle.std.specs.List.Sorted.{IsPermutation};
ghost use Rattle.tree_nodes.specs.Path.{ToRemove, Removed, Leads};
ghost use Rattle.tree_nodes.specs.Stored.{Sound, SoundIn, tree_of, Writes};
ghost use Rattle.tree_nodes.specs.Tree.{Tree, top, count_of, view_in, leaves, leaves_in, Leaf as LeafOf, IsLeafOf};
ghost use Rattle.fixed_box.specs.Bounds.{Bounds};
ghost use Rattle.tree_nodes.specs.declared.node_view.NodeView.TheVariants.{Leaf as LeafNode};

use crate::NodeView;
use crate::linked_nodes::LinkedNodes;
use crate::path::Path;
use smallvec::SmallVec;
use std::alloc::Global;

impl LinkedNodes {
    // Takes a leaf out of the tree under a root. Answers the new root.
    pub(crate) fn remove_leaf(
        &mut self,
        root: Option<usize>,
        node: usize,
        alloc: Global,
    ) -> Option<usize>
        requires sound { SoundIn self.old root (tree_of self.old root) }
        requires leaf { IsLeafOf (tree_of self.old root) node }
        ensures sound { SoundIn self.new result (tree_of self.new result) }
        ensures leaves { (s : ℕ) (b : Bounds) → view_in (tree_of self.old root) node ≡ Some (LeafNode s b) →
            IsPermutation (record { node = node; slot = s; fat = b } ∷ leaves_in (tree_of self.new result))
            (leaves_in (tree_of self.old root)) }
    {
        let Some(at) = root else {
            return None;
        };
        let mut path: Path = SmallVec::new(alloc);
        self.path_to(at, node, &mut path);
        self.remove_at(at, node, path.as_slice())
    }

    // Takes the leaf at the end of a path out of the tree under a root. Answers the new root.
    fn remove_at(&mut self, root: usize, node: usize, path: &[usize]) -> Option<usize>
        requires { (t : Tree) × (root ≡ top t) × Sound self.old t × Leads t path.now node }
        ensures sound { SoundIn self.new result (tree_of self.new result) }
        ensures leaves { (t : Tree) → root ≡ top t → Sound self.old t → Leads t path.now node →
            (x : LeafOf) × (x.node ≡ node) × IsPermutation (x ∷ leaves_in (tree_of self.new result)) (leaves t) }
    {
        let [next, rest @ ..] = path else {
            self.remove(root);
            return None;
        };
        let (above, freed) = self.remove_below(root, *next, rest);
        self.remove(node);
        self.remove(freed);
        Some(above)
    }

    // Takes the leaf at the end of a path out of a tree, and its parent with it. Answers the new top, and the parent.
    fn remove_below(&mut self, at: usize, next: usize, path: &[usize]) -> (usize, usize)
        requires { (node : ℕ) × (t : Tree) × ToRemove self.old at node next path.now t }
        ensures there { (node : ℕ) (t : Tree) → ToRemove self.old at node next path.now t →
            (u : Tree) × Removed self.new result.0 node result.1 t u }
        ensures writes { (node : ℕ) (t : Tree) → ToRemove self.old at node next path.now t →
            Writes self.old self.new (λ k. count_of t k) }
    {
        match self.view(at) {
            NodeView::Leaf { slot: _, fat: _ } => (at, at),
            NodeView::Inner {
                left,
                right,
                hull: _,
                height: _,
            } => {
                let (down, stay) = toward(left, right, next);
                let [after, rest @ ..] = path else {
                    return (stay, at);
                };
                let (below, freed) = self.remove_below(down, *after, rest);
                (self.rebalance(at, below, stay), freed)
            }
        }
    }
}

// Of two children the one that is next on a path, and the other.
fn toward(left: usize, right: usize, next: usize) -> (usize, usize)
    ensures either { (result ≡ (left, right)) ⊎ (result ≡ (right, left)) }
    ensures left { next ≡ left → result.0 ≡ next }
    ensures right { next ≡ right → result.0 ≡ next }
{
    if next == left {
        (left, right)
    } else {
        (right, left)
    }
}
