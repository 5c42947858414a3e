//! A leaf whose box changes in its place, and the hulls above it: by the kept parents, or else from the root down.

ghost use Rattle.std.specs.Prelude.{◌≡◌, ℕ, false, option_map};
ghost use Rattle.tree_nodes.specs.Moved.{with_fat};
ghost use Rattle.tree_nodes.specs.Path.{ToMove};
ghost use Rattle.tree_nodes.specs.Stored.{SoundIn, tree_of, StandsAt, Writes};
ghost use Rattle.tree_nodes.specs.Tree.{Tree, bounds, count_of, IsLeafOf};

use crate::linked_nodes::LinkedNodes;
use crate::path::Path;
use crate::{MOST_HEIGHT, NodeView};
use fixed_box::FBox;
use smallvec::SmallVec;
use std::alloc::Global;

impl LinkedNodes {
    // Gives a leaf of the tree under a root another box, and refits the nodes above it.
    pub(crate) fn move_in_place(
        &mut self,
        root: Option<usize>,
        node: usize,
        fat: &FBox,
        alloc: Global,
    )
        requires sound { SoundIn self.old root (tree_of self.old root) }
        requires leaf { IsLeafOf (tree_of self.old root) node }
        ensures sound { SoundIn self.new root (tree_of self.new root) }
        ensures moved { tree_of self.new root ≡ option_map (with_fat node fat.now) (tree_of self.old root) }
    {
        let Some(at) = root else {
            return;
        };
        if self.resize(at, node, fat, MOST_HEIGHT) {
            return;
        }
        self.move_from_root(root, node, fat, alloc);
    }

    // The same from the root down, along a path that is searched where the noted parents don't lead.
    #[cold]
    #[inline(never)]
    fn move_from_root(&mut self, root: Option<usize>, node: usize, fat: &FBox, alloc: Global)
        requires sound { SoundIn self.old root (tree_of self.old root) }
        requires leaf { IsLeafOf (tree_of self.old root) node }
        ensures sound { SoundIn self.new root (tree_of self.new root) }
        ensures moved { tree_of self.new root ≡ option_map (with_fat node fat.now) (tree_of self.old root) }
    {
        let Some(at) = root else {
            return;
        };
        let mut path: Path = SmallVec::new(alloc);
        self.path_to(at, node, &mut path);
        self.move_below(at, path.as_slice(), fat);
    }

    // Gives the leaf at the end of a path another box, and refits the nodes above it, up to one whose hull stays. Answers
    // whether the bounds of the top may be others now.
    fn move_below(&mut self, at: usize, path: &[usize], fat: &FBox) -> bool
        requires { (node : ℕ) × (t : Tree) × ToMove self.old at node path.now t }
        ensures there { (node : ℕ) (t : Tree) → ToMove self.old at node path.now t →
            StandsAt self.new at (with_fat node fat.now t) }
        ensures bounds { (node : ℕ) (t : Tree) → ToMove self.old at node path.now t → result ≡ false →
            bounds (with_fat node fat.now t) ≡ bounds t }
        ensures writes { (node : ℕ) (t : Tree) → ToMove self.old at node path.now t →
            Writes self.old self.new (λ k. count_of t k) }
    {
        match self.view(at) {
            NodeView::Leaf { slot: _, fat: _ } => {
                self.write_bounds(at, fat);
                true
            }
            NodeView::Inner {
                left,
                right,
                hull,
                height: _,
            } => {
                let [next, rest @ ..] = path else {
                    return false;
                };
                if !self.move_below(*next, rest, fat) {
                    return false;
                }
                self.refit(at, left, right);
                self.bounds_at(at) != hull
            }
        }
    }
}
