//! Insertion of a leaf: down to the nearer child, linked beside a leaf, and up again with rotations and refits.

ghost use Rattle.std.specs.Prelude.{◌≡◌, ◌≢◌, ℕ, ◌+◌, ◌<◌, false, length, ◌∷◌, All};
ghost use Rattle.std.specs.List.Sorted.{IsPermutation};
ghost use Rattle.fixed_box.specs.Bounds.{Bounds};
ghost use Rattle.tree_nodes.specs.Insertion.{ToInsert, Inserted, Alike};
ghost use Rattle.tree_nodes.specs.Moved.{refitted};
ghost use Rattle.tree_nodes.specs.Rotation.{Children, FitsByte, RotationParts, ToRebalance, rebalanced, rotated, rotated_up};
ghost use Rattle.tree_nodes.specs.Stored.{Holds, SoundIn, StandsAt, Writes, tree_of};
ghost use Rattle.tree_nodes.specs.Tree.{Tree, Balanced, count_of, height, leaves_in, one};

use crate::NodeView;
use crate::linked_nodes::LinkedNodes;
use fixed_box::{FBox, SLOTS};

impl LinkedNodes {
    // Puts a leaf into the tree under a root. Answers the leaf and the new root.
    pub(crate) fn insert_leaf(
        &mut self,
        root: Option<usize>,
        slot: u32,
        fat: FBox,
    ) -> (usize, usize)
        requires sound { SoundIn self.old root (tree_of self.old root) }
        requires few { length (leaves_in (tree_of self.old root)) < SLOTS }
        requires absent { All (λ x. x.slot ≢ slot) (leaves_in (tree_of self.old root)) }
        ensures sound { SoundIn self.new (Some result.1) (tree_of self.new (Some result.1)) }
        ensures leaves { IsPermutation
            (record { node = result.0; slot = slot; fat = fat } ∷ leaves_in (tree_of self.old root))
            (leaves_in (tree_of self.new (Some result.1))) }
    {
        let leaf = self.insert_reserved(slot, fat);
        match root {
            None => (leaf, leaf),
            Some(at) => {
                let new_parent = self.insert_reserved(slot, fat);
                let (top, _changed) = self.insert_below(at, leaf, new_parent, &fat);
                (leaf, top)
            }
        }
    }

    // Puts a leaf into a tree, below the nearer child at each node, with the new parent over it and over the leaf that it comes to
    // stand beside. Answers the new top, and whether its number, bounds or height may be others now: where they stay, all above it
    // stays as it is.
    fn insert_below(
        &mut self,
        at: usize,
        leaf: usize,
        new_parent: usize,
        fat: &FBox,
    ) -> (usize, bool)
        requires { (s : ℕ) × (b : Bounds) × (t : Tree) × ToInsert self.old at leaf new_parent s b t }
        ensures there { (s : ℕ) (b : Bounds) (t : Tree) → ToInsert self.old at leaf new_parent s b t →
            (u : Tree) × Inserted self.new result.0 leaf new_parent s b t u × (result.1 ≡ false → Alike t u) }
        ensures writes { (s : ℕ) (b : Bounds) (t : Tree) → ToInsert self.old at leaf new_parent s b t →
            Writes self.old self.new (λ k. count_of t k + (one leaf k + one new_parent k)) }
    {
        match self.view(at) {
            NodeView::Leaf { slot: _, fat: _ } => {
                self.refit(new_parent, at, leaf);
                (new_parent, true)
            }
            NodeView::Inner {
                left,
                right,
                hull,
                height,
            } => {
                let (down, stay) = self.by_distance(left, right, fat);
                let (below, changed) = self.insert_below(down, leaf, new_parent, fat);
                if !changed {
                    return (at, false);
                }
                let top = self.rebalance(at, below, stay);
                (top, self.is_other(top, at, &hull, height))
            }
        }
    }

    // Puts two trees below a node whose heights differ by at most two, and rotates where they differ by two. Answers the new top.
    pub(crate) fn rebalance(&mut self, at: usize, left: usize, right: usize) -> usize
        requires { (l r : Tree) × ToRebalance self.old at left right l r }
        ensures there { (l r : Tree) → ToRebalance self.old at left right l r →
            StandsAt self.new result (rebalanced at l r) }
        ensures writes { Writes self.old self.new (λ k. one at k + (one left k + one right k)) }
    {
        let l = self.height_at(left);
        let r = self.height_at(right);
        if l > r + 1 {
            return self.rotate_up(at, right, left);
        }
        if r > l + 1 {
            return self.rotate_up(at, left, right);
        }
        self.refit(at, left, right);
        at
    }

    // Brings the higher of two trees up over a node, and answers the new top. Its higher child stays with it, and the node
    // goes down to the two lower trees.
    fn rotate_up(&mut self, at: usize, low: usize, high: usize) -> usize
        requires { (l h : Tree) × Children self.old at low high l h ×
            FitsByte (height l) 2 × FitsByte (height h) 2 × Balanced h }
        ensures there { (l h : Tree) → Children self.old at low high l h → FitsByte (height l) 2 →
            FitsByte (height h) 2 → Balanced h → StandsAt self.new result (rotated_up at l h) }
        ensures writes { Writes self.old self.new (λ k. one at k + one high k) }
    {
        match self.view(high) {
            NodeView::Leaf { slot: _, fat: _ } => {
                self.refit(at, low, high);
                at
            }
            NodeView::Inner {
                left,
                right,
                hull: _,
                height: _,
            } => {
                let halves = self.by_height(left, right);
                self.rotate(high, at, low, halves);
                high
            }
        }
    }

    // Puts three trees below two nodes: `low` and the first half below `at`, and this and the second half below `high`. Both
    // nodes are refitted, the lower one first.
    fn rotate(&mut self, high: usize, at: usize, low: usize, halves: (usize, usize))
        requires { (l f g : Tree) × RotationParts self.old high at low halves.0 halves.1 l f g }
        ensures there { (l f g : Tree) → RotationParts self.old high at low halves.0 halves.1 l f g →
            Holds self.new (rotated high at l f g) }
        ensures writes { Writes self.old self.new (λ k. one at k + one high k) }
    {
        self.refit(at, low, halves.0);
        self.refit(high, at, halves.1);
    }

    // Puts two trees below a node, with the hull and the height that they give it.
    pub(crate) fn refit(&mut self, at: usize, left: usize, right: usize)
        requires { (l r : Tree) × Children self.old at left right l r }
        ensures there { (l r : Tree) → Children self.old at left right l r → Holds self.new (refitted at l r) }
        ensures writes { Writes self.old self.new (λ k. one at k) }
    {
        let hull = self.bounds_at(left).union(&self.bounds_at(right));
        let height = 1 + self.height_at(left).max(self.height_at(right));
        self.write_inner(at, left, right, hull, height);
        self.note_kin(at, left, right);
    }
}
