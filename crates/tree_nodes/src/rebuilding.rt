//! A rebuild from the top down: all leaves gathered, and split at medians into a balanced tree.

ghost use Rattle.std.specs.Prelude.{◌≡◌, ℕ, ◌+◌, ◌^◌, ◌≤◌, ◌++◌, map, length, vec_capacity};
ghost use Rattle.std.specs.List.Sorted.{IsPermutation};
ghost use Rattle.fixed_box.specs.declared.TheConstants.{SLOTS};
ghost use Rattle.tree_nodes.specs.Path.{ToSearch};
ghost use Rattle.tree_nodes.specs.Rebuilt.{numbers, uses, inner_numbers, HasRoom, ToBuild, Built};
ghost use Rattle.tree_nodes.specs.Stored.{SoundIn, tree_of, Writes};
ghost use Rattle.tree_nodes.specs.Tree.{Tree, leaves, leaves_in, height_in};

use crate::NodeView;
use crate::leaf_key::{LeafKey, centre};
use crate::linked_nodes::LinkedNodes;
use crate::median::divide;

impl LinkedNodes {
    // Links the inner nodes of the tree under a root anew. Answers the new root, and how many leaves there are. The two lists are
    // room.
    pub(crate) fn rebuild_tree(
        &mut self,
        root: Option<usize>,
        keys: &mut Vec<LeafKey>,
        inner: &mut Vec<usize>,
    ) -> (Option<usize>, usize)
        requires sound { SoundIn self.old root (tree_of self.old root) }
        requires keys_room { SLOTS ≤ vec_capacity keys.old }
        requires inner_room { SLOTS ≤ vec_capacity inner.old }
        ensures sound { SoundIn self.new result.0 (tree_of self.new result.0) }
        ensures leaves { IsPermutation (leaves_in (tree_of self.old root)) (leaves_in (tree_of self.new result.0)) }
        ensures least { (h : ℕ) → length (leaves_in (tree_of self.new result.0)) ≤ 2 ^ h →
            height_in (tree_of self.new result.0) ≤ h }
        ensures count { result.1 ≡ length (leaves_in (tree_of self.new result.0)) }
        ensures keys_room { vec_capacity keys.old ≤ vec_capacity keys.new }
        ensures inner_room { vec_capacity inner.old ≤ vec_capacity inner.new }
    {
        keys.clear();
        inner.clear();
        let Some(at) = root else {
            return (None, 0);
        };
        self.gather(at, keys, inner);
        order(inner);
        let count = keys.len();
        (Some(self.build(keys, inner)), count)
    }

    // Appends the leaves of a tree, and the numbers of its inner nodes.
    fn gather(&self, at: usize, keys: &mut Vec<LeafKey>, inner: &mut Vec<usize>)
        requires { (t : Tree) × ToSearch self.now at t × HasRoom (length keys.old.items) (vec_capacity keys.old) t ×
            HasRoom (length inner.old.items) (vec_capacity inner.old) t }
        ensures leaves { (t : Tree) → ToSearch self.now at t →
            numbers keys.new.items ≡ numbers keys.old.items ++ map (λ x. x.node) (leaves t) }
        ensures inner { (t : Tree) → ToSearch self.now at t → inner.new.items ≡ inner.old.items ++ inner_numbers t }
        ensures keys_room { vec_capacity keys.old ≤ vec_capacity keys.new }
        ensures inner_room { vec_capacity inner.old ≤ vec_capacity inner.new }
    {
        match self.view(at) {
            NodeView::Leaf { slot: _, fat } => {
                keys.push(LeafKey {
                    centre: centre(&fat),
                    number: at,
                })
                .unwrap();
            }
            NodeView::Inner {
                left,
                right,
                hull: _,
                height: _,
            } => {
                inner.push(at).unwrap();
                self.gather(left, keys, inner);
                self.gather(right, keys, inner);
            }
        }
    }

    // Builds a tree of some leaves from the top down, with half of them below each child, and answers its top. It writes to
    // the inner nodes alone, one fewer than there are leaves. As halves differ by at most one leaf, the tree is balanced.
    fn build(&mut self, keys: &mut [LeafKey], inner: &[usize]) -> usize
        requires { ToBuild self.old (numbers keys.old) inner.now }
        ensures there { (t : Tree) × Built self.old self.new result (numbers keys.old) inner.now t }
        ensures writes { Writes self.old self.new (λ k. uses inner.now k) }
    {
        let [at, rest @ ..] = inner else {
            return keys[0].number;
        };
        let middle = keys.len() / 2;
        divide(keys, middle);
        let (front, back) = keys.split_at_mut(middle);
        let (front_inner, back_inner) = rest.split_at(middle - 1);
        let left = self.build(front, front_inner);
        let right = self.build(back, back_inner);
        self.refit(*at, left, right);
        *at
    }
}

// Puts numbers in rising order. So a node built anew stands close before those below it, and a descent reads its way on.
fn order(numbers: &mut Vec<usize>)
    ensures same { IsPermutation numbers.old.items numbers.new.items }
    ensures capacity { vec_capacity numbers.new ≡ vec_capacity numbers.old }
{
    numbers.sort_unstable();
}
