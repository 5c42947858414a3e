//! Laws of balanced trees with nothing to run: hulls enclose leaves, and heights stay low.

ghost use Rattle.std.specs.Prelude.{◌≡◌, ℕ, ◌≤◌, length, false, IsTrue};
ghost use Rattle.std.specs.List.{All, Contains};
ghost use Rattle.fixed_box.specs.Bounds.{Bounds, encloses, meets};
ghost use Rattle.tree_nodes.specs.Tree.{Tree, fork, Leaf, top, bounds, height, leaves, count_of, fewest};
ghost use Rattle.tree_nodes.specs.Tree.{view_of, view_at, Balanced, Within};
ghost use Rattle.tree_nodes.specs.declared.node_view.NodeView.TheVariants.{Leaf as LeafNode};

use crate::MOST_HEIGHT;
use fixed_box::{SLOTS, box_laws};

/// Laws of trees for proofs, with nothing to run. They hold at each node, since what stands in a balanced tree is one.
///
/// A hull encloses the box of each leaf below it. So what meets a leaf's box meets each hull above it, and below a hull
/// that a box misses no leaf meets that box. A tree of height h has at least `fewest h` leaves, so that 8,192 leaves
/// give a height of at most 18.
pub fn tree_laws()
    ensures enclosed { (t : Tree) → Balanced t → All (λ x. IsTrue (encloses (bounds t) x.fat)) (leaves t) }
    ensures met { (t : Tree) (q : Bounds) → Balanced t →
        All (λ x. IsTrue (meets x.fat q) → IsTrue (meets (bounds t) q)) (leaves t) }
    ensures missed { (t : Tree) (q : Bounds) → Balanced t → meets (bounds t) q ≡ false →
        All (λ x. meets x.fat q ≡ false) (leaves t) }
    ensures some { (t : Tree) → 1 ≤ length (leaves t) }
    ensures fewest { (t : Tree) → Balanced t → fewest (height t) ≤ length (leaves t) }
    ensures height { (t : Tree) → Balanced t → length (leaves t) ≤ SLOTS → height t ≤ MOST_HEIGHT }
    ensures limits { MOST_HEIGHT ≡ 18 }

    // What stands in a tree is balanced, and shows under its number. A leaf in the list of leaves is such a node.
    ensures itself { (t : Tree) → Within t t }
    ensures deeper { (t u v : Tree) → Within t u → Within u v → Within t v }
    ensures children { (node height : ℕ) (hull : Bounds) (l r : Tree) →
        Within (fork node hull height l r) l × Within (fork node hull height l r) r }
    ensures within { (t u : Tree) → Within t u → Balanced t → Balanced u }
    ensures shown { (t u : Tree) → Within t u → ((k : ℕ) → count_of t k ≤ 1) → view_at t (top u) ≡ Some (view_of u) }
    ensures leaf { (t : Tree) (x : Leaf) → Contains (leaves t) x → ((k : ℕ) → count_of t k ≤ 1) →
        view_at t x.node ≡ Some (LeafNode x.slot x.fat) }
    ensures viewed { (t : Tree) (node slot : ℕ) (fat : Bounds) → Balanced t →
        view_at t node ≡ Some (LeafNode slot fat) → IsTrue (encloses (bounds t) fat) }
{
    box_laws();
}
