//! The law that a preorder list has the leaves of its tree, with nothing to run.

ghost use Rattle.std.specs.Prelude.{◌≡◌, List, Option};
ghost use Rattle.fixed_box.specs.Bounds.{Bounds};
ghost use Rattle.tree_nodes.specs.Tree.{Tree};
ghost use Rattle.tree_search.specs.Exact.{exact_in};
ghost use Rattle.tree_search.specs.Preorder.{listed, preorder_in};

/// A law for proofs, with nothing to run: the leaves of a list in preorder are those of the tree, in their order.
pub fn listing_law()
    ensures { (bodies : List (Option Bounds)) (tree : Option Tree) → listed (preorder_in bodies tree) ≡ exact_in bodies tree }
{}
