//! The preorder list of a tree, and whether it is up to date.

ghost use Rattle.std.specs.Prelude.{◌≡◌, true, false, IfSome, OnOk};
ghost use Rattle.tree_search.specs.Preorder.{preorder_in};
ghost use Rattle.box_tree.specs.Whole.{AreListed};

use crate::tree_boxes::TreeBoxes;
use fixed_box::NoMemory;
use std::alloc::Global;
use tree_search::{ListedNode, list_preorder};

/// The nodes of a tree as searches of many slots read them, and whether they are listed as they are now.
#[derive(Drop)]
pub(crate) struct TreeListing {
    pub(crate) nodes: Vec<ListedNode>,
    pub(crate) fresh: bool,
}

impl TreeListing {
    pub(crate) fn new(alloc: Global) -> TreeListing
        ensures { result.fresh ≡ false }
    {
        TreeListing {
            nodes: Vec::new(alloc),
            fresh: false,
        }
    }

    /// The nodes, if they are listed as they are now.
    pub(crate) fn if_fresh(&self) -> Option<&[ListedNode]>
        ensures { IfSome result (λ nodes. (self.now.fresh ≡ true) × (nodes.now ≡ self.now.nodes.items)) }
    {
        if self.fresh { Some(&self.nodes) } else { None }
    }

    /// Lists the nodes, where they aren't yet.
    pub(crate) fn refresh(&mut self, boxes: &TreeBoxes) -> Result<(), NoMemory>
        requires { AreListed self.old boxes.now }
        ensures listed { AreListed self.new boxes.now }
        ensures nodes { OnOk result (self.new.nodes.items ≡ preorder_in boxes.now.bodies boxes.now.tree) }
    {
        if self.fresh {
            return Ok(());
        }
        list_nodes(boxes, &mut self.nodes)?;
        self.fresh = true;
        Ok(())
    }
}

// Replaces a list by the nodes of the tree.
pub(crate) fn list_nodes(boxes: &TreeBoxes, out: &mut Vec<ListedNode>) -> Result<(), NoMemory>
    ensures { OnOk result (out.new.items ≡ preorder_in boxes.now.bodies boxes.now.tree) }
{
    list_preorder(&boxes.boxed_tree(), out)
}
