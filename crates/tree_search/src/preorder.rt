//! The nodes of a tree in preorder with skip counts, for searches that read onwards.

ghost use Rattle.std.specs.Prelude.{◌≡◌, ◌+◌, ◌*◌, ◌<◌, ◌^◌, ◌++◌, None, OnOk, length, slice_index_or};
ghost use Rattle.tree_nodes.specs.Tree.{Tree, leaves};
ghost use Rattle.tree_search.specs.declared.preorder.NodeKind.TheVariants.{Inner as InnerKind};
ghost use Rattle.tree_search.specs.Group.{IsBelow};
ghost use Rattle.tree_search.specs.Preorder.{leaf_node, preorder, preorder_in};

use crate::BoxedTree;
use crate::descent::box_law;
use fixed_box::{FBox, NoMemory};
use tree_nodes::{Nodes, Role, tree_laws};

/// A node of a tree that is listed in preorder (Ericson, 2005, 6.6.2). Where many boxes are searched for, each descent reads
/// such a list onwards, and jumps over what stands below a hull that is missed.
#[derive(Clone, Copy)]
pub struct ListedNode {
    /// The exact box of a leaf, or the hull of an inner node.
    pub bounds: FBox,
    pub kind: NodeKind,
}

/// What a listed node is.
#[derive(Clone, Copy)]
pub enum NodeKind {
    Leaf { slot: u32 },
    /// How many nodes stand below it, and next in the list.
    Inner { below: u32 },
}

/// Replaces a list by the nodes of a tree in preorder. A leaf whose slot has no box is left out.
pub fn list_preorder(boxes: &BoxedTree, out: &mut Vec<ListedNode>) -> Result<(), NoMemory>
    ensures { OnOk result (out.new.items ≡ preorder_in boxes.now.bodies boxes.now.tree) }
{
    box_law();
    boxes.boxed_law();
    out.clear();
    let Some(root) = boxes.root() else {
        return Ok(());
    };
    push_preorder(boxes.nodes(), boxes.bodies(), root, out)?;
    Ok(())
}

// Appends a node and those below it in preorder.
fn push_preorder(
    nodes: &Nodes,
    bodies: &[Option<FBox>],
    at: usize,
    out: &mut Vec<ListedNode>,
) -> Result<(), NoMemory>
    requires { (t : Tree) × IsBelow nodes.now bodies.now at t × (length out.old.items + 2 * length (leaves t) < 2 ^ 32) }
    ensures { (t : Tree) → IsBelow nodes.now bodies.now at t → OnOk result (out.new.items ≡ out.old.items ++ preorder bodies.now t) }
{
    tree_laws();
    let node = nodes.node(at);
    match node.role {
        Role::Leaf { slot } => {
            push_leaf(bodies, slot, out)?;
            Ok(())
        }
        Role::Inner {
            left,
            right,
            height: _,
        } => {
            let place = out.len();
            out.push(inner_node(&node.bounds, 0))?;
            push_preorder(nodes, bodies, left as usize, out)?;
            push_preorder(nodes, bodies, right as usize, out)?;
            // known only now
            let below = out.len() - place - 1;
            out[place] = inner_node(&node.bounds, below as u32);
            Ok(())
        }
    }
}

fn inner_node(hull: &FBox, below: u32) -> ListedNode
    ensures { result ≡ record { bounds = hull.now; kind = InnerKind below } }
{
    ListedNode {
        bounds: *hull,
        kind: NodeKind::Inner { below },
    }
}

// Appends the leaf of a slot, if the slot has a box.
fn push_leaf(bodies: &[Option<FBox>], slot: u32, out: &mut Vec<ListedNode>) -> Result<(), NoMemory>
    requires { slot < length bodies.now }
    ensures { OnOk result (out.new.items ≡ out.old.items ++ leaf_node slot (slice_index_or bodies.now slot None)) }
{
    if let Some(body) = &bodies[slot as usize] {
        out.push(ListedNode {
            bounds: *body,
            kind: NodeKind::Leaf { slot },
        })?;
    }
    Ok(())
}
