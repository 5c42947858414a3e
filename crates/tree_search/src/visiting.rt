//! A descent that shows boxes to a visitor: only below hulls that it admits, the one that it prefers first.

ghost use Rattle.std.specs.Prelude.{◌≡◌, ◌⊎◌, ℕ, ◌+◌, ◌<◌, ◌++◌, Some, List, OnOk, IsSome, length, option_to_list, slice_index_or, None};
ghost use Rattle.fixed_box.specs.Bounds.{Bounds};
ghost use Rattle.tree_nodes.specs.Tree.{Tree, IsTree, top, view_in};
ghost use Rattle.tree_search.specs.Exact.{entry_of, exact_in, IsInside};
ghost use Rattle.tree_search.specs.declared.waiting.TheConstants.{MOST_WAITING};

use crate::BoxedTree;
use crate::descent::descent_law;
use crate::waiting::Waiting;
use broad_index::Visitor;
use fixed_box::{FBox, NoMemory, box_laws};
use tree_nodes::{Nodes, Role};

/// Shows the boxes of a tree to a visitor, except those in hulls that it doesn't admit. A hull is asked as its turn comes, so
/// that what was found meanwhile counts. After an `Err` nothing is said of the visitor.
pub fn show_boxes<V: Visitor>(boxes: &BoxedTree, visitor: &mut V) -> Result<(), NoMemory>
    ensures seen { OnOk result ((seen : List (ℕ × Bounds)) → V.saw visitor.old seen
        → V.saw visitor.new (seen ++ exact_in boxes.now.bodies boxes.now.tree)) }
    ensures kept { OnOk result (V.keeps visitor.old visitor.new) }
{
    boxes.boxed_law();
    match boxes.root() {
        None => Ok(()),
        Some(root) => show_below(boxes.nodes(), boxes.bodies(), root, visitor),
    }
}

// The same from the root on.
fn show_below<V: Visitor>(
    nodes: &Nodes,
    bodies: &[Option<FBox>],
    root: usize,
    visitor: &mut V,
) -> Result<(), NoMemory>
    requires { (t : Tree) × (nodes.now ≡ Some t) × (root ≡ top t) × IsTree t × IsInside bodies.now t }
    ensures seen { OnOk result ((seen : List (ℕ × Bounds)) → V.saw visitor.old seen → V.saw visitor.new (seen ++ exact_in bodies.now nodes.now)) }
    ensures kept { OnOk result (V.keeps visitor.old visitor.new) }
{
    box_laws();
    descent_law();
    let mut waiting = Waiting::none(nodes.node(root));
    wait(nodes, root, &mut waiting);
    'show: while let Some(node) = waiting.pop() {
        if visitor.admits(&node.bounds) {
            match node.role {
                Role::Leaf { slot } => show_leaf(bodies, slot, visitor)?,
                Role::Inner {
                    left,
                    right,
                    height: _,
                } => wait_both(nodes, left as usize, right as usize, visitor, &mut waiting),
            }
        }
    }
    Ok(())
}

// Lets a node wait.
#[inline]
fn wait<'a>(nodes: &'a Nodes, at: usize, waiting: &mut Waiting<'a>)
    requires room { length waiting.old < MOST_WAITING }
    requires shown { IsSome (view_in nodes.now at) }
    ensures { waiting.new ≡ waiting.old ++ option_to_list (view_in nodes.now at) }
{
    waiting.push_if(nodes.node(at), true);
}

// Lets two nodes wait, the one that the visitor prefers to go first.
fn wait_both<'a, V: Visitor>(
    nodes: &'a Nodes,
    left: usize,
    right: usize,
    visitor: &V,
    waiting: &mut Waiting<'a>,
)
    requires room { length waiting.old + 1 < MOST_WAITING }
    requires left { IsSome (view_in nodes.now left) }
    requires right { IsSome (view_in nodes.now right) }
    ensures { (waiting.new ≡ (waiting.old ++ option_to_list (view_in nodes.now right)) ++ option_to_list (view_in nodes.now left))
        ⊎ (waiting.new ≡ (waiting.old ++ option_to_list (view_in nodes.now left)) ++ option_to_list (view_in nodes.now right)) }
{
    if visitor.prefers(&nodes.node(left).bounds, &nodes.node(right).bounds) {
        wait(nodes, right, waiting);
        wait(nodes, left, waiting);
    } else {
        wait(nodes, left, waiting);
        wait(nodes, right, waiting);
    }
}

// Shows the exact box of a slot, if it has one.
fn show_leaf<V: Visitor>(
    bodies: &[Option<FBox>],
    slot: u32,
    visitor: &mut V,
) -> Result<(), NoMemory>
    requires { slot < length bodies.now }
    ensures seen { OnOk result ((seen : List (ℕ × Bounds)) → V.saw visitor.old seen
        → V.saw visitor.new (seen ++ entry_of slot (slice_index_or bodies.now slot None))) }
    ensures kept { OnOk result (V.keeps visitor.old visitor.new) }
{
    match &bodies[slot as usize] {
        Some(body) => visitor.meet(slot, body),
        None => Ok(()),
    }
}
