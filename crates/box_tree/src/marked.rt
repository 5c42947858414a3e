//! The boxes and slots of a preorder list that are touched.

ghost use Rattle.std.specs.Prelude.{◌≡◌, ◌++◌, OnOk, OnErr, map};
ghost use Rattle.tree_search.specs.Crossed.{touched_of};
ghost use Rattle.tree_search.specs.Preorder.{listed};
ghost use Rattle.box_tree.specs.Searches.{marked_leaf};

use fixed_box::{FBox, NoMemory};
use slot_lists::{SlotMarks, push_filter_mapped};
use tree_search::{ListedNode, NodeKind};

// Appends the marked slots of a list in preorder, each with its box, in the order of the leaves. So those that lie together
// in space mostly stand together. After an `Err` `out` is as before.
pub(crate) fn push_marked(
    preorder: &[ListedNode],
    marks: &SlotMarks,
    out: &mut Vec<(u32, FBox)>,
) -> Result<(), NoMemory>
    ensures ok { OnOk result (out.new.items ≡ out.old.items ++ touched_of marks.now (listed preorder.now)) }
    ensures err { OnErr result (out.new.items ≡ out.old.items) }
{
    push_filter_mapped(preorder, out, |node| marked_leaf(node, marks))?;
    Ok(())
}

// Appends the marked slots of a list in preorder, in the order of the leaves. After an `Err` `out` is as before.
pub(crate) fn push_marked_slots(
    preorder: &[ListedNode],
    marks: &SlotMarks,
    out: &mut Vec<u32>,
) -> Result<(), NoMemory>
    ensures ok { OnOk result (out.new.items ≡ out.old.items ++ map (λ e. e.0) (touched_of marks.now (listed preorder.now))) }
    ensures err { OnErr result (out.new.items ≡ out.old.items) }
{
    push_filter_mapped(preorder, out, |node| Some(marked_leaf(node, marks)?.0))?;
    Ok(())
}

// The slot of a leaf with its box, if it is marked.
fn marked_leaf(node: &ListedNode, marks: &SlotMarks) -> Option<(u32, FBox)>
    ensures { result ≡ marked_leaf marks.now node.now }
{
    match node.kind {
        NodeKind::Leaf { slot } if marks.has(slot) => Some((slot, node.bounds)),
        _ => None,
    }
}
