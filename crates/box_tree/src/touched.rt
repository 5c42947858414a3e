//! The search for touched slots: in groups along the preorder list, or one by one where few are touched.

ghost use Rattle.std.specs.Prelude.{◌≡◌, ◌≤◌, ◌++◌, List, [], length};
ghost use Rattle.std.specs.Prelude.{OnOk, OnErr, IfOk};
ghost use Rattle.slot_lists.specs.SlotMap.{map_of};
ghost use Rattle.broad_index.specs.declared.pair.Pair.{Pair};
ghost use Rattle.broad_index.specs.Touched.{gathered_with, AreKept, Renewed};
ghost use Rattle.fixed_box.specs.declared.TheConstants.{SLOTS};
ghost use Rattle.tree_nodes.specs.Tree.{leaves_in};
ghost use Rattle.box_tree.specs.Boxes.{marked_slots};
ghost use Rattle.tree_search.specs.Looked.{raised};
ghost use Rattle.tree_search.specs.Exact.{exact_in};
ghost use Rattle.tree_search.specs.Crossed.{crossed, all_visits_in, Adds, AreOf};
ghost use Rattle.tree_search.specs.Preorder.{preorder_in};
ghost use Rattle.box_tree.specs.Searches.{boxed, looked_for, searches, sought_from};
ghost use Rattle.box_tree.specs.Whole.{AreListed};

use crate::marked::{push_marked, push_marked_slots};
use crate::room::Room;
use crate::search::push_sought;
use crate::tree_boxes::TreeBoxes;
use crate::tree_listing::{TreeListing, list_nodes};
use broad_index::{holding_laws, keeping_laws};
use fixed_box::{FBox, NoMemory};
use slot_lists::{SlotMarks, push_filter_mapped};
use tree_search::{ListedNode, SearchRoom, TreeFindings, listing_law, search_boxes, search_each};

// From how many touched slots on they are searched for in groups. For fewer it doesn't pay to walk over the tree.
const FEWEST_GROUPED: usize = 1_024;

// Replaces the found pairs by those of touched slots with the boxes that theirs meet, and answers a number raised by how
// many nodes a descent for each of them looks at. Many are searched for in groups, in the order of their leaves.
pub(crate) fn search_touched(
    boxes: &TreeBoxes,
    marks: &SlotMarks,
    looked: u64,
    listing: &mut TreeListing,
    room: &mut Room,
) -> Result<u64, NoMemory>
    requires { AreListed listing.old boxes.now }
    ensures listed { AreListed listing.new boxes.now }
    ensures ok { (kept : List Pair) → AreKept (map_of boxes.now.bodies) marks.now kept →
        OnOk result (Renewed (map_of boxes.now.bodies) marks.now kept room.new.found.pairs.items) }
    ensures count { IfOk result (λ n. n ≡ looked_for boxes.now.tree boxes.now.bodies (sought_from marks.now 0 boxes.now.bodies) looked) }
{
    holding_laws();
    keeping_laws();
    listing_law();
    boxes.kept_law();
    room.found.pairs.clear();
    room.slots.clear();
    push_sought(boxes.bodies(), marks, &mut room.slots)?;
    if room.slots.len() < FEWEST_GROUPED {
        let few = search_few(
            boxes,
            &room.slots,
            looked,
            &mut room.search,
            &mut room.found,
        )?;
        return Ok(few);
    }
    listing.refresh(boxes)?;
    room.search.touched.clear();
    push_marked(&listing.nodes, marks, &mut room.search.touched)?;
    let many = search_groups(
        boxes,
        &listing.nodes,
        looked,
        &mut room.search,
        &mut room.found,
    )?;
    Ok(many)
}

// Appends the touched slots that are present in the order of their leaves, so that those that lie together in space mostly
// stand together.
pub(crate) fn push_shared(
    boxes: &TreeBoxes,
    listing: &TreeListing,
    marks: &SlotMarks,
    out: &mut Vec<u32>,
) -> Result<(), NoMemory>
    requires listed { AreListed listing.now boxes.now }
    requires empty { out.old.items ≡ [] }
    ensures ok { OnOk result (out.new.items ≡ marked_slots marks.now (leaves_in boxes.now.tree)) }
    ensures few { OnOk result (length out.new.items ≤ SLOTS) }
{
    listing_law();
    boxes.kept_law();
    if let Some(list) = listing.if_fresh() {
        push_marked_slots(list, marks, out)?;
        return Ok(());
    }
    let mut list = Vec::new(*out.allocator());
    list_nodes(boxes, &mut list)?;
    push_marked_slots(&list, marks, out)?;
    Ok(())
}

// Appends the pairs of some slots with the boxes that theirs meet, and answers a number raised by how many nodes a descent
// for each of them looks at. Where the nodes are listed, they are searched for in groups, in the order in which they are
// given.
pub(crate) fn search_run(
    boxes: &TreeBoxes,
    listing: &TreeListing,
    slots: &[u32],
    looked: u64,
    room: &mut SearchRoom,
    found: &mut TreeFindings,
) -> Result<u64, NoMemory>
    requires { AreListed listing.now boxes.now }
    ensures ok { OnOk result (Adds found.old.pairs.items found.new.pairs.items (gathered_with (searches boxes.now.bodies boxes.now.tree slots.now))) }
    ensures count { IfOk result (λ n. n ≡ looked_for boxes.now.tree boxes.now.bodies slots.now looked) }
{
    let Some(preorder) = listing.if_fresh() else {
        let few = search_few(boxes, slots, looked, room, found)?;
        return Ok(few);
    };
    room.touched.clear();
    push_boxes(boxes, slots, &mut room.touched)?;
    let many = search_groups(boxes, preorder, looked, room, found)?;
    Ok(many)
}

// Appends the pairs of some slots with the boxes that theirs meet, by one descent each, and answers a number raised by how
// many nodes these look at.
fn search_few(
    boxes: &TreeBoxes,
    slots: &[u32],
    looked: u64,
    room: &mut SearchRoom,
    found: &mut TreeFindings,
) -> Result<u64, NoMemory>
    ensures ok { OnOk result (found.new.pairs.items ≡ found.old.pairs.items ++ gathered_with (searches boxes.now.bodies boxes.now.tree slots.now)) }
    ensures count { IfOk result (λ n. n ≡ looked_for boxes.now.tree boxes.now.bodies slots.now looked) }
{
    room.touched.clear();
    push_boxes(boxes, slots, &mut room.touched)?;
    let number = search_each(&boxes.boxed_tree(), &room.touched, looked, found)?;
    Ok(number)
}

// Appends each slot that has a box with it. After an `Err` `out` is as before.
fn push_boxes(boxes: &TreeBoxes, slots: &[u32], out: &mut Vec<(u32, FBox)>) -> Result<(), NoMemory>
    ensures ok { OnOk result (out.new.items ≡ out.old.items ++ boxed boxes.now.bodies slots.now) }
    ensures err { OnErr result (out.new.items ≡ out.old.items) }
{
    push_filter_mapped(slots, out, |slot| Some((*slot, boxes.box_of(*slot)?)))
}

// Searches for the touched boxes of a room in the list of the nodes.
fn search_groups(
    boxes: &TreeBoxes,
    preorder: &[ListedNode],
    looked: u64,
    room: &mut SearchRoom,
    found: &mut TreeFindings,
) -> Result<u64, NoMemory>
    requires list { preorder.now ≡ preorder_in boxes.now.bodies boxes.now.tree }
    requires touched { AreOf boxes.now.bodies room.old.touched.items }
    ensures ok { OnOk result (Adds found.old.pairs.items found.new.pairs.items (crossed (exact_in boxes.now.bodies boxes.now.tree) room.old.touched.items)) }
    ensures count { IfOk result (λ n. n ≡ raised looked (all_visits_in boxes.now.tree room.old.touched.items)) }
{
    search_boxes(&boxes.boxed_tree(), preorder, looked, room, found)
}
