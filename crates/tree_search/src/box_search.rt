//! A search for the pairs of many boxes, eight at a time against the nodes in preorder.

ghost use Rattle.std.specs.Prelude.{◌≡◌, ◌||◌, ◌++◌, ◌==◌, ℕ, true, false, map, filter, not, OnOk, OnErr, IfOk, slice_index_or};
ghost use Rattle.broad_index.specs.declared.query.Query.TheVariants.{Region};
ghost use Rattle.broad_index.specs.Found.{found_of};
ghost use Rattle.broad_index.specs.Members.{has_slot};
ghost use Rattle.broad_index.specs.Touched.{ordered_pairs};
ghost use Rattle.tree_nodes.specs.Tree.{visits_in};
ghost use Rattle.tree_search.specs.Exact.{exact_in};
ghost use Rattle.tree_search.specs.Crossed.{crossed, all_visits_in, Adds, AreOf};
ghost use Rattle.slot_lists.specs.Marks.{unmarked};
ghost use Rattle.tree_search.specs.Looked.{raised};
ghost use Rattle.tree_search.specs.Preorder.{preorder_in};

use crate::descent::{box_law, descend_with_box};
use crate::group::{GROUP, search_group};
use crate::{BoxedTree, ListedNode, SearchRoom, TreeFindings};
use broad_index::push_ordered_pairs;
use fixed_box::{FBox, NoMemory};
use slot_lists::{SlotMarks, push_filtered};

/// Appends the pairs of the boxes of a room with those that they meet, and answers a number raised by how many nodes a descent
/// for each of them looks at. They are searched for in groups, in their order, in the list of the nodes.
pub fn search_boxes(
    boxes: &BoxedTree,
    preorder: &[ListedNode],
    looked: u64,
    room: &mut SearchRoom,
    found: &mut TreeFindings,
) -> Result<u64, NoMemory>
    requires list { preorder.now ≡ preorder_in boxes.now.bodies boxes.now.tree }
    requires touched { AreOf boxes.now.bodies room.old.touched.items }
    ensures ok { OnOk result (Adds found.old.pairs.items found.new.pairs.items (crossed (exact_in boxes.now.bodies boxes.now.tree) room.old.touched.items)) }
    ensures count { IfOk result (λ n. n ≡ raised looked (all_visits_in boxes.now.tree room.old.touched.items)) }
{
    room.done.clear();
    let number = search_by_groups(
        boxes,
        preorder,
        &room.touched,
        looked,
        &mut room.done,
        found,
    )?;
    Ok(number)
}

// Searches for touched boxes group by group, and for those that are left one by one. A pair of two groups is found from the
// earlier one alone.
fn search_by_groups(
    boxes: &BoxedTree,
    preorder: &[ListedNode],
    touched: &[(u32, FBox)],
    looked: u64,
    done: &mut SlotMarks,
    found: &mut TreeFindings,
) -> Result<u64, NoMemory>
    requires list { preorder.now ≡ preorder_in boxes.now.bodies boxes.now.tree }
    requires touched { AreOf boxes.now.bodies touched.now }
    requires none { done.old ≡ unmarked }
    ensures ok { OnOk result (Adds found.old.pairs.items found.new.pairs.items (crossed (exact_in boxes.now.bodies boxes.now.tree) touched.now)) }
    ensures count { IfOk result (λ n. n ≡ raised looked (all_visits_in boxes.now.tree touched.now)) }
{
    box_law();
    boxes.boxed_law();
    let Some(_top) = boxes.root() else {
        return Ok(looked);
    };
    let mut rest = touched;
    let mut number = looked;
    'groups: while rest.len() >= GROUP {
        let (group, more) = rest.split_at(GROUP);
        number = search_group(preorder, done, group, number, &mut found.pairs)?;
        set_done(group, done);
        rest = more;
    }
    let all = search_each(boxes, rest, number, found)?;
    Ok(all)
}

// Marks the slots of a group.
fn set_done(group: &[(u32, FBox)], done: &mut SlotMarks)
    ensures { (k : ℕ) → slice_index_or done.new k false ≡ true →
        (slice_index_or done.old k false || has_slot (map (λ e. e.0) group.now) k) ≡ true }
{
    let mut rest = group;
    'group: while let [(slot, _), more @ ..] = rest {
        set_mark(*slot, done);
        rest = more;
    }
}

// Marks a slot.
fn set_mark(slot: u32, done: &mut SlotMarks)
    ensures { (k : ℕ) → slice_index_or done.new k false ≡ true → (slice_index_or done.old k false || (k == slot)) ≡ true }
{
    done.set(slot);
}

/// Appends the pairs of some boxes with those that they meet, by one descent each, and answers a number raised by how many nodes
/// these look at.
pub fn search_each(
    boxes: &BoxedTree,
    touched: &[(u32, FBox)],
    looked: u64,
    found: &mut TreeFindings,
) -> Result<u64, NoMemory>
    ensures ok { OnOk result (found.new.pairs.items ≡ found.old.pairs.items ++ crossed (exact_in boxes.now.bodies boxes.now.tree) touched.now) }
    ensures count { IfOk result (λ n. n ≡ raised looked (all_visits_in boxes.now.tree touched.now)) }
{
    let mut rest = touched;
    let mut number = looked;
    'touched: while let [(slot, body), more @ ..] = rest {
        let count = search_one(boxes, *slot, body, found)?;
        number = number.saturating_add(u64::from(count));
        rest = more;
    }
    Ok(number)
}

// Searches for one touched box, and answers how many nodes its descent looked at.
fn search_one(
    boxes: &BoxedTree,
    slot: u32,
    body: &FBox,
    found: &mut TreeFindings,
) -> Result<u32, NoMemory>
    ensures ok { OnOk result (found.new.pairs.items ≡ found.old.pairs.items ++
        ordered_pairs slot (filter (λ s. not (s == slot)) (found_of (exact_in boxes.now.bodies boxes.now.tree) (Region body.now)))) }
    ensures count { IfOk result (λ n. n ≡ visits_in boxes.now.tree body.now) }
{
    found.met.clear();
    let count = descend_with_box(boxes, body, &mut found.met)?;
    found.others.clear();
    push_others(slot, &found.met, &mut found.others)?;
    push_ordered_pairs(slot, &found.others, &mut found.pairs)?;
    Ok(count)
}

/// Appends all slots but one. After an `Err` `out` is as before.
pub fn push_others(slot: u32, met: &[u32], out: &mut Vec<u32>) -> Result<(), NoMemory>
    ensures ok { OnOk result (out.new.items ≡ out.old.items ++ filter (λ s. not (s == slot)) met.now) }
    ensures err { OnErr result (out.new.items ≡ out.old.items) }
{
    push_filtered(met, out, |other| *other != slot)
}
