//! Eight boxes searched for at once: a node is skipped with all below it if none of them meets its hull.

ghost use Rattle.std.specs.Prelude.{◌≡◌, ◌==◌, ◌+◌, ◌≤◌, ◌++◌, List, Option, [], ◌∷◌, drop, not, map, filter, length, OnOk, IfOk};
ghost use Rattle.fixed_box.specs.Bounds.{Bounds};
ghost use Rattle.broad_index.specs.Touched.{ordered_pairs};
ghost use Rattle.tree_nodes.specs.Tree.{Tree, leaves};
ghost use Rattle.tree_search.specs.Looked.{raised};
ghost use Rattle.tree_search.specs.Exact.{exact};
ghost use Rattle.tree_search.specs.Crossed.{crossed};
ghost use Rattle.tree_search.specs.Group.{all_below, picked, left_pairs, undone, BoxLaws};
ghost use Rattle.tree_search.specs.Reading.{IsListed};

use crate::descent::box_law;
use crate::{ListedNode, NodeKind};
use broad_index::Pair;
use fixed_box::{FBox, NoMemory};
use lane_boxes::BoxPacket;
use slot_lists::SlotMarks;

// How many boxes descend together: as many as are tested at once.
pub(crate) const GROUP: usize = 8;

// Searches for a group at once. Appends the pairs of its boxes with those that they meet, but for those of slots that are
// done, and answers a number raised by how many nodes a descent with each of them looks at.
pub(crate) fn search_group(
    preorder: &[ListedNode],
    done: &SlotMarks,
    group: &[(u32, FBox)],
    looked: u64,
    found: &mut Vec<Pair>,
) -> Result<u64, NoMemory>
    requires list { (bodies : List (Option Bounds)) × (t : Tree) × IsListed bodies t preorder.now }
    requires eight { length group.now ≡ 8 }
    ensures ok { (bodies : List (Option Bounds)) (t : Tree) → IsListed bodies t preorder.now →
        OnOk result (found.new.items ≡ found.old.items ++ crossed group.now (undone done.now (exact bodies (leaves t)))) }
    ensures count { (bodies : List (Option Bounds)) (t : Tree) → IsListed bodies t preorder.now →
        IfOk result (λ n. n ≡ raised looked (length group.now + all_below t group.now)) }
{
    box_law();
    let boxes = BoxPacket::new(&boxes_of(group));
    // each of them looks at the top
    let here = looked.saturating_add(group.len() as u64);
    let all = read_onwards(preorder, done, group, &boxes, here, found)?;
    Ok(all)
}

// The boxes of a group.
fn boxes_of(group: &[(u32, FBox)]) -> [FBox; GROUP]
    requires { length group.now ≡ 8 }
    ensures { result ≡ map (λ e. e.1) group.now }
{
    [
        group[0].1, group[1].1, group[2].1, group[3].1, group[4].1, group[5].1, group[6].1,
        group[7].1,
    ]
}

// Reads a list in preorder with a group of boxes, and jumps over what stands below a hull that none of them meets. Appends
// the pairs of each leaf with those of the group that meet it, and answers a number raised by how many nodes below the top the
// boxes look at.
fn read_onwards(
    preorder: &[ListedNode],
    done: &SlotMarks,
    group: &[(u32, FBox)],
    boxes: &BoxPacket,
    looked: u64,
    found: &mut Vec<Pair>,
) -> Result<u64, NoMemory>
    requires laws { BoxLaws }
    requires list { (bodies : List (Option Bounds)) × (t : Tree) × IsListed bodies t preorder.now }
    requires boxes { boxes.now ≡ map (λ e. e.1) group.now }
    requires few { length group.now ≤ 8 }
    ensures ok { (bodies : List (Option Bounds)) (t : Tree) → IsListed bodies t preorder.now →
        OnOk result (found.new.items ≡ found.old.items ++ crossed group.now (undone done.now (exact bodies (leaves t)))) }
    ensures count { (bodies : List (Option Bounds)) (t : Tree) → IsListed bodies t preorder.now →
        IfOk result (λ n. n ≡ raised looked (all_below t group.now)) }
{
    let mut rest = preorder;
    let mut number = looked;
    'nodes: while let [node, more @ ..] = rest {
        let mask = boxes.overlap_mask(&node.bounds);
        match node.kind {
            NodeKind::Leaf { slot } => {
                push_met(slot, mask, done, group, found)?;
                rest = more;
            }
            NodeKind::Inner { below } => {
                // each that meets the hull looks at both children
                number = number.saturating_add(2 * u64::from(mask.count_ones()));
                rest = if mask == 0 {
                    nodes_behind(more, below)
                } else {
                    more
                };
            }
        }
    }
    Ok(number)
}

// What stands behind so many nodes.
#[inline]
fn nodes_behind(nodes: &[ListedNode], count: u32) -> &[ListedNode]
    ensures { result.now ≡ drop count nodes.now }
{
    &nodes[(count as usize).min(nodes.len())..]
}

// Appends the pairs of a slot with those of a group whose bits are set, but for itself, unless the slot is done.
#[inline]
fn push_met(
    slot: u32,
    mask: u8,
    done: &SlotMarks,
    group: &[(u32, FBox)],
    found: &mut Vec<Pair>,
) -> Result<(), NoMemory>
    ensures { OnOk result (found.new.items ≡ found.old.items ++ left_pairs done.now slot mask group.now) }
{
    if mask == 0 {
        return Ok(());
    }
    if done.has(slot) {
        return Ok(());
    }
    push_picked(slot, mask, group, found)?;
    Ok(())
}

// Appends the pairs of a slot with those of a group whose bits are set, but for itself.
fn push_picked(
    slot: u32,
    mask: u8,
    group: &[(u32, FBox)],
    found: &mut Vec<Pair>,
) -> Result<(), NoMemory>
    ensures { OnOk result (found.new.items ≡ found.old.items ++ ordered_pairs slot (filter (λ s. not (s == slot)) (picked mask group.now))) }
{
    let mut bits = mask;
    let mut rest = group;
    'bits: while bits != 0 {
        // those before the next bit are passed by at once
        let gap = bits.trailing_zeros();
        let [(other, _), more @ ..] = behind(rest, gap as usize) else {
            break;
        };
        push_other(slot, *other, found)?;
        bits = (bits >> gap) / 2;
        rest = more;
    }
    Ok(())
}

// What stands behind so many of a group.
fn behind(group: &[(u32, FBox)], count: usize) -> &[(u32, FBox)]
    ensures { result.now ≡ drop count group.now }
{
    &group[count.min(group.len())..]
}

// Appends the pair of two slots, if they aren't one.
fn push_other(slot: u32, other: u32, found: &mut Vec<Pair>) -> Result<(), NoMemory>
    ensures { OnOk result (found.new.items ≡ found.old.items ++ ordered_pairs slot (filter (λ s. not (s == slot)) (other ∷ []))) }
{
    if other != slot {
        found.push(Pair::ordered(slot, other))?;
    }
    Ok(())
}
