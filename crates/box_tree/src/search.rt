//! The touched slots that are present, and the slots that one box reaches.

ghost use Rattle.std.specs.Prelude.{◌≡◌, ◌≤◌, [], length, None, OnOk, IfOk, slice_index_or};
ghost use Rattle.fixed_box.specs.declared.TheConstants.{SLOTS};
ghost use Rattle.box_tree.specs.Boxes.{visits_for};
ghost use Rattle.box_tree.specs.Searches.{sought_from, reached_in};

use crate::tree_boxes::TreeBoxes;
use fixed_box::{FBox, NoMemory, SLOTS};
use slot_lists::SlotMarks;
use tree_search::{descend_with_box, push_others};

// Appends the touched slots that are present, in rising order.
pub(crate) fn push_sought(
    bodies: &[Option<FBox>],
    marks: &SlotMarks,
    out: &mut Vec<u32>,
) -> Result<(), NoMemory>
    requires bodies { length bodies.now ≡ SLOTS }
    requires empty { out.old.items ≡ [] }
    ensures ok { OnOk result (out.new.items ≡ sought_from marks.now 0 bodies.now) }
    ensures few { OnOk result (length out.new.items ≤ SLOTS) }
{
    let mut rest = bodies;
    let mut slot = 0;
    'slots: while let [body, more @ ..] = rest {
        if marks.has(slot) && body.is_some() {
            out.push(slot)?;
        }
        slot += 1;
        rest = more;
    }
    Ok(())
}

// Replaces `out` by the other slots whose boxes meet the one of a slot, in no order, and answers how many nodes it looked
// at. `met` is room.
pub(crate) fn reach(
    boxes: &TreeBoxes,
    slot: u32,
    met: &mut Vec<u32>,
    out: &mut Vec<u32>,
) -> Result<u32, NoMemory>
    ensures ok { OnOk result (out.new.items ≡ reached_in boxes.now.bodies boxes.now.tree slot) }
    ensures count { IfOk result (λ n. n ≡ visits_for boxes.now.tree (slice_index_or boxes.now.bodies slot None)) }
{
    out.clear();
    let Some(body) = boxes.box_of(slot) else {
        return Ok(0);
    };
    met.clear();
    let count = descend_with_box(&boxes.boxed_tree(), &body, met)?;
    push_others(slot, met, out)?;
    Ok(count)
}
