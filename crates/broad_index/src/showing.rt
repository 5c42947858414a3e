//! Boxes shown to a visitor, one slot after another.

ghost use Rattle.std.specs.Prelude.{◌≡◌, ℕ, Bool, ◌++◌, List, OnOk, filter};
ghost use Rattle.std.specs.Ordering.{nat_cmp};
ghost use Rattle.std.specs.FinMap.{FinMap, entries};
ghost use Rattle.fixed_box.specs.Bounds.{Bounds};
ghost use Rattle.broad_index.specs.Found.{listed};
ghost use Rattle.broad_index.specs.Showing.{entries_at};

use crate::Visitor;
use fixed_box::NoMemory;
use slot_lists::SlotBoxes;

/// Shows a visitor the boxes of some slots, in their order. A slot that is absent is passed by. After an `Err` nothing is said of
/// the visitor.
pub fn show_slots<V: Visitor>(
    boxes: &SlotBoxes,
    slots: &[u32],
    visitor: &mut V,
) -> Result<(), NoMemory>
    ensures seen { OnOk result ((seen : List (ℕ × Bounds)) → V.saw visitor.old seen → V.saw visitor.new (seen ++ entries_at boxes.now slots.now)) }
    ensures kept { OnOk result (V.keeps visitor.old visitor.new) }
{
    let mut rest = slots;
    'slots: while let [slot, more @ ..] = rest {
        if let Some(body) = boxes.box_of(*slot) {
            visitor.meet(*slot, &body)?;
        }
        rest = more;
    }
    Ok(())
}

/// A law for proofs, with nothing to run: the boxes of the slots that are listed by a test are the entries that pass it.
pub fn listed_law()
    ensures { (bodies : FinMap nat_cmp Bounds) (p : ℕ × Bounds → Bool) → entries_at bodies (listed p bodies) ≡ filter p (entries bodies) }
{}
