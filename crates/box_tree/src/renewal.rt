//! The pair cache renewed: pairs of touched slots dropped, and what was found merged in.

ghost use Rattle.std.specs.Prelude.{◌≡◌, ◌++◌, true, OnOk, OnErr};
ghost use Rattle.std.specs.Ordering.{nat_cmp};
ghost use Rattle.std.specs.FinMap.{FinMap};
ghost use Rattle.fixed_box.specs.Bounds.{Bounds};
ghost use Rattle.broad_index.specs.Near.{near, rises};
ghost use Rattle.broad_index.specs.Touched.{AreKept, Renewed};
ghost use Rattle.box_tree.specs.Boxes.{untouched};

use crate::room::Room;
use broad_index::{Pair, member_laws, renew_pairs};
use fixed_box::NoMemory;
use slot_lists::SlotMarks;

// Makes the kept pairs those of the map, appends them, and takes the marks away: kept ones with no marked slot, and those that
// were found for marked slots.
//
// Where `out` has no room the kept pairs are those of the map all the same, and the marks stay.
pub(crate) fn renew(
    kept: &mut Vec<Pair>,
    marks: &mut SlotMarks,
    room: &mut Room,
    out: &mut Vec<Pair>,
) -> Result<(), NoMemory>
    requires { rises kept.old.items ≡ true }
    ensures near { (bodies : FinMap nat_cmp Bounds) → Renewed bodies marks.old kept.old.items room.old.found.pairs.items →
        OnOk result (out.new.items ≡ out.old.items ++ near bodies) }
    ensures kept { (bodies : FinMap nat_cmp Bounds) → Renewed bodies marks.old kept.old.items room.old.found.pairs.items →
        AreKept bodies marks.new kept.new.items }
    ensures rises { rises kept.new.items ≡ true }
    ensures marks { OnOk result (marks.new ≡ untouched) }
    ensures err { OnErr result ((out.new.items ≡ out.old.items) × (marks.new ≡ marks.old)) }
{
    member_laws();
    renew_pairs(
        kept,
        marks.as_slice(),
        &mut room.found.pairs,
        &mut room.near,
    )?;
    out.extend_from_slice(kept)?;
    marks.clear();
    Ok(())
}
