//! Slots that a search found, made into the handles of their live boxes.

ghost use Rattle.std.specs.Prelude.{◌≡◌, ◌++◌, ℕ, OnOk, OnErr};
ghost use Rattle.std.specs.List.{filter_map};
ghost use Rattle.live_queries.specs.Beside.{handle_at};

use crate::hit::Hit;
use fixed_box::NoMemory;
use live_table::{Handle, LiveTable};
use near_boxes::Near;
use slot_lists::push_filter_mapped;

// What was found under a slot.
pub(crate) trait AtSlot {
    ghost slot: { Self → ℕ };

    fn slot(&self) -> u32
        ensures { result ≡ slot self.now };
}

impl AtSlot for Hit {
    ghost slot = { λ hit. hit.slot };

    fn slot(&self) -> u32 {
        self.slot
    }
}

impl AtSlot for Near {
    ghost slot = { λ near. near.slot };

    fn slot(&self) -> u32 {
        self.slot
    }
}

// Appends the handles of the live boxes that were found, in their order. After an `Err` `out` is as before.
pub(crate) fn push_handles<T: AtSlot>(
    table: &LiveTable,
    found: &[T],
    out: &mut Vec<Handle>,
) -> Result<(), NoMemory>
    ensures ok { OnOk result (out.new.items ≡ out.old.items ++ filter_map (λ at. handle_at table.now.entries (T.slot at)) found.now) }
    ensures err { OnErr result (out.new.items ≡ out.old.items) }
{
    push_filter_mapped(found, out, |at| handle_at(table, at.slot()))
}

fn handle_at(table: &LiveTable, slot: u32) -> Option<Handle>
    ensures { result ≡ handle_at table.now.entries slot }
{
    let live = table.at(slot)?;
    Some(live.handle)
}
