//! The way back over a list of changes, the latest first: in the index, and then in the table.

ghost use Rattle.std.specs.Prelude.{◌≡◌, [], false, true, vec_len, OnOk, OnErr};
ghost use Rattle.live_table.specs.Bodies.{bodies_of};
ghost use Rattle.live_table.specs.Table.{Table, IsTable};
ghost use Rattle.world_marks.specs.Undone.{after_undo, undone, CanUndo, AreUndoable};
ghost use Rattle.world_marks.specs.WayBack.{IsReadyFor};

use crate::Undo;
use broad_index::BroadPhase;
use fixed_box::{NoMemory, space_law};
use live_table::{LiveTable, Stale, map_laws};

// The index gets the boxes that the table has once the changes are undone. After an `Err` the index is spent. Exchanges are
// counted from 0 on at each step, so that however many steps there are, their number fits.
pub(crate) fn undo_in_index<B: BroadPhase>(
    undos: &[Undo],
    index: &mut B,
    table: &LiveTable,
) -> Result<(), NoMemory>
    requires sound { B.spent index.old ≡ false }
    requires boxes { B.bodies index.old ≡ bodies_of table.now.entries }
    requires undoable { AreUndoable undos.now table.now }
    ensures sound { OnOk result (B.spent index.new ≡ false) }
    ensures boxes { OnOk result (B.bodies index.new ≡ bodies_of (undone undos.now table.now).entries) }
    ensures table { IsTable table.now }
    ensures err { OnErr result (B.spent index.new ≡ true) }
{
    let _live = table.len();
    let mut left = undos;
    'undone: while let Some((undo, sooner)) = left.split_last() {
        left = sooner;
        index.clear_exchanges();
        undo_box(undo, index)?;
    }
    Ok(())
}

// Undoes one change in the index alone. After an `Err` the index is spent.
fn undo_box<B: BroadPhase>(undo: &Undo, index: &mut B) -> Result<(), NoMemory>
    requires sound { B.spent index.old ≡ false }
    requires ready { IsReadyFor undo.now (B.bodies index.old) }
    requires countable { B.exchanges index.old ≡ 0 }
    ensures table { (t : Table) → IsTable t → CanUndo undo.now t → IsTable (after_undo t undo.now) }
    ensures boxes { (t : Table) → IsTable t → CanUndo undo.now t → B.bodies index.old ≡ bodies_of t.entries
        → OnOk result (B.bodies index.new ≡ bodies_of (after_undo t undo.now).entries) }
    ensures sound { OnOk result (B.spent index.new ≡ false) }
    ensures err { OnErr result (B.spent index.new ≡ true) }
{
    map_laws();
    match undo {
        Undo::Given { handle } => {
            index.leave(handle.slot);
            Ok(())
        }
        Undo::Moved { handle, body } => {
            space_law(body);
            index.shift(handle.slot, *body)
        }
        Undo::Masked { .. } => Ok(()),
        Undo::Regrouped { .. } => Ok(()),
        Undo::Taken { live } => {
            space_law(&live.body);
            index.add(live.handle.slot, live.body)
        }
    }
}

// Undoes each change in the table, which takes no memory.
pub(crate) fn undo_in_table(undos: &mut Vec<Undo>, table: &mut LiveTable)
    requires undoable { AreUndoable undos.old.items table.old }
    ensures all { undos.new.items ≡ [] }
    ensures undone { table.new ≡ undone undos.old.items table.old }
    ensures table { IsTable table.new }
{
    let _live = table.len();
    'undone: while let Some(undo) = undos.pop() {
        undo_change(&undo, table);
    }
}

// Undoes one change in the table.
fn undo_change(undo: &Undo, table: &mut LiveTable)
    requires table { IsTable table.old }
    requires can { CanUndo undo.now table.old }
    ensures after { table.new ≡ after_undo table.old undo.now }
    ensures table { IsTable table.new }
{
    match undo {
        Undo::Given { handle } => table.ungive(*handle),
        Undo::Moved { handle, body } => match table.set_box(*handle, *body) {
            Ok(()) => (),
            Err(Stale) => unreachable!(),
        },
        Undo::Masked { handle, masks } => match table.set_masks(*handle, *masks) {
            Ok(()) => (),
            Err(Stale) => unreachable!(),
        },
        Undo::Regrouped { handle, group } => match table.set_group(*handle, *group) {
            Ok(()) => (),
            Err(Stale) => unreachable!(),
        },
        Undo::Taken { live } => table.put_back(*live),
    }
}
