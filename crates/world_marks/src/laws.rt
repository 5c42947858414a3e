//! The law of the number of marks, and laws of lists of changes.

ghost use Rattle.std.specs.Prelude.{◌≡◌, ◌≤◌, ◌++◌, List};
ghost use Rattle.std.specs.List.{sum};
ghost use Rattle.live_table.specs.Table.{Table};
ghost use Rattle.world_marks.specs.declared.TheConstants.{MOST_MARKS};
ghost use Rattle.world_marks.specs.declared.undo.Undo.{Undo};
ghost use Rattle.world_marks.specs.Undone.{undone, AreUndoable};

/// A law for proofs, with nothing to run: so many marks may be held, and with another number this crate has no proof.
pub fn mark_law()
    ensures marks { MOST_MARKS ≡ 64 }
{}

/// Laws of lists of changes for proofs, with nothing to run: such a list is undone in two parts, the later one first, and
/// no slot was given more often before.
pub fn undone_laws()
    ensures append { (sooner later : List Undo) (t : Table) → undone (sooner ++ later) t ≡ undone sooner (undone later t) }
    ensures parts { (sooner later : List Undo) (t : Table) → AreUndoable (sooner ++ later) t
        → AreUndoable sooner (undone later t) × AreUndoable later t }
    ensures whole { (sooner later : List Undo) (t : Table) → AreUndoable sooner (undone later t) → AreUndoable later t
        → AreUndoable (sooner ++ later) t }
    ensures gives { (undos : List Undo) (t : Table) → sum (undone undos t).gives ≤ sum t.gives }
{}
