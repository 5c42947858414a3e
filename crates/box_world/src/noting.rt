//! The box as it is before a change, for the newest mark, with room to note it.

ghost use Rattle.std.specs.Prelude.{◌≡◌, [], Ok, None, IfOk, IfErr};
ghost use Rattle.live_table.specs.Entries.{entry_at};
ghost use Rattle.box_world.specs.Parts.{IsToNote, Explains};

use crate::Refusal;
use live_table::{Handle, Live, LiveTable};
use world_marks::Marks;

// Where a mark is held, makes room for one more change of the handle's box, and answers the box as it is.
pub(crate) fn box_to_note(
    marks: &mut Marks,
    table: &LiveTable,
    handle: Handle,
) -> Result<Option<Live>, Refusal>
    ensures ok { IfOk result (IsToNote marks.old.marks (entry_at handle table.now.entries) marks.new.spare) }
    ensures unmarked { marks.old.marks ≡ [] → result ≡ Ok None }
    ensures err { IfErr result (Explains (entry_at handle table.now.entries)) }
    ensures marks { marks.new.marks ≡ marks.old.marks }
{
    if marks.held() == 0 {
        return Ok(None);
    }
    let live = table.find(handle)?;
    marks.room()?;
    Ok(Some(live))
}
