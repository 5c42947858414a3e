//! The slots in the cells that a line crosses, by halving a block of cells.

ghost use Rattle.std.specs.Prelude.{◌≡◌, ◌<◌, ◌≤◌, true, false, IfOk};
ghost use Rattle.fixed_box.specs.Bounds.{Bounds};
ghost use Rattle.broad_index.specs.Found.{query_meets};
ghost use Rattle.grid_cells.specs.Cells.{cell_of, IsInBlock};
ghost use Rattle.grid_cells.specs.Sized.{IsSized};
ghost use Rattle.grid_cells.specs.Appended.{Appends, HasCrossed, Stays};

use crate::cell_block::CellBlock;
use crate::line_path::LinePath;
use crate::near_cells::visit_block;
use cell_table::{CellTable, LEVELS};
use fixed_box::NoMemory;
use prepared_query::{BoxTest, enclosing_law};

/// Appends slots, and among them all in a block's cells whose boxes meet a line: the block is cut in two, and each part
/// again, down to a few cells, and a part that the line misses is passed by. It makes at most so many steps, and answers
/// false where that isn't enough.
pub fn visit_crossed<T: BoxTest>(
    table: &CellTable,
    block: &CellBlock,
    path: &LinePath,
    test: &T,
    steps: &mut u32,
    out: &mut Vec<u32>,
) -> Result<bool, NoMemory>
    requires { block.now.from.level < LEVELS }
    ensures less { steps.new ≤ steps.old }
    ensures stays { Stays out.old.items out.new.items }
    ensures found { IfOk result (λ whole. whole ≡ true → Appends (HasCrossed table.now block.now (T.asks test.now)) out.old.items out.new.items) }
{
    if *steps == 0 {
        return Ok(false);
    }
    *steps -= 1;
    let Some(cut) = path.cut(block) else {
        visit_block(table, block, out)?;
        return Ok(true);
    };
    let (first, rest) = block.parts(&cut);
    // where the line misses the one part of a block that it meets, it meets the other
    if !may_meet(&first, test) {
        return visit_crossed(table, &rest, path, test, steps, out);
    }
    if !visit_crossed(table, &first, path, test, steps, out)? {
        return Ok(false);
    }
    if !may_meet(&rest, test) {
        return Ok(true);
    }
    visit_crossed(table, &rest, path, test, steps, out)
}

// Whether a box of a block's cells may meet a query.
fn may_meet<T: BoxTest>(block: &CellBlock, test: &T) -> bool
    requires { block.now.from.level < LEVELS }
    ensures { result ≡ false → (b : Bounds) → IsSized b → IsInBlock block.now (cell_of b) → query_meets (T.asks test.now) b ≡ false }
{
    enclosing_law();
    match block.extent() {
        Some(extent) => test.meets(&extent),
        None => false,
    }
}
