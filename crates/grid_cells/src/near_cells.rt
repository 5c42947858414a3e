//! The neighbour cells of a region on one level, and the slots in them.

ghost use Rattle.std.proofs.Common.{◌∙◌};
ghost use Rattle.std.specs.Prelude.{◌≡◌, refl, pos, ◌+ℤ◌, ◌-ℤ◌, ◌<◌, ◌≤ℤ◌, ◌<ℤ◌, OnOk, OnErr};
ghost use Rattle.cell_table.specs.declared.cell_key.CellKey as key;
ghost use Rattle.grid_cells.specs.Cells.{cell_at, cell_on, IsAfter, IsAmong, IsBeside, IsInBlock, IsInPlane, IsInRow};
ghost use Rattle.grid_cells.specs.Appended.{Appends, HasCells, Stays};
ghost use Rattle.grid_cells.specs.Walks.{IsInOne};
ghost use Rattle.grid_cells.specs.WalkLaws.{slots_nowhere, slots_twice, slots_stay};

use crate::cell::cell_at;
use crate::cell_block::CellBlock;
use crate::cell_row::CellRow;
use crate::cell_walk::{RowSearch, search_block, search_later};
use crate::later_cells::LaterCells;
use cell_table::{CellKey, CellTable, LEVELS};
use fixed_box::{FBox, Fix, NoMemory};

/// Those cells beside a region that come after the cell of its lower corner in the order of x, y and z.
#[inline(always)]
pub fn cells_after(level: u8, region: &FBox) -> LaterCells
    requires { level < LEVELS }
    ensures { (k : key.CellKey) → k.level ≡ level → IsBeside level region.now k → IsAfter k (cell_on level region.now.lo) → IsAmong result k }
{
    LaterCells {
        row: after_on_z(level, region),
        plane: after_on_y(level, region),
        block: after_on_x(level, region),
        end: end_beside(level, region),
    }
}

/// How many cells of a level are beside a region, as far as 64 bits go.
pub fn count_beside(level: u8, region: &FBox) -> u64
    requires { level < LEVELS }
{
    block_beside(level, region).len()
}

/// The block of the cells of a level beside a region.
pub fn block_beside(level: u8, region: &FBox) -> CellBlock
    requires { level < LEVELS }
    ensures level { result.from.level ≡ level }
    ensures whole { (k : key.CellKey) → k.level ≡ level → IsBeside level region.now k → IsInBlock result k }
{
    CellBlock {
        from: first_beside(level, region),
        end: end_beside(level, region),
    }
}

// The slots of rows, appended to a list.
#[derive(Drop)]
struct RowSlots<'a> {
    table: &'a CellTable,
    out: &'a mut Vec<u32>,
}

impl RowSearch for RowSlots<'_> {
    ghost searched = { λ rows a b. (b.out.ghost_name ≡ a.out.ghost_name) × ((b.table.now ≡ a.table.now)
        × Appends (HasCells a.table.now (IsInOne rows)) a.out.now.items b.out.now.items) };

    ghost stopped = { λ a b. (b.out.ghost_name ≡ a.out.ghost_name) × Stays a.out.now.items b.out.now.items };

    fn search_row(&mut self, row: &CellRow) -> Result<(), NoMemory> {
        visit_row(self.table, row, self.out)
    }

    ghost none = { λ s. (refl, (refl, slots_nowhere s.table.now s.out.now.items)) };

    ghost both = { λ xs ys a b c f g. (
      g.0 ∙ f.0,
      (
        g.1.0 ∙ f.1.0,
        slots_twice a.table.now b.table.now xs ys a.out.now.items
            b.out.now.items c.out.now.items f.1.0 f.1.1 g.1.1,
      ),
    ) };

    ghost stops = { λ rows a b c f g. (
      g.0 ∙ f.0,
      slots_stay (HasCells a.table.now (IsInOne rows)) a.out.now.items b.out.now.items
          c.out.now.items f.1.1 g.1,
    ) };
}

/// Appends the slots in those cells that come later, and others that share their buckets.
pub fn visit_later(
    table: &CellTable,
    cells: &LaterCells,
    out: &mut Vec<u32>,
) -> Result<(), NoMemory>
    ensures ok { OnOk result (Appends (HasCells table.now (IsAmong cells.now)) out.old.items out.new.items) }
    ensures err { OnErr result (Stays out.old.items out.new.items) }
{
    search_later(cells, &mut RowSlots { table, out })
}

/// Appends the slots in a block of cells, and others that share their buckets.
pub fn visit_block(table: &CellTable, block: &CellBlock, out: &mut Vec<u32>) -> Result<(), NoMemory>
    ensures ok { OnOk result (Appends (HasCells table.now (IsInBlock block.now)) out.old.items out.new.items) }
    ensures err { OnErr result (Stays out.old.items out.new.items) }
{
    search_block(block, &mut RowSlots { table, out })
}

/// Appends the slots in a row of cells, and others that share their buckets. After an `Err` `out` is as before.
pub fn visit_row(table: &CellTable, row: &CellRow, out: &mut Vec<u32>) -> Result<(), NoMemory>
    ensures ok { OnOk result (Appends (HasCells table.now (IsInRow row.now)) out.old.items out.new.items) }
    ensures err { OnErr result (out.new.items ≡ out.old.items) }
{
    table.visit_row(&row.key, row.end, out)
}

#[inline(always)]
pub fn with_x(key: &CellKey, x: i32) -> CellKey
    ensures { result ≡ record key.now { x = x } }
{
    CellKey { x, ..*key }
}

#[inline(always)]
fn with_y(key: &CellKey, y: i32) -> CellKey
    ensures { result ≡ record key.now { y = y } }
{
    CellKey { y, ..*key }
}

/// The row of the cells from one corner on and below another on z, at the x of the first corner and at some y.
#[inline(always)]
pub fn row_at(from: &CellKey, y: i32, end: &CellKey) -> CellRow
    ensures { (k : key.CellKey) → from.now.z ≤ℤ k.z → k.z <ℤ end.now.z → k ≡ record from.now { y = y; z = k.z } → IsInRow result k }
{
    CellRow {
        key: with_y(from, y),
        end: end.z,
    }
}

// The first cell beside a region, on each axis.
fn first_beside(level: u8, region: &FBox) -> CellKey
    requires { level < LEVELS }
    ensures level { result.level ≡ level }
    ensures x { result.x ≡ (cell_at level region.now.lo.x -ℤ pos 1) }
    ensures y { result.y ≡ (cell_at level region.now.lo.y -ℤ pos 1) }
    ensures z { result.z ≡ (cell_at level region.now.lo.z -ℤ pos 1) }
{
    let lo = region.lo();
    CellKey {
        level,
        x: cell_before(level, lo.x),
        y: cell_before(level, lo.y),
        z: cell_before(level, lo.z),
    }
}

// The first cell beside a region that comes after that of its lower corner at the same x and y.
fn after_on_z(level: u8, region: &FBox) -> CellKey
    requires { level < LEVELS }
    ensures level { result.level ≡ level }
    ensures x { result.x ≡ cell_at level region.now.lo.x }
    ensures y { result.y ≡ cell_at level region.now.lo.y }
    ensures z { result.z ≡ (cell_at level region.now.lo.z +ℤ pos 1) }
{
    let lo = region.lo();
    CellKey {
        level,
        x: cell_at(level, lo.x),
        y: cell_at(level, lo.y),
        z: cell_after(level, lo.z),
    }
}

// The same at the same x and a greater y.
fn after_on_y(level: u8, region: &FBox) -> CellKey
    requires { level < LEVELS }
    ensures level { result.level ≡ level }
    ensures x { result.x ≡ cell_at level region.now.lo.x }
    ensures y { result.y ≡ (cell_at level region.now.lo.y +ℤ pos 1) }
    ensures z { result.z ≡ (cell_at level region.now.lo.z -ℤ pos 1) }
{
    let lo = region.lo();
    CellKey {
        level,
        x: cell_at(level, lo.x),
        y: cell_after(level, lo.y),
        z: cell_before(level, lo.z),
    }
}

// The same at a greater x.
fn after_on_x(level: u8, region: &FBox) -> CellKey
    requires { level < LEVELS }
    ensures level { result.level ≡ level }
    ensures x { result.x ≡ (cell_at level region.now.lo.x +ℤ pos 1) }
    ensures y { result.y ≡ (cell_at level region.now.lo.y -ℤ pos 1) }
    ensures z { result.z ≡ (cell_at level region.now.lo.z -ℤ pos 1) }
{
    let lo = region.lo();
    CellKey {
        level,
        x: cell_after(level, lo.x),
        y: cell_before(level, lo.y),
        z: cell_before(level, lo.z),
    }
}

// The cell behind the last one beside a region, on each axis.
fn end_beside(level: u8, region: &FBox) -> CellKey
    requires { level < LEVELS }
    ensures x { result.x ≡ (cell_at level region.now.hi.x +ℤ pos 1) }
    ensures y { result.y ≡ (cell_at level region.now.hi.y +ℤ pos 1) }
    ensures z { result.z ≡ (cell_at level region.now.hi.z +ℤ pos 1) }
{
    let hi = region.hi();
    CellKey {
        level,
        x: cell_after(level, hi.x),
        y: cell_after(level, hi.y),
        z: cell_after(level, hi.z),
    }
}

fn cell_before(level: u8, x: Fix) -> i32
    requires { level < LEVELS }
    ensures { result ≡ (cell_at level x -ℤ pos 1) }
{
    cell_at(level, x) - 1
}

fn cell_after(level: u8, x: Fix) -> i32
    requires { level < LEVELS }
    ensures { result ≡ (cell_at level x +ℤ pos 1) }
{
    cell_at(level, x) + 1
}
