//! Which cell a box lies in, by its level and its lower corner.

ghost use Rattle.std.specs.Prelude.{◌≡◌, ℤ, pos, negsuc, neg_ℤ, ◌+ℤ◌, ◌*ℤ◌, ◌<◌, ◌≤ℤ◌, ◌<ℤ◌};
ghost use Rattle.fixed_box.specs.Bounds.{cell_side};
ghost use Rattle.grid_cells.specs.Cells.{cell_at, cell_of, cell_on};
ghost use Rattle.grid_cells.specs.Sized.{IsSized};
ghost use Rattle.grid_cells.specs.Cells.{standing_cell};

use cell_table::{CellKey, LEVELS};
use fixed_box::{FBox, Fix, Point, space_law};

/// No coordinate lies in a cell farther from that at the origin: one of the lowest level is 2^12 raw units long.
pub const FARTHEST_CELL: i32 = 1 << 19;

/// The level and the cell of a box.
#[tactic(auto, using(crate::proofs::CornerLemmas::inside_space))]
pub fn cell_of(body: &FBox) -> CellKey
    ensures value { result ≡ cell_of body.now }
    ensures level { result.level < LEVELS }
    ensures high { result.z ≤ℤ FARTHEST_CELL }
    ensures sized { IsSized body.now }
{
    space_law(body);
    // that both corners lie in space is known where both are read
    let (lo, _hi) = (body.lo(), body.hi());
    cell_on(body.level(), &lo)
}

/// The cell of a level that a box's lower corner lies in.
pub fn cell_in(level: u8, body: &FBox) -> CellKey
    requires { level < LEVELS }
    ensures value { result ≡ cell_on level body.now.lo }
    ensures level { result.level < LEVELS }
    ensures high { result.z ≤ℤ FARTHEST_CELL }
{
    cell_on(level, &body.lo())
}

/// The cell that a box stands in where none stands below a floor.
pub fn standing_cell(floor: u8, body: &FBox) -> CellKey
    requires { floor < LEVELS }
    ensures value { result ≡ standing_cell floor body.now }
    ensures level { result.level < LEVELS }
    ensures high { result.z ≤ℤ FARTHEST_CELL }
{
    cell_in(body.level().max(floor), body)
}

// The cell of a level that a point lies in.
fn cell_on(level: u8, at: &Point) -> CellKey
    requires { level < LEVELS }
    ensures value { result ≡ cell_on level at.now }
    ensures high { result.z ≤ℤ FARTHEST_CELL }
{
    CellKey {
        level,
        x: cell_at(level, at.x),
        y: cell_at(level, at.y),
        z: cell_at(level, at.z),
    }
}

/// The place of a coordinate among the cells of a level.
pub(crate) fn cell_at(level: u8, x: Fix) -> i32
    requires { level < LEVELS }
    ensures value { result ≡ cell_at level x }
    ensures low { neg_ℤ FARTHEST_CELL ≤ℤ cell_at level x }
    ensures high { cell_at level x ≤ℤ FARTHEST_CELL }
{
    // a shift rounds down, below 0 too
    (i64::from(x) >> (12 + 2 * level)) as i32
}

/// Where the boxes begin that lie in a cell of a level or in a later one on an axis, as far as 32 bits go.
pub(crate) fn low_face(level: u8, cell: i32) -> Fix
    requires { level < LEVELS }
    ensures { (x : ℤ) → negsuc 2147483647 ≤ℤ x → cell ≤ℤ cell_at level x → result ≤ℤ x }
{
    clamped(start_of(level, cell))
}

/// Where the boxes end that lie in earlier cells of a level on an axis, as far as 32 bits go: each is shorter than a cell.
pub(crate) fn high_face(level: u8, end: i32) -> Fix
    requires { level < LEVELS }
    ensures { (x y : ℤ) → y ≤ℤ pos 2147483647 → cell_at level x <ℤ end → y <ℤ (x +ℤ pos (cell_side level)) → y ≤ℤ result }
{
    clamped(reach_of(level, end))
}

/// The last place that a box reaches from an earlier cell of a level on an axis.
pub(crate) fn reach_of(level: u8, end: i32) -> i64
    requires { level < LEVELS }
    ensures { (result +ℤ pos 2) ≡ ((end *ℤ pos (cell_side level)) +ℤ pos (cell_side level)) }
{
    start_of(level, end) + (side_of(level) - 2)
}

/// Where a cell of a level starts on an axis. All cells whose places have 32 bits start where 64 bits go.
pub(crate) fn start_of(level: u8, cell: i32) -> i64
    requires { level < LEVELS }
    ensures { result ≡ cell *ℤ pos (cell_side level) }
{
    i64::from(cell) * side_of(level)
}

// The side of the cells of a level.
fn side_of(level: u8) -> i64
    requires { level < LEVELS }
    ensures value { result ≡ pos (cell_side level) }
    ensures low { pos 4096 ≤ℤ result }
    ensures high { result ≤ℤ pos 4294967296 }
{
    1 << (12 + 2 * level)
}

// A number, stopped at the ends of 32 bits.
pub(crate) fn clamped(x: i64) -> i32
    ensures low { (y : ℤ) → negsuc 2147483647 ≤ℤ y → x ≤ℤ y → result ≤ℤ y }
    ensures high { (y : ℤ) → y ≤ℤ pos 2147483647 → y ≤ℤ x → y ≤ℤ result }
{
    x.clamp(i64::from(i32::MIN), i64::from(i32::MAX)) as i32
}
