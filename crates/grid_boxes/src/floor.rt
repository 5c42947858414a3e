//! The lowest level that pays in a list by bucket: levels with few boxes are merged upwards.

ghost use Rattle.std.specs.Prelude.{◌<◌};

use crate::grid_boxes::{GridBoxes, MOST_BESIDE};
use cell_table::LEVELS;
use fixed_box::FBox;
use grid_cells::count_beside;

// So many searches that look at fewer rows pay for the cells that have to be made first.
const FEWEST_RAISED: u32 = 512;

/// The level below which no box is to stand in a list by bucket. Each level costs a search some nine rows of cells, so
/// levels are merged as long as their boxes are no more than the cells that the hull of all boxes has at the highest of them.
/// Any level would do: it decides on cost alone.
pub(crate) fn floor_for(kept: &GridBoxes) -> u8
    ensures { result < LEVELS }
{
    match kept.hull() {
        Some(hull) => floor_in(kept, &hull),
        None => 0,
    }
}

// The same where the hull is known.
fn floor_in(kept: &GridBoxes, hull: &FBox) -> u8
    ensures { result < LEVELS }
{
    let mut floor = 0;
    let mut standing = 0u32;
    'levels: for level in 0..LEVELS {
        let there = kept.cells().level_len(level);
        let raised = standing;
        standing = standing.saturating_add(there);
        // a higher level has more boxes in fewer cells
        if is_crowded(level, hull, standing) {
            break;
        }
        // a level of fewer boxes is scanned, so that no row of its cells is looked at
        if raised >= FEWEST_RAISED && there >= MOST_BESIDE {
            floor = level;
        }
    }
    floor
}

// Whether there are more boxes than cells of a level, those about the hull counted too.
fn is_crowded(level: u8, hull: &FBox, boxes: u32) -> bool
    requires { level < LEVELS }
{
    count_beside(level, hull) < u64::from(boxes)
}
