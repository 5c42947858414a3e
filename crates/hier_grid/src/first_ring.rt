//! Where a visitor of a grid is shown boxes first, and how much farther the rings after that reach.

use broad_index::Visitor;
use cell_table::LEVELS;
use fixed_box::{FBox, Fix, Point};
use grid_boxes::GridBoxes;
use grid_cells::count_beside;

// So often a hull is halved at most: by 2^32 on each axis.
const MOST_HALVINGS: u32 = 96;

// So often a cell's side is halved at most: into more parts than there can be boxes.
const MOST_PARTINGS: u32 = 6;

// So many parts of a hull come to a box where parts are half as wide as boxes lie apart.
const PARTS_PER_BOX: u64 = 8;

/// About the place that a visitor prefers among boxes in a hull, a ring that reaches as far as a cell of the level with most boxes, or
/// in a crowd half as far as boxes lie apart, and how far that is. It is for speed alone.
pub(crate) fn preferred_ring<V: Visitor>(
    kept: &GridBoxes,
    hull: &FBox,
    visitor: &V,
) -> (FBox, u32) {
    let margin = first_margin(kept, hull);
    let mut place = *hull;
    for _ in 0..MOST_HALVINGS {
        // a wider place would make the ring's volume twice as large
        if place.longest_side() <= margin / 2 {
            break;
        }
        place = preferred_half(&place, visitor);
    }
    (place.fatten(margin), margin)
}

/// How much farther the ring after one reaches that reaches so far: twice as far in all, or four times after one that had no box, and
/// as long as it stays within a cell, since cells are looked at whole. It is for speed alone.
pub(crate) fn step_beyond(kept: &GridBoxes, margin: u32, had_none: bool) -> u32 {
    if had_none || margin <= cell_side(fullest_level(kept)) / 4 {
        margin.saturating_mul(3)
    } else {
        margin
    }
}

// As far as a cell of the level with most boxes, halved until a hull has so many parts that are so wide.
fn first_margin(kept: &GridBoxes, hull: &FBox) -> u32 {
    let level = fullest_level(kept);
    let mut margin = cell_side(level);
    if level >= LEVELS {
        return margin;
    }
    let enough = (kept.level_len(level) as u64).saturating_mul(PARTS_PER_BOX);
    let mut parts = count_beside(level, hull);
    for _ in 0..MOST_PARTINGS {
        if parts > enough {
            break;
        }
        parts = parts.saturating_mul(8);
        margin /= 2;
    }
    margin
}

/// Whether the level with most boxes has more of them than cells in a hull. It is for speed alone.
pub(crate) fn is_crowded(kept: &GridBoxes, hull: &FBox) -> bool {
    let level = fullest_level(kept);
    level < LEVELS && kept.level_len(level) as u64 > count_beside(level, hull)
}

// The level with most boxes.
fn fullest_level(kept: &GridBoxes) -> u8 {
    let mut most = 0;
    let mut fullest = 0;
    for level in 0..LEVELS {
        let boxes = kept.level_len(level);
        if boxes > most {
            most = boxes;
            fullest = level;
        }
    }
    fullest
}

// The side of a level's cells, as far as 2^30 raw units.
fn cell_side(level: u8) -> u32 {
    1 << (12 + 2 * level.min(9))
}

// The half of a box that a visitor prefers.
fn preferred_half<V: Visitor>(body: &FBox, visitor: &V) -> FBox {
    match halves(body) {
        Some((first, second)) => {
            if visitor.prefers(&first, &second) {
                first
            } else {
                second
            }
        }
        None => *body,
    }
}

// The two halves of a box, cut in the middle of its longest side.
fn halves(body: &FBox) -> Option<(FBox, FBox)> {
    let lo = body.lo();
    let hi = body.hi();
    let x = hi.x.abs_diff(lo.x);
    let y = hi.y.abs_diff(lo.y);
    let z = hi.z.abs_diff(lo.z);
    let (end, from) = if (x >= y) & (x >= z) {
        let at = middle(lo.x, hi.x);
        (Point { x: at, ..hi }, Point { x: at, ..lo })
    } else if y >= z {
        let at = middle(lo.y, hi.y);
        (Point { y: at, ..hi }, Point { y: at, ..lo })
    } else {
        let at = middle(lo.z, hi.z);
        (Point { z: at, ..hi }, Point { z: at, ..lo })
    };
    Some((FBox::new(lo, end)?, FBox::new(from, hi)?))
}

// About the middle of two coordinates.
fn middle(lo: Fix, hi: Fix) -> Fix {
    (lo >> 1).wrapping_add(hi >> 1)
}
