//! What a grid shows to a visitor: rings about the place that it prefers, or the parts of a line's way one after another, until
//! nothing that is left may count.

ghost use Rattle.std.specs.Prelude.{◌≡◌, ℕ, ◌++◌, Some, List, IsTrue, OnOk};
ghost use Rattle.std.specs.FinMap as map;
ghost use Rattle.fixed_box.specs.Bounds.{Bounds, encloses, meets};
ghost use Rattle.hier_grid.specs.Visits.{entries_in, in_area};
ghost use Rattle.hier_grid.specs.declared.area.Area.TheVariants.{Rest};

use crate::area::{Area, is_held, keep_area};
use crate::box_cut::cut_at;
use crate::first_ring::{is_crowded, preferred_ring, step_beyond};
use crate::grid::HierGrid;
use crate::hits::push_hits_in;
use broad_index::{Query, Visitor, listed_law, show_slots};
use fixed_box::{FBox, NoMemory, box_laws};
use grid_boxes::common_part;
use grid_cells::LinePath;

// So often a ring is widened at most, each time to twice its reach or more: from a cell of the lowest level on that is all of space.
const MOST_RINGS: u32 = 32;

// Into so many parts the way of a line is cut if it runs through a crowd. Where few boxes are met all of it is looked at at once: a
// part costs a look at each level.
const PARTS: u32 = 8;

/// Shows the present boxes to a visitor, except those that need not be shown.
pub(crate) fn show_boxes<V: Visitor>(
    grid: &HierGrid,
    room: &mut Vec<u32>,
    visitor: &mut V,
) -> Result<(), NoMemory>
    ensures seen { OnOk result ((seen : List (ℕ × Bounds)) → V.saw visitor.old seen → V.saw visitor.new (seen ++ map.entries grid.now)) }
    ensures kept { OnOk result (V.keeps visitor.old visitor.new) }
{
    let Some(hull) = grid.kept().hull() else {
        return Ok(());
    };
    match visitor.query() {
        Query::Region(_) | Query::Spot(_) => show_rings(grid, &hull, room, visitor),
        line => show_parts(grid, &hull, &line, room, visitor),
    }
}

// The same ring by ring, about the place that the visitor prefers, each reaching twice as far as the one before it or more, until the
// visitor looks no farther. What it still looks for then is shown at once.
fn show_rings<V: Visitor>(
    grid: &HierGrid,
    hull: &FBox,
    slots: &mut Vec<u32>,
    visitor: &mut V,
) -> Result<(), NoMemory>
    requires { (slot : ℕ) (b : Bounds) → map.get grid.now slot ≡ Some b → IsTrue (encloses hull.now b) }
    ensures seen { OnOk result ((seen : List (ℕ × Bounds)) → V.saw visitor.old seen → V.saw visitor.new (seen ++ map.entries grid.now)) }
    ensures kept { OnOk result (V.keeps visitor.old visitor.new) }
{
    box_laws();
    let mut inner = None;
    let (mut ring, mut margin) = preferred_ring(grid.kept(), hull, visitor);
    let mut rings = MOST_RINGS;
    'rings: while rings > 0 && looks_beyond(&ring, hull, visitor) {
        show_area(grid, &Area::Ring { ring, inner }, &ring, slots, visitor)?;
        inner = Some(ring);
        let by = step_beyond(grid.kept(), margin, slots.is_empty());
        ring = ring.fatten(by);
        margin = margin.saturating_add(by);
        rings -= 1;
    }
    show_rest(grid, inner, hull, slots, visitor)?;
    Ok(())
}

// Shows the boxes that don't meet a ring, except those that need not be shown, as none need where all that the visitor still looks for
// lies in the ring.
fn show_rest<V: Visitor>(
    grid: &HierGrid,
    inner: Option<FBox>,
    hull: &FBox,
    slots: &mut Vec<u32>,
    visitor: &mut V,
) -> Result<(), NoMemory>
    requires { (slot : ℕ) (b : Bounds) → map.get grid.now slot ≡ Some b → IsTrue (encloses hull.now b) }
    ensures seen { OnOk result ((seen : List (ℕ × Bounds)) → V.saw visitor.old seen
        → V.saw visitor.new (seen ++ entries_in (in_area (Rest inner)) grid.now)) }
    ensures kept { OnOk result (V.keeps visitor.old visitor.new) }
{
    box_laws();
    let kept = grid.kept();
    kept.sized_law();
    kept.space_law();
    if is_held(&inner, &visitor.query().region()) {
        return Ok(());
    }
    show_area(grid, &Area::Rest { inner }, hull, slots, visitor)?;
    Ok(())
}

// Whether a visitor looks beyond a ring in which not all boxes lie: for speed alone.
fn looks_beyond<V: Visitor>(ring: &FBox, hull: &FBox, visitor: &V) -> bool {
    !ring.holds_box(hull) && !ring.holds_box(&visitor.query().region())
}

// The same part by part along the way of a line, until the visitor admits nothing that is left.
fn show_parts<V: Visitor>(
    grid: &HierGrid,
    hull: &FBox,
    line: &Query,
    slots: &mut Vec<u32>,
    visitor: &mut V,
) -> Result<(), NoMemory>
    requires { (slot : ℕ) (b : Bounds) → map.get grid.now slot ≡ Some b → IsTrue (encloses hull.now b) }
    ensures seen { OnOk result ((seen : List (ℕ × Bounds)) → V.saw visitor.old seen → V.saw visitor.new (seen ++ map.entries grid.now)) }
    ensures kept { OnOk result (V.keeps visitor.old visitor.new) }
{
    box_laws();
    grid.kept().sized_law();
    let region = line.region();
    let path = LinePath::of(line, &grid.kept().part_of(&region).unwrap_or(region));
    let mut body = *hull;
    let mut parts = if is_crowded(grid.kept(), hull) {
        PARTS
    } else {
        1
    };
    'parts: while parts > 1 {
        if !visitor.admits(&body) {
            return Ok(());
        }
        let Some(cut) = cut_at(&body, &path.next_place(&body, parts)) else {
            break;
        };
        show_area(
            grid,
            &Area::Part {
                body,
                left: Some(cut.1),
            },
            &cut.0,
            slots,
            visitor,
        )?;
        body = cut.1;
        parts -= 1;
    }
    if !visitor.admits(&body) {
        return Ok(());
    }
    show_area(
        grid,
        &Area::Part { body, left: None },
        &body,
        slots,
        visitor,
    )?;
    Ok(())
}

// Shows the boxes of an area that lie near a box, except those that need not be shown.
fn show_area<V: Visitor>(
    grid: &HierGrid,
    area: &Area,
    near: &FBox,
    slots: &mut Vec<u32>,
    visitor: &mut V,
) -> Result<(), NoMemory>
    requires { (slot : ℕ) (b : Bounds) → map.get grid.now slot ≡ Some b → IsTrue (in_area area.now b) → IsTrue (meets near.now b) }
    ensures seen { OnOk result ((seen : List (ℕ × Bounds)) → V.saw visitor.old seen
        → V.saw visitor.new (seen ++ entries_in (in_area area.now) grid.now)) }
    ensures kept { OnOk result (V.keeps visitor.old visitor.new) }
{
    listed_law();
    let kept = grid.kept();
    kept.space_law();
    let query = visitor.query();
    let region = common_part(near, &query.region());
    slots.clear();
    push_hits_in(kept, grid.heaps(), &region, &query, slots)?;
    keep_area(kept.boxes(), area, &region, slots);
    show_slots(kept.boxes(), slots, visitor)?;
    Ok(())
}
