//! What of space is shown to a visitor at once: a ring, or a part of what is left.

ghost use Rattle.std.specs.Prelude.{◌≡◌, ◌&&◌};
ghost use Rattle.fixed_box.specs.Bounds.{meets};
ghost use Rattle.grid_boxes.specs.Grid.{meets_part};
ghost use Rattle.grid_cells.specs.Sized.{is_held};
ghost use Rattle.broad_index.specs.Found.{listed};
ghost use Rattle.broad_index.specs.Members.{has_slot};
ghost use Rattle.hier_grid.specs.Visits.{in_area, is_slot_in};

use broad_index::settle_slots_from;
use fixed_box::FBox;
use slot_lists::{SlotBoxes, keep_passing};

/// What of space is shown at once.
#[derive(Clone, Copy)]
pub(crate) enum Area {
    /// What meets a ring, and not what is inside it.
    Ring { ring: FBox, inner: Option<FBox> },
    /// What doesn't meet what is inside.
    Rest { inner: Option<FBox> },
    /// What lies in a box, and not in what is left of it.
    Part { body: FBox, left: Option<FBox> },
}

impl Area {
    // Whether a box is shown with it.
    fn has(&self, body: &FBox) -> bool
        ensures { result ≡ in_area self.now body.now }
    {
        match self {
            Area::Ring { ring, inner } => ring.overlaps(body) && !meets_part(inner, body),
            Area::Rest { inner } => !meets_part(inner, body),
            Area::Part { body: all, left } => all.holds_box(body) && !is_held(left, body),
        }
    }
}

// Whether a box meets another, if there is one.
fn meets_part(part: &Option<FBox>, body: &FBox) -> bool
    ensures { result ≡ meets_part part.now body.now }
{
    match part {
        Some(part) => part.overlaps(body),
        None => false,
    }
}

/// Whether a box lies in another, if there is one.
pub(crate) fn is_held(hull: &Option<FBox>, body: &FBox) -> bool
    ensures { result ≡ is_held hull.now body.now }
{
    match hull {
        Some(hull) => hull.holds_box(body),
        None => false,
    }
}

/// Keeps those of some slots that have a box in an area which meets a region, rising and each once. It takes no memory.
pub(crate) fn keep_area(boxes: &SlotBoxes, area: &Area, region: &FBox, slots: &mut Vec<u32>)
    ensures { slots.new.items ≡ listed (λ e. has_slot slots.old.items e.0 && (meets region.now e.1 && in_area area.now e.1)) boxes.now }
{
    keep_passing(0, slots, |slot| is_slot_in(boxes, area, region, *slot));
    settle_slots_from(0, slots);
}

// Whether a slot has a box in an area which meets a region.
fn is_slot_in(boxes: &SlotBoxes, area: &Area, region: &FBox, slot: u32) -> bool
    ensures { result ≡ is_slot_in area.now region.now boxes.now slot }
{
    match boxes.box_of(slot) {
        Some(body) => region.overlaps(&body) && area.has(&body),
        None => false,
    }
}
