//! Boxes and marks by their slots, in lists with a place for each slot, and the loops that append to lists and filter them.
#![tactic(auto)]

mod keeping;
mod pushing;
mod slot_boxes;
mod slot_marks;

pub use keeping::keep_passing;
pub use pushing::{push_filter_mapped, push_filtered, push_mapped};
pub use slot_boxes::{SlotBoxes, no_boxes};
pub use slot_marks::SlotMarks;
