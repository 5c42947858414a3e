//! The boxes of a hierarchical grid: under their slots, in the cells of their levels, in columns, and copied bucket by bucket, in
//! heaps also in packets of eight.
//!
//! What lies near a region is appended as slots; whether boxes meet is for the caller to test.
#![tactic(auto)]

mod box_copies;
mod bucket_boxes;
mod floor;
mod grid_boxes;
mod hull;
mod level_pool;
mod leveled_boxes;
mod merged_cells;
mod row_lens;
mod slot_box;
mod slot_columns;
mod standing_cells;

pub use box_copies::{BoxCopies, PACKED};
pub use bucket_boxes::BucketBoxes;
pub use grid_boxes::{BOXES_PER_SCANNED, GridBoxes};
pub use hull::common_part;
pub use slot_box::SlotBox;
