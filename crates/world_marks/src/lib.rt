//! Marks of a world, and the way back to the newest one: each change since is undone, the latest first.
#![tactic(auto)]

mod going_back;
mod held;
mod laws;
mod marks;
mod restored;
mod undo;

pub use laws::{mark_law, undone_laws};
pub use marks::Marks;
pub use restored::Restored;
pub use undo::Undo;

/// So many marks may be held.
pub const MOST_MARKS: u32 = 64;
