//! Sweep and prune: a broad phase that keeps the endpoints of all boxes sorted on each axis, and for each pair of
//! boxes the number of axes on which they overlap (Cohen, Lin, Manocha, Ponamgi, *I-COLLIDE*, 1995).
#![tactic(auto)]

mod axis;
mod counted_lists;
mod direction;
mod key_number;
mod laws;
mod lists;
mod moves;
mod passing;
mod sap;
mod sweep;
pub mod walk;

pub use axis::Axis;
pub use laws::overlap_laws;
pub use sap::Sap;
