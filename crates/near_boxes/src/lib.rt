//! The boxes that are nearest to a point or to a box, of those that a broad phase keeps.
#![tactic(auto)]

mod bodies;
mod descent;
mod distance;
mod laws;
mod near;
mod room;
mod search;

pub use bodies::Bodies;
pub use distance::{spot, square, square_apart};
pub use laws::{apart_law, nearest_about_law, nearest_law, square_law};
pub use near::Near;
pub use room::NearRoom;
pub use search::nearest;
