//! Boxes in six columns, tested eight at a time by the lanes of vectors, and packets of eight boxes that are tested at once.
#![tactic(auto)]

mod axis_columns;
mod columns;
mod laws;
mod packet;
mod places;
mod span;

pub use columns::Columns;
pub use laws::{beside_laws, place_laws};
pub use packet::BoxPacket;

// How many boxes are tested at once.
const LANES: usize = 8;
