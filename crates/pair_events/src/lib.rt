//! What became of each pair since the last frame: it begins, it stays, or it is over.
#![tactic(auto)]

mod changes;
mod events;
mod hpair;
mod laws;
mod pair_table;
mod told;

pub use events::Events;
pub use hpair::HPair;
pub use laws::change_laws;
pub use pair_table::PairTable;
pub use told::{Event, Told};
