//! The live boxes of a scene under handles: a slot, and how often the slot was given before.
#![tactic(auto)]

mod examples;
mod freed_slots;
mod full;
mod group;
mod handle;
mod laws;
mod live;
mod masks;
mod slot;
mod stale;
mod table;

pub use full::Full;
pub use group::Group;
pub use handle::Handle;
pub use laws::{give_law, gone_law, map_laws, undo_laws};
pub use live::{Live, may_pair};
pub use masks::Masks;
pub use stale::Stale;
pub use table::LiveTable;

/// So often a slot is given. Then it is passed by, so that no handle comes twice.
pub const MOST_GIVES: u32 = u32::MAX;
