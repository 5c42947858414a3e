//! Readers of a world, for several askers at once: each has room of its own, and all read the same live boxes.
#![tactic(auto)]

mod answers;
mod asking;
mod held_reader;
mod many;
mod meetings;
mod reader;
mod reading;
mod sending;
#[cfg(test)]
mod tests;

pub use answers::shared_law;
pub use held_reader::HeldReader;
pub use reader::WorldReader;
pub use sending::send_law;

/// The reader reads a world. It stands beside the statuses of `held_world`.
pub const SHARED: u32 = 11;
