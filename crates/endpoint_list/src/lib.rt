//! A list of endpoints by their node numbers, linked in arrays.
#![tactic(auto)]

mod end_list;
mod links;

pub use end_list::{EndList, list_laws};
use fixed_box::SLOTS;

/// How many node numbers there are: 0 to 16,383. Node `2 * slot` is the minimum of a slot, `2 * slot + 1` its maximum.
pub const NODES: u32 = 2 * SLOTS;
