//! Numbers read off the front of a text in one pass, for a reader of lines who looks at what follows them.
#![tactic(auto)]

mod hexadecimal_ahead;
mod numbers_ahead;
mod printed_ahead;

pub use hexadecimal_ahead::eight_hexadecimal_ahead;
pub use numbers_ahead::{digits_ahead, fix_ahead};
pub use printed_ahead::{index_before, printed_fix_ahead, printed_fix_inside};
