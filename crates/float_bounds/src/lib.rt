//! Boxes of floating-point numbers as boxes of 16.16 fixed point that hold them, so that an engine whose boxes are floats
//! misses no pair. Lower corners are rounded down and upper corners up, in whole numbers, from the bits of binary32 and
//! binary64 (IEEE 754-2019, 3.4).
#![tactic(auto)]

mod around;
mod examples;
mod fix;
mod float_fault;
mod format;
mod laws;
mod order;
mod parts;
mod scale;

pub use around::{box_around_32, box_around_64};
pub use fix::{fix_above_32, fix_above_64, fix_below_32, fix_below_64};
pub use float_fault::FloatFault;
pub use laws::float_laws;

#[cfg(test)]
mod tests;
