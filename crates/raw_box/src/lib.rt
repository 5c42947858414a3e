//! A box as its pointer and back, for code that keeps a box where only a pointer can stand.
#![tactic(auto)]

mod raw_box;

pub use raw_box::RawBox;

#[cfg(test)]
mod tests;
