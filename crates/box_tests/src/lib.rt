//! Shows what numbers read as and print as, and what boxes, rays, casts and the nearest boxes answer, by cases worked out by
//! hand.
//!
//! It has tests alone. They stand apart, since a crate with tests is proved twice.
#![tactic(auto)]

#[cfg(test)]
mod boxes;
#[cfg(test)]
mod casts;
#[cfg(test)]
mod nearest_boxes;
#[cfg(test)]
mod numbers;
#[cfg(test)]
mod rays;
