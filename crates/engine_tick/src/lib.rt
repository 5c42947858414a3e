//! How an engine may own a broad phase: where its bodies are, at each tick which of them touch, and at each frame which of
//! them collide, with what began and what is over.
#![tactic(auto)]

mod contacts;
mod kind;
mod world;

pub use contacts::Contacts;
pub use kind::Kind;
pub use world::World;

#[cfg(test)]
mod tests;
