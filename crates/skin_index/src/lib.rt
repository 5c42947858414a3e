//! A broad phase over another one, which hears of a box only when it leaves its skin, an enlarged box around it.
#![tactic(auto)]

mod exact;
mod exact_visitor;
mod laned_boxes;
mod lanes;
mod marked_skins;
mod mending;
mod skin;
mod skinned;
mod skinned_boxes;

pub use skinned_boxes::Skinned;
