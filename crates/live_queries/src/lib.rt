//! The pairs and the queries of live boxes, told in handles: what an index of slots has found, of the boxes that may pair or
//! are asked for, and in the order that is asked for.
#![tactic(auto)]

mod ask_room;
mod examples;
mod face;
mod first;
mod first_hit;
mod groups;
mod handles;
mod hit;
mod hits;
mod laws;
mod meeting;
mod met;
mod nearest;
mod pairs;
mod probe;
mod ray_test;

pub use ask_room::{AskRoom, MetRoom, NearestRoom};
pub use face::{Axis, Face};
pub use first::{first_cast, first_entered};
pub use first_hit::FirstHit;
pub use groups::Groups;
pub use hits::push_hits;
pub use laws::{current_laws, nearest_box_law, pairs_law, queries_law};
pub use meeting::{cast_meeting, ray_meeting};
pub use met::{push_cast, push_entered};
pub use nearest::{NearBoxQuery, NearQuery, push_nearest, push_nearest_box};
pub use pairs::{push_pairs, push_pairs_and_changes};
