//! What a broad phase is to the rest of the suite, and the plainest one: a list that tests all pairs.
#![tactic(auto)]

mod broad_phase;
mod entries;
mod gather;
mod laws;
mod met_places;
mod pair;
mod pair_seeker;
mod plain_index;
mod query;
mod regions;
mod renewal;
mod rising;
mod seeker;
mod sharing;
mod showing;
mod slot_entries;
mod slot_search;
mod visitor;

pub use broad_phase::BroadPhase;
pub use gather::{join_pieces, push_ordered_pairs};
pub use laws::{exchange_laws, holding_laws, keeping_laws, member_laws, order_laws};
pub use pair::Pair;
pub use pair_seeker::{NoSeeker, PairSeeker};
pub use plain_index::PlainIndex;
pub use query::{QKind, Query};
pub use renewal::renew_pairs;
pub use rising::{push_rising_pairs, push_rising_slots, settle_pairs, settle_slots_from};
pub use seeker::Seeker;
pub use sharing::{FEWEST_SOUGHT, pays_threads};
pub use showing::{listed_law, show_slots};
pub use slot_search::seek_many;
pub use visitor::Visitor;
pub use work_pieces::{Gate, NoGate};
