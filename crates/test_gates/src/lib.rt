//! Gates that show how a search on several threads cuts its work into pieces, for the crates of tests.
#![tactic(auto)]

mod entries;
mod meeting;
mod threaded;

pub use entries::Entries;
pub use meeting::Meeting;
pub use threaded::Threaded;
