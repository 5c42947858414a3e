//! The program `broadplay` but for its ends: what a command line asks for, done over the structure that it names, from a source to a
//! sink.
#![tactic(auto)]

mod run_job;
mod words;

pub use named_index::Structure;
pub use run_job::broadplay;
pub use words::{Job, Task, read_words};
