//! Shows what the player's parts answer where no clause says that they succeed: sources and sinks, lines, words, made scenes,
//! plays whose index wants memory, and summaries.
//!
//! It has tests alone. They stand apart, since a crate with tests is proved twice.
#![tactic(auto)]

#[cfg(test)]
mod ends;
#[cfg(test)]
mod lines;
#[cfg(test)]
mod made;
#[cfg(test)]
mod plays;
#[cfg(test)]
mod summaries;
#[cfg(test)]
mod words;
