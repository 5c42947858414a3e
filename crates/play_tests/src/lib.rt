//! Shows what the program answers whole: its reports, statuses and faults, over each structure and by threads.
//!
//! It has tests alone. They stand apart from the program, since a crate with tests is proved twice.
#![tactic(auto)]

#[cfg(test)]
mod alike;
#[cfg(test)]
mod drills;
#[cfg(test)]
mod faults;
#[cfg(test)]
mod reports;
#[cfg(test)]
mod runs;
#[cfg(test)]
mod written;
