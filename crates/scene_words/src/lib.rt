//! One line of a scene, read as a command, and a command printed as a line: its words, and what they stand for.
#![tactic(auto)]

mod command;
mod examples;
mod laws;
mod line_fault;
mod line_words;
mod one_pass;
mod one_pass_fields;
mod printing;
mod tails;
mod values;
mod verb;
mod version;
mod word_by_word;

pub use command::Command;
pub use laws::read_in_range;
pub use line_fault::LineFault;
pub use printing::{print_command, printed_reads_back};
pub use values::numeral;
pub use version::Version;
pub use word_by_word::read_command;
