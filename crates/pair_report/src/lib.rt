//! The lines of a report. Each call appends one line, or answers want of memory with the text as before. Its cost is
//! that of the line's bytes, and of moving the text where that has no room left.
#![tactic(auto)]

mod cause;
mod handle_text;
mod handle_texts;
mod lines;
mod listing;
mod short_line;

pub use cause::Cause;
pub use handle_texts::HandleTexts;
pub use lines::{
    put_add, put_back, put_end, put_exchanges, put_frame, put_mark, put_nomark, put_refused,
    put_stale, put_told,
};
pub use listing::{put_cast, put_hits, put_near};

#[cfg(test)]
mod tests;
