//! The broad phase for programs in C, and in all languages that call C: the exports that `pungwelair.h` declares.
//!
//! Each call gives a status. Whatever its numbers are, it does what it says or refuses. What the caller owes, and no proof can
//! ask for: that pointers lead to as much memory as their lengths say, which nobody else writes meanwhile; that the two words of a
//! world are zero or those that the last call left there; and that one call at a time has a world.
//!
//! Several threads may ask one world at once, each by a reader of its own (`reader`, `sharing`). Of a reader C owes that its two words are
//! zero or those that the last call left there, that one call at a time has it, and that a call which ends on one thread has ended before
//! the next one begins on another, by a lock, a join or the like. Calls of different readers need no order: a world that they read is
//! nobody's to change, and isn't in its two words meanwhile.
//!
//! An export takes the world out of what C holds, calls it once and puts it back. `Global` takes no bytes: C passes nothing for it.
#![tactic(auto)]

mod asking;
mod batches;
mod changes;
mod floats;
mod held;
mod held_reader;
mod many;
mod meetings;
mod opening;
mod reader;
mod reader_asking;
mod reader_many;
mod reader_meetings;
mod reader_reading;
mod reading;
mod sharing;
mod version;
mod world;
