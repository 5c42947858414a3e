//! What a walk sees of the counts, and how a walk has ended.

ghost use Rattle.std.specs.Prelude.{◌≡◌, ℕ, OnOk, OnErr};
ghost use Rattle.sweep_prune.specs.Ways.{lower, upper};

use crate::direction::Direction;
use fixed_box::NoMemory;

// Counts that change by an exchange of two neighbours alone.
//
// A walk sees the counts through this trait and nothing else, and is proved of all that implement it, one that keeps a log
// of its calls among them. What `passes` says of two states can then come from a call of `pass_by` alone, so that a walk
// whose clause tells a chain of such states has made exactly those exchanges, one after the other.
pub(crate) trait Passing {
    // Whether the first node, which stands right before the second, may pass behind it.
    ghost may_pass: { Self → ℕ → ℕ → Type 0 };

    // It has passed behind it, between two states of the counts.
    ghost passes: { ℕ → ℕ → Self → Self → Type 0 };

    // A node passes the one right ahead of it.
    fn pass_by(&mut self, node: u32, other: u32, direction: Direction) -> Result<(), NoMemory>
        requires { may_pass self.old (lower direction node other) (upper direction node other) }
        ensures passes { OnOk result (passes (lower direction node other) (upper direction node other) self.old self.new) }
        ensures err { OnErr result (self.new ≡ self.old) };
}

// Where a walk has ended.
#[derive(Clone, Copy)]
pub(crate) struct Walked {
    // How many nodes it has passed.
    pub(crate) steps: u64,
    // What stands after it now, or `None` where it is last.
    pub(crate) after: Option<u32>,
    // Whether it came to its place, and didn't lack memory on the way.
    pub(crate) arrived: bool,
}
