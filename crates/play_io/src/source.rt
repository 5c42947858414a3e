//! The trait of what bytes are read from, in pieces, and the fault of a read.

ghost use Rattle.std.specs.Prelude.{List, ℕ, Option};
ghost use Rattle.play_io.specs.Source.{TakesNext, IsReadOf, ReadCount};

/// A read failed.
#[derive(Clone, Copy, Debug, PartialEq, Eq)]
pub struct Failed;

/// Where bytes come from. Several reads may be needed for what one could have handed out.
pub trait Source {
    /// The bytes still to come, where the source tells them.
    ghost left: { Self → Option (List ℕ) };

    /// How often a read has failed.
    ghost faults: { Self → ℕ };

    /// Hands out the next bytes at the front of `into`, and answers how many. 0 for a piece that isn't empty is the
    /// end of the input.
    fn read(&mut self, into: &mut [u8]) -> Result<usize, Failed>
        ensures next { TakesNext (left self.old) (left self.new) result into.new }
        ensures length { IsReadOf (left self.old) result into.new }
        ensures count { ReadCount (faults self.old) (faults self.new) result };
}
