//! The trait of what bytes are written to: partial writes, flushes, and the faults of both.

ghost use Rattle.std.specs.Prelude.{◌≡◌, List, ℕ, Option, is_some};
ghost use Rattle.play_io.specs.Sink.{PutsFront, IsWriteOf, Settles, SinkCount, CountsSince};

use fixed_box::NoMemory;

/// Why a write or a flush didn't come about. Only `Failed` is a fault of the sink.
#[derive(Clone, Copy, Debug, PartialEq, Eq)]
pub enum SinkFault {
    Failed,
    NoMemory,
}

impl From<NoMemory> for SinkFault {
    ghost use Rattle.play_io.specs.declared.sink.SinkFault.TheVariants as why;

    ghost from_gives = { λ _ fault. fault ≡ why.NoMemory };

    fn from(_: NoMemory) -> Self {
        SinkFault::NoMemory
    }
}

/// Where bytes go. A write may take fewer bytes than it is given, and a flush settles what was written.
pub trait Sink {
    /// The bytes written so far, where the sink tells them.
    ghost written: { Self → Option (List ℕ) };

    /// How many bytes had been written at the last flush that succeeded, where the sink tells it.
    ghost settled: { Self → Option ℕ };

    /// How often a write or a flush has failed.
    ghost faults: { Self → ℕ };

    /// How many calls came after the first that failed, where the sink tells it: 0 while nobody calls it again.
    ghost since: { Self → Option ℕ };

    /// Takes bytes from the front of the piece, and answers how many: at least one of a piece that has any. After an `Err`
    /// none is taken; a failure is counted as a fault, and want of memory isn't.
    fn write(&mut self, piece: &[u8]) -> Result<usize, SinkFault>
        ensures written { PutsFront (written self.old) (written self.new) result piece.now }
        ensures length { IsWriteOf result piece.now }
        ensures settled { settled self.new ≡ settled self.old }
        ensures count { SinkCount (faults self.old) (faults self.new) result }
        ensures since { CountsSince (faults self.old) (since self.old) (since self.new) };

    /// Settles all that was written. After an `Err` as much is settled as before.
    fn flush(&mut self) -> Result<(), SinkFault>
        ensures written { written self.new ≡ written self.old }
        ensures settled { Settles (written self.old) (settled self.old) (settled self.new) result }
        ensures count { SinkCount (faults self.old) (faults self.new) result }
        ensures since { CountsSince (faults self.old) (since self.old) (since self.new) };

    /// A sink tells both what is written and what is settled, or neither.
    ghost tells_both: { (sink : Self) → is_some (settled sink) ≡ is_some (written sink) };
}
