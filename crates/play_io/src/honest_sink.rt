//! A sink in memory that never fails, and takes at most so many bytes in one write.

ghost use Rattle.std.specs.Prelude.{◌≡◌, ◌≤◌, [], length, min, Some, None, IfOk, Ok, refl};
ghost use Rattle.play_io.specs.Sink.{PutsFront, IsWriteOf, Settles, SinkCount, CountsSince};

use crate::{Sink, SinkFault};
use std::alloc::Global;
use std::marker::Model;

/// Bytes kept in memory as a sink for tests, taken in order and never with a fault, at most so many in one write.
#[derive(Drop)]
pub struct HonestSink {
    bytes: Vec<u8>,
    settled: usize,
    most: u32,
}

impl Model for HonestSink {
    ghost use Rattle.std.specs.Prelude.{◌≤◌};
    ghost use Rattle.play_io.specs.Memory.{BytesWritten};

    ghost Value = { BytesWritten };

    ghost view = { λ s. record { written = s.bytes.items; settled = s.settled; most = s.most } };

    ghost invariant = { λ s. 1 ≤ s.most };
}

impl HonestSink {
    /// A sink with nothing written.
    pub fn new(alloc: Global, most: u32) -> HonestSink
        requires { 1 ≤ most }
        ensures { result ≡ record { written = []; settled = 0; most = most } }
    {
        HonestSink {
            bytes: Vec::new(alloc),
            settled: 0,
            most,
        }
    }

    /// The bytes written so far.
    pub fn bytes(&self) -> &[u8]
        ensures { result.now ≡ self.now.written }
    {
        &self.bytes
    }
}

impl Sink for HonestSink {
    ghost written = { λ s. Some s.written };

    ghost settled = { λ s. Some s.settled };

    ghost faults = { λ _. 0 };

    ghost since = { λ _. None };

    ghost tells_both = { λ _. refl };

    fn write(&mut self, piece: &[u8]) -> Result<usize, SinkFault>
        ensures written { PutsFront (Some self.old.written) (Some self.new.written) result piece.now }
        ensures length { IsWriteOf result piece.now }
        ensures settled { self.new.settled ≡ self.old.settled }
        ensures count { SinkCount 0 0 result }
        ensures since { CountsSince 0 None None }
        // Each write takes as much as it may, unless memory runs out.
        ensures all { IfOk result (λ n. n ≡ min self.old.most (length piece.now)) }
        ensures most { self.new.most ≡ self.old.most }
    {
        let count = (self.most as usize).min(piece.len());
        match self.bytes.extend_from_slice(&piece[..count]) {
            Ok(()) => Ok(count),
            Err(_) => Err(SinkFault::NoMemory),
        }
    }

    fn flush(&mut self) -> Result<(), SinkFault>
        ensures ok { result ≡ Ok tt }
        ensures new { self.new ≡ record self.old { settled = length self.old.written } }
        ensures written { Some self.new.written ≡ Some self.old.written }
        ensures settled { Settles (Some self.old.written) (Some self.old.settled) (Some self.new.settled) result }
        ensures count { SinkCount 0 0 result }
        ensures since { CountsSince 0 None None }
    {
        self.settled = self.bytes.len();
        Ok(())
    }
}
