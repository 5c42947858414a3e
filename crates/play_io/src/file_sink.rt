//! A writer of the standard library as a sink that counts its faults.

ghost use Rattle.std.specs.Prelude.{◌≡◌, length, None, Ok, Err, MatchResult, IfErr, refl};
ghost use Rattle.std.specs.Io.KnownBytes.{Keeps, WriteAppends};
ghost use Rattle.play_io.specs.Device.{with_fault, FaultsCounted};
ghost use Rattle.play_io.specs.Source.{CountsFault};
ghost use Rattle.play_io.specs.Sink.{PutsFront, IsWriteOf, Settles, SinkCount, CountsSince};

use crate::{Sink, SinkFault};
use std::io;
use std::io::Write;
use std::marker::Model;

/// A writer of std's as a sink, for instance a file or the standard output. It tells no bytes of its own, and counts
/// the writes and flushes that fail. What the writer's own promises say of its bytes is said of each call.
#[derive(Drop)]
pub struct FileSink<W: Write + Drop> {
    inner: W,
    faults: u64,
}

impl<W: Write + Drop> Model for FileSink<W> {
    ghost use Rattle.play_io.specs.Device.{OverDevice};

    ghost Value = { OverDevice W };

    ghost view = { λ s. record { device = s.inner; faults = s.faults } };
}

impl<W: Write + Drop> FileSink<W> {
    /// The writer with no fault counted.
    pub fn new(inner: W) -> FileSink<W>
        ensures { result ≡ record { device = inner; faults = 0 } }
    {
        FileSink { inner, faults: 0 }
    }

    fn fault(&mut self) -> SinkFault
        ensures failed { result ≡ SinkFault.Failed }
        ensures new { self.new ≡ with_fault self.old }
        ensures count { CountsFault self.old.faults self.new.faults }
    {
        self.faults = self.faults.saturating_add(1);
        SinkFault::Failed
    }

    // The writer's answer as a sink gives it: an error is a fault.
    fn answer<T>(&mut self, given: io::Result<T>) -> Result<T, SinkFault>
        ensures result { MatchResult given (λ done. result ≡ Ok done) (λ _. result ≡ Err SinkFault.Failed) }
        ensures new { MatchResult given (λ _. self.new ≡ self.old) (λ _. self.new ≡ with_fault self.old) }
        ensures count { SinkCount self.old.faults self.new.faults result }
    {
        match given {
            Ok(done) => Ok(done),
            Err(_) => Err(self.fault()),
        }
    }
}

impl<W: Write + Drop> Sink for FileSink<W> {
    ghost written = { λ _. None };

    ghost settled = { λ _. None };

    ghost faults = { λ s. s.faults };

    ghost since = { λ _. None };

    ghost tells_both = { λ _. refl };

    // A write that takes nothing of a piece that isn't empty is a fault.
    fn write(&mut self, piece: &[u8]) -> Result<usize, SinkFault>
        ensures written { PutsFront None None result piece.now }
        ensures length { IsWriteOf result piece.now }
        ensures count { SinkCount self.old.faults self.new.faults result }
        ensures since { CountsSince self.old.faults None None }
        ensures fault { IfErr result (λ fault. fault ≡ SinkFault.Failed) }
        ensures faults { FaultsCounted self.old.faults self.new.faults result }
        // The writer's bytes grow exactly by those that are answered, by none at a fault or of an empty piece.
        ensures device { WriteAppends (W.contents self.old.device) (W.contents self.new.device) result piece.now }
        ensures empty { length piece.now ≡ 0 → Keeps (W.contents self.old.device) (W.contents self.new.device) }
    {
        match self.inner.write(piece) {
            Ok(0) if !piece.is_empty() => Err(self.fault()),
            given => self.answer(given),
        }
    }

    fn flush(&mut self) -> Result<(), SinkFault>
        ensures settled { Settles None None None result }
        ensures count { SinkCount self.old.faults self.new.faults result }
        ensures since { CountsSince self.old.faults None None }
        ensures fault { IfErr result (λ fault. fault ≡ SinkFault.Failed) }
        ensures faults { FaultsCounted self.old.faults self.new.faults result }
        ensures device { Keeps (W.contents self.old.device) (W.contents self.new.device) }
    {
        let given = self.inner.flush();
        self.answer(given)
    }
}
