//! A reader of the standard library as a source that counts its faults.

ghost use Rattle.std.specs.Prelude.{◌≡◌, length, None, Ok, IsErr, MatchResult};
ghost use Rattle.std.specs.Io.KnownBytes.{Keeps, ReadConsumes};
ghost use Rattle.play_io.specs.Device.{with_fault, FaultsCounted};
ghost use Rattle.play_io.specs.Source.{TakesNext, IsReadOf, ReadCount};

use crate::{Failed, Source};
use std::io;
use std::io::Read;
use std::marker::Model;

/// A reader of std's as a source, for instance a file or the standard input. It tells no bytes of its own, and counts
/// the reads that fail. What the reader's own promises say of its bytes is said of each read.
#[derive(Drop)]
pub struct FileSource<R: Read + Drop> {
    inner: R,
    faults: u64,
}

impl<R: Read + Drop> Model for FileSource<R> {
    ghost use Rattle.play_io.specs.Device.{OverDevice};

    ghost Value = { OverDevice R };

    ghost view = { λ s. record { device = s.inner; faults = s.faults } };
}

impl<R: Read + Drop> FileSource<R> {
    /// The reader with no fault counted.
    pub fn new(inner: R) -> FileSource<R>
        ensures { result ≡ record { device = inner; faults = 0 } }
    {
        FileSource { inner, faults: 0 }
    }

    // The reader's answer as a source gives it: an error is a fault.
    fn answer(&mut self, given: io::Result<usize>) -> Result<usize, Failed>
        ensures result { MatchResult given (λ count. result ≡ Ok count) (λ _. IsErr result) }
        ensures new { MatchResult given (λ _. self.new ≡ self.old) (λ _. self.new ≡ with_fault self.old) }
        ensures count { ReadCount self.old.faults self.new.faults result }
    {
        match given {
            Ok(count) => Ok(count),
            Err(_) => {
                self.faults = self.faults.saturating_add(1);
                Err(Failed)
            }
        }
    }
}

impl<R: Read + Drop> Source for FileSource<R> {
    ghost left = { λ _. None };

    ghost faults = { λ s. s.faults };

    fn read(&mut self, into: &mut [u8]) -> Result<usize, Failed>
        ensures next { TakesNext None None result into.new }
        ensures length { IsReadOf None result into.new }
        ensures count { ReadCount self.old.faults self.new.faults result }
        ensures faults { FaultsCounted self.old.faults self.new.faults result }
        // The reader's bytes are consumed exactly as they are answered, none at a fault or where there is no room.
        ensures device { ReadConsumes (R.remaining self.old.device) (R.remaining self.new.device) result into.new }
        ensures empty { length into.old ≡ 0 → Keeps (R.remaining self.old.device) (R.remaining self.new.device) }
    {
        let given = self.inner.read(into);
        self.answer(given)
    }
}
