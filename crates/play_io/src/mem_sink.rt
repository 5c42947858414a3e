//! A sink in memory whose chosen writes and flushes fail.

ghost use Rattle.std.specs.Prelude.{◌≡◌, ◌≤◌, ◌↔◌, [], length, min, Some, Ok, Err, true, IfOk, if◌then◌else◌, refl};
ghost use Rattle.play_io.specs.Memory.{fails_at, one_more, faults_after};
ghost use Rattle.play_io.specs.Source.{CountsFault};
ghost use Rattle.play_io.specs.Sink.{PutsFront, IsWriteOf, Settles, SinkCount, CountsSince, since_after};

use crate::faults::is_failing;
use crate::{Sink, SinkFault};
use fixed_box::NoMemory;
use std::alloc::Global;
use std::marker::Model;

/// Bytes kept in memory as a sink for tests, taken in order, at most so many in one write. Writes and flushes are
/// counted together, and those with given numbers fail.
#[derive(Drop)]
pub struct MemSink {
    bytes: Vec<u8>,
    settled: usize,
    most: u32,
    failing: Vec<u32>,
    calls: u64,
    faults: u64,
    since: u64,
}

impl Model for MemSink {
    ghost use Rattle.std.specs.Prelude.{◌≤◌};
    ghost use Rattle.play_io.specs.Memory.{FaultyWritten};

    ghost Value = { FaultyWritten };

    ghost view = { λ s. record {
      written = s.bytes.items;
      settled = s.settled;
      most = s.most;
      failing = s.failing.items;
      calls = s.calls;
      faults = s.faults;
      since = s.since;
    } };

    ghost invariant = { λ s. 1 ≤ s.most };
}

impl MemSink {
    /// A sink with nothing written. `failing` has the numbers of the calls that fail, counted from 0.
    pub fn new(alloc: Global, most: u32, failing: &[u32]) -> Result<MemSink, NoMemory>
        requires { 1 ≤ most }
        ensures { IfOk result (λ sink. sink ≡ record { written = []; settled = 0; most = most; failing = failing.now; calls = 0; faults = 0; since = 0 }) }
    {
        Ok(MemSink {
            bytes: Vec::new(alloc),
            settled: 0,
            most,
            failing: Vec::from_slice(alloc, failing)?,
            calls: 0,
            faults: 0,
            since: 0,
        })
    }

    /// The bytes written so far.
    pub fn bytes(&self) -> &[u8]
        ensures { result.now ≡ self.now.written }
    {
        &self.bytes
    }

    /// How many writes and flushes were asked for so far. The number stays at the last of 64 bits.
    pub fn calls(&self) -> u64
        ensures { result ≡ self.now.calls }
    {
        self.calls
    }

    // Counts a call, and answers whether it fails.
    fn call(&mut self) -> bool
        ensures count { result ≡ true → CountsFault self.old.faults self.new.faults }
        ensures fails { result ≡ fails_at self.old.failing self.old.calls }
        ensures new { self.new ≡ record self.old {
          calls = one_more self.old.calls;
          faults = faults_after self.old.failing self.old.calls self.old.faults;
          since = since_after self.old.faults self.old.since;
        } }
    {
        let fails = is_failing(&self.failing, self.calls);
        self.calls = self.calls.saturating_add(1);
        if self.faults != 0 {
            self.since = self.since.saturating_add(1);
        }
        if fails {
            self.faults = self.faults.saturating_add(1);
        }
        fails
    }
}

impl Sink for MemSink {
    ghost written = { λ s. Some s.written };

    ghost settled = { λ s. Some s.settled };

    ghost faults = { λ s. s.faults };

    ghost since = { λ s. Some s.since };

    ghost tells_both = { λ _. refl };

    fn write(&mut self, piece: &[u8]) -> Result<usize, SinkFault>
        ensures written { PutsFront (Some self.old.written) (Some self.new.written) result piece.now }
        ensures length { IsWriteOf result piece.now }
        ensures settled { Some self.new.settled ≡ Some self.old.settled }
        ensures count { SinkCount self.old.faults self.new.faults result }
        ensures since { CountsSince self.old.faults (Some self.old.since) (Some self.new.since) }
        // A call fails where its number is given, and else takes as much as it may, unless memory runs out.
        ensures failed { (result ≡ Err SinkFault.Failed) ↔ (fails_at self.old.failing self.old.calls ≡ true) }
        ensures all { IfOk result (λ n. n ≡ min self.old.most (length piece.now)) }
        ensures calls { self.new.calls ≡ one_more self.old.calls }
        ensures faults { self.new.faults ≡ faults_after self.old.failing self.old.calls self.old.faults }
        ensures same { (self.new.most ≡ self.old.most) × (self.new.failing ≡ self.old.failing) }
    {
        if self.call() {
            return Err(SinkFault::Failed);
        }
        let count = (self.most as usize).min(piece.len());
        match self.bytes.extend_from_slice(&piece[..count]) {
            Ok(()) => Ok(count),
            Err(_) => Err(SinkFault::NoMemory),
        }
    }

    fn flush(&mut self) -> Result<(), SinkFault>
        ensures written { Some self.new.written ≡ Some self.old.written }
        ensures settled { Settles (Some self.old.written) (Some self.old.settled) (Some self.new.settled) result }
        ensures count { SinkCount self.old.faults self.new.faults result }
        ensures since { CountsSince self.old.faults (Some self.old.since) (Some self.new.since) }
        ensures answer { result ≡ (if fails_at self.old.failing self.old.calls then Err SinkFault.Failed else Ok tt) }
        ensures calls { self.new.calls ≡ one_more self.old.calls }
        ensures faults { self.new.faults ≡ faults_after self.old.failing self.old.calls self.old.faults }
        ensures same { (self.new.most ≡ self.old.most) × (self.new.failing ≡ self.old.failing) }
    {
        if self.call() {
            return Err(SinkFault::Failed);
        }
        self.settled = self.bytes.len();
        Ok(())
    }
}
