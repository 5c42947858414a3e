//! A source in memory whose chosen reads fail.

ghost use Rattle.std.specs.Prelude.{◌≡◌, ◌≤◌, ◌↔◌, length, min, Some, true, IfOk, IsErr};
ghost use Rattle.play_io.specs.Memory.{fails_at, one_more, faults_after};
ghost use Rattle.play_io.specs.Source.{TakesNext, IsReadOf, ReadCount};

use crate::faults::is_failing;
use crate::honest_source::copy_front;
use crate::{Failed, Source};
use fixed_box::NoMemory;
use std::alloc::Global;
use std::marker::Model;

/// Bytes in memory as a source for tests, handed out in order, at most so many in one read. Calls with given numbers
/// fail.
#[derive(Drop)]
pub struct MemSource {
    bytes: Vec<u8>,
    at: usize,
    most: u32,
    failing: Vec<u32>,
    calls: u64,
    faults: u64,
}

impl Model for MemSource {
    ghost use Rattle.std.specs.Prelude.{◌≤◌, vec_len, drop};
    ghost use Rattle.play_io.specs.Memory.{FaultyLeft};

    ghost Value = { FaultyLeft };

    ghost view = { λ s. record { left = drop s.at s.bytes.items; most = s.most; failing = s.failing.items; calls = s.calls; faults = s.faults } };

    ghost invariant = { λ s. (s.at ≤ vec_len s.bytes) × (1 ≤ s.most) };
}

impl MemSource {
    /// A source of a copy of these bytes. `failing` has the numbers of the calls that fail, counted from 0.
    pub fn new(
        alloc: Global,
        bytes: &[u8],
        most: u32,
        failing: &[u32],
    ) -> Result<MemSource, NoMemory>
        requires { 1 ≤ most }
        ensures { IfOk result (λ source. source ≡ record { left = bytes.now; most = most; failing = failing.now; calls = 0; faults = 0 }) }
    {
        Ok(MemSource {
            bytes: Vec::from_slice(alloc, bytes)?,
            at: 0,
            most,
            failing: Vec::from_slice(alloc, failing)?,
            calls: 0,
            faults: 0,
        })
    }

    /// How many reads were asked for so far. The number stays at the last of 64 bits.
    pub fn calls(&self) -> u64
        ensures { result ≡ self.now.calls }
    {
        self.calls
    }
}

impl Source for MemSource {
    ghost left = { λ s. Some s.left };

    ghost faults = { λ s. s.faults };

    #[tactic(auto, using(crate::proofs::HandedOut::rest_from_front))]
    fn read(&mut self, into: &mut [u8]) -> Result<usize, Failed>
        ensures next { TakesNext (Some self.old.left) (Some self.new.left) result into.new }
        ensures length { IsReadOf (Some self.old.left) result into.new }
        ensures count { ReadCount self.old.faults self.new.faults result }
        // A call fails where its number is given, and else hands out as much as it may.
        ensures failed { IsErr result ↔ (fails_at self.old.failing self.old.calls ≡ true) }
        ensures all { IfOk result (λ n. n ≡ min (min self.old.most (length into.old)) (length self.old.left)) }
        ensures calls { self.new.calls ≡ one_more self.old.calls }
        ensures faults { self.new.faults ≡ faults_after self.old.failing self.old.calls self.old.faults }
        ensures same { (self.new.most ≡ self.old.most) × (self.new.failing ≡ self.old.failing) }
    {
        let call = self.calls;
        self.calls = call.saturating_add(1);
        if is_failing(&self.failing, call) {
            self.faults = self.faults.saturating_add(1);
            return Err(Failed);
        }
        let rest = self.bytes.split_at(self.at).1;
        let count = (self.most as usize).min(into.len()).min(rest.len());
        copy_front(rest, count, into);
        self.at += count;
        Ok(count)
    }
}
