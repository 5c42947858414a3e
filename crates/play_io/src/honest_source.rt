//! A source in memory that never fails, and hands out at most so many bytes in one read.

ghost use Rattle.std.specs.Prelude.{◌≡◌, ◌≤◌, length, take, min, Some, IfOk, Ok};
ghost use Rattle.play_io.specs.Source.{TakesNext, IsReadOf, ReadCount};

use crate::{Failed, Source};
use fixed_box::NoMemory;
use std::alloc::Global;
use std::marker::Model;

/// Bytes in memory as a source for tests, handed out in order and never with a fault, at most so many in one read.
#[derive(Drop)]
pub struct HonestSource {
    bytes: Vec<u8>,
    at: usize,
    most: u32,
}

impl Model for HonestSource {
    ghost use Rattle.std.specs.Prelude.{◌≤◌, vec_len, drop};
    ghost use Rattle.play_io.specs.Memory.{BytesLeft};

    ghost Value = { BytesLeft };

    ghost view = { λ s. record { left = drop s.at s.bytes.items; most = s.most } };

    ghost invariant = { λ s. (s.at ≤ vec_len s.bytes) × (1 ≤ s.most) };
}

impl HonestSource {
    /// A source of a copy of these bytes.
    pub fn new(alloc: Global, bytes: &[u8], most: u32) -> Result<HonestSource, NoMemory>
        requires { 1 ≤ most }
        ensures left { IfOk result (λ source. source.left ≡ bytes.now) }
        ensures most { IfOk result (λ source. source.most ≡ most) }
    {
        match Vec::from_slice(alloc, bytes) {
            Ok(bytes) => Ok(HonestSource { bytes, at: 0, most }),
            Err(_) => Err(NoMemory),
        }
    }
}

// Copies the first bytes to the front of a buffer.
pub(crate) fn copy_front(bytes: &[u8], count: usize, into: &mut [u8])
    requires given { count ≤ length bytes.now }
    requires room { count ≤ length into.old }
    ensures { take count into.new ≡ take count bytes.now }
{
    into[..count].copy_from_slice(&bytes[..count]);
}

impl Source for HonestSource {
    ghost left = { λ s. Some s.left };

    ghost faults = { λ _. 0 };

    #[tactic(auto, using(crate::proofs::HandedOut::rest_from_front))]
    fn read(&mut self, into: &mut [u8]) -> Result<usize, Failed>
        ensures next { TakesNext (Some self.old.left) (Some self.new.left) result into.new }
        ensures length { IsReadOf (Some self.old.left) result into.new }
        ensures count { ReadCount 0 0 result }
        // Each read hands out as much as it may.
        ensures all { result ≡ Ok (min (min self.old.most (length into.old)) (length self.old.left)) }
        ensures most { self.new.most ≡ self.old.most }
    {
        let rest = self.bytes.split_at(self.at).1;
        let count = (self.most as usize).min(into.len()).min(rest.len());
        copy_front(rest, count, into);
        self.at += count;
        Ok(count)
    }
}
