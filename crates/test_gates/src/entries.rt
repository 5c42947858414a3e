//! A gate that counts entries by piece.

use std::sync::atomic::{AtomicU32, Ordering};
use work_pieces::Gate;

/// A gate that counts how often each of the first two pieces was entered, and how often another.
#[derive(Drop)]
pub struct Entries {
    first: AtomicU32,
    second: AtomicU32,
    others: AtomicU32,
}

impl Entries {
    /// A gate that no piece has entered.
    pub fn new() -> Entries {
        Entries {
            first: AtomicU32::new(0),
            second: AtomicU32::new(0),
            others: AtomicU32::new(0),
        }
    }

    /// How often the first piece, the second, and all others were entered.
    pub fn counts(&self) -> [u32; 3] {
        [
            self.first.load(Ordering::SeqCst),
            self.second.load(Ordering::SeqCst),
            self.others.load(Ordering::SeqCst),
        ]
    }
}

impl Gate for Entries {
    fn enter(&self, piece: u32) {
        let entries = match piece {
            0 => &self.first,
            1 => &self.second,
            _ => &self.others,
        };
        entries.fetch_add(1, Ordering::SeqCst);
    }
}
