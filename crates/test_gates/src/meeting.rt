//! A gate that shows whether two pieces of a search run at the same time.

use std::sync::atomic::{AtomicBool, AtomicU32, Ordering};
use work_pieces::Gate;

/// A gate whose first two pieces each look for the other. They see each other only where both run at once.
#[derive(Drop)]
pub struct Meeting {
    first: AtomicBool,
    second: AtomicBool,
    met: AtomicU32,
}

impl Meeting {
    /// A gate at which nobody has met yet.
    pub fn new() -> Meeting {
        Meeting {
            first: AtomicBool::new(false),
            second: AtomicBool::new(false),
            met: AtomicU32::new(0),
        }
    }

    /// How often a piece saw the other.
    pub fn met(&self) -> u32 {
        self.met.load(Ordering::SeqCst)
    }
}

impl Gate for Meeting {
    // It looks for a bounded time, so that a search on one thread ends too.
    fn enter(&self, piece: u32) {
        let (mine, other) = if piece == 0 {
            (&self.first, &self.second)
        } else {
            (&self.second, &self.first)
        };
        mine.store(true, Ordering::SeqCst);
        for _ in 0..1_000_000_000u32 {
            if other.load(Ordering::SeqCst) {
                self.met.fetch_add(1, Ordering::SeqCst);
                return;
            }
        }
    }
}
