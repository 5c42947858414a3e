//! The two words that stand for a reader in C.

ghost use Rattle.std.specs.Prelude.{◌≡◌, ◌==◌, None, Some, is_some, option_map};
ghost use Rattle.pungwelair.specs.Held.{nowhere};

use crate::held_reader::{held_none, held_of, into_raw_box, let_go};
use raw_box::RawBox;
use std::alloc::Global;
use world_reader::{HeldReader, WorldReader};

/// A reader as C holds it: two words, zero if it isn't open. It isn't `Drop`: what is open is taken out, or stays.
///
/// It may go from one thread to another, between calls. One call at a time has it, and other readers of its world may be in calls
/// meanwhile.
#[repr(C)]
pub struct PwReader {
    pub(crate) state: u32,
    pub(crate) held: HeldReader,
    ghost tied: { is_some held.inner ≡ (state == 1) },
}

impl PwReader {
    // Takes out what is open, until it is put back.
    pub(crate) fn take(&mut self, alloc: Global) -> Option<Box<WorldReader>>
        ensures taken { option_map (λ boxed. boxed.value) result ≡ self.old.held.inner }
        ensures emptied { self.new.held.inner ≡ None }
        ensures zero { (self.new.state ≡ 0) × (self.new.held.at ≡ nowhere) }
    {
        let was = std::mem::replace(self, closed());
        let PwReader { state, held } = was;
        if state != 1 {
            let_go(held);
            return None;
        }
        Some(into_raw_box(held, alloc).into_box())
    }

    // Over an open reader it would lose that without freeing it.
    pub(crate) fn put(&mut self, boxed: Box<WorldReader>)
        requires empty { self.old.held.inner ≡ None }
        ensures held { self.new.held.inner ≡ Some boxed.value }
    {
        let open = PwReader {
            state: 1,
            held: held_of(RawBox::of(boxed)),
        };
        let was = std::mem::replace(self, open);
        let PwReader { state: _, held } = was;
        let_go(held);
    }
}

fn closed() -> PwReader
    ensures closed { result.held.inner ≡ None }
    ensures zero { (result.state ≡ 0) × (result.held.at ≡ nowhere) }
{
    PwReader {
        state: 0,
        held: held_none(),
    }
}

/// A law for proofs, with nothing to run: what C holds of a reader is `Send`. Without that the library has no proof.
pub fn send_law(reader: &PwReader) {
    goes(reader);
}

// Takes only what may go to another thread.
fn goes<T: Send>(_value: &T) {}
