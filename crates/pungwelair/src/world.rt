//! The two words that stand for a world in C.

ghost use Rattle.std.specs.Prelude.{◌≡◌, ◌==◌, None, Some, is_some, option_map};
ghost use Rattle.pungwelair.specs.Held.{nowhere};

use crate::held::HeldBox;
use held_world::HeldWorld;
use raw_box::RawBox;
use std::alloc::Global;

/// A world as C holds it: two words, zero where none is open. It isn't `Drop`: what is open is taken out, or stays.
#[repr(C)]
pub struct PwWorld {
    pub(crate) state: u32,
    pub(crate) held: HeldBox,
    ghost tied: { is_some held.inner ≡ (state == 1) },
}

impl PwWorld {
    // Takes out what is open, until it is put back.
    pub(crate) fn take(&mut self, alloc: Global) -> Option<Box<HeldWorld>>
        ensures taken { option_map (λ held. held.value) result ≡ self.old.held.inner }
        ensures emptied { self.new.held.inner ≡ None }
        ensures zero { (self.new.state ≡ 0) × (self.new.held.at ≡ nowhere) }
    {
        let was = std::mem::replace(self, closed());
        let PwWorld { state, held } = was;
        if state != 1 {
            held.let_go();
            return None;
        }
        Some(held.into_raw_box(alloc).into_box())
    }

    // Over an open world it would lose that without freeing it.
    pub(crate) fn put(&mut self, held: Box<HeldWorld>)
        requires empty { self.old.held.inner ≡ None }
        ensures held { self.new.held.inner ≡ Some held.value }
    {
        let open = PwWorld {
            state: 1,
            held: HeldBox::of(RawBox::of(held)),
        };
        let was = std::mem::replace(self, open);
        let PwWorld { state: _, held } = was;
        held.let_go();
    }
}

fn closed() -> PwWorld
    ensures closed { result.held.inner ≡ None }
    ensures zero { (result.state ≡ 0) × (result.held.at ≡ nowhere) }
{
    PwWorld {
        state: 0,
        held: HeldBox::none(),
    }
}
