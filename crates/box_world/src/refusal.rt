//! Why a call of a world did nothing.

use fixed_box::NoMemory;
use live_table::Stale;

/// Why a call of a world did nothing.
#[derive(Clone, Copy, Debug, PartialEq, Eq)]
pub enum Refusal {
    /// No live box has the handle.
    Stale,
    /// All slots are taken.
    Full,
    /// A number is at its end: the gives of each slot without a box, at `MOST_GIVES`, the exchanges, past `MOST_EXCHANGES`, or the
    /// frames, at `MOST_FRAMES_COUNTED`.
    Exhausted,
    /// Memory ran out. The world is as before, or it is spent: it has what it had, and answers nothing else from then on.
    NoMemory,
}

impl From<NoMemory> for Refusal {
    ghost use Rattle.std.specs.Prelude.{◌≡◌};
    ghost use Rattle.box_world.specs.declared.refusal.Refusal.TheVariants.{NoMemory as no_memory};

    ghost from_gives = { λ _ refusal. refusal ≡ no_memory };

    fn from(_none: NoMemory) -> Refusal {
        Refusal::NoMemory
    }
}

impl From<Stale> for Refusal {
    ghost use Rattle.std.specs.Prelude.{◌≡◌};
    ghost use Rattle.box_world.specs.declared.refusal.Refusal.TheVariants.{Stale as stale};

    ghost from_gives = { λ _ refusal. refusal ≡ stale };

    fn from(_stale: Stale) -> Refusal {
        Refusal::Stale
    }
}
