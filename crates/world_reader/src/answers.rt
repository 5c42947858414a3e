//! The status of readers, and what they tell without a world.

ghost use Rattle.std.specs.Prelude.{◌≡◌};
ghost use Rattle.held_world.specs.declared.TheConstants.{CLOSED};
ghost use Rattle.world_reader.specs.declared.TheConstants.{SHARED};

use crate::SHARED;
use held_world::{CLOSED, Reply};

/// A law for proofs, with nothing to run: with another number, which a header in C has too, this crate has no proof.
pub fn shared_law()
    ensures status { SHARED ≡ 11 }
{}

// What a reader that reads no world tells.
pub(crate) fn reads_none() -> Reply
    ensures { result ≡ record { status = CLOSED; count = 0 } }
{
    Reply {
        status: CLOSED,
        count: 0,
    }
}
