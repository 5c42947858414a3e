//! What a call came to, as the numbers that C reads.

ghost use Rattle.std.specs.Prelude.{◌≡◌};
ghost use Rattle.held_world.specs.declared.TheConstants.{OK, STALE, FULL, NO_MEMORY, INVERTED, CLOSED, ARGUMENT, EXHAUSTED};
ghost use Rattle.held_world.specs.declared.TheConstants.{NO_MARK, NOT_A_NUMBER, OUT_OF_RANGE};
ghost use Rattle.held_world.specs.declared.TheConstants.{PLAIN, SAP, TREE, GRID, SKIN, BEGIN, STAY, OVER, REGION, POINT, RAY, SEGMENT};
ghost use Rattle.held_world.specs.declared.TheConstants.{LOWER, UPPER, NO_AXIS};
ghost use Rattle.held_world.specs.Answers.{status, status_of};

use crate::{EXHAUSTED, FULL, NO_MEMORY, OK, STALE};
use box_world::Refusal;

/// What a call came to, and how many steps it did or how many items it tells of.
#[derive(Clone, Copy, Debug, PartialEq, Eq)]
pub struct Reply {
    pub status: u32,
    pub count: usize,
}

/// The status of an answer: `OK`, or the refusal's.
pub fn status<A>(answer: &Result<A, Refusal>) -> u32
    ensures { result ≡ status answer.now }
{
    match answer {
        Ok(_) => OK,
        Err(refusal) => status_of(*refusal),
    }
}

pub(crate) fn status_of(refusal: Refusal) -> u32
    ensures { result ≡ status_of refusal }
{
    match refusal {
        Refusal::Stale => STALE,
        Refusal::Full => FULL,
        Refusal::Exhausted => EXHAUSTED,
        Refusal::NoMemory => NO_MEMORY,
    }
}

/// A law for proofs, with nothing to run: with other numbers, which a header in C has too, this crate has no proof.
pub fn number_law()
    ensures statuses { (OK ≡ 0) × (STALE ≡ 1) × (FULL ≡ 2) × (NO_MEMORY ≡ 3)
        × (INVERTED ≡ 4) × (CLOSED ≡ 5) × (ARGUMENT ≡ 6) × (EXHAUSTED ≡ 7)
        × (NO_MARK ≡ 8) × (NOT_A_NUMBER ≡ 9) × (OUT_OF_RANGE ≡ 10) }
    ensures structures { (PLAIN ≡ 0) × (SAP ≡ 1) × (TREE ≡ 2) × (GRID ≡ 3) × (SKIN ≡ 4) }
    ensures events { (BEGIN ≡ 0) × (STAY ≡ 1) × (OVER ≡ 2) }
    ensures sides { (LOWER ≡ 0) × (UPPER ≡ 1) × (NO_AXIS ≡ 3) }
    ensures kinds { (REGION ≡ 0) × (POINT ≡ 1) × (RAY ≡ 2) × (SEGMENT ≡ 3) }
{}
