//! The square of a distance as a plain struct that C shares.

ghost use Rattle.std.specs.Prelude.{◌≡◌};
ghost use Rattle.held_world.specs.Plain.{square_in, square_out};

// A word of 64 bits has so many numbers.
const WORD: u128 = 1 << 64;

/// The square of a distance: `high` times 2^64, and `low`.
#[repr(C)]
#[derive(Clone, Copy)]
pub struct PwSquare {
    pub low: u64,
    pub high: u64,
}

pub(crate) fn square_of(square: &PwSquare) -> u128
    ensures { result ≡ square_in square.now }
{
    u128::from(square.high) * WORD + u128::from(square.low)
}

// The same square, so that `square_of` gives it back.
pub(crate) fn square_out(square: u128) -> PwSquare
    ensures out { result ≡ square_out square }
    ensures back { square_in result ≡ square }
{
    PwSquare {
        low: (square % WORD) as u64,
        high: (square / WORD) as u64,
    }
}
