//! The most workers as a number, for proofs.

ghost use Rattle.std.specs.Prelude.{◌≡◌};
ghost use Rattle.work_pieces.specs.declared.TheConstants.{MOST_WORKERS};

/// A law for proofs, with nothing to run: the most workers, as a number.
pub fn work_limits()
    ensures workers { MOST_WORKERS ≡ 16 }
{}
