//! The width of the fat margin, as a law with nothing to run.

ghost use Rattle.std.specs.Prelude.{◌≡◌};

use crate::MARGIN;

/// A law for proofs, with nothing to run: how wide the margin of a fat box is, as a number.
pub fn margin_limits()
    ensures limits { MARGIN ≡ 8192 }
{}
