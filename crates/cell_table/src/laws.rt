//! The number of levels and that of buckets, as a law with nothing to run.

ghost use Rattle.std.specs.Prelude.{◌≡◌};

use crate::{BUCKETS, LEVELS};

/// A law for proofs, with nothing to run: how many levels and buckets there are, as numbers.
pub fn cell_limits()
    ensures limits { LEVELS ≡ 11 }
    ensures buckets { BUCKETS ≡ 16384 }
{}
