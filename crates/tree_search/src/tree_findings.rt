//! The pairs that searches of a tree found, with a buffer for one search.

ghost use Rattle.std.specs.Prelude.{◌≡◌, []};

use broad_index::Pair;
use std::alloc::Global;

/// The pairs that searches found, in any order, and room for what one search meets.
#[derive(Drop)]
pub struct TreeFindings {
    /// Each with its lower slot first, and maybe more than once.
    pub pairs: Vec<Pair>,
    /// All slots that one search meets, and those but its own.
    pub met: Vec<u32>,
    pub others: Vec<u32>,
}

impl TreeFindings {
    /// No pair, and room that is taken as it is needed.
    pub fn new(alloc: Global) -> TreeFindings
        ensures { result.pairs.items ≡ [] }
    {
        TreeFindings {
            pairs: Vec::new(alloc),
            met: Vec::new(alloc),
            others: Vec::new(alloc),
        }
    }
}
