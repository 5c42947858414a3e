//! A pair of live boxes in handles: the entry of a pair cache.

use live_table::Handle;

/// Two live boxes that may touch, `a`'s slot below `b`'s.
#[derive(Clone, Copy, Debug, PartialEq, Eq)]
pub struct HPair {
    pub a: Handle,
    pub b: Handle,
}
