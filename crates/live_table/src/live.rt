//! A live box, and which two may pair.

ghost use Rattle.std.specs.Prelude.{◌≡◌};
ghost use Rattle.live_table.specs.Pairing.{may};

use crate::{Group, Handle, Masks};
use fixed_box::FBox;

/// A live box under its handle.
#[derive(Clone, Copy, Debug, PartialEq, Eq)]
pub struct Live {
    pub handle: Handle,
    pub body: FBox,
    pub masks: Masks,
    pub group: Group,
}

/// Whether two boxes may pair: each sees a group that the other is in, nobody owns both, and they aren't both fixed.
///
/// It is asked of each pair that an index has, so it tests all of this without a branch.
#[inline(always)]
pub fn may_pair(a: &Live, b: &Live) -> bool
    ensures { result ≡ may a.now b.now }
{
    let seen = ((a.masks.is & b.masks.sees) != 0) & ((b.masks.is & a.masks.sees) != 0);
    let one_owner = (a.group.owner == b.group.owner) & (a.group.owner != 0);
    let both_fixed = a.group.fixed & b.group.fixed;
    seen & !one_owner & !both_fixed
}
