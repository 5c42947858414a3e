//! The law that space, the box of all 32-bit coordinates, meets every box.

ghost use Rattle.std.specs.Prelude.{pos, negsuc, ◌≤ℤ◌, IsTrue};
ghost use Rattle.fixed_box.specs.Bounds.{meets};
ghost use Rattle.fixed_box.specs.Space.{space};

use crate::{FBox, Fix};

/// A law for proofs, with nothing to run: a box has its corners in space.
pub fn space_law(body: &FBox)
    ensures { IsTrue (meets space body.now) }
{
    let lo = body.lo();
    let hi = body.hi();
    fix_law(lo.x);
    fix_law(lo.y);
    fix_law(lo.z);
    fix_law(hi.x);
    fix_law(hi.y);
    fix_law(hi.z);
}

// A coordinate has 32 bits.
fn fix_law(x: Fix)
    ensures low { negsuc 2147483647 ≤ℤ x }
    ensures high { x ≤ℤ pos 2147483647 }
{}
