//! The pointer to a world that C holds, and its turn into a box and back.

ghost use Rattle.std.specs.Prelude.{◌≡◌, Option, Some, None, is_some, true};
ghost use Rattle.held_world.specs.declared.held.HeldWorld.{HeldWorld};
ghost use Rattle.pungwelair.specs.Held.{held, nowhere};

use held_world::HeldWorld;
use raw_box::RawBox;
use std::alloc::Global;
use std::marker::Model;

// A world's box as the pointer that C holds, and the world, where there is one. It isn't `Drop`, so that no code lets a world go:
// it is made a box again, which frees it, or it is stored elsewhere.
#[repr(C)]
pub struct HeldBox {
    at: *mut u8,
    ghost inner: { Option HeldWorld },
}

impl Model for HeldBox {
    ghost also_owns = { λ h. held h.at h.inner };
}

impl HeldBox {
    pub(crate) fn none() -> HeldBox
        ensures { (result.inner ≡ None) × (result.at ≡ nowhere) }
    {
        HeldBox {
            at: std::ptr::null_mut(),
        }
    }

    // What holds nothing is let go, and nothing else.
    pub(crate) fn let_go(self)
        requires { self.inner ≡ None }
    {
        let HeldBox { at: _at } = self;
    }

    pub(crate) fn of(raw: RawBox<HeldWorld, Global>) -> HeldBox
        ensures { result.inner ≡ Some raw.value }
    {
        let RawBox { at, alloc: _alloc } = raw;
        HeldBox { at: at as *mut u8 }
    }

    pub(crate) fn into_raw_box(self, alloc: Global) -> RawBox<HeldWorld, Global>
        requires { is_some self.inner ≡ true }
        ensures { Some result.value ≡ self.inner }
    {
        let HeldBox { at } = self;
        RawBox {
            at: at as *mut HeldWorld,
            alloc,
        }
    }
}
