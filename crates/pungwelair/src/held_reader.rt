//! The pointer to a reader that C holds: its turn into a box and back.

ghost use Rattle.std.specs.Prelude.{◌≡◌, Some, None, is_some, true};
ghost use Rattle.pungwelair.specs.Held.{nowhere};

use raw_box::RawBox;
use std::alloc::Global;
use world_reader::{HeldReader, WorldReader};

pub(crate) fn held_none() -> HeldReader
    ensures { (result.inner ≡ None) × (result.at ≡ nowhere) }
{
    HeldReader {
        at: std::ptr::null_mut(),
    }
}

// What holds nothing is let go, and nothing else.
pub(crate) fn let_go(held: HeldReader)
    requires { held.inner ≡ None }
{
    let HeldReader { at: _at } = held;
}

pub(crate) fn held_of(raw: RawBox<WorldReader, Global>) -> HeldReader
    ensures { result.inner ≡ Some raw.value }
{
    let RawBox { at, alloc: _alloc } = raw;
    HeldReader { at: at as *mut u8 }
}

pub(crate) fn into_raw_box(held: HeldReader, alloc: Global) -> RawBox<WorldReader, Global>
    requires { is_some held.inner ≡ true }
    ensures { Some result.value ≡ held.inner }
{
    let HeldReader { at } = held;
    RawBox {
        at: at as *mut WorldReader,
        alloc,
    }
}
