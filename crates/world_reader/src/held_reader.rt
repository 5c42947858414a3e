//! A reader's box as a pointer, for code that keeps a reader where only a pointer can stand.

ghost use Rattle.std.specs.Prelude.{Option};
ghost use Rattle.held_world.specs.declared.held.HeldWorld.{HeldWorld};
ghost use Rattle.world_reader.specs.HeldReader.{held_reader};

use std::marker::Model;

/// The box of a `WorldReader` on the heap of the program as its pointer, or nothing, for an owner that C shares.
///
/// It owns what the box owned: the reader at `at`, and the right to free its block. It isn't `Drop`, so no code may let it go. Code that
/// takes one apart, makes one, or reads or writes a field has a proof by hand, which owes that. Nothing reads through a `&` to it.
///
/// It is `Send`, as the box is: whoever holds it may pass it to another thread.
#[repr(C)]
pub struct HeldReader {
    /// Where the reader is, if there is one.
    pub at: *mut u8,
    // None if it holds nothing, else what the reader reads.
    pub ghost inner: { Option (Option HeldWorld) },
}

impl Model for HeldReader {
    ghost also_owns = { λ h. held_reader h.at h.inner };
}

// A reader may go to another thread, and any thread may free a block of the heap.
unsafe impl Send for HeldReader {}
