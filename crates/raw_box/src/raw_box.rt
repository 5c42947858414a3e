//! A heap box taken apart into its pointer and its allocator, and put together again.

ghost use Rattle.std.specs.Prelude.{◌≡◌};
ghost use Rattle.std_alloc.specs.Box.{box_allocator};
ghost use Rattle.std_alloc.specs.Box.Ownership.{box_owns};

use std::alloc::Allocator;
use std::marker::Model;

/// A box taken apart into its pointer and its allocator, for an owner that can keep only a pointer.
///
/// It owns what the box owned: the value at `at`, and the right to free its block through `alloc`. It isn't `Drop`, so no
/// code may let it go: it is made a box again, or its parts pass to another owner.
///
/// The fields are public for such an owner, as a struct that a program in C holds. Code that takes one apart, makes one, or
/// reads or writes a field has a proof by hand, which owes that the value and its block stay owned. Code that passes one on
/// needs none. Nothing reads through a `&` to it, and it isn't `Send`.
pub struct RawBox<T, A: Allocator> {
    /// Where the value is; never null.
    pub at: *mut T,
    /// The allocator that gave the value's block.
    pub alloc: A,
    // The value at `at`.
    pub ghost value: { T },
}

impl<T, A: Allocator> Model for RawBox<T, A> {
    ghost also_owns = { λ raw. box_owns (A.dealloc_token raw.alloc) T.row raw.at raw.value };
}

impl<T: Drop, A: Allocator> RawBox<T, A> {
    /// The box's value and allocator, behind a pointer. Nothing is copied, allocated or freed: two moves.
    pub fn of(boxed: Box<T, A>) -> RawBox<T, A>
        ensures value { result.value ≡ boxed.value }
        ensures allocator { result.alloc ≡ box_allocator boxed }
    {
        let (at, alloc) = Box::into_raw_with_allocator(boxed);
        RawBox { at, alloc }
    }

    /// The box again, which frees its value and block when it is dropped. As cheap as `of`.
    pub fn into_box(self) -> Box<T, A>
        ensures value { result.value ≡ self.value }
        ensures allocator { box_allocator result ≡ self.alloc }
    {
        let RawBox { at, alloc } = self;
        unsafe { Box::from_raw(alloc, at) }
    }
}
