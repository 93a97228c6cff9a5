//! Takes a box apart into pointer and allocator (`RawParts`), and makes it again: `handle` gives C the pointer.

ghost use Rattle.std.specs.Prelude.{◌≡◌};
ghost use Rattle.std.specs.Box.Ownership.{box_owns};

use std::alloc::Allocator;
use std::marker::Model;

/// The pointer and the allocator of a box, which own what the box owned.
pub struct RawParts<T, A: Allocator> {
    pub(super) ptr: *mut T,
    pub(super) alloc: A,
    pub ghost value: { T },
}

impl<T, A: Allocator> Model for RawParts<T, A> {
    ghost also_owns = { λ p. box_owns (A.dealloc_token p.alloc) T.row p.ptr p.value };
}

impl<T, A: Allocator> RawParts<T, A> {
    /// Takes a box apart.
    pub fn of(owner: Box<T, A>) -> RawParts<T, A>
    where
        T: Drop,
        ensures { result.value ≡ owner.value }
    {
        let (ptr, alloc) = Box::into_raw_with_allocator(owner);
        RawParts { ptr, alloc }
    }

    /// Makes a box of the parts again.
    pub fn into_box(self) -> Box<T, A>
        ensures { result.value ≡ self.value }
    {
        let RawParts { ptr, alloc } = self;
        unsafe { Box::from_raw(alloc, ptr) }
    }
}
