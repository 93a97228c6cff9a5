//! A handle that C stores: whether it is open, and a pointer to its state. Functions attach that state and detach it.
//!
//! Five functions that turn the box into the pointer of a handle and back are proved by hand, and so is that a handle
//! may go to another thread: no public type of the kit stores a box as a pointer.

ghost use Rattle.std.specs.Prelude.{◌≡◌, Option, Some, None, is_some, option_map, true};
ghost use Rattle.bsi_ffi.specs.Owned.{pointer_coded, pointer_owns, PointerValue};

mod raw;

use crate::state::HandleState;
use raw::RawParts;
use std::alloc::Global;
use std::marker::{Model, Send};
use std::{mem, ptr};

/// What the pointer of a handle points to, which C never sees.
#[repr(C)]
pub struct Opaque {
    byte: u8,
}

/// A pointer that owns what it points to, or null.
#[repr(C)]
#[derive(Drop)]
pub struct OwnedPointer {
    ptr: *mut Opaque,
    alloc: Global,
    pub ghost value: { PointerValue } by { pointer_coded },
}

impl Model for OwnedPointer {
    ghost also_owns = { λ h. pointer_owns h.alloc h.ptr h.value };
}

// Its proof is by hand: what it owns may go to another thread.
unsafe impl Send for OwnedPointer {}

impl OwnedPointer {
    /// Owns nothing.
    fn none(alloc: Global) -> OwnedPointer
        ensures { result.value ≡ None }
    {
        OwnedPointer {
            ptr: ptr::null_mut(),
            alloc,
        }
    }

    /// Owns what the box owned.
    fn of_raw(parts: RawParts<HandleState, Global>) -> OwnedPointer
        ensures { result.value ≡ Some parts.value }
    {
        let RawParts { ptr, alloc } = parts;
        OwnedPointer {
            ptr: ptr as *mut Opaque,
            alloc,
        }
    }

    /// Gives up what it owns.
    fn into_raw(self) -> RawParts<HandleState, Global>
        requires { is_some self.value ≡ true }
        ensures { Some result.value ≡ self.value }
    {
        let OwnedPointer { ptr, alloc } = self;
        RawParts {
            ptr: ptr as *mut HandleState,
            alloc,
        }
    }
}

/// A handle of C: two words, all of whose bytes are 0 while it is closed.
#[repr(C)]
#[derive(Drop)]
pub struct Handle {
    /// The state that it points to, if it is open.
    pub pointer: OwnedPointer,
    /// Whether it is open.
    pub full: bool,
    ghost is_full: { is_some pointer.value ≡ full },
}

/// Takes the box out of a handle, if it has one, and closes it.
pub(crate) fn detach_state(handle: &mut Handle, alloc: Global) -> Option<Box<HandleState>>
    ensures state { option_map (λ b. b.value) result ≡ handle.old.pointer.value }
    ensures closed { handle.new.pointer.value ≡ None }
{
    let closed = Handle {
        pointer: OwnedPointer::none(alloc),
        full: false,
    };
    let Handle { pointer, full } = mem::replace(handle, closed);
    if full {
        Some(pointer.into_raw().into_box())
    } else {
        None
    }
}

/// Puts a box into a closed handle.
pub(crate) fn attach_state(handle: &mut Handle, state: Box<HandleState>)
    requires closed { handle.old.pointer.value ≡ None }
    ensures { handle.new.pointer.value ≡ Some state.value }
{
    *handle = Handle {
        pointer: OwnedPointer::of_raw(RawParts::of(state)),
        full: true,
    };
}
