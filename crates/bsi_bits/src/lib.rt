//! A packed list of bits: appending, Boolean operations in place, population counts, and the kernels for them.
#![tactic(auto)]

mod bitmaps;
mod bits;
pub mod lanes;
mod ones;
mod packing;

pub use bitmaps::Bitmaps;
pub use bits::{Bits, MAX_BLOCK, MAX_LEN};
// For lists of the crates above that grow as these vectors do.
#[doc(hidden)]
pub use bits::room_to_make;
pub use ones::Ones;
#[doc(hidden)]
pub use packing::know_fits;
pub use std::alloc::AllocError as NoMemory;
