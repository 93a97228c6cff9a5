//! Reads at an offset of a file: its bytes (`ReadAt`), and bitmaps with their checksums.
#![tactic(auto)]

mod bitmaps;
mod offsets;

pub use bitmaps::{read_bitmap, read_bitmaps};
pub use offsets::{At, LentBytes, ReadAt};
