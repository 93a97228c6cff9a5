//! A list of optional whole numbers, from an offset on: a column of `bsi_columns`, and the offset.
#![tactic(auto)]

mod shifted;

pub use bsi_columns::MAX_SPAN_WORDS;
pub use shifted::Shifted;
pub use std::alloc::AllocError as NoMemory;
