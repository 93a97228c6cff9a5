//! The feeder of each row, and a row's number among its feeder's rows: where each row of an index, or of a selection,
//! came from.
#![tactic(auto)]

mod numbering;
mod origins;

pub use numbering::number_rows;
pub use origins::Origins;
pub use std::alloc::AllocError as NoMemory;
