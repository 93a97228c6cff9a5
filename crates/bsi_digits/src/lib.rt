//! The arithmetic below bitmaps: a number as digits under a list of bases, and what comparisons and totals say of
//! numbers in an order.
#![tactic(auto)]

mod bases;
mod bases_error;
mod divisor;
mod extreme;
pub mod laws;
mod op;

pub use bases::{Bases, DigitStep, MAX_BASE, MAX_SLICES};
pub use bases_error::BasesError;
pub use extreme::Extreme;
pub use op::Op;
pub use std::alloc::AllocError as NoMemory;
