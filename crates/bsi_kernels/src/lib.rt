//! Kernels of the column forms: loops over words of bitmaps that combine them, compare, sum and rank the numbers of
//! rows, find the least or the greatest, turn digits into words, and test nulls.
#![tactic(auto)]

mod comparisons;
mod extremes;
pub mod marks;
pub mod nulls;
mod ranks;
pub mod registers;
pub mod spans;
mod sums;

pub use comparisons::order_by_places;
pub use extremes::{cannot_improve, extreme_by_places, improve_by_places};
pub use ranks::{RankedRows, rows_of_rank};
pub use sums::sum_by_places;
