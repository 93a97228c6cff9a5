//! A list of optional numbers in each form: components under a list of bases, or bit slices. Every comparison and total
//! works over them.
#![tactic(auto)]

mod any;
mod bitmaps;
mod decomposed;
mod growth;
mod number_places;

pub use any::AnyColumn;
pub use bitmaps::{count_places, slices_from_bitmaps};
pub use bsi_components::{BinaryPlaces, Encoding, EqualityComponent, RangeComponent, RankedRows};
pub use bsi_kernels::spans::MAX_SPAN_WORDS;
pub use bsi_slices::{Column, ColumnComparison, Op, Slices};
pub use decomposed::Decomposed;
pub use std::alloc::AllocError as NoMemory;
