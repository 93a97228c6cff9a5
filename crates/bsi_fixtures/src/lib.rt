//! What tests give to calls: columns, schemas, rows and predicates, a component without calls on spans, and readers
//! and writers that fail.
#![tactic(auto)]

mod blocks;
mod columns;
mod streams;
mod tables;
mod whole;

pub use blocks::{has_fitting_rows, write_values};
pub use columns::{
    FORMS, MakingError, TestForm, Wide, append, compared, empty_column, empty_decomposed,
    empty_slices, has_bits,
};
pub use std::alloc::AllocError as NoMemory;
pub use streams::{EMPTY, NarrowWriter, TextReader};
pub use tables::{DeclaredColumn, QTY, add, both, either, not, row_of, schema_of};
pub use whole::WholeVectors;
