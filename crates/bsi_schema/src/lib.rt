//! What a schema is, and which rows fit it: named columns, each with its form and the least number that it accepts.
#![tactic(auto)]

mod form;
mod limits;
mod name;
mod row;
mod schema;
mod schema_error;

pub use bsi_digits::MAX_SLICES;
pub use form::{ColumnSpec, Form};
pub use limits::{Limits, accepts_row, have_same_limits, to_i64};
pub use name::is_word;
pub use row::Row;
pub use schema::{MAX_COLUMNS, Schema};
pub use schema_error::SchemaError;
pub use std::alloc::AllocError as NoMemory;
