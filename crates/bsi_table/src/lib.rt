//! An index: rows from feeders, stored column by column, and the answers to queries over them.
#![tactic(auto)]

mod bitmaps;
mod columns;
mod growth;
mod index;
mod selection;
mod totals;

pub use bitmaps::{column_from_bitmaps, count_bitmaps};
pub use bsi_rows::{
    Answer, AppendError, AskError, Block, BlockColumn, ColumnSpec, Form, IndexError,
    MAX_BLOCK_ROWS, MAX_FEEDERS, MAX_ROWS, MAX_SLICES, Op, Pred, Query, Row, Schema, SchemaError,
    Total,
};
pub use index::Index;
pub use std::alloc::AllocError as NoMemory;
