//! Rows from feeders, blocks of them, questions over them, and events of the step machine with lawful replies: what an
//! index and the machine have in common.
#![tactic(auto)]

mod arranging;
mod block;
mod cells;
mod errors;
mod event;
pub mod laws;
mod query;
mod question;
mod sizes;

pub use arranging::arrange;
pub use block::{Block, BlockColumn, MAX_BLOCK_ROWS};
pub use bsi_digits::{Extreme, Op};
pub use bsi_schema::{ColumnSpec, Form, MAX_SLICES, Row, Schema, SchemaError};
pub use errors::{AppendError, AskError, IndexError};
pub use event::{CloseRefused, Event, LoadRefused, Reply, RunRefused, SubmitRefused};
pub use query::{Answer, Pred, Query, Total};
pub use question::{Question, Share};
pub use sizes::{MAX_FEEDERS, MAX_ROWS, MAX_WAITING, MakeError, check_sizes, check_table};
pub use std::alloc::AllocError as NoMemory;
