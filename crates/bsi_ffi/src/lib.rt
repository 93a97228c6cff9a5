//! The index behind a handle of C: what each call of the C library does. The crate `bsi_c` exports the calls.
//!
//! C passes a schema and a query as scripts spell them, so that one reader, with its proofs, serves both.
#![tactic(auto)]

mod answers;
mod blocks;
mod calls;
mod columns;
mod groups;
mod handle;
mod kinds_text;
mod memory;
mod numbers;
mod open_index;
mod pairs;
mod record_line;
mod refusal;
mod schema_text;
mod selection;
mod serialization;
mod state;
mod tops;
mod validation;

pub use answers::{COUNT, FlatAnswer, Origin, ROWS, SUM, VALUE};
pub use calls::{
    answer_line, append, ask, close, count, count_distinct, describe, first_rows, group,
    group_pairs, memory_bytes, open, open_saved, quantile, ranked, reserve, save, select,
    set_kinds, share, tell_kinds,
};
pub use columns::ColumnInput;
pub use groups::FlatGroup;
pub use handle::{Handle, Opaque, OwnedPointer};
pub use open_index::OpenIndex;
pub use pairs::{FlatEntry, FlatPair};
pub use refusal::{Refusal, status_of};
pub use state::HandleState;
pub use tops::FlatRow;
