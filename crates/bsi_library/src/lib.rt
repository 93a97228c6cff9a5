//! Re-exports what a caller names, from one crate: the index, and as modules the layers below and above it. CALLING.md
//! shows a proved caller, and what each clause gives.
#![tactic(auto)]

pub use bsi_aggregates as aggregates;
pub use bsi_answers as answers;
pub use bsi_bits as bits;
pub use bsi_columns as columns;
pub use bsi_digits as digits;
pub use bsi_load as machine;
pub use bsi_system as running;
pub use bsi_table::{
    Answer, AppendError, AskError, Block, BlockColumn, ColumnSpec, Form, Index, IndexError,
    MAX_BLOCK_ROWS, MAX_FEEDERS, MAX_ROWS, MAX_SLICES, NoMemory, Op, Pred, Query, Row, Schema,
    SchemaError, Total,
};
pub use bsi_text as texts;
