//! Logical schemas: columns of whole numbers as an index has them, the kind of value that these stand for, and how row
//! files write it.
#![tactic(auto)]

mod describing;
mod dialect;
mod format;
mod kind_words;
mod logical;
mod logical_text;
mod notation;
mod refusal;
mod schema_file;
mod table_schema;
mod titles;
mod vocabulary;

pub use bsi_kinds::{Comparison, Kind, NoMemory, Op};
pub use describing::describe_logical;
pub use dialect::Dialect;
pub use format::LogicalFormat;
pub use logical::LogicalSchema;
pub use logical_text::{LogicalFault, read_logical};
pub use refusal::{DeclareError, Refusal};
pub use schema_file::{DeclaredSchema, read_schema_file};
pub use table_schema::TableSchema;
