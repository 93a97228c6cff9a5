//! From bytes to records and rows, and what the lines of a script are; the text of a schema, read and written.
#![tactic(auto)]

mod describing;
mod format;
mod header;
pub mod laws;
mod layout;
mod reading;
mod record_aware;
mod record_source;
mod rows;
mod schema_text;
mod writing;

pub use bsi_syntax::{DeclaredTable, NoMemory};
pub use describing::describe_schema;
pub use format::RowFormat;
pub use header::{count_fields_named, field_index, is_good_header};
pub use layout::Layout;
pub use reading::{MAX_RECORDS, plain_reader, read_next, row_file_reader};
pub use record_aware::{RecordAwareReader, has_buffered_record};
pub use record_source::RecordSource;
pub use rows::{RowSource, SourceFault};
pub use schema_text::{SchemaFault, read_schema};
pub use writing::{WriteFault, write_bytes};
