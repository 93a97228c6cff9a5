//! Runs a script: reads its records, carries each out on a step machine, and writes a line for each.
#![tactic(auto)]

mod script;
mod session;

pub use bsi_input::{
    RecordSource, RowFormat, RowSource, SchemaFault, SourceFault, WriteFault, laws, read_schema,
    write_bytes,
};
pub use bsi_syntax::{
    DeclaredTable, NoMemory, read_number, read_query, read_row, read_setup, read_signed, write_bad,
    write_fed, write_reply,
};
pub use script::{ScriptFault, run_script};
