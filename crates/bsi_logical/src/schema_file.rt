//! Reads the schema of a table from the bytes of a schema file (`read_schema_file`): of whole numbers alone, or of kinds.

ghost use Rattle.std.specs.Prelude.{ℕ, IfErr, IfOk};
ghost use Rattle.bsi_input.specs.SchemaTexts.{IsSchemaText};
ghost use Rattle.bsi_logical.specs.LogicalTexts.{IsLogicalFault};
ghost use Rattle.bsi_logical.specs.SchemaFiles.{DeclaresSchema, IsSchemaFileFault, ReadsPlain, SaysSchema};
ghost use Rattle.bsi_schema.specs.Columns.{Declared};

use crate::format::LogicalFormat;
use crate::logical_text::{LogicalFault, read_logical};
use crate::table_schema::TableSchema;
use bsi_input::{SchemaFault, read_schema};
use std::alloc::Global;

/// The schema of a table, and the most rows that it may have.
#[derive(Drop)]
pub struct DeclaredSchema {
    /// The columns, and what their numbers stand for.
    pub schema: TableSchema,
    /// The most rows.
    pub limit: u64,
}

/// Reads the schema and the limit of rows that the bytes of a schema file declare. Records `column` and `limit` alone
/// declare whole numbers, as `read_schema` reads them. Where such a schema would have a bad record, the bytes say a schema
/// of kinds, as `read_logical` reads it; so a record that is bad in both has one number.
pub fn read_schema_file(alloc: Global, text: &[u8]) -> Result<DeclaredSchema, LogicalFault>
    ensures declared { IfOk result (λ file. DeclaresSchema text.now file.schema file.limit) }
    ensures fault { IfErr result (IsSchemaFileFault text.now) }

    // A text that declares whole numbers is read as that schema, unless memory is refused.
    ensures plain { (schema : Declared) → (limit : ℕ) →
        IsSchemaText text.now schema limit → ReadsPlain schema limit result }
{
    read_file(alloc, text)
}

/// Reads the schema and the limit that the bytes of a schema file declare.
fn read_file(alloc: Global, text: &[u8]) -> Result<DeclaredSchema, LogicalFault>
    ensures declared { IfOk result (λ file. DeclaresSchema text.now file.schema file.limit) }
    ensures fault { IfErr result (IsSchemaFileFault text.now) }
{
    match read_schema(alloc, text) {
        Ok(table) => Ok(DeclaredSchema {
            schema: TableSchema::Plain(table.schema),
            limit: table.limit,
        }),
        Err(SchemaFault::BadRecord(_)) => read_kinds(alloc, text),
        Err(SchemaFault::NoColumns) => Err(LogicalFault::NoColumns),
        Err(SchemaFault::Source(fault)) => Err(LogicalFault::Source(fault)),
    }
}

/// Reads the schema of kinds and the limit that bytes say.
fn read_kinds(alloc: Global, text: &[u8]) -> Result<DeclaredSchema, LogicalFault>
    ensures declared { IfOk result (λ file. SaysSchema text.now file.schema file.limit) }
    ensures fault { IfErr result (IsLogicalFault text.now) }
{
    let logical = read_logical(alloc, text)?;
    let limit = logical.limit();
    let format = LogicalFormat::new(alloc, logical)?;
    Ok(DeclaredSchema {
        schema: TableSchema::Logical(format),
        limit,
    })
}
