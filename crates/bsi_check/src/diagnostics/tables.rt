//! Why the schema of a table does not accept a field: as its whole numbers or its kinds do not.

ghost use Rattle.bsi_check.specs.Judges.{table_judge};

use crate::NoMemory;
use crate::explains::Explains;
use bsi_logical::TableSchema;
use std::alloc::Global;

impl Explains for TableSchema {
    ghost judge = { table_judge };

    fn find_column_under(&self, name: &[u8]) -> Option<u32> {
        match self {
            TableSchema::Plain(schema) => schema.find_column_under(name),
            TableSchema::Logical(format) => format.find_column_under(name),
        }
    }

    fn column_title(&self, c: u32) -> &[u8] {
        match self {
            TableSchema::Plain(schema) => schema.column_title(c),
            TableSchema::Logical(format) => format.column_title(c),
        }
    }

    fn why_refused(&self, alloc: Global, c: u32, text: &[u8]) -> Result<Option<String>, NoMemory> {
        match self {
            TableSchema::Plain(schema) => schema.why_refused(alloc, c, text),
            TableSchema::Logical(format) => format.why_refused(alloc, c, text),
        }
    }

    fn passes_over_others(&self) -> bool {
        match self {
            TableSchema::Plain(schema) => schema.passes_over_others(),
            TableSchema::Logical(format) => format.passes_over_others(),
        }
    }
}
