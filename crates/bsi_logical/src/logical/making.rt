//! Makes the logical schema of plain columns of whole numbers.

ghost use Rattle.std.specs.Prelude.{◌≡◌, map, IfOk};
ghost use Rattle.bsi_kinds.specs.declared.kind.Kind.TheVariants.{Decimal};
ghost use Rattle.bsi_logical.specs.Logical.{names_of, plain_logical};

use crate::NoMemory;
use crate::dialect::Dialect;
use crate::logical::LogicalSchema;
use bsi_kinds::Kind;
use bsi_rows::Schema;
use bsi_schema::Limits;
use std::alloc::Global;

impl LogicalSchema {
    /// Makes the schema of kinds of plain columns: each is of whole numbers, and its title is its name.
    pub fn plain(alloc: Global, schema: Schema, limit: u64) -> Result<LogicalSchema, NoMemory>
        ensures { IfOk result (λ logical. logical ≡ plain_logical schema limit) }
    {
        let titles = list_names(alloc, &schema)?;
        let kinds = list_kinds(alloc, schema.limits())?;
        Ok(LogicalSchema {
            schema,
            limit,
            titles,
            kinds,
            dialect: Dialect::usual(),
            nulls: Vec::new(alloc),
        })
    }
}

/// Lists the names of a schema's columns.
fn list_names(alloc: Global, schema: &Schema) -> Result<Vec<Vec<u8>>, NoMemory>
    ensures { IfOk result (λ names. map (λ name. name.items) names.items ≡ names_of schema.now) }
{
    let mut names = Vec::new(alloc);
    'columns: for c in 0..schema.columns() {
        let name = Vec::from_slice(alloc, schema.name(c).as_bytes())?;
        names.push(name)?;
    }
    Ok(names)
}

/// Lists the kind of whole numbers for each column.
fn list_kinds(alloc: Global, limits: &[Limits]) -> Result<Vec<Kind>, NoMemory>
    ensures { IfOk result (λ kinds. kinds.items ≡ map (λ limits. Decimal 0) limits.now) }
{
    limits.iter().map(|_| Kind::Decimal(0)).collect(alloc)
}
