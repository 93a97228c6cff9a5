//! Schemas, rows and predicates as the tests declare them. A refused allocation is tried again.

ghost use Rattle.std.specs.Prelude.{◌≡◌, map, IfOk, OnOk, OnErr};
ghost use Rattle.std.specs.List.{list_any};
ghost use Rattle.bsi_schema.specs.Columns.{form_of, with_column};
ghost use Rattle.bsi_fixtures.specs.Tables.{as_column, has_offset, stored_form, IsBoth, IsEither, IsNegation};

use crate::NoMemory;
use crate::columns::{TestForm, Wide};
use bsi_table::{ColumnSpec, Pred, Row, Schema, SchemaError};
use std::alloc::Global;

/// A column that is declared: its name, its form, and the least number that it accepts.
#[derive(Clone, Copy)]
pub struct DeclaredColumn<'a> {
    /// The name.
    pub name: &'a str,
    /// The form.
    pub form: TestForm,
    /// How wide it is.
    pub wide: Wide<'a>,
    /// The least number.
    pub offset: i64,
}

/// A column of three slices, for the numbers below 8.
pub const QTY: DeclaredColumn<'static> = DeclaredColumn {
    name: "qty",
    form: TestForm::Slices,
    wide: Wide {
        width: 3,
        bases: &[8],
    },
    offset: 0,
};

/// Returns how a column of this form and width is declared.
fn spec(alloc: Global, form: TestForm, wide: Wide) -> Result<ColumnSpec, NoMemory>
    ensures { IfOk result (λ spec. form_of spec ≡ stored_form form wide.entry) }
{
    match form {
        TestForm::Slices => Ok(ColumnSpec::Slices(wide.width)),
        TestForm::Equality => Ok(ColumnSpec::Equality(Vec::from_slice(alloc, wide.bases)?)),
        TestForm::Range => Ok(ColumnSpec::Range(Vec::from_slice(alloc, wide.bases)?)),
    }
}

/// Adds a column to the schema, in one call.
fn add_once(alloc: Global, schema: &mut Schema, column: DeclaredColumn) -> Result<(), SchemaError>
    ensures added { OnOk result (schema.new
        ≡ with_column schema.old (as_column column.entry) (has_offset column.entry)) }
    ensures unchanged { OnErr result (schema.new ≡ schema.old) }
{
    let spec = spec(alloc, column.form, column.wide)?;
    if column.offset == 0 {
        schema.add(column.name, spec)
    } else {
        schema.add_signed(column.name, spec, column.offset)
    }
}

/// Adds a column to the schema, which stays where the column is refused. Where memory is refused, it makes the same
/// call again.
pub fn add(alloc: Global, schema: &mut Schema, column: DeclaredColumn) -> Result<(), SchemaError>
    ensures added { OnOk result (schema.new
        ≡ with_column schema.old (as_column column.entry) (has_offset column.entry)) }
    ensures unchanged { OnErr result (schema.new ≡ schema.old) }
{
    match add_once(alloc, schema, column) {
        Err(SchemaError::NoMemory) => add_once(alloc, schema, column),
        done => done,
    }
}

/// Makes a schema of these columns.
pub fn schema_of(alloc: Global, columns: &[DeclaredColumn]) -> Result<Schema, SchemaError>
    ensures columns { IfOk result (λ schema. schema.columns ≡ map as_column columns.now) }
    ensures signed { IfOk result (λ schema. schema.signed ≡ list_any has_offset columns.now) }
{
    let mut schema = Schema::new(alloc);
    for column in columns {
        add(alloc, &mut schema, *column)?;
    }
    Ok(schema)
}

/// Makes a row of these entries.
pub fn row_of(alloc: Global, entries: &[Option<i128>]) -> Result<Row, NoMemory>
    ensures { IfOk result (λ row. row ≡ entries.now) }
{
    match Vec::from_slice(alloc, entries) {
        Err(_) => Ok(Row::new(Vec::from_slice(alloc, entries)?)),
        Ok(values) => Ok(Row::new(values)),
    }
}

/// Boxes a predicate.
fn boxed(alloc: Global, pred: Pred) -> Result<Box<Pred>, NoMemory>
    ensures { IfOk result (λ boxed. boxed.value ≡ pred) }
{
    match Box::new(alloc, pred) {
        Ok(boxed) => Ok(boxed),
        Err(refused) => Ok(Box::new(alloc, refused.value)?),
    }
}

/// Returns the negation of a predicate.
pub fn not(alloc: Global, pred: Pred) -> Result<Pred, NoMemory>
    ensures { IfOk result (IsNegation pred) }
{
    Ok(Pred::Not(boxed(alloc, pred)?))
}

/// Returns the conjunction of two predicates.
pub fn both(alloc: Global, first: Pred, second: Pred) -> Result<Pred, NoMemory>
    ensures { IfOk result (IsBoth first second) }
{
    Ok(Pred::Both(boxed(alloc, first)?, boxed(alloc, second)?))
}

/// Returns the disjunction of two predicates.
pub fn either(alloc: Global, first: Pred, second: Pred) -> Result<Pred, NoMemory>
    ensures { IfOk result (IsEither first second) }
{
    Ok(Pred::Either(boxed(alloc, first)?, boxed(alloc, second)?))
}
