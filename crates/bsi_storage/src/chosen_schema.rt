//! Makes the schema of chosen columns of another (`choose_columns`).

ghost use Rattle.std.specs.Prelude.{◌≡◌, ◌≢◌, ◌<◌, reverse, false, true, All, IfNone, IfOk, IfSome, MatchResult, length};
ghost use Rattle.bsi_schema.specs.Columns.{column_at, form_of, with_column, MayFollow};
ghost use Rattle.bsi_schema.specs.declared.schema_error.SchemaError.{SchemaError};
ghost use Rattle.bsi_projection.specs.Chosen.{chosen_schema};
ghost use Rattle.bsi_storage.specs.Choices.{IsChoice};

use crate::NoMemory;
use bsi_digits::Bases;
use bsi_schema::{ColumnSpec, Form, Schema, SchemaError};
use std::alloc::Global;

/// Makes the list of bases, most significant first.
fn list_bases(alloc: Global, bases: &Bases) -> Result<Vec<u32>, NoMemory>
    ensures { IfOk result (λ list. reverse list.items ≡ bases.now) }
{
    let mut list = Vec::with_capacity(alloc, bases.len() as usize)?;
    'bases: for i in 0..bases.len() {
        list.push_reserved(bases.base(i));
    }
    list.reverse();
    Ok(list)
}

/// Makes the specification of a column of this form.
fn spec_of(alloc: Global, form: &Form) -> Result<ColumnSpec, NoMemory>
    ensures { IfOk result (λ spec. form_of spec ≡ form.now) }
{
    match form {
        Form::Slices(width) => Ok(ColumnSpec::Slices(*width)),
        Form::Equality(bases) => Ok(ColumnSpec::Equality(list_bases(alloc, bases)?)),
        Form::Range(bases) => Ok(ColumnSpec::Range(list_bases(alloc, bases)?)),
    }
}

/// Adds column `c` of another schema, or returns false if it may not follow the columns before.
fn add_chosen(alloc: Global, narrow: &mut Schema, schema: &Schema, c: u32) -> Result<bool, NoMemory>
    requires { c < length schema.now.columns }
    ensures added { IfOk result (λ added. added ≡ true → narrow.new
        ≡ with_column narrow.old (column_at schema.now.columns c) schema.now.signed) }
    ensures refused { IfOk result (λ added. added ≡ false → MayFollow narrow.old.columns
        schema.now.signed (column_at schema.now.columns c) → ⊥) }
{
    // Its clause says that the columns begin at 0 if no number is signed.
    let _ = schema.limits();
    let spec = spec_of(alloc, schema.form(c))?;
    if schema.signed() {
        check_added(narrow.add_signed(schema.name(c), spec, schema.offset(c)))
    } else {
        check_added(narrow.add(schema.name(c), spec))
    }
}

/// Returns whether a column was added. Refused memory stays an error.
fn check_added(added: Result<(), SchemaError>) -> Result<bool, NoMemory>
    ensures { IfOk result (λ done. MatchResult added (λ _. done ≡ true)
        (λ refused. (done ≡ false) × (refused ≢ SchemaError.NoMemory))) }
{
    match added {
        Ok(()) => Ok(true),
        Err(SchemaError::NoMemory) => Err(NoMemory),
        Err(_) => Ok(false),
    }
}

/// Makes the schema of the chosen columns alone, or none if there is no such schema: no column is chosen, or one that is
/// not there, or one twice.
pub(crate) fn choose_columns(
    alloc: Global,
    schema: &Schema,
    chosen: &[u32],
) -> Result<Option<Schema>, NoMemory>
    ensures made { IfOk result (λ made. IfSome made (λ narrow.
        narrow ≡ chosen_schema chosen.now schema.now)) }
    ensures there { IfOk result (λ made. IfSome made (λ narrow.
        All (λ c. c < length schema.now.columns) chosen.now)) }
    ensures some { IfOk result (λ made. IfSome made (λ narrow. 0 < length chosen.now)) }
    ensures none { IfOk result (λ made. IfNone made
        (IsChoice (length schema.now.columns) chosen.now → ⊥)) }
{
    if chosen.is_empty() {
        return Ok(None);
    }
    // Its clause says that each column was declared.
    let _ = schema.limits();
    let mut narrow = Schema::new(alloc);
    'columns: for i in 0..chosen.len() {
        let c = chosen[i];
        if c >= schema.columns() {
            return Ok(None);
        }
        if !add_chosen(alloc, &mut narrow, schema, c)? {
            return Ok(None);
        }
    }
    Ok(Some(narrow))
}
