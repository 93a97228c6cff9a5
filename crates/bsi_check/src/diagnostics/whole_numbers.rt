//! Why a schema of whole numbers does not accept a field.

ghost use Rattle.std.specs.Prelude.{◌≡◌, ◌<◌, length, IfOk};
ghost use Rattle.std.specs.Option.{is_none};
ghost use Rattle.bsi_schema.specs.Columns.{column_at, is_accepted_by};
ghost use Rattle.bsi_schema.specs.Limits.{limits_of};
ghost use Rattle.bsi_check.specs.Judges.{plain_judge};

use crate::NoMemory;
use crate::diagnostics::quoting::quote_field;
use crate::explains::Explains;
use bsi_schema::{Limits, Schema};
use bsi_syntax::read_value;
use std::alloc::Global;

// A column is called by its name, and a header has no other fields.
impl Explains for Schema {
    ghost judge = { plain_judge };

    fn find_column_under(&self, name: &[u8]) -> Option<u32> {
        self.find(name)
    }

    fn column_title(&self, c: u32) -> &[u8] {
        self.name(c).as_bytes()
    }

    fn why_refused(&self, alloc: Global, c: u32, text: &[u8]) -> Result<Option<String>, NoMemory> {
        why_no_number(alloc, self, c, text)
    }

    fn passes_over_others(&self) -> bool {
        false
    }
}

/// Returns why a column does not accept a field, or none if it does.
fn why_no_number(
    alloc: Global,
    schema: &Schema,
    c: u32,
    text: &[u8],
) -> Result<Option<String>, NoMemory>
    requires { c < length schema.now.columns }
    ensures { IfOk result (λ why. is_none why ≡ (plain_judge schema.now).accepts c text.now) }
{
    let word = quote_field(alloc, text)?;
    let Some(value) = read_value(schema.signed(), text) else {
        return Ok(Some(format!(in alloc; "'{word}' is no whole number")?));
    };
    if accepts(schema, c, value) {
        return Ok(None);
    }
    let (least, most) = ends(schema, c);
    Ok(Some(format!(in alloc; "'{word}' is not from {least} to {most}")?))
}

/// Returns whether column `c` accepts an entry.
pub(crate) fn accepts(schema: &Schema, c: u32, entry: Option<i128>) -> bool
    requires { c < length schema.now.columns }
    ensures { result ≡ is_accepted_by (column_at schema.now.columns c) entry }
{
    limits_at(schema, c).accepts(entry)
}

/// Returns the numbers that column `c` accepts.
fn limits_at(schema: &Schema, c: u32) -> Limits
    requires { c < length schema.now.columns }
    ensures { result ≡ limits_of (column_at schema.now.columns c) }
{
    schema.limits()[c as usize]
}

/// Returns the least and the greatest number that column `c` accepts.
pub(crate) fn ends(schema: &Schema, c: u32) -> (i128, i128)
    requires { c < length schema.now.columns }
{
    let least = i128::from(schema.offset(c));
    (least, least + i128::from(schema.size(c)) - 1)
}
