//! Says why a record of a row file is bad: the first field that its column does not accept.

ghost use Rattle.std.specs.Prelude.{◌≡◌, ◌≢◌, ◌++◌, length, codes, decimal, option_map, string_bytes, IfOk};
ghost use Rattle.csv.specs.Records.{fields_of};
ghost use Rattle.bsi_check.specs.Judges.{first_refusing, refusing, Begins, IsReason, Tells};

use crate::NoMemory;
use crate::diagnostics::labels::label;
use crate::diagnostics::quoting::add_line_ends;
use crate::explains::Explains;
use bsi_syntax::field;
use csv::ByteRecord;
use std::alloc::Global;

/// Returns why a record that begins at a line is bad: the first field that its column does not accept, in the order of
/// the header. It may be that the closing quote of a field is missing, so it also tells how many line ends a field
/// takes in.
pub fn why_bad_record<F: Explains>(
    alloc: Global,
    format: &F,
    header: &ByteRecord,
    fields: &ByteRecord,
    line: u64,
) -> Result<String, NoMemory>
    ensures { IfOk result (λ why. IsReason (F.format format.now) (F.judge format.now)
        (fields_of header.now) (fields_of fields.now) (string_bytes why)) }
{
    let mut why = why_no_row(alloc, format, header, fields)?;
    add_line_ends(fields, line, &mut why)?;
    Ok(why)
}

/// Returns why a record is no row.
fn why_no_row<F: Explains>(
    alloc: Global,
    format: &F,
    header: &ByteRecord,
    fields: &ByteRecord,
) -> Result<String, NoMemory>
    ensures { IfOk result (λ why. IsReason (F.format format.now) (F.judge format.now)
        (fields_of header.now) (fields_of fields.now) (string_bytes why)) }
{
    if fields.len() != header.len() {
        return why_other_length(alloc, fields.len(), header.len());
    }
    match why_field_refused(alloc, format, header, fields)? {
        Some(why) => Ok(why),
        None => String::from_str(alloc, "is no row"),
    }
}

/// Returns that a record has another number of fields than the header.
fn why_other_length(alloc: Global, count: usize, expected: usize) -> Result<String, NoMemory>
    ensures { IfOk result (λ why. Begins (codes "has " ++ decimal count) (string_bytes why)) }
{
    let plural = if count == 1 { "" } else { "s" };
    format!(in alloc; "has {count} field{plural}, and the header {expected}")
}

/// Returns why the first field, in the order of the header, is not accepted, or none if each is. The record has as many
/// fields as the header.
fn why_field_refused<F: Explains>(
    alloc: Global,
    format: &F,
    header: &ByteRecord,
    fields: &ByteRecord,
) -> Result<Option<String>, NoMemory>
    requires { length (fields_of fields.now) ≡ length (fields_of header.now) }
    ensures { IfOk result (λ why. Tells (F.format format.now) (F.judge format.now)
        (first_refusing (F.judge format.now) (fields_of header.now) (fields_of fields.now))
        (option_map string_bytes why)) }
{
    'fields: for index in 0..header.len() {
        let why = why_refused_under(alloc, format, field(header, index), field(fields, index))?;
        if why.is_some() {
            return Ok(why);
        }
    }
    Ok(None)
}

/// Returns why a field is not accepted by the column that a field of the header names, or none.
fn why_refused_under<F: Explains>(
    alloc: Global,
    format: &F,
    name: &[u8],
    text: &[u8],
) -> Result<Option<String>, NoMemory>
    ensures { IfOk result (λ why. Tells (F.format format.now) (F.judge format.now)
        (refusing (F.judge format.now) name.now text.now) (option_map string_bytes why)) }
{
    let Some(c) = format.find_column_under(name) else {
        return Ok(None);
    };
    let Some(why) = format.why_refused(alloc, c, text)? else {
        return Ok(None);
    };
    let named = about(alloc, label(format, c), why.as_str())?;
    Ok(Some(named))
}

/// Returns what is said about a column.
fn about(alloc: Global, label: &str, why: &str) -> Result<String, NoMemory>
    ensures { IfOk result (λ text. string_bytes text ≡ label.now ++ (codes ": " ++ why.now)) }
{
    format!(in alloc; "{label}: {why}")
}
