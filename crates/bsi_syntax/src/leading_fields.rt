//! Lends the fields of a record as a list, and reads the column or the number that such a list begins with.

ghost use Rattle.std.specs.Prelude.{◌≡◌, IfOk};
ghost use Rattle.csv.specs.Records.{fields_of};
ghost use Rattle.bsi_syntax.specs.Numbers.{spelled_number};
ghost use Rattle.bsi_syntax.specs.Reading.{first_as, texts, was_read};

use crate::NoMemory;
use crate::grammar::{Expected, Stop};
use crate::numbers::read_number;
use crate::records::field;
use crate::vocabulary::Vocabulary;
use csv::ByteRecord;
use std::alloc::Global;

/// Lends the fields of a record. It allocates memory for their list once.
pub fn lend_fields(alloc: Global, fields: &ByteRecord) -> Result<Vec<&[u8]>, NoMemory>
    ensures { IfOk result (λ lent. texts lent.items ≡ fields_of fields.now) }
{
    let mut lent = Vec::with_capacity(alloc, fields.len())?;
    'fields: for index in 0..fields.len() {
        lent.push(field(fields, index))?;
    }
    Ok(lent)
}

/// Reads the name of a column, and lends the fields behind it.
pub(crate) fn read_column<'f, V: Vocabulary>(
    vocabulary: &V,
    fields: &'f [&'f [u8]],
) -> Result<(u32, &'f [&'f [u8]]), Stop>
    ensures { was_read result ≡ first_as (V.words vocabulary.now).column (texts fields.now) }
{
    let Some((name, rest)) = fields.split_first() else {
        return Err(Stop::before(fields, Expected::Column));
    };
    match vocabulary.find_column(name) {
        Some(c) => Ok((c, rest)),
        None => Err(Stop::before(fields, Expected::Column)),
    }
}

/// Reads a whole number from 0, and lends the fields behind it.
pub(crate) fn read_count<'f>(fields: &'f [&'f [u8]]) -> Result<(u64, &'f [&'f [u8]]), Stop>
    ensures { was_read result ≡ first_as spelled_number (texts fields.now) }
{
    let Some((text, rest)) = fields.split_first() else {
        return Err(Stop::before(fields, Expected::Number));
    };
    match read_number(text) {
        Some(number) => Ok((number, rest)),
        None => Err(Stop::before(fields, Expected::Number)),
    }
}
