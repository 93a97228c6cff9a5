//! Reads the fields of a record as a query: a total and a predicate.

ghost use Rattle.std.specs.Prelude.{◌≡◌, option_map, IfOk};
ghost use Rattle.csv.specs.Records.{fields_of};
ghost use Rattle.bsi_syntax.specs.Events.{checked_total, total_of, total_of_column, IsQuery};
ghost use Rattle.bsi_syntax.specs.Questions.{asked_total, rank_total, total_by, total_in, IsQueryIn};
ghost use Rattle.bsi_syntax.specs.Reading.{texts, was_read, IsParsedAs, IsReadAs};

use crate::NoMemory;
use crate::grammar::{Expected, Grammar, QuestionError, Stop};
use crate::leading_fields::{lend_fields, read_column, read_count};
use crate::predicates::read_predicate_in;
use crate::vocabulary::Vocabulary;
use bsi_rows::{Query, Schema, Total};
use csv::ByteRecord;
use std::alloc::Global;

/// Reads a record as a query: `count` or `list`, or another total and its column, and then the fields of a predicate in
/// postfix order, at most 1,000. `None` stands for a record that is not a query, as one that compares two columns. It
/// allocates memory for the list of the fields, and for each part of the predicate.
pub fn read_query(
    alloc: Global,
    schema: &Schema,
    fields: &ByteRecord,
) -> Result<Option<Query>, NoMemory>
    ensures { IfOk result (IsReadAs (IsQuery schema.now (fields_of fields.now))) }
{
    let fields = lend_fields(alloc, fields)?;
    match read_query_in(alloc, schema, Grammar::Script, &fields) {
        Ok(query) => Ok(Some(query)),
        Err(QuestionError::Stopped(_)) => Ok(None),
        Err(QuestionError::NoMemory) => Err(NoMemory),
    }
}

/// Reads fields as a query: a total, and then the fields of a predicate in postfix order, at most 1,000. It allocates
/// memory for each part of the predicate.
pub fn read_query_in<V: Vocabulary>(
    alloc: Global,
    vocabulary: &V,
    grammar: Grammar,
    fields: &[&[u8]],
) -> Result<Query, QuestionError>
    ensures { IsParsedAs (IsQueryIn grammar (V.words vocabulary.now) (texts fields.now)) result }
{
    let (total, rest) = read_total(vocabulary, grammar, fields)?;
    let pred = read_predicate_in(alloc, vocabulary, grammar, rest)?;
    Ok(Query { total, pred })
}

/// Reads the total that fields begin with, and lends the fields behind it.
pub(crate) fn read_total<'f, V: Vocabulary>(
    vocabulary: &V,
    grammar: Grammar,
    fields: &'f [&'f [u8]],
) -> Result<(Total, &'f [&'f [u8]]), Stop>
    ensures { was_read result ≡ total_in grammar (V.words vocabulary.now) (texts fields.now) }
{
    match grammar {
        Grammar::Script => read_script_total(vocabulary, fields),
        Grammar::Index => read_index_total(vocabulary, fields),
    }
}

/// Reads the total of an index that fields begin with, and lends the fields behind it.
fn read_index_total<'f, V: Vocabulary>(
    vocabulary: &V,
    fields: &'f [&'f [u8]],
) -> Result<(Total, &'f [&'f [u8]]), Stop>
    ensures { was_read result ≡ asked_total (V.words vocabulary.now) (texts fields.now) }
{
    let Some((word, rest)) = fields.split_first() else {
        return Err(Stop::before(fields, Expected::Total));
    };
    if *word == b"rank".as_slice() {
        return read_rank(vocabulary, rest);
    }
    read_script_total(vocabulary, fields)
}

/// Reads the column and the number of a rank, and lends the fields behind them.
fn read_rank<'f, V: Vocabulary>(
    vocabulary: &V,
    fields: &'f [&'f [u8]],
) -> Result<(Total, &'f [&'f [u8]]), Stop>
    ensures { was_read result ≡ rank_total (V.words vocabulary.now) (texts fields.now) }
{
    let (c, rest) = read_column(vocabulary, fields)?;
    let (rank, rest) = read_count(rest)?;
    Ok((Total::Rank(c, rank), rest))
}

/// Reads the total of a script that fields begin with, and lends the fields behind it.
fn read_script_total<'f, V: Vocabulary>(
    vocabulary: &V,
    fields: &'f [&'f [u8]],
) -> Result<(Total, &'f [&'f [u8]]), Stop>
    ensures { was_read result ≡ total_of (V.words vocabulary.now) (texts fields.now) }
{
    let Some((word, rest)) = fields.split_first() else {
        return Err(Stop::before(fields, Expected::Total));
    };
    if *word == b"count".as_slice() {
        return Ok((Total::Count, rest));
    }
    if *word == b"list".as_slice() {
        return Ok((Total::Rows, rest));
    }
    let Some(total) = read_column_total(word) else {
        return Err(Stop::before(fields, Expected::Total));
    };
    let (c, behind) = read_column(vocabulary, rest)?;
    match check_total(vocabulary, total.of(c)) {
        Some(total) => Ok((total, behind)),
        None => Err(Stop::before(rest, Expected::Summed)),
    }
}

/// Returns the total, unless it is a sum of a column whose numbers may not be summed.
fn check_total<V: Vocabulary>(vocabulary: &V, total: Total) -> Option<Total>
    ensures { result ≡ checked_total (V.words vocabulary.now) total }
{
    match total {
        Total::Sum(c) => {
            if vocabulary.may_sum(c) {
                Some(total)
            } else {
                None
            }
        }
        Total::Count
        | Total::Least(_)
        | Total::Greatest(_)
        | Total::Median(_)
        | Total::Rank(_, _)
        | Total::Rows => Some(total),
    }
}

/// The total of a column, whichever that is.
#[derive(Clone, Copy)]
pub(crate) enum ColumnTotal {
    /// The sum.
    Sum,
    /// The least number.
    Least,
    /// The greatest number.
    Greatest,
    /// The lower median.
    Median,
}

impl ColumnTotal {
    /// Returns the total of column `c`.
    fn of(self, c: u32) -> Total
        ensures { result ≡ total_by self c }
    {
        match self {
            ColumnTotal::Sum => Total::Sum(c),
            ColumnTotal::Least => Total::Least(c),
            ColumnTotal::Greatest => Total::Greatest(c),
            ColumnTotal::Median => Total::Median(c),
        }
    }
}

/// Reads the word of a total of a column.
fn read_column_total(word: &[u8]) -> Option<ColumnTotal>
    ensures { option_map total_by result ≡ total_of_column word.now }
{
    if word == b"sum".as_slice() {
        return Some(ColumnTotal::Sum);
    }
    if word == b"least".as_slice() {
        return Some(ColumnTotal::Least);
    }
    if word == b"greatest".as_slice() {
        return Some(ColumnTotal::Greatest);
    }
    if word == b"median".as_slice() {
        return Some(ColumnTotal::Median);
    }
    None
}
