//! Reads the fields of a record as a question of an index: a total, groups, first rows, different numbers or a
//! quantile.

ghost use Rattle.std.specs.Prelude.{◌≡◌, ◌≢◌, ◌≤◌, ◌∷◌, [], codes, get_or, length};
ghost use Rattle.bsi_rows.specs.declared.query.Total.TheVariants.{Rows};
ghost use Rattle.bsi_syntax.specs.Questions.{extreme_word, max_group_columns, AreColumns, IsQueryIn, IsQuestion};
ghost use Rattle.bsi_syntax.specs.Reading.{texts, IsParsedAs};
ghost use Rattle.bsi_syntax.specs.declared.grammar.Grammar.TheVariants.{Index};

use crate::grammar::{Expected, Grammar, QuestionError, Stop};
use crate::leading_fields::{read_column, read_count};
use crate::predicates::read_predicate;
use crate::queries::{read_query_in, read_total};
use crate::vocabulary::Vocabulary;
use bsi_rows::{Extreme, Query, Question, Share, Total};
use std::alloc::Global;

/// The most columns of groups.
pub const MAX_GROUP_COLUMNS: usize = 64;

/// Reads fields as a question of the grammar. In that of an index these are, besides queries: `by` and a column, once or
/// up to 64 times, and a query that is no list; `top` or `bottom`, a column and how many rows; `distinct` and a column; or
/// `quantile`, a column, a numerator and a denominator, which is at least 1 and no less than the numerator. Behind the last
/// three stand the fields of a predicate. It allocates memory for the columns of groups and each part of the predicate.
pub fn read_question<V: Vocabulary>(
    alloc: Global,
    vocabulary: &V,
    grammar: Grammar,
    fields: &[&[u8]],
) -> Result<Question, QuestionError>
    ensures { IsParsedAs (IsQuestion grammar (V.words vocabulary.now) (texts fields.now)) result }
{
    match grammar {
        Grammar::Script => Ok(Question::Total(read_query_in(alloc, vocabulary, grammar, fields)?)),
        Grammar::Index => read_index_question(alloc, vocabulary, fields),
    }
}

/// Reads fields as a question of an index.
fn read_index_question<V: Vocabulary>(
    alloc: Global,
    vocabulary: &V,
    fields: &[&[u8]],
) -> Result<Question, QuestionError>
    ensures { IsParsedAs (IsQuestion Index (V.words vocabulary.now) (texts fields.now)) result }
{
    let Some((word, rest)) = fields.split_first() else {
        return Err(QuestionError::Stopped(Stop::before(fields, Expected::Total)));
    };
    if *word == b"by".as_slice() {
        return read_groups(alloc, vocabulary, fields);
    }
    if *word == b"top".as_slice() {
        return read_top(alloc, vocabulary, Extreme::Greatest, rest);
    }
    if *word == b"bottom".as_slice() {
        return read_top(alloc, vocabulary, Extreme::Least, rest);
    }
    if *word == b"distinct".as_slice() {
        return read_distinct(alloc, vocabulary, rest);
    }
    if *word == b"quantile".as_slice() {
        return read_quantile(alloc, vocabulary, rest);
    }
    Ok(Question::Total(read_query_in(alloc, vocabulary, Grammar::Index, fields)?))
}

/// Reads fields as columns, each behind a field `by`, and a query that is no list.
fn read_groups<V: Vocabulary>(
    alloc: Global,
    vocabulary: &V,
    fields: &[&[u8]],
) -> Result<Question, QuestionError>
    requires { get_or (texts fields.now) 0 [] ≡ codes "by" }
    ensures { IsParsedAs (IsQuestion Index (V.words vocabulary.now) (texts fields.now)) result }
{
    let mut by = Vec::new(alloc);
    let rest = read_columns(vocabulary, fields, &mut by)?;
    let query = read_unlisted(alloc, vocabulary, rest)?;
    Ok(Question::Groups(query, by))
}

/// Reads the columns with whose names fields begin, each behind a field `by`, and adds them to the list, which then has at
/// most 64. It lends the fields behind them. It calls itself for each column.
fn read_columns<'f, V: Vocabulary>(
    vocabulary: &V,
    fields: &'f [&'f [u8]],
    by: &mut Vec<u32>,
) -> Result<&'f [&'f [u8]], QuestionError>
    requires { length by.old.items ≤ max_group_columns }
    ensures { AreColumns (V.words vocabulary.now) by.old.items (texts fields.now) by.new.items result }
{
    let Some((word, rest)) = fields.split_first() else {
        return Ok(fields);
    };
    if *word != b"by".as_slice() {
        return Ok(fields);
    }
    if by.len() == MAX_GROUP_COLUMNS {
        return Err(QuestionError::Stopped(Stop::before(fields, Expected::NoColumn)));
    }
    let (c, rest) = read_column(vocabulary, rest)?;
    let Ok(()) = by.push(c) else {
        return Err(QuestionError::NoMemory);
    };
    read_columns(vocabulary, rest, by)
}

/// Reads fields as a query that is no list.
fn read_unlisted<V: Vocabulary>(
    alloc: Global,
    vocabulary: &V,
    fields: &[&[u8]],
) -> Result<Query, QuestionError>
    ensures { IsParsedAs (λ query. IsQueryIn Index (V.words vocabulary.now) (texts fields.now) query
        × (query.total ≢ Rows)) result }
{
    let (total, rest) = read_total(vocabulary, Grammar::Index, fields)?;
    if total == Total::Rows {
        return Err(QuestionError::Stopped(Stop::before(fields, Expected::Total)));
    }
    let pred = read_predicate(alloc, vocabulary, rest)?;
    Ok(Query { total, pred })
}

/// Reads the fields behind the word of the greatest or the least rows.
fn read_top<V: Vocabulary>(
    alloc: Global,
    vocabulary: &V,
    extreme: Extreme,
    fields: &[&[u8]],
) -> Result<Question, QuestionError>
    ensures { IsParsedAs (IsQuestion Index (V.words vocabulary.now) (extreme_word extreme ∷ texts fields.now)) result }
{
    let (c, rest) = read_column(vocabulary, fields)?;
    let (most, rest) = read_count(rest)?;
    let pred = read_predicate(alloc, vocabulary, rest)?;
    Ok(Question::Top(extreme, c, most, pred))
}

/// Reads the fields behind `distinct`.
fn read_distinct<V: Vocabulary>(
    alloc: Global,
    vocabulary: &V,
    fields: &[&[u8]],
) -> Result<Question, QuestionError>
    ensures { IsParsedAs (IsQuestion Index (V.words vocabulary.now) (codes "distinct" ∷ texts fields.now)) result }
{
    let (c, rest) = read_column(vocabulary, fields)?;
    let pred = read_predicate(alloc, vocabulary, rest)?;
    Ok(Question::Distinct(c, pred))
}

/// Reads the fields behind `quantile`.
fn read_quantile<V: Vocabulary>(
    alloc: Global,
    vocabulary: &V,
    fields: &[&[u8]],
) -> Result<Question, QuestionError>
    ensures { IsParsedAs (IsQuestion Index (V.words vocabulary.now) (codes "quantile" ∷ texts fields.now)) result }
{
    let (c, rest) = read_column(vocabulary, fields)?;
    let (numerator, from_denominator) = read_count(rest)?;
    let (denominator, rest) = read_count(from_denominator)?;
    let Some(share) = Share::new(numerator, denominator) else {
        return Err(QuestionError::Stopped(Stop::before(from_denominator, Expected::Denominator)));
    };
    let pred = read_predicate(alloc, vocabulary, rest)?;
    Ok(Question::Quantile(share, c, pred))
}
