//! Reads fields as a predicate (`read_predicate`): comparisons are written `name sign constant`, and `and`, `or` and
//! `not` follow their operands.
//!
//! A stack replaces recursion: it has the predicates that the fields so far spell, which are at most 1,000 fields.
//! Which fields spell a predicate is a relation by cases on the predicate (`IsPredicate`). The parser is proved
//! against a parse (`specs/Postfix.antt`) that no public contract names.

ghost use Rattle.std.specs.Prelude.{◌≡◌, IfOk};
ghost use Rattle.bsi_syntax.specs.Postfix.{after_field, after_fields, after_name, alike_column, after_sign, after_word, joined, negated, newest_first, only_of, op_of, plain_of, state_of, IsState};
ghost use Rattle.bsi_syntax.specs.Predicates.{compares_columns, IsPlainPredicate, IsPredicate};
ghost use Rattle.bsi_syntax.specs.Questions.{IsPredicateIn};
ghost use Rattle.bsi_syntax.specs.Reading.{texts, IsParsedAs};
ghost use Rattle.bsi_syntax.specs.declared.predicates.Pending.TheVariants.{Nothing};

use crate::NoMemory;
use crate::grammar::{Expected, Grammar, QuestionError, Stop};
use crate::vocabulary::Vocabulary;
use bsi_rows::{Op, Pred};
use std::alloc::Global;

/// The most fields of a predicate.
pub const MAX_PREDICATE_FIELDS: usize = 1_000;

/// What the last fields have begun.
#[derive(Clone, Copy, PartialEq, Eq)]
pub(crate) enum Pending {
    /// Nothing: the next field begins a token.
    Nothing,
    /// A token that begins with the name of this column.
    Column(u32),
    /// A comparison of this column by this sign.
    Comparison(u32, Op),
}

impl Pending {
    /// Returns what could stand next, after fields that have begun this.
    fn expected(self) -> Expected {
        match self {
            Pending::Nothing => Expected::Predicate,
            Pending::Column(_) => Expected::Comparison,
            Pending::Comparison(_, _) => Expected::Compared,
        }
    }
}

/// Reads fields as a predicate of the grammar.
pub(crate) fn read_predicate_in<V: Vocabulary>(
    alloc: Global,
    vocabulary: &V,
    grammar: Grammar,
    fields: &[&[u8]],
) -> Result<Pred, QuestionError>
    ensures { IsParsedAs (IsPredicateIn grammar (V.words vocabulary.now) (texts fields.now)) result }
{
    match grammar {
        Grammar::Script => read_plain_predicate(alloc, vocabulary, fields),
        Grammar::Index => read_predicate(alloc, vocabulary, fields),
    }
}

/// Reads fields as a predicate, at most 1,000 of them. It allocates memory for each part of the predicate.
pub fn read_predicate<V: Vocabulary>(
    alloc: Global,
    vocabulary: &V,
    fields: &[&[u8]],
) -> Result<Pred, QuestionError>
    ensures { IsParsedAs (IsPredicate (V.words vocabulary.now) (texts fields.now)) result }
{
    if fields.len() > MAX_PREDICATE_FIELDS {
        return Err(QuestionError::Stopped(Stop {
            left: fields.len() - MAX_PREDICATE_FIELDS,
            expected: Expected::NoField,
        }));
    }
    vocabulary.know_names();
    let mut stack = Vec::new(alloc);
    let pending = read_fields(alloc, vocabulary, fields, &mut stack)?;
    Ok(pop_only(pending, &mut stack)?)
}

/// Reads fields as a predicate that compares columns with constants alone.
fn read_plain_predicate<V: Vocabulary>(
    alloc: Global,
    vocabulary: &V,
    fields: &[&[u8]],
) -> Result<Pred, QuestionError>
    ensures { IsParsedAs (IsPlainPredicate (V.words vocabulary.now) (texts fields.now)) result }
{
    vocabulary.know_names();
    let pred = read_predicate(alloc, vocabulary, fields)?;
    if compares_columns(&pred) {
        return Err(QuestionError::Stopped(Stop::before(fields, Expected::PlainPredicate)));
    }
    Ok(pred)
}

/// Returns whether a part of the predicate compares two columns. It calls itself for each part.
fn compares_columns(pred: &Pred) -> bool
    ensures { result ≡ compares_columns pred.now }
{
    match pred {
        Pred::All | Pred::Compare(..) | Pred::Null(_) => false,
        Pred::Columns(..) => true,
        Pred::Both(first, second) | Pred::Either(first, second) => {
            compares_columns(first) || compares_columns(second)
        }
        Pred::Not(pred) => compares_columns(pred),
    }
}

/// Reads fields, and returns what the last ones have begun.
fn read_fields<V: Vocabulary>(
    alloc: Global,
    vocabulary: &V,
    fields: &[&[u8]],
    stack: &mut Vec<Pred>,
) -> Result<Pending, QuestionError>
    ensures { IsState result stack.new.items
        (after_fields (V.words vocabulary.now) (texts fields.now) Nothing (newest_first stack.old.items)) }
{
    let mut pending = Pending::Nothing;
    'fields: for (index, text) in fields.iter().enumerate() {
        let Some(next) = read_field(alloc, vocabulary, pending, text, stack)? else {
            return Err(QuestionError::Stopped(Stop {
                left: fields.len() - index,
                expected: pending.expected(),
            }));
        };
        pending = next;
    }
    Ok(pending)
}

/// Reads one more field.
fn read_field<V: Vocabulary>(
    alloc: Global,
    vocabulary: &V,
    pending: Pending,
    field: &[u8],
    stack: &mut Vec<Pred>,
) -> Result<Option<Pending>, NoMemory>
    ensures { IfOk result (λ read. state_of read stack.new.items
        ≡ after_field (V.words vocabulary.now) pending (newest_first stack.old.items) field.now) }
{
    match pending {
        Pending::Nothing => read_word(alloc, vocabulary, field, stack),
        Pending::Column(c) => read_after_name(c, field, stack),
        Pending::Comparison(c, op) => read_after_sign(vocabulary, c, op, field, stack),
    }
}

/// Reads the first field of a token.
fn read_word<V: Vocabulary>(
    alloc: Global,
    vocabulary: &V,
    field: &[u8],
    stack: &mut Vec<Pred>,
) -> Result<Option<Pending>, NoMemory>
    ensures { IfOk result (λ read. state_of read stack.new.items
        ≡ after_word (V.words vocabulary.now) (newest_first stack.old.items) field.now) }
{
    if field == b"all".as_slice() {
        stack.push(Pred::All)?;
        return Ok(Some(Pending::Nothing));
    }
    if field == b"and".as_slice() {
        return join(alloc, true, stack);
    }
    if field == b"or".as_slice() {
        return join(alloc, false, stack);
    }
    if field == b"not".as_slice() {
        return negate(alloc, stack);
    }
    Ok(vocabulary.find_column(field).map(Pending::Column))
}

/// Reads the field that follows the name of column `c`.
fn read_after_name(c: u32, field: &[u8], stack: &mut Vec<Pred>) -> Result<Option<Pending>, NoMemory>
    ensures { IfOk result (λ read. state_of read stack.new.items
        ≡ after_name c (newest_first stack.old.items) field.now) }
{
    if field == b"null".as_slice() {
        stack.push(Pred::Null(c))?;
        return Ok(Some(Pending::Nothing));
    }
    Ok(read_op(field).map(|op| Pending::Comparison(c, op)))
}

/// Reads the constant that column `c` is compared with or, if the field is none, the name of a column that may be
/// compared with it.
fn read_after_sign<V: Vocabulary>(
    vocabulary: &V,
    c: u32,
    op: Op,
    field: &[u8],
    stack: &mut Vec<Pred>,
) -> Result<Option<Pending>, NoMemory>
    ensures { IfOk result (λ read. state_of read stack.new.items
        ≡ after_sign (V.words vocabulary.now) c op (newest_first stack.old.items) field.now) }
{
    let pred = match vocabulary.read_comparison(c, op, field) {
        Some((op, n)) => Pred::Compare(c, op, n),
        None => match find_alike(vocabulary, c, field) {
            Some(other) => Pred::Columns(c, op, other),
            None => return Ok(None),
        },
    };
    stack.push(pred)?;
    Ok(Some(Pending::Nothing))
}

/// Returns the column of this name, if it may be compared with column `c`.
fn find_alike<V: Vocabulary>(vocabulary: &V, c: u32, name: &[u8]) -> Option<u32>
    ensures { result ≡ alike_column (V.words vocabulary.now) c name.now }
{
    let other = vocabulary.find_column(name)?;
    if vocabulary.may_compare(c, other) {
        Some(other)
    } else {
        None
    }
}

/// Reads the sign of a comparison.
fn read_op(sign: &[u8]) -> Option<Op>
    ensures { result ≡ op_of sign.now }
{
    if sign == b"=".as_slice() {
        return Some(Op::Eq);
    }
    if sign == b"!=".as_slice() {
        return Some(Op::Ne);
    }
    if sign == b"<".as_slice() {
        return Some(Op::Lt);
    }
    if sign == b"<=".as_slice() {
        return Some(Op::Le);
    }
    if sign == b">".as_slice() {
        return Some(Op::Gt);
    }
    if sign == b">=".as_slice() {
        return Some(Op::Ge);
    }
    None
}

/// Replaces the two newest predicates by one that holds where both of them hold or, if not `both`, where at least one
/// holds.
fn join(alloc: Global, both: bool, stack: &mut Vec<Pred>) -> Result<Option<Pending>, NoMemory>
    ensures { IfOk result (λ read. state_of read stack.new.items
        ≡ joined both (newest_first stack.old.items)) }
{
    let Some(second) = stack.pop() else {
        return Ok(None);
    };
    let Some(first) = stack.pop() else {
        return Ok(None);
    };
    let first = Box::new(alloc, first)?;
    let second = Box::new(alloc, second)?;
    if both {
        stack.push(Pred::Both(first, second))?;
    } else {
        stack.push(Pred::Either(first, second))?;
    }
    Ok(Some(Pending::Nothing))
}

/// Replaces the newest predicate by its negation.
fn negate(alloc: Global, stack: &mut Vec<Pred>) -> Result<Option<Pending>, NoMemory>
    ensures { IfOk result (λ read. state_of read stack.new.items
        ≡ negated (newest_first stack.old.items)) }
{
    let Some(pred) = stack.pop() else {
        return Ok(None);
    };
    let pred = Box::new(alloc, pred)?;
    stack.push(Pred::Not(pred))?;
    Ok(Some(Pending::Nothing))
}

/// Pops the only predicate, if there is one alone and nothing else has begun.
fn pop_only(pending: Pending, stack: &mut Vec<Pred>) -> Result<Pred, Stop>
    ensures { plain_of result ≡ only_of pending (newest_first stack.old.items) }
{
    if pending != Pending::Nothing {
        return Err(Stop::before(&[], pending.expected()));
    }
    let Some(pred) = stack.pop() else {
        return Err(Stop::before(&[], Expected::Predicate));
    };
    if stack.is_empty() {
        return Ok(pred);
    }
    let many = stack.len() + 1;
    Err(Stop::before(&[], Expected::Joint(many)))
}
