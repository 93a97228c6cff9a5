//! Reads a query or a predicate from the fields that C passes, and writes the selection of a predicate as words.

ghost use Rattle.std.specs.Prelude.{◌≡◌, ◌<◌, ◌≤◌, ℕ, drop, false, length, map, slice_index_or, take, Some, IfErr, IfOk, OnErr, OnOk};
ghost use Rattle.bsi_bits.specs.BitList.{word_count};
ghost use Rattle.bsi_bits.specs.Packed.{bit_of};
ghost use Rattle.bsi_syntax.specs.Predicates.{IsPredicate};
ghost use Rattle.bsi_syntax.specs.Questions.{IsQueryIn};
ghost use Rattle.bsi_syntax.specs.Reading.{IsReadAs};
ghost use Rattle.bsi_syntax.specs.declared.grammar.Grammar.TheVariants.{Index};
ghost use Rattle.bsi_syntax.specs.Vocabularies.{schema_vocabulary};
ghost use Rattle.bsi_ffi.specs.Calls.{IsMasked, LeavesWords};

use crate::open_index::OpenIndex;
use crate::refusal::Refusal;
use bsi_bits::Bits;
use bsi_syntax::{Grammar, QuestionError, read_query_in};
use bsi_table::{AskError, NoMemory, Pred, Query, Schema};
use std::alloc::Global;

/// Writes which rows the predicate selects that the fields spell.
pub(crate) fn write_mask(
    alloc: Global,
    opened: &OpenIndex,
    fields: &[&[u8]],
    words: &mut [u64],
) -> Result<(), Refusal>
    ensures masked { IsMasked opened.now (map (λ f. f.now) fields.now) words.new result }
    ensures words_unchanged { OnErr result (words.new ≡ words.old) }
    ensures rest_unchanged { OnOk result (LeavesWords (Some opened.now) words.old words.new) }
{
    let index = opened.index();
    let Some(pred) = read_predicate(alloc, index.schema(), fields)? else {
        return Err(Refusal::BadQuery);
    };
    match index.select(&pred) {
        Ok(selection) => copy_words(&selection, words),
        Err(AskError::NoMemory) => Err(Refusal::NoMemory),
        // By the proof this never is, since the columns of a predicate that was read are there.
        Err(AskError::BadColumn(_)) => Err(Refusal::BadQuery),
    }
}

/// Reads the predicate that the fields spell.
pub(crate) fn read_predicate(
    alloc: Global,
    schema: &Schema,
    fields: &[&[u8]],
) -> Result<Option<Pred>, NoMemory>
    ensures { IfOk result
        (IsReadAs (IsPredicate (schema_vocabulary schema.now) (map (λ f. f.now) fields.now))) }
{
    match bsi_syntax::read_predicate(alloc, schema, fields) {
        Ok(pred) => Ok(Some(pred)),
        Err(QuestionError::Stopped(_)) => Ok(None),
        Err(QuestionError::NoMemory) => Err(NoMemory),
    }
}

/// Reads the query that the fields ask.
pub(crate) fn read_query(
    alloc: Global,
    schema: &Schema,
    fields: &[&[u8]],
) -> Result<Option<Query>, NoMemory>
    ensures { IfOk result
        (IsReadAs (IsQueryIn Index (schema_vocabulary schema.now) (map (λ f. f.now) fields.now))) }
{
    match read_query_in(alloc, schema, Grammar::Index, fields) {
        Ok(query) => Ok(Some(query)),
        Err(QuestionError::Stopped(_)) => Ok(None),
        Err(QuestionError::NoMemory) => Err(NoMemory),
    }
}

/// Writes the words of a bitmap, if the buffer is large enough for these.
fn copy_words(selection: &Bits, words: &mut [u64]) -> Result<(), Refusal>
    ensures long { OnOk result (word_count (length selection.now.bits) ≤ length words.new) }
    ensures bits { OnOk result
        ((i : ℕ) → bit_of (take (word_count (length selection.now.bits)) words.new) i
        ≡ slice_index_or selection.now.bits i false) }
    ensures rest_unchanged { OnOk result (drop (word_count (length selection.now.bits)) words.new
        ≡ drop (word_count (length selection.now.bits)) words.old) }
    ensures short { IfErr result (λ why. (why ≡ Refusal.BufferTooSmall)
        × (length words.new < word_count (length selection.now.bits))) }
    ensures words_unchanged { OnErr result (words.new ≡ words.old) }
{
    let from = selection.words();
    if from.len() > words.len() {
        return Err(Refusal::BufferTooSmall);
    }
    words[..from.len()].copy_from_slice(from);
    Ok(())
}
