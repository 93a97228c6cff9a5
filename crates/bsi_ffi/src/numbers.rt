//! Writes for C numbers of a column at the rows that a predicate selects: those of some ranks, that of a quantile, and how
//! many different ones there are.

ghost use Rattle.std.specs.Prelude.{◌≡◌, ◌≤◌, ◌<◌, drop, length, map, take, IfErr, IfOk, OnErr, OnOk};
ghost use Rattle.std.specs.List.{AllZip};
ghost use Rattle.bsi_ffi.specs.Numbers.{AreRankedBy, HasDistinct, HasQuantile, IsAskedOn, IsUnasked};
ghost use Rattle.bsi_ffi.specs.Pairs.{IsFlatEntry};

use crate::open_index::OpenIndex;
use crate::pairs::{FlatEntry, flat_entry};
use crate::refusal::Refusal;
use crate::selection::read_predicate;
use bsi_aggregates::{Share, distinct, quantile, ranks};
use bsi_table::{AskError, Pred};
use std::alloc::Global;

/// Writes how many different numbers the column of a name has at the rows of the predicate that the fields spell.
pub(crate) fn reply_distinct(
    alloc: Global,
    opened: &OpenIndex,
    fields: &[&[u8]],
    name: &[u8],
    count: &mut u64,
) -> Result<(), Refusal>
    ensures counted { HasDistinct opened.now (map (λ f. f.now) fields.now) name.now count.new result }
    ensures count_unchanged { OnErr result (count.new ≡ count.old) }
{
    let (pred, c) = read_asked(alloc, opened, fields, name)?;
    match distinct(alloc, opened.index(), c, &pred) {
        Ok(distinct_count) => {
            *count = distinct_count;
            Ok(())
        }
        Err(refused) => Err(refusal_of(refused)),
    }
}

/// Writes the numbers of some ranks among those that the column of a name has at such rows.
pub(crate) fn reply_ranks(
    alloc: Global,
    opened: &OpenIndex,
    fields: &[&[u8]],
    name: &[u8],
    targets: &[u64],
    numbers: &mut [FlatEntry],
) -> Result<(), Refusal>
    ensures ranked { AreRankedBy opened.now (map (λ f. f.now) fields.now) name.now targets.now
        numbers.new result }
    ensures numbers_unchanged { OnErr result (numbers.new ≡ numbers.old) }
    ensures rest_unchanged { OnOk result (drop (length targets.now) numbers.new
        ≡ drop (length targets.now) numbers.old) }
{
    let (pred, c) = read_asked(alloc, opened, fields, name)?;
    if numbers.len() < targets.len() {
        return Err(Refusal::BufferTooSmall);
    }
    match ranks(alloc, opened.index(), c, targets, &pred) {
        Ok(made) => {
            write_numbers(&made, numbers);
            Ok(())
        }
        Err(refused) => Err(refusal_of(refused)),
    }
}

/// Writes the number at the end of `numerator` parts of `denominator` of the numbers that the column of a name has at
/// such rows.
pub(crate) fn reply_quantile(
    alloc: Global,
    opened: &OpenIndex,
    fields: &[&[u8]],
    name: &[u8],
    numerator: u64,
    denominator: u64,
    number: &mut FlatEntry,
) -> Result<(), Refusal>
    ensures quantile { HasQuantile opened.now (map (λ f. f.now) fields.now) name.now numerator denominator
        number.new result }
    ensures number_unchanged { OnErr result (number.new ≡ number.old) }
{
    let Some(share) = Share::new(numerator, denominator) else {
        return Err(Refusal::BadQuery);
    };
    let (pred, c) = read_asked(alloc, opened, fields, name)?;
    match quantile(opened.index(), c, share, &pred) {
        Ok(answer) => {
            *number = flat_entry(answer);
            Ok(())
        }
        Err(refused) => Err(refusal_of(refused)),
    }
}

/// Reads the predicate that the fields spell, and finds the column of a name.
pub(crate) fn read_asked(
    alloc: Global,
    opened: &OpenIndex,
    fields: &[&[u8]],
    name: &[u8],
) -> Result<(Pred, u32), Refusal>
    ensures asked { IfOk result (λ asked. IsAskedOn opened.now.table
        (map (λ f. f.now) fields.now) name.now asked.0 asked.1) }
    ensures refused { IfErr result (IsUnasked opened.now.table
        (map (λ f. f.now) fields.now) name.now) }
{
    let schema = opened.index().schema();
    let Some(pred) = read_predicate(alloc, schema, fields)? else {
        return Err(Refusal::BadQuery);
    };
    let Some(c) = schema.find(name) else {
        return Err(Refusal::BadQuery);
    };
    Ok((pred, c))
}

/// Returns the refusal of a call whose columns are there, so that it is for memory alone.
pub(crate) fn refusal_of(refused: AskError) -> Refusal
    ensures { (refused ≡ AskError.NoMemory) → (result ≡ Refusal.NoMemory) }
{
    match refused {
        AskError::NoMemory => Refusal::NoMemory,
        AskError::BadColumn(_) => Refusal::BadQuery,
    }
}

/// Writes numbers, for which the buffer is large enough.
fn write_numbers(made: &[Option<i64>], numbers: &mut [FlatEntry])
    requires { length made.now ≤ length numbers.old }
    ensures made { AllZip IsFlatEntry made.now (take (length made.now) numbers.new) }
    ensures long { length numbers.new ≡ length numbers.old }
    ensures rest_unchanged { drop (length made.now) numbers.new ≡ drop (length made.now) numbers.old }
{
    'numbers: for (at, number) in made.iter().enumerate() {
        numbers[at] = flat_entry(*number);
    }
}
