//! Tests of sums, and of the least, the greatest and the median numbers of columns, on worked rows.

ghost use Rattle.std.specs.Prelude.{◌≡◌, ◌≤◌, length};
ghost use Rattle.bsi_bits.specs.BitList.{max_len};

use crate::comparisons::{column_of, selects};
use bsi_bits::Bits;
use bsi_columns::{AnyColumn, Column, NoMemory, Op};
use bsi_fixtures::{FORMS, MakingError, TestForm, Wide};
use std::alloc::Global;

/// The sum of some numbers, and the least, the greatest and the lower median, where there are numbers.
type Totals = (u128, [Option<u64>; 3]);

/// The totals of no numbers.
const NOTHING: Totals = (0, [None; 3]);

// Returns the totals over the selected rows, by one call for each.
fn totals_once<C: Column>(column: &C, selection: &Bits) -> Result<Totals, NoMemory>
    requires { length (C.entries column.now) ≡ length selection.now.bits }
{
    let least = column.least(selection)?;
    let greatest = column.greatest(selection)?;
    let median = column.median(selection)?;
    Ok((column.sum(selection), [least, greatest, median]))
}

// Returns the totals over the selected rows. If memory is refused, it asks for all of them again.
fn totals_of<C: Column>(column: &C, selection: &Bits) -> Result<Totals, NoMemory> {
    if column.len() != selection.len() {
        return Ok(NOTHING);
    }
    match totals_once(column, selection) {
        Err(_) => totals_once(column, selection),
        totals => totals,
    }
}

/// Some of the first rows, as places of a word, and the totals of their numbers.
type Selected = (u64, Totals);

fn selection_once(alloc: Global, word: u64, rows: u64) -> Result<Bits, NoMemory>
    requires { rows ≤ max_len }
{
    let words = vec![in alloc; word; rows.div_ceil(64) as usize]?;
    Ok(Bits::from_words(words, rows))
}

// So many rows, of which those are selected that the word says of each 64.
fn selection_of(alloc: Global, word: u64, rows: u64) -> Result<Bits, NoMemory>
    requires { rows ≤ max_len }
{
    match selection_once(alloc, word, rows) {
        Err(_) => selection_once(alloc, word, rows),
        made => made,
    }
}

// Whether a column comes to these totals over the selected rows.
fn comes_to(alloc: Global, column: &AnyColumn, selection: Selected) -> Result<bool, MakingError> {
    let (word, expected) = selection;
    let selection = selection_of(alloc, word, column.len())?;
    Ok(totals_of(column, &selection)? == expected)
}

const NARROW: Wide<'static> = Wide {
    width: 3,
    bases: &[2, 4],
};

/// As wide as a column can be.
const WIDEST: Wide<'static> = Wide {
    width: 63,
    bases: &[512; 7],
};

/// The greatest number of the widest column, 2^63 - 1.
const GREATEST: u64 = u64::MAX / 2;

// Whether entries come to these totals.
fn works(
    alloc: Global,
    form: TestForm,
    wide: Wide,
    entries: &[Option<u64>],
    expected: Selected,
) -> Result<bool, MakingError> {
    let column = column_of(alloc, form, wide, entries)?;
    comes_to(alloc, &column, expected)
}

/// A width, entries, and the totals of those rows that the word selects.
const TABLE: [(Wide, &[Option<u64>], Selected); 7] = [
    (NARROW, &[Some(5), None], (0b11, (5, [Some(5); 3]))),
    (NARROW, &[Some(5), None], (0b10, NOTHING)),
    (
        NARROW,
        &[None, None, Some(5), None, Some(2), Some(7)],
        (0b111111, (14, [Some(2), Some(7), Some(5)])),
    ),
    (
        NARROW,
        &[Some(5), None, Some(0)],
        (0b111, (5, [Some(0), Some(5), Some(0)])),
    ),
    (
        NARROW,
        &[Some(1), Some(2), Some(3), Some(4)],
        (0b1111, (10, [Some(1), Some(4), Some(2)])),
    ),
    (
        NARROW,
        &[Some(7), Some(7), None],
        (0b111, (14, [Some(7); 3])),
    ),
    (
        WIDEST,
        &[Some(GREATEST); 3],
        (0b111, (27_670_116_110_564_327_421, [Some(GREATEST); 3])),
    ),
];

fn all_work(alloc: Global, form: TestForm) -> Result<bool, MakingError> {
    for &(wide, entries, expected) in &TABLE {
        if !works(alloc, form, wide, entries, expected)? {
            return Ok(false);
        }
    }
    Ok(true)
}

#[test]
fn totals_table(rt: HostRuntime) {
    for &form in &FORMS {
        assert!(rt; matches!(all_work(rt.alloc(), form), Ok(true)), "{form:?}");
    }
}

fn selects_numbers(column: &AnyColumn) -> Result<bool, MakingError> {
    Ok(selects(column, Op::Ge, 0, &[true, false, true])?)
}

fn selects_the_numbers(alloc: Global, form: TestForm) -> Result<bool, MakingError> {
    let column = column_of(alloc, form, NARROW, &[Some(5), None, Some(0)])?;
    selects_numbers(&column)
}

#[test]
fn bits_and_columns_select_numbers_and_no_null(rt: HostRuntime) {
    for &form in &FORMS {
        assert!(rt;
            matches!(selects_the_numbers(rt.alloc(), form), Ok(true)),
            "{form:?}"
        );
    }
}
