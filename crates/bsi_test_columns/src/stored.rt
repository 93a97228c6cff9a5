//! Tests of what each form stores of a row, and that a column works by the calls of its components.

use crate::comparisons::FIFTEEN;
use bsi_bits::Bits;
use bsi_columns::{
    Column, Decomposed, Encoding, EqualityComponent, NoMemory, Op, RangeComponent, Slices,
};
use bsi_fixtures::{MakingError, WholeVectors, append, empty_decomposed, empty_slices, has_bits};
use std::alloc::Global;

const ENTRIES: [Option<u64>; 3] = [Some(3), None, Some(2)];

// Which of the entries are numbers.
const NUMBERS: [bool; 3] = [true, false, true];

fn digits_of<E: Encoding>(alloc: Global) -> Result<Decomposed<E>, MakingError> {
    let mut column = empty_decomposed::<E>(alloc, FIFTEEN.bases)?;
    append(&mut column, &ENTRIES)?;
    Ok(column)
}

fn equality_shows(
    column: &Decomposed<EqualityComponent>,
    i: u32,
    j: u32,
    expected: &[bool],
) -> bool {
    if i >= column.bases().len() {
        return false;
    }
    let component = column.component(i);
    component.base() > 2 && j < component.base() && has_bits(component.bitmap(j), expected)
}

fn equality_stores(alloc: Global) -> Result<bool, MakingError> {
    let column = digits_of::<EqualityComponent>(alloc)?;
    Ok(
        has_bits(column.not_null(), &NUMBERS)
            && equality_shows(&column, 0, 2, &[false, false, true])
            && equality_shows(&column, 1, 1, &[true, false, false]),
    )
}

fn range_shows(column: &Decomposed<RangeComponent>, i: u32, j: u32, expected: &[bool]) -> bool {
    if i >= column.bases().len() {
        return false;
    }
    let component = column.component(i);
    j < component.base() - 1 && has_bits(component.bitmap(j), expected)
}

fn range_stores(alloc: Global) -> Result<bool, MakingError> {
    let column = digits_of::<RangeComponent>(alloc)?;
    Ok(has_bits(column.not_null(), &NUMBERS) && range_shows(&column, 0, 0, &[true, true, false]))
}

fn slice_shows(column: &Slices, i: u32, expected: &[bool]) -> bool {
    i < column.width() && has_bits(column.slice(i), expected)
}

fn slices_store(alloc: Global) -> Result<bool, MakingError> {
    let mut column = empty_slices(alloc, 2)?;
    append(&mut column, &ENTRIES)?;
    Ok(
        has_bits(column.not_null(), &NUMBERS)
            && slice_shows(&column, 0, &[true, false, false])
            && slice_shows(&column, 1, &[true, false, true]),
    )
}

fn bitmaps_are_stored(alloc: Global) -> Result<bool, MakingError> {
    Ok(equality_stores(alloc)? && range_stores(alloc)? && slices_store(alloc)?)
}

#[test]
fn stored_bits(rt: HostRuntime) {
    assert!(rt; matches!(bitmaps_are_stored(rt.alloc()), Ok(true)));
}

type Counted<E> = Decomposed<WholeVectors<E>>;

// How many calls of a component wrote a vector, and how many sums it was asked for.
#[derive(Clone, Copy)]
struct CallCounts {
    calls: u32,
    sums: u32,
}

fn asked<E: Encoding>(column: &Counted<E>, i: u32) -> CallCounts {
    if i >= column.bases().len() {
        return CallCounts { calls: 0, sums: 0 };
    }
    let component = column.component(i);
    CallCounts {
        calls: component.calls(),
        sums: component.sums(),
    }
}

// A column of 100 rows: the numbers below 15 by turns.
fn hundred_rows<E: Encoding>(alloc: Global) -> Result<Counted<E>, MakingError> {
    let mut column = empty_decomposed::<WholeVectors<E>>(alloc, FIFTEEN.bases)?;
    for row in 0..100 {
        append(&mut column, &[Some(row % 15)])?;
    }
    Ok(column)
}

// The rows at most 7.
fn at_most_seven<E: Encoding>(column: &Counted<E>) -> Result<Bits, NoMemory> {
    match column.compare(Op::Le, 7) {
        Err(_) => column.compare(Op::Le, 7),
        selection => selection,
    }
}

fn is_one_to_four(after: CallCounts, before: CallCounts) -> bool {
    after.calls > before.calls && after.calls - before.calls <= 4
}

// Whether a comparison calls each component one to four times, if its encoding has no calls on spans.
fn compares_by_components<E: Encoding>(column: &Counted<E>) -> Result<bool, NoMemory> {
    let (first, second) = (asked(column, 0), asked(column, 1));
    let selection = at_most_seven(column)?;
    let called = is_one_to_four(asked(column, 0), first)
        && is_one_to_four(asked(column, 1), second);
    Ok(called && selection.count() == 56)
}

// Whether a sum asks each component.
fn sums_by_components<E: Encoding>(column: &Counted<E>) -> bool {
    let (first, second) = (asked(column, 0), asked(column, 1));
    let sum = column.sum(column.not_null());
    sum == 675 && asked(column, 0).sums > first.sums && asked(column, 1).sums > second.sums
}

fn has_components<E: Encoding>(column: &Counted<E>) -> Result<bool, MakingError> {
    Ok(compares_by_components(column)? && sums_by_components(column))
}

fn works_by_components<E: Encoding>(alloc: Global) -> Result<bool, MakingError> {
    let column = hundred_rows::<E>(alloc)?;
    has_components(&column)
}

fn both_work_by_components(alloc: Global) -> Result<bool, MakingError> {
    Ok(
        works_by_components::<RangeComponent>(alloc)?
            && works_by_components::<EqualityComponent>(alloc)?,
    )
}

#[test]
fn a_column_works_by_its_components(rt: HostRuntime) {
    assert!(rt; matches!(both_work_by_components(rt.alloc()), Ok(true)));
}
