//! Tests of ranks, quantiles, different numbers and first rows of worked rows. Where memory is refused to a call, the
//! same call is made again.

use crate::tables::{append_row, index_of};
use bsi_aggregates::{Extreme, Share, TopRow, distinct, quantile, ranks, top};
use bsi_columns::{NoMemory, Op};
use bsi_fixtures::{DeclaredColumn, FORMS, QTY, TestForm, row_of};
use bsi_table::{AskError, Index, IndexError, Pred};
use std::alloc::Global;

/// The rows: the number that is read, and one to select by.
const ROWS: [[Option<i128>; 2]; 6] = [
    [Some(2), Some(5)],
    [None, Some(7)],
    [Some(-3), Some(1)],
    [Some(2), Some(4)],
    [Some(0), Some(6)],
    [Some(-3), None],
];

/// Selects the rows 0, 1, 3 and 4.
const SOME: Pred = Pred::Compare(1, Op::Gt, 3);

// Appends them, each where it fits.
fn append_rows(alloc: Global, index: &mut Index) -> Result<(), NoMemory> {
    for &row in &ROWS {
        let row = row_of(alloc, &row)?;
        let _ = append_row(index, 0, &row);
    }
    Ok(())
}

// An index of these rows.
fn six_rows(alloc: Global, form: TestForm) -> Result<Index, IndexError> {
    let number = DeclaredColumn {
        name: "number",
        form,
        offset: -3,
        ..QTY
    };
    let mut index = index_of(alloc, &[number, QTY], 1, 10)?;
    append_rows(alloc, &mut index)?;
    Ok(index)
}

fn ranked(alloc: Global, index: &Index, c: u32, pred: &Pred) -> Result<Vec<Option<i64>>, AskError> {
    match ranks(alloc, index, c, &[3, 0, 2, 5], pred) {
        Err(AskError::NoMemory) => ranks(alloc, index, c, &[3, 0, 2, 5], pred),
        made => made,
    }
}

// Whether these are the numbers of the ranks 3, 0, 2 and 5.
fn has_ranks(alloc: Global, index: &Index, pred: &Pred, expected: &[Option<i64>]) -> bool {
    match ranked(alloc, index, 0, pred) {
        Ok(numbers) => numbers.as_slice() == expected,
        Err(_) => false,
    }
}

fn is_ranked(alloc: Global, form: TestForm) -> Result<bool, IndexError> {
    let index = six_rows(alloc, form)?;
    let all = [Some(2), Some(-3), Some(0), None];
    let some = [None, Some(0), Some(2), None];
    let refused = ranked(alloc, &index, 2, &Pred::Null(5));
    Ok(
        has_ranks(alloc, &index, &Pred::All, &all)
            && has_ranks(alloc, &index, &SOME, &some)
            && matches!(refused, Err(AskError::BadColumn(2))),
    )
}

#[test]
fn ranks_of_a_column(rt: HostRuntime) {
    for &form in &FORMS {
        assert!(rt; matches!(is_ranked(rt.alloc(), form), Ok(true)), "{form:?}");
    }
}

fn quantile_at(index: &Index, c: u32, share: Share, pred: &Pred) -> Result<Option<i64>, AskError> {
    match quantile(index, c, share, pred) {
        Err(AskError::NoMemory) => quantile(index, c, share, pred),
        answer => answer,
    }
}

// Of the numbers -3, -3, 0, 2 and 2 of all rows, of 0, 2 and 2, and of none.
fn has_quantiles(alloc: Global, form: TestForm) -> Result<bool, IndexError> {
    let index = six_rows(alloc, form)?;
    let (Some(half), Some(most)) = (Share::new(1, 2), Share::new(4, 5)) else {
        return Ok(false);
    };
    Ok(
        quantile_at(&index, 0, half, &Pred::All) == Ok(Some(0))
            && quantile_at(&index, 0, most, &Pred::All) == Ok(Some(2))
            && quantile_at(&index, 0, half, &SOME) == Ok(Some(2))
            && quantile_at(&index, 0, half, &Pred::Null(0)) == Ok(None)
            && quantile_at(&index, 2, half, &Pred::All) == Err(AskError::BadColumn(2)),
    )
}

#[test]
fn quantiles_of_a_column(rt: HostRuntime) {
    for &form in &FORMS {
        assert!(rt;
            matches!(has_quantiles(rt.alloc(), form), Ok(true)),
            "{form:?}"
        );
    }
}

#[test]
fn a_share_has_a_denominator(rt: HostRuntime) {
    let none = Share::new(3, 2).is_none() && Share::new(0, 0).is_none();
    assert!(rt; none && Share::new(2, 2).is_some(), "a share");
}

fn differing(alloc: Global, index: &Index, c: u32, pred: &Pred) -> Result<u64, AskError> {
    match distinct(alloc, index, c, pred) {
        Err(AskError::NoMemory) => distinct(alloc, index, c, pred),
        counted => counted,
    }
}

fn is_counted(alloc: Global, form: TestForm) -> Result<bool, IndexError> {
    let index = six_rows(alloc, form)?;
    Ok(
        differing(alloc, &index, 0, &Pred::All) == Ok(3)
            && differing(alloc, &index, 0, &SOME) == Ok(2)
            && differing(alloc, &index, 0, &Pred::Null(5)) == Err(AskError::BadColumn(5)),
    )
}

#[test]
fn different_numbers_of_a_column(rt: HostRuntime) {
    for &form in &FORMS {
        assert!(rt;
            matches!(is_counted(rt.alloc(), form), Ok(true)),
            "{form:?}"
        );
    }
}

fn listed(
    alloc: Global,
    index: &Index,
    most: usize,
    extreme: Extreme,
    pred: &Pred,
) -> Result<Vec<TopRow>, AskError> {
    match top(alloc, index, 0, most, extreme, pred) {
        Err(AskError::NoMemory) => top(alloc, index, 0, most, extreme, pred),
        made => made,
    }
}

fn is_row(row: &TopRow, expected: (u64, i64)) -> bool {
    let (position, number) = expected;
    row.row == position && row.number == number
}

// Whether these are the first four rows, each with its number.
fn has_first(
    alloc: Global,
    index: &Index,
    extreme: Extreme,
    pred: &Pred,
    expected: &[(u64, i64)],
) -> bool {
    match listed(alloc, index, 4, extreme, pred) {
        Ok(rows) => {
            rows.len() == expected.len()
                && rows
                    .iter()
                    .zip(expected)
                    .all(|(row, expected)| is_row(row, *expected))
        }
        Err(_) => false,
    }
}

fn is_listed(alloc: Global, form: TestForm) -> Result<bool, IndexError> {
    let index = six_rows(alloc, form)?;
    let greatest = [(0, 2), (3, 2), (4, 0), (2, -3)];
    let least = [(4, 0), (0, 2), (3, 2)];
    let refused = listed(alloc, &index, 4, Extreme::Least, &Pred::Null(5));
    Ok(
        has_first(alloc, &index, Extreme::Greatest, &Pred::All, &greatest)
            && has_first(alloc, &index, Extreme::Least, &SOME, &least)
            && matches!(refused, Err(AskError::BadColumn(5))),
    )
}

#[test]
fn first_rows_by_a_column(rt: HostRuntime) {
    for &form in &FORMS {
        assert!(rt; matches!(is_listed(rt.alloc(), form), Ok(true)), "{form:?}");
    }
}
