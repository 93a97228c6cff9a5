//! Tests of groups of worked rows by one column and by several. Where memory is refused, the same call is made again.

use crate::tables::{append_row, index_of};
use bsi_aggregates::{GroupError, Groups, group_by};
use bsi_columns::{NoMemory, Op};
use bsi_fixtures::{DeclaredColumn, FORMS, QTY, TestForm, row_of};
use bsi_table::{Answer, Index, IndexError, Pred, Query, Total};
use std::alloc::Global;

/// The rows: the entry that they are grouped by, and a number.
const ROWS: [[Option<i128>; 2]; 5] = [
    [Some(2), Some(5)],
    [None, Some(7)],
    [Some(-3), Some(1)],
    [Some(2), None],
    [Some(0), Some(3)],
];

// Appends them, each where it fits.
fn append_rows(alloc: Global, index: &mut Index) -> Result<(), NoMemory> {
    for &row in &ROWS {
        let row = row_of(alloc, &row)?;
        let _ = append_row(index, 0, &row);
    }
    Ok(())
}

// An index of these rows.
fn five_rows(alloc: Global, form: TestForm) -> Result<Index, IndexError> {
    let kind = DeclaredColumn {
        name: "kind",
        form,
        offset: -3,
        ..QTY
    };
    let mut index = index_of(alloc, &[kind, QTY], 1, 10)?;
    append_rows(alloc, &mut index)?;
    Ok(index)
}

fn grouped(
    alloc: Global,
    index: &Index,
    query: &Query,
    by: &[u32],
    most: usize,
) -> Result<Groups, GroupError> {
    match group_by(alloc, index, query, by, most) {
        Err(GroupError::NoMemory) => group_by(alloc, index, query, by, most),
        made => made,
    }
}

// Whether these are the entries of groups, and their answers.
fn are_groups<const N: usize>(made: &Groups, expected: &[([Option<i64>; N], Answer)]) -> bool {
    if made.len() != expected.len() {
        return false;
    }
    for k in 0..made.len() {
        let group = made.get(k);
        let (entries, answer) = &expected[k];
        if group.entries != entries.as_slice() || group.answer != answer {
            return false;
        }
    }
    true
}

// Whether these are the groups of the rows that a predicate selects, with the sums of their numbers.
fn has_groups(
    alloc: Global,
    index: &Index,
    pred: Pred,
    expected: &[([Option<i64>; 1], Answer)],
) -> bool {
    let total = Total::Sum(1);
    match grouped(alloc, index, &Query { total, pred }, &[0], expected.len()) {
        Ok(groups) => are_groups(&groups, expected),
        Err(_) => false,
    }
}

// Whether the groups are refused for this reason.
fn is_refused(alloc: Global, index: &Index, by: &[u32], most: usize, expected: GroupError) -> bool {
    let query = Query {
        total: Total::Count,
        pred: Pred::All,
    };
    match grouped(alloc, index, &query, by, most) {
        Ok(_) => false,
        Err(refused) => refused == expected,
    }
}

fn is_grouped(alloc: Global, form: TestForm) -> Result<bool, IndexError> {
    let index = five_rows(alloc, form)?;
    let all = [
        ([Some(-3)], Answer::Sum(1)),
        ([Some(0)], Answer::Sum(3)),
        ([Some(2)], Answer::Sum(5)),
        ([None], Answer::Sum(7)),
    ];
    let some = [([Some(2)], Answer::Sum(5)), ([None], Answer::Sum(7))];
    Ok(
        has_groups(alloc, &index, Pred::All, &all)
            && has_groups(alloc, &index, Pred::Compare(1, Op::Gt, 3), &some)
            && has_groups(alloc, &index, Pred::Compare(1, Op::Gt, 7), &[])
            && is_refused(alloc, &index, &[0], 3, GroupError::TooMany)
            && is_refused(alloc, &index, &[2], 3, GroupError::BadColumn(2))
            && is_refused(alloc, &index, &[0, 3, 2], 3, GroupError::BadColumn(3)),
    )
}

#[test]
fn groups_of_a_column(rt: HostRuntime) {
    for &form in &FORMS {
        assert!(rt;
            matches!(is_grouped(rt.alloc(), form), Ok(true)),
            "{form:?}"
        );
    }
}

// Whether each row has entries of its own, in this order, and one group less is too few.
fn has_counts<const N: usize>(
    alloc: Global,
    index: &Index,
    by: [u32; N],
    expected: &[([Option<i64>; N], Answer)],
) -> bool {
    let query = Query {
        total: Total::Count,
        pred: Pred::All,
    };
    let is_made = match grouped(alloc, index, &query, &by, 5) {
        Ok(groups) => are_groups(&groups, expected),
        Err(_) => false,
    };
    is_made && is_refused(alloc, index, &by, 4, GroupError::TooMany)
}

fn is_grouped_by_more(alloc: Global, form: TestForm) -> Result<bool, IndexError> {
    let index = five_rows(alloc, form)?;
    let pairs = [
        ([Some(-3), Some(1)], Answer::Count(1)),
        ([Some(0), Some(3)], Answer::Count(1)),
        ([Some(2), Some(5)], Answer::Count(1)),
        ([Some(2), None], Answer::Count(1)),
        ([None, Some(7)], Answer::Count(1)),
    ];
    let turned = [
        ([Some(1), Some(-3)], Answer::Count(1)),
        ([Some(3), Some(0)], Answer::Count(1)),
        ([Some(5), Some(2)], Answer::Count(1)),
        ([Some(7), None], Answer::Count(1)),
        ([None, Some(2)], Answer::Count(1)),
    ];
    let three = [
        ([Some(-3), Some(1), Some(-3)], Answer::Count(1)),
        ([Some(0), Some(3), Some(0)], Answer::Count(1)),
        ([Some(2), Some(5), Some(2)], Answer::Count(1)),
        ([Some(2), None, Some(2)], Answer::Count(1)),
        ([None, Some(7), None], Answer::Count(1)),
    ];
    Ok(
        has_counts(alloc, &index, [0, 1], &pairs)
            && has_counts(alloc, &index, [1, 0], &turned)
            && has_counts(alloc, &index, [0, 1, 0], &three),
    )
}

#[test]
fn groups_of_two_columns_and_three(rt: HostRuntime) {
    for &form in &FORMS {
        assert!(rt;
            matches!(is_grouped_by_more(rt.alloc(), form), Ok(true)),
            "{form:?}"
        );
    }
}
