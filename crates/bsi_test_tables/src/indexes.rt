//! Tests of a schema and an index on worked rows: totals, nulls, compared columns, stored bits, copies and refusals.
//! Each tolerates one refused allocation, and then makes the same call again.

use crate::tables::{answer, append_row, has_rows, index_of, lists};
use bsi_columns::{AnyColumn, NoMemory, Op};
use bsi_digits::BasesError;
use bsi_fixtures::{
    DeclaredColumn, FORMS, QTY, TestForm, Wide, add, both, either, has_bits, not, row_of,
};
use bsi_table::{
    Answer, AppendError, AskError, Index, IndexError, Pred, Row, Schema, SchemaError, Total,
};
use std::alloc::Global;

/// Rows of one number: the feeder, and the number.
const ROWS: [(u32, i128); 3] = [(1, 2), (0, 1), (0, 3)];

// Appends them, each where it fits.
fn append_rows(alloc: Global, index: &mut Index) -> Result<(), NoMemory> {
    for &(feeder, number) in &ROWS {
        let row = row_of(alloc, &[Some(number)])?;
        let _ = append_row(index, feeder, &row);
    }
    Ok(())
}

// An index of these rows.
fn three_rows(alloc: Global, form: TestForm) -> Result<Index, IndexError> {
    let column = DeclaredColumn { form, ..QTY };
    let mut index = index_of(alloc, &[column], 2, 10)?;
    append_rows(alloc, &mut index)?;
    Ok(index)
}

// Whether the first missing column of a query is returned.
fn returns_missing(alloc: Global, index: &Index) -> Result<bool, NoMemory> {
    let left = both(alloc, Pred::Null(4), Pred::Null(2))?;
    let count = answer(index, Total::Count, left);
    let sum = answer(index, Total::Sum(3), Pred::Null(5));
    Ok(sum == Err(AskError::BadColumn(3)) && count == Err(AskError::BadColumn(4)))
}

// Whether the negation of all rows lists none.
fn lists_none(alloc: Global, index: &Index) -> Result<bool, NoMemory> {
    let none = not(alloc, Pred::All)?;
    Ok(lists(index, none, &[]))
}

// Whether these rows are answered as they should be.
fn answers(alloc: Global, index: &Index) -> Result<bool, NoMemory> {
    let listed = lists(index, Pred::All, &[(1, 0), (0, 0), (0, 1)])
        && lists(index, Pred::Compare(0, Op::Ge, 3), &[(0, 1)]);
    Ok(listed && lists_none(alloc, index)? && returns_missing(alloc, index)?)
}

// Whether they are, and are three.
fn answers_three(alloc: Global, index: &Index) -> Result<bool, IndexError> {
    Ok(answers(alloc, index)? && has_rows(index, 3))
}

fn is_answered(alloc: Global, form: TestForm) -> Result<bool, IndexError> {
    let index = three_rows(alloc, form)?;
    answers_three(alloc, &index)
}

#[test]
fn index_calls(rt: HostRuntime) {
    for &form in &FORMS {
        assert!(rt;
            matches!(is_answered(rt.alloc(), form), Ok(true)),
            "{form:?}"
        );
    }
}

// An index of rows of one entry each, of feeder 0.
fn rows_of(alloc: Global, form: TestForm, entries: &[Option<i128>]) -> Result<Index, IndexError> {
    let mut index = index_of(alloc, &[DeclaredColumn { form, ..QTY }], 1, 10)?;
    for entry in entries {
        let row = row_of(alloc, &[*entry])?;
        let _ = append_row(&mut index, 0, &row);
    }
    Ok(index)
}

// Whether the predicate selects so many rows.
fn counts(index: &Index, pred: Pred, expected: u64) -> bool {
    answer(index, Total::Count, pred) == Ok(Answer::Count(expected))
}

// Whether the numbers come to this sum.
fn sums(index: &Index, pred: Pred, expected: i128) -> bool {
    answer(index, Total::Sum(0), pred) == Ok(Answer::Sum(expected))
}

// Whether a total of the numbers is this one.
fn is_value(index: &Index, total: Total, pred: Pred, expected: Option<i64>) -> bool {
    answer(index, total, pred) == Ok(Answer::Value(expected))
}

// Whether of 5 and a null the null satisfies no comparison, and each negation of one.
fn null_is_no_number(alloc: Global, index: &Index) -> Result<bool, NoMemory> {
    let not_five = not(alloc, Pred::Compare(0, Op::Eq, 5))?;
    Ok(
        counts(index, Pred::Compare(0, Op::Ne, 5), 0)
            && counts(index, not_five, 1)
            && counts(index, Pred::Null(0), 1)
            && counts(index, Pred::All, 2)
            && counts(index, Pred::Compare(0, Op::Le, 7), 1)
            && sums(index, Pred::All, 5),
    )
}

// Whether of 1, 2, 3 and 4 the median is the lower one in the middle, a conjunction lists what both select, and a
// disjunction counts what either does.
fn tie_goes_low(alloc: Global, index: &Index) -> Result<bool, NoMemory> {
    let between = both(
        alloc,
        Pred::Compare(0, Op::Gt, 1),
        Pred::Compare(0, Op::Lt, 4),
    )?;
    let ends = either(
        alloc,
        Pred::Compare(0, Op::Eq, 1),
        Pred::Compare(0, Op::Eq, 4),
    )?;
    let from_two = Pred::Compare(0, Op::Ge, 2);
    Ok(
        is_value(index, Total::Median(0), Pred::All, Some(2))
            && is_value(index, Total::Median(0), from_two, Some(3))
            && is_value(index, Total::Least(0), Pred::All, Some(1))
            && is_value(index, Total::Greatest(0), Pred::All, Some(4))
            && lists(index, between, &[(0, 1), (0, 2)])
            && counts(index, ends, 2),
    )
}

// Whether of 7, 7 and a null the repeated number is each total, and the null none.
fn repeats_count(index: &Index) -> bool {
    is_value(index, Total::Median(0), Pred::All, Some(7))
        && is_value(index, Total::Least(0), Pred::All, Some(7))
        && is_value(index, Total::Greatest(0), Pred::All, Some(7))
        && sums(index, Pred::All, 14)
        && is_value(index, Total::Least(0), Pred::Null(0), None)
        && sums(index, Pred::Null(0), 0)
}

// Whether indexes of these rows answer so.
fn read_as_they_should(alloc: Global, form: TestForm) -> Result<bool, IndexError> {
    let null = rows_of(alloc, form, &[Some(5), None])?;
    let tie = rows_of(alloc, form, &[Some(1), Some(2), Some(3), Some(4)])?;
    let repeats = rows_of(alloc, form, &[Some(7), Some(7), None])?;
    Ok(null_is_no_number(alloc, &null)? && tie_goes_low(alloc, &tie)? && repeats_count(&repeats))
}

#[test]
fn nulls_ties_and_repeats(rt: HostRuntime) {
    for &form in &FORMS {
        assert!(rt;
            matches!(read_as_they_should(rt.alloc(), form), Ok(true)),
            "{form:?}"
        );
    }
}

/// Rows of two numbers below 15. Under the bases 5 and 3 the least significant digits of the first and of the second row
/// stand to each other otherwise than the numbers.
const PAIRS: [[Option<i128>; 2]; 5] = [
    [Some(5), Some(12)],
    [Some(9), Some(8)],
    [None, Some(1)],
    [Some(7), Some(7)],
    [Some(2), None],
];

/// The rows of feeder 0 whose first number compares so with the second.
const RELATED: [(Op, &[(u32, u64)]); 6] = [
    (Op::Lt, &[(0, 0)]),
    (Op::Le, &[(0, 0), (0, 3)]),
    (Op::Eq, &[(0, 3)]),
    (Op::Ne, &[(0, 0), (0, 1)]),
    (Op::Gt, &[(0, 1)]),
    (Op::Ge, &[(0, 1), (0, 3)]),
];

// Appends these rows, each where it fits.
fn append_pairs(alloc: Global, index: &mut Index) -> Result<(), NoMemory> {
    for &pair in &PAIRS {
        let row = row_of(alloc, &pair)?;
        let _ = append_row(index, 0, &row);
    }
    Ok(())
}

// An index of them, in two columns of these forms.
fn paired_rows(alloc: Global, first: TestForm, second: TestForm) -> Result<Index, IndexError> {
    let wide = Wide {
        width: 4,
        bases: &[5, 3],
    };
    let own = DeclaredColumn {
        form: first,
        wide,
        ..QTY
    };
    let other = DeclaredColumn {
        name: "other",
        form: second,
        ..own
    };
    let mut index = index_of(alloc, &[own, other], 1, 10)?;
    append_pairs(alloc, &mut index)?;
    Ok(index)
}

// Whether each comparison of the two columns lists the rows that it should.
fn is_related(alloc: Global, first: TestForm, second: TestForm) -> Result<bool, IndexError> {
    let index = paired_rows(alloc, first, second)?;
    let mut right = true;
    for &(op, expected) in &RELATED {
        right &= lists(&index, Pred::Columns(0, op, 1), expected);
    }
    Ok(right)
}

// Whether they do with a second column of each form.
fn relates_to_each(alloc: Global, first: TestForm) -> Result<bool, IndexError> {
    let mut right = true;
    for &second in &FORMS {
        right &= is_related(alloc, first, second)?;
    }
    Ok(right)
}

#[test]
fn columns_of_every_form_are_compared(rt: HostRuntime) {
    for &form in &FORMS {
        assert!(rt;
            matches!(relates_to_each(rt.alloc(), form), Ok(true)),
            "{form:?}"
        );
    }
}

// Whether the number of this rank among all rows is the expected one.
fn has_rank(index: &Index, rank: u64, expected: Option<i64>) -> bool {
    answer(index, Total::Rank(0, rank), Pred::All) == Ok(Answer::Value(expected))
}

// Whether the numbers of three rows are returned for their ranks, and none past the last.
fn has_three_ranks(index: &Index) -> bool {
    has_rank(index, 0, Some(1))
        && has_rank(index, 1, Some(2))
        && has_rank(index, 2, Some(3))
        && has_rank(index, 3, None)
}

fn is_ranked(alloc: Global, form: TestForm) -> Result<bool, IndexError> {
    let column = DeclaredColumn {
        form,
        offset: -3,
        ..QTY
    };
    let mut index = index_of(alloc, &[column], 2, 10)?;
    append_rows(alloc, &mut index)?;
    Ok(has_three_ranks(&index))
}

#[test]
fn ranks_of_a_column_with_an_offset(rt: HostRuntime) {
    for &form in &FORMS {
        assert!(rt; matches!(is_ranked(rt.alloc(), form), Ok(true)), "{form:?}");
    }
}

// Whether the first slice of a column is this one.
fn first_slice_is(index: &Index, expected: &[bool]) -> bool {
    if index.schema().columns() == 0 {
        return false;
    }
    match index.column(0).stored() {
        AnyColumn::Slices(slices) if slices.width() > 0 => has_bits(slices.slice(0), expected),
        _ => false,
    }
}

fn stores_slices(alloc: Global) -> Result<bool, IndexError> {
    let index = three_rows(alloc, TestForm::Slices)?;
    Ok(first_slice_is(&index, &[false, true, true]))
}

#[test]
fn stored_bits_of_an_index(rt: HostRuntime) {
    assert!(rt; matches!(stores_slices(rt.alloc()), Ok(true)));
}

fn copied_index(index: &Index) -> Result<Index, NoMemory> {
    match index.copy() {
        Err(_) => index.copy(),
        copy => copy,
    }
}

// Whether a row of feeder 0 is appended to three others.
fn accepts_a_fourth(alloc: Global, index: &mut Index) -> Result<bool, NoMemory> {
    let row = row_of(alloc, &[Some(7)])?;
    let appended = append_row(index, 0, &row);
    Ok(appended == Some(Ok(3)) && has_rows(index, 4))
}

// Whether a copy answers as its index does, and accepts a row more.
fn is_alike(alloc: Global, copy: &mut Index) -> Result<bool, NoMemory> {
    Ok(answers(alloc, copy)? && accepts_a_fourth(alloc, copy)?)
}

fn is_copied(alloc: Global, index: &Index) -> Result<bool, NoMemory> {
    let mut copy = copied_index(index)?;
    is_alike(alloc, &mut copy)
}

// Whether the index then has its three rows.
fn is_unchanged(alloc: Global, index: &Index) -> Result<bool, IndexError> {
    Ok(is_copied(alloc, index)? && has_rows(index, 3))
}

fn is_independent(alloc: Global, form: TestForm) -> Result<bool, IndexError> {
    let index = three_rows(alloc, form)?;
    is_unchanged(alloc, &index)
}

#[test]
fn a_copy_of_an_index_is_independent(rt: HostRuntime) {
    for &form in &FORMS {
        assert!(rt;
            matches!(is_independent(rt.alloc(), form), Ok(true)),
            "{form:?}"
        );
    }
}

fn copied_schema(schema: &Schema) -> Result<Schema, NoMemory> {
    match schema.copy() {
        Err(_) => schema.copy(),
        copy => copy,
    }
}

// Whether the schema has the column qty alone.
fn has_quantities(schema: &Schema) -> bool {
    schema.columns() == 1
        && !schema.signed()
        && schema.position("qty") == Some(0)
        && schema.name(0) == "qty"
        && schema.size(0) == 8
        && schema.offset(0) == 0
}

fn is_copied_whole(schema: &Schema) -> Result<bool, SchemaError> {
    let copy = copied_schema(schema)?;
    Ok(has_quantities(&copy))
}

/// Columns that a schema with the column qty refuses, and why.
const REFUSED: [(DeclaredColumn, SchemaError); 4] = [
    (QTY, SchemaError::NameTaken),
    (DeclaredColumn { name: "Qty", ..QTY }, SchemaError::BadName),
    (
        DeclaredColumn {
            name: "none",
            form: TestForm::Range,
            wide: Wide {
                width: 0,
                bases: &[],
            },
            offset: 0,
        },
        SchemaError::BadBases(BasesError::Empty),
    ),
    (
        DeclaredColumn {
            name: "wide",
            wide: Wide {
                width: 63,
                bases: &[],
            },
            offset: 1,
            ..QTY
        },
        SchemaError::BadOffset,
    ),
];

// Whether the schema takes the column qty, and none of those that it is to refuse.
fn accepts_quantities(alloc: Global, schema: &mut Schema) -> Result<bool, SchemaError> {
    add(alloc, schema, QTY)?;
    for &(column, why) in &REFUSED {
        if add(alloc, schema, column) != Err(why) {
            return Ok(false);
        }
    }
    is_copied_whole(schema)
}

/// As many names as a schema can have columns.
const NAMES: [&str; 64] = [
    "c0", "c1", "c2", "c3", "c4", "c5", "c6", "c7", "c8", "c9", "c10", "c11", "c12", "c13", "c14",
    "c15", "c16", "c17", "c18", "c19", "c20", "c21", "c22", "c23", "c24", "c25", "c26", "c27",
    "c28", "c29", "c30", "c31", "c32", "c33", "c34", "c35", "c36", "c37", "c38", "c39", "c40",
    "c41", "c42", "c43", "c44", "c45", "c46", "c47", "c48", "c49", "c50", "c51", "c52", "c53",
    "c54", "c55", "c56", "c57", "c58", "c59", "c60", "c61", "c62", "c63",
];

// Whether it takes so many columns, and not one more.
fn accepts_no_more(alloc: Global, schema: &mut Schema) -> Result<bool, SchemaError> {
    for &name in &NAMES {
        add(alloc, schema, DeclaredColumn { name, ..QTY })?;
    }
    let more = add(alloc, schema, QTY);
    Ok(more == Err(SchemaError::TooManyColumns) && schema.columns() == 64)
}

fn accepts_what_it_should(alloc: Global) -> Result<bool, SchemaError> {
    let mut schema = Schema::new(alloc);
    let mut full = Schema::new(alloc);
    Ok(accepts_quantities(alloc, &mut schema)? && accepts_no_more(alloc, &mut full)?)
}

#[test]
fn makers_of_a_schema(rt: HostRuntime) {
    assert!(rt; matches!(accepts_what_it_should(rt.alloc()), Ok(true)));
}

// Whether an index of no columns is refused before one of no rows.
fn no_index_is_made(alloc: Global) -> bool {
    matches!(index_of(alloc, &[], 1, 0), Err(IndexError::NoColumns))
        && matches!(
            index_of(alloc, &[QTY], 1, 0),
            Err(IndexError::LimitOutOfRange)
        )
}

// Whether an index of at most one row takes one, and not a second.
fn accepts_one_row(alloc: Global) -> Result<bool, IndexError> {
    let row = row_of(alloc, &[Some(5)])?;
    let mut index = index_of(alloc, &[QTY], 1, 1)?;
    let first = append_row(&mut index, 0, &row);
    let second = append_row(&mut index, 0, &row);
    Ok(first == Some(Ok(0)) && second == Some(Err(AppendError::IndexFull)))
}

#[test]
fn makers_of_an_index(rt: HostRuntime) {
    assert!(rt; no_index_is_made(rt.alloc()) && matches!(accepts_one_row(rt.alloc()), Ok(true)));
}

fn copied_row(row: &Row) -> Result<Row, NoMemory> {
    match row.copy() {
        Err(_) => row.copy(),
        copy => copy,
    }
}

fn copy_is_the_row(alloc: Global) -> Result<bool, NoMemory> {
    let row = row_of(alloc, &[Some(5)])?;
    let copy = copied_row(&row)?;
    Ok(copy.values() == &[Some(5)][..])
}

#[test]
fn copies_of_a_row(rt: HostRuntime) {
    assert!(rt; matches!(copy_is_the_row(rt.alloc()), Ok(true)));
}
