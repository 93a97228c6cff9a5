//! Tests of comparisons of columns with a constant, in every form, on worked rows. Each tolerates one refused
//! allocation, and then makes the same call again.

use bsi_bits::Bits;
use bsi_columns::{AnyColumn, Column, NoMemory, Op};
use bsi_fixtures::{FORMS, MakingError, TestForm, Wide, append, compared, empty_column, has_bits};
use std::alloc::Global;

/// The comparisons of the entries 3, none and 2.
const SHOWN: [(Op, u64, [bool; 3]); 7] = [
    (Op::Lt, 3, [false, false, true]),
    (Op::Ne, 3, [false, false, true]),
    (Op::Gt, 2, [true, false, false]),
    (Op::Lt, 0, [false, false, false]),
    (Op::Ge, 0, [true, false, true]),
    (Op::Le, 100, [true, false, true]),
    (Op::Eq, 15, [false, false, false]),
];

/// Returns whether a comparison selects just these rows.
pub(crate) fn selects<C: Column>(
    column: &C,
    op: Op,
    constant: u64,
    expected: &[bool],
) -> Result<bool, NoMemory> {
    let selection = compared(column, op, constant)?;
    Ok(has_bits(&selection, expected))
}

/// Returns whether each of those comparisons selects what it should.
pub(crate) fn selects_shown<C: Column>(column: &C) -> Result<bool, NoMemory> {
    for &(op, constant, expected) in &SHOWN {
        if !selects(column, op, constant, &expected)? {
            return Ok(false);
        }
    }
    Ok(true)
}

/// The bases 5 and 3, and as many slices as hold their numbers.
pub(crate) const FIFTEEN: Wide<'static> = Wide {
    width: 4,
    bases: &[5, 3],
};

/// Makes a column of these entries.
pub(crate) fn column_of(
    alloc: Global,
    form: TestForm,
    wide: Wide,
    entries: &[Option<u64>],
) -> Result<AnyColumn, MakingError> {
    let mut column = empty_column(alloc, form, wide)?;
    append(&mut column, entries)?;
    Ok(column)
}

/// Makes a column of the entries 3, none and 2.
pub(crate) fn three_rows(alloc: Global, form: TestForm) -> Result<AnyColumn, MakingError> {
    column_of(alloc, form, FIFTEEN, &[Some(3), None, Some(2)])
}

fn nulls_once(column: &AnyColumn) -> Result<Bits, NoMemory> {
    let mut out = column.not_null().copy()?;
    column.nulls_into(&mut out);
    Ok(out)
}

// Whether the nulls are these rows.
fn nulls_are(column: &AnyColumn, expected: &[bool]) -> Result<bool, NoMemory> {
    let nulls = match nulls_once(column) {
        Err(_) => nulls_once(column)?,
        Ok(nulls) => nulls,
    };
    Ok(has_bits(&nulls, expected))
}

fn answers_shown(column: &AnyColumn) -> Result<bool, MakingError> {
    Ok(selects_shown(column)? && nulls_are(column, &[false, true, false])?)
}

/// The bases 3 and 3, and as many slices as hold their numbers.
const NINE: Wide<'static> = Wide {
    width: 4,
    bases: &[3, 3],
};

/// How many of the entries 0, 4, 5 and 8 satisfy each comparison.
const COUNTED: [(Op, u64, u64); 14] = [
    (Op::Le, 5, 3),
    (Op::Le, 4, 2),
    (Op::Gt, 5, 1),
    (Op::Ge, 5, 2),
    (Op::Eq, 4, 1),
    (Op::Ne, 4, 3),
    (Op::Lt, 4, 1),
    (Op::Lt, 0, 0),
    (Op::Ge, 0, 4),
    (Op::Le, 100, 4),
    (Op::Gt, 100, 0),
    (Op::Eq, 9, 0),
    (Op::Ne, 9, 4),
    (Op::Lt, u64::MAX, 4),
];

// Whether each of those comparisons selects as many rows as it should.
fn counts_shown(column: &AnyColumn) -> Result<bool, NoMemory> {
    for &(op, constant, expected) in &COUNTED {
        if compared(column, op, constant)?.count() != expected {
            return Ok(false);
        }
    }
    Ok(true)
}

fn is_counted(alloc: Global, form: TestForm) -> Result<bool, MakingError> {
    let column = column_of(alloc, form, NINE, &[Some(0), Some(4), Some(5), Some(8)])?;
    Ok(counts_shown(&column)?)
}

fn is_compared(alloc: Global, form: TestForm) -> Result<bool, MakingError> {
    let column = three_rows(alloc, form)?;
    Ok(answers_shown(&column)? && is_counted(alloc, form)?)
}

#[test]
fn comparisons_table(rt: HostRuntime) {
    for &form in &FORMS {
        assert!(rt;
            matches!(is_compared(rt.alloc(), form), Ok(true)),
            "{form:?}"
        );
    }
}
