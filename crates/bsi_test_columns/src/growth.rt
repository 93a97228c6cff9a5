//! Tests that a refused growth changes no column, and that a copy is independent of its column.

use crate::comparisons::{FIFTEEN, selects_shown, three_rows};
use bsi_bits::MAX_LEN;
use bsi_columns::{AnyColumn, Column, NoMemory};
use bsi_fixtures::{FORMS, MakingError, TestForm, append, empty_column};
use std::alloc::Global;

// Returns whether a growth succeeds.
fn grows(column: &mut AnyColumn) -> bool {
    column.len() < MAX_LEN && column.reserve_one().is_ok()
}

// Returns what a refused growth must not change.
fn state_of(column: &AnyColumn) -> (u64, u64, u64) {
    (column.len(), column.size(), column.not_null().count())
}

// Appends an entry, and returns whether a refused growth changes nothing. The growth is then tried again.
fn push(column: &mut AnyColumn, entry: Option<u64>) -> Result<bool, MakingError> {
    let before = state_of(column);
    let stayed = grows(column) || state_of(column) == before;
    append(column, &[entry])?;
    Ok(stayed)
}

// Whether 257 rows are appended so.
fn grows_to_257(column: &mut AnyColumn) -> Result<bool, MakingError> {
    let mut stayed = true;
    for row in 0..257 {
        stayed &= push(column, Some(row % 15))?;
    }
    Ok(stayed && column.len() == 257)
}

fn grows_by_rows(alloc: Global, form: TestForm) -> Result<bool, MakingError> {
    let mut column = empty_column(alloc, form, FIFTEEN)?;
    grows_to_257(&mut column)
}

#[test]
fn a_refused_growth_changes_nothing(rt: HostRuntime) {
    for &form in &FORMS {
        assert!(rt;
            matches!(grows_by_rows(rt.alloc(), form), Ok(true)),
            "{form:?}"
        );
    }
}

// A refused copy is made again.
fn copied(column: &AnyColumn) -> Result<AnyColumn, NoMemory> {
    match column.copy() {
        Err(_) => column.copy(),
        copy => copy,
    }
}

// Whether a copy shows three rows and accepts a fourth.
fn accepts_a_fourth(copy: &mut AnyColumn) -> Result<bool, MakingError> {
    let alike = selects_shown(copy)?;
    append(copy, &[Some(4)])?;
    Ok(alike && copy.len() == 4)
}

fn is_copied(column: &AnyColumn) -> Result<bool, MakingError> {
    let mut copy = copied(column)?;
    accepts_a_fourth(&mut copy)
}

// Whether the column has its three rows still.
fn is_unchanged(column: &AnyColumn) -> Result<bool, MakingError> {
    Ok(is_copied(column)? && column.len() == 3 && selects_shown(column)?)
}

fn is_independent(alloc: Global, form: TestForm) -> Result<bool, MakingError> {
    let column = three_rows(alloc, form)?;
    is_unchanged(&column)
}

#[test]
fn copies_are_independent_of_their_column(rt: HostRuntime) {
    for &form in &FORMS {
        assert!(rt;
            matches!(is_independent(rt.alloc(), form), Ok(true)),
            "{form:?}"
        );
    }
}
