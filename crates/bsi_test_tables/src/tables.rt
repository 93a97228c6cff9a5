//! Indexes that the tests make and ask. A refused allocation is tried again.

use bsi_fixtures::{DeclaredColumn, schema_of};
use bsi_table::{
    Answer, AppendError, AskError, Index, IndexError, MAX_FEEDERS, Pred, Query, Row, Total,
};
use std::alloc::Global;

fn index_once(
    alloc: Global,
    columns: &[DeclaredColumn],
    feeders: u32,
    limit: u64,
) -> Result<Index, IndexError> {
    match schema_of(alloc, columns) {
        Err(_) => Err(IndexError::NoMemory),
        Ok(schema) => Index::new(alloc, schema, feeders.clamp(1, MAX_FEEDERS), limit),
    }
}

/// Makes an index of no rows. Where memory is refused, it makes the same call again.
pub(crate) fn index_of(
    alloc: Global,
    columns: &[DeclaredColumn],
    feeders: u32,
    limit: u64,
) -> Result<Index, IndexError> {
    match index_once(alloc, columns, feeders, limit) {
        Err(IndexError::NoMemory) => index_once(alloc, columns, feeders, limit),
        made => made,
    }
}

/// Appends a row that fits. A refused growth changes nothing, and the same call is made again.
pub(crate) fn append_row(
    index: &mut Index,
    feeder: u32,
    row: &Row,
) -> Option<Result<u64, AppendError>> {
    if !index.schema().fits(row) || feeder >= index.feeders() {
        return None;
    }
    let before = index.len();
    match index.append(feeder, row) {
        Err(AppendError::NoMemory) if index.len() == before => Some(index.append(feeder, row)),
        done => Some(done),
    }
}

/// Asks the index. Where memory is refused, it asks again.
fn asked(index: &Index, query: &Query) -> Result<Answer, AskError> {
    match index.ask(query) {
        Err(AskError::NoMemory) => index.ask(query),
        answer => answer,
    }
}

/// Asks the index for this total of the rows of which the predicate holds.
pub(crate) fn answer(index: &Index, total: Total, pred: Pred) -> Result<Answer, AskError> {
    asked(index, &Query { total, pred })
}

/// Returns whether the index has so many rows.
pub(crate) fn has_rows(index: &Index, count: u64) -> bool {
    index.len() == count && answer(index, Total::Count, Pred::All) == Ok(Answer::Count(count))
}

/// Returns whether the predicate selects these rows.
pub(crate) fn lists(index: &Index, pred: Pred, expected: &[(u32, u64)]) -> bool {
    match answer(index, Total::Rows, pred) {
        Ok(Answer::Rows(rows)) => rows.as_slice() == expected,
        _ => false,
    }
}
