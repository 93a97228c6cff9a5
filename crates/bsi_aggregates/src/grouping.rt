//! Puts the rows that a query selects into groups, and answers the total of the query over each (`group_by`).

ghost use Rattle.std.specs.Prelude.{◌≡◌, ◌<◌, ◌≤◌, ◌∷◌, [], None, length, IfErr, IfOk, OnOk};
ghost use Rattle.bsi_rows.specs.Answers.{columns_of_total, missing_of};
ghost use Rattle.bsi_aggregates.specs.Groups.{missing_grouped, selected_by, AreGroups, IsGroupRefusal, IsRefusedOver};

use crate::column_groups::group_by_column;
use crate::groups::{Groups, into_groups};
use crate::splitting::{first_entry, split_off_rows};
use bsi_bits::Bits;
use bsi_table::{Index, Query, Total};
use std::alloc::{AllocError, Global};

/// The refusals of a call for groups, in the order in which they are checked.
#[derive(Clone, Copy, Debug, PartialEq, Eq)]
pub enum GroupError {
    /// There is no column of this number. It is the first one that the query reads and that is missing, as for
    /// `Index::ask`, or else the first of the columns of the groups.
    BadColumn(u32),
    /// There would be more groups than asked for.
    TooMany,
    /// Memory was refused.
    NoMemory,
}

impl From<AllocError> for GroupError {
    ghost use Rattle.bsi_aggregates.specs.declared.grouping.GroupError.TheVariants.{NoMemory};

    ghost from_gives = { λ _ e. e ≡ NoMemory };

    fn from(_refused: AllocError) -> GroupError {
        GroupError::NoMemory
    }
}

/// Puts the rows that a query selects in groups by their entries in the columns `by`, and answers the query's total for
/// each. The groups come in order of the first column's numbers, null last, and those of one first entry in order of the
/// second's, and so on; by no column all rows are one group. There may be `most` of them.
///
/// By one column it passes over that about twice for each group, makes a bit for each row, and does what the total does.
/// Where the total is a count, a sum, or the least or greatest number, and an entry of the column may be few numbers, at
/// most 65,536 and at most eight for each row, it does so for the first 32 groups alone. Those behind them it makes in one
/// pass, with 64 bytes for each of these numbers. Elsewhere it copies and sorts the numbers that are left behind the first
/// 256 groups, and so learns whether there are too many. By more columns it passes over the first one about twice for
/// each entry there, and does the same by the others for the rows of each.
pub fn group_by(
    alloc: Global,
    index: &Index,
    query: &Query,
    by: &[u32],
    most: usize,
) -> Result<Groups, GroupError>
    ensures there { OnOk result
        (missing_grouped (length index.now.schema.columns) query.now by.now ≡ None) }
    ensures columns { IfOk result (λ groups. groups.columns ≡ length by.now) }
    ensures groups { IfOk result (λ groups. AreGroups query.now.total
        (selected_by query.now index.now.rows) by.now index.now.rows groups.groups) }
    ensures few { IfOk result (λ groups. length groups.groups ≤ most) }
    ensures refused { IfErr result
        (IsGroupRefusal index.now.schema index.now.rows query.now by.now most) }
{
    let columns = index.schema().columns();
    if let Some(missing) = query.missing_column(columns) {
        return Err(GroupError::BadColumn(missing));
    }
    if let Some(missing) = missing_among(columns, by) {
        return Err(GroupError::BadColumn(missing));
    }
    // Each column that the predicate reads is there, so only memory can be refused.
    let Ok(selection) = index.select(&query.pred) else {
        return Err(GroupError::NoMemory);
    };
    group_selection(alloc, index, query.total, by, selection, most)
}

/// Returns the first of these columns that is none of the first `columns`.
fn missing_among(columns: u32, by: &[u32]) -> Option<u32>
    ensures { result ≡ missing_of columns by.now }
{
    by.iter().copied().find(|c| *c >= columns)
}

/// Groups the selected rows, as `group_by` does.
fn group_selection(
    alloc: Global,
    index: &Index,
    total: Total,
    by: &[u32],
    selection: Bits,
    most: usize,
) -> Result<Groups, GroupError>
    requires by { missing_of (length index.now.schema.columns) by.now ≡ None }
    requires there { missing_of (length index.now.schema.columns) (columns_of_total total) ≡ None }
    requires same { length selection.bits ≡ length index.now.rows }
    ensures columns { IfOk result (λ groups. groups.columns ≡ length by.now) }
    ensures groups { IfOk result (λ groups.
        AreGroups total selection.bits by.now index.now.rows groups.groups) }
    ensures few { IfOk result (λ groups. length groups.groups ≤ most) }
    ensures refused { IfErr result (IsRefusedOver selection.bits by.now index.now.rows most) }
{
    if by.is_empty() {
        return group_all(alloc, index, total, &selection, most);
    }
    if by.len() == 1 {
        return group_by_one(alloc, index, total, by[0], selection, most);
    }
    let (first, others) = (by[0], &by[1..]);
    let column = index.column(first);
    let mut rest = selection;
    let mut groups = Groups::new(alloc, by.len());
    // Each entry of the first column makes a group or more.
    'entries: for _ in 0..most {
        let Some(entry) = first_entry(column, &rest)? else {
            return Ok(groups);
        };
        let rows = split_off_rows(column, entry, &mut rest)?;
        let most_left = most - groups.len();
        let inner = group_selection(alloc, index, total, others, rows, most_left)?;
        groups = groups.with_inner(entry, inner)?;
    }
    match first_entry(column, &rest)? {
        None => Ok(groups),
        Some(_) => Err(GroupError::TooMany),
    }
}

/// Groups the selected rows by one column.
fn group_by_one(
    alloc: Global,
    index: &Index,
    total: Total,
    by: u32,
    selection: Bits,
    most: usize,
) -> Result<Groups, GroupError>
    requires by { by < length index.now.schema.columns }
    requires there { missing_of (length index.now.schema.columns) (columns_of_total total) ≡ None }
    requires same { length selection.bits ≡ length index.now.rows }
    ensures columns { IfOk result (λ groups. groups.columns ≡ 1) }
    ensures groups { IfOk result (λ groups.
        AreGroups total selection.bits (by ∷ []) index.now.rows groups.groups) }
    ensures few { IfOk result (λ groups. length groups.groups ≤ most) }
    ensures refused { IfErr result (IsRefusedOver selection.bits (by ∷ []) index.now.rows most) }
{
    let made = group_by_column(alloc, index, total, by, selection, most)?;
    Ok(into_groups(alloc, made)?)
}

/// Makes the selected rows one group, by no column.
fn group_all(
    alloc: Global,
    index: &Index,
    total: Total,
    selection: &Bits,
    most: usize,
) -> Result<Groups, GroupError>
    requires there { missing_of (length index.now.schema.columns) (columns_of_total total) ≡ None }
    requires same { length selection.now.bits ≡ length index.now.rows }
    ensures columns { IfOk result (λ groups. groups.columns ≡ 0) }
    ensures groups { IfOk result (λ groups.
        AreGroups total selection.now.bits [] index.now.rows groups.groups) }
    ensures few { IfOk result (λ groups. length groups.groups ≤ most) }
    ensures refused { IfErr result (IsRefusedOver selection.now.bits [] index.now.rows most) }
{
    if selection.count() == 0 {
        return Ok(Groups::new(alloc, 0));
    }
    if most == 0 {
        return Err(GroupError::TooMany);
    }
    Ok(Groups::of_all(alloc, index.total(selection, total)?)?)
}
