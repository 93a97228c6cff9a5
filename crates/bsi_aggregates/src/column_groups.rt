//! Puts rows into groups by their entries in one column (`group_by_column`).

ghost use Rattle.std.specs.Prelude.{◌≡◌, ◌<◌, ◌≤◌, None, length, IfErr, IfOk};
ghost use Rattle.bsi_rows.specs.Answers.{columns_of_total, missing_of};
ghost use Rattle.bsi_aggregates.specs.ColumnGroups.{AreColumnGroups, IsRefusedColumn};

use crate::distinct_numbers::has_more_numbers;
use crate::grouping::GroupError;
use crate::splitting::{first_entry, split_off_rows};
use crate::tallies::{group_by_tally, split_off_count};
use bsi_bits::Bits;
use bsi_table::{Answer, Index, Total};
use std::alloc::Global;

/// The number of groups that are split off a selection before the numbers that are left are counted. So many take about
/// as long as that.
const UNCOUNTED: usize = 256;

/// The rows that have the same entry in a column.
#[derive(Drop)]
pub(crate) struct ColumnGroup {
    /// The number that the rows have there, or none if they are null.
    pub(crate) entry: Option<i64>,
    /// The total over these rows.
    pub(crate) answer: Answer,
}

/// Groups the selected rows by their entry in column `by`, as `group_by` does.
pub(crate) fn group_by_column(
    alloc: Global,
    index: &Index,
    total: Total,
    by: u32,
    selection: Bits,
    most: usize,
) -> Result<Vec<ColumnGroup>, GroupError>
    requires by { by < length index.now.schema.columns }
    requires there { missing_of (length index.now.schema.columns) (columns_of_total total) ≡ None }
    requires same { length selection.bits ≡ length index.now.rows }
    ensures groups { IfOk result (λ groups.
        AreColumnGroups total selection.bits by index.now.rows groups.items) }
    ensures few { IfOk result (λ groups. length groups.items ≤ most) }
    ensures refused { IfErr result (IsRefusedColumn selection.bits by index.now.rows most) }
{
    let column = index.column(by);
    let first = split_off_count(column, total, most);
    let mut rest = selection;
    let mut groups = Vec::new(alloc);
    'groups: for split_off in 0..first {
        let Some(entry) = first_entry(column, &rest)? else {
            return Ok(groups);
        };
        if split_off == UNCOUNTED && has_more_numbers(alloc, column, &rest, most - split_off)? {
            return Err(GroupError::TooMany);
        }
        let rows = split_off_rows(column, entry, &mut rest)?;
        let answer = index.total(&rows, total)?;
        groups.reserve(1)?;
        groups.push_reserved(ColumnGroup { entry, answer });
    }
    let Some(_) = first_entry(column, &rest)? else {
        return Ok(groups);
    };
    if first == most {
        return Err(GroupError::TooMany);
    }
    let mut others = group_by_tally(alloc, index, total, by, &rest, most - first)?;
    groups.append(&mut others)?;
    Ok(groups)
}
