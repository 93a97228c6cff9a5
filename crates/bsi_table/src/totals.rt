//! Answers a total of the rows of a selection by the column that it reads (`total_selected`).

ghost use Rattle.std.specs.Prelude.{◌≡◌, None, length, IfOk, IsOk};
ghost use Rattle.bsi_rows.specs.Answers.{columns_of_total, missing_of};
ghost use Rattle.bsi_table.specs.Encoded.{sourced_rows, HaveRows};
ghost use Rattle.bsi_table.specs.Totals.{IsTotalAt, NeedsNoMemory};

use crate::{Answer, NoMemory, Total};
use bsi_bits::Bits;
use bsi_origins::{Origins, number_rows};
use bsi_shift::Shifted;
use std::alloc::Global;

/// Returns a total of the rows of a selection. The column that it reads is there.
pub(crate) fn total_selected(
    alloc: Global,
    columns: &[Shifted],
    origins: &Origins,
    selection: &Bits,
    total: Total,
) -> Result<Answer, NoMemory>
    requires even { HaveRows columns.now (length origins.now.rows) }
    requires selection { length selection.now.bits ≡ length origins.now.rows }
    requires there { missing_of (length columns.now) (columns_of_total total) ≡ None }
    ensures answer { IfOk result
        (IsTotalAt total selection.now.bits (sourced_rows origins.now.rows columns.now)) }
    ensures succeeds { NeedsNoMemory total → IsOk result }
{
    match total {
        Total::Count => Ok(Answer::Count(selection.count())),
        Total::Sum(c) => Ok(Answer::Sum(columns[c as usize].sum(selection))),
        Total::Least(c) => Ok(Answer::Value(columns[c as usize].least(selection)?)),
        Total::Greatest(c) => Ok(Answer::Value(columns[c as usize].greatest(selection)?)),
        Total::Median(c) => Ok(Answer::Value(columns[c as usize].median(selection)?)),
        Total::Rank(c, rank) => Ok(Answer::Value(columns[c as usize].ranked(selection, rank)?)),
        Total::Rows => Ok(Answer::Rows(number_rows(alloc, selection, origins)?)),
    }
}
