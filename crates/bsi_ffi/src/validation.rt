//! Finds the first row of columns that does not fit a schema, and the column that does not accept it (`first_misfit`).

ghost use Rattle.std.specs.Prelude.{◌≡◌, ◌<◌, ◌≤◌, ℕ, false, length, true};
ghost use Rattle.std.specs.List.{list_all};
ghost use Rattle.bsi_ffi.specs.Columns.{has_rows, input_entry, row_of, AreAccepted, IsFirstRefusing};
ghost use Rattle.bsi_schema.specs.Columns.{fits, is_between};

use crate::columns::{ColumnInput, is_accepted};
use bsi_schema::Limits;
use bsi_table::Schema;

/// Returns the first row before `end` whose entry is not accepted. If there is none, it returns `end`.
fn first_refused(column: &ColumnInput, end: usize, limits: Limits) -> usize
    requires whole { has_rows (length column.now.values.now) column.now ≡ true }
    requires few { end ≤ length column.now.values.now }
    ensures within { result ≤ end }
    ensures accepted { (r : ℕ) → r < result →
        is_between limits.least limits.size (input_entry r column.now) ≡ true }
    ensures refused { result < end →
        is_between limits.least limits.size (input_entry result column.now) ≡ false }
{
    let refused = (0..end).find(|r| !is_accepted(column, *r, limits));
    refused.unwrap_or(end)
}

/// A row that does not fit, and the first column that does not accept its entry there.
#[derive(Clone, Copy)]
pub(crate) struct Misfit {
    pub(crate) row: usize,
    pub(crate) column: usize,
}

/// Returns the other misfit if it is of an earlier row.
fn earlier(misfit: Misfit, other: Misfit) -> Misfit
    ensures unchanged { misfit.row ≤ other.row → result ≡ misfit }
    ensures replaced { other.row < misfit.row → result ≡ other }
{
    if other.row < misfit.row {
        other
    } else {
        misfit
    }
}

/// Returns the first row that does not fit the schema, or the number of rows and column 0. It goes over one column after
/// the other.
pub(crate) fn first_misfit(schema: &Schema, columns: &[ColumnInput], rows: usize) -> Misfit
    requires many { length columns.now ≡ length schema.now.columns }
    requires whole { list_all (has_rows rows) columns.now ≡ true }
    ensures within { result.row ≤ rows }
    ensures accepted { AreAccepted schema.now.columns columns.now result.row }
    ensures misfit { result.row < rows →
        fits schema.now.columns (row_of columns.now result.row) ≡ false }
    ensures none { result.row ≡ rows → result.column ≡ 0 }
    ensures column { result.row < rows → IsFirstRefusing schema.now.columns
        (row_of columns.now result.row) result.column }
{
    let limits = schema.limits();
    let mut misfit = Misfit {
        row: rows,
        column: 0,
    };
    'columns: for (c, column) in columns.iter().enumerate() {
        let row = first_refused(column, misfit.row, limits[c]);
        misfit = earlier(misfit, Misfit { row, column: c });
    }
    misfit
}
