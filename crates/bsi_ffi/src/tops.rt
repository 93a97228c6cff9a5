//! Finds the rows with the greatest or the least numbers of a column, and writes them as C structs (`FlatRow`).

ghost use Rattle.std.specs.Prelude.{◌≡◌, ◌≤◌, drop, length, map, take, OnErr, OnOk};
ghost use Rattle.std.specs.List.{AllZip};
ghost use Rattle.bsi_ffi.specs.Tops.{extreme_of, AreTopBy, IsWrittenRow};

use crate::numbers::{read_asked, refusal_of};
use crate::open_index::OpenIndex;
use crate::refusal::Refusal;
use bsi_aggregates::{Extreme, TopRow, top};
use std::alloc::Global;

/// A row of an index, and its number in a column.
#[repr(C)]
#[derive(Clone, Copy, Debug, PartialEq, Eq)]
pub struct FlatRow {
    /// The position of the row in the index, from 0.
    pub row: u64,
    /// The number that the row has there.
    pub number: i64,
}

/// Returns which numbers come first.
pub(crate) fn extreme_of(least: bool) -> Extreme
    ensures { result ≡ extreme_of least }
{
    if least {
        Extreme::Least
    } else {
        Extreme::Greatest
    }
}

/// Writes the rows with the greatest numbers, or the least, that the column of a name has at the rows of the predicate
/// that the fields spell, as many as the buffer has space for.
pub(crate) fn reply_top(
    alloc: Global,
    opened: &OpenIndex,
    fields: &[&[u8]],
    name: &[u8],
    extreme: Extreme,
    rows: &mut [FlatRow],
    count: &mut usize,
) -> Result<(), Refusal>
    ensures top { AreTopBy opened.now (map (λ f. f.now) fields.now) name.now extreme rows.new count.new
        result }
    ensures count_unchanged { OnErr result (count.new ≡ count.old) }
    ensures rows_unchanged { OnErr result (rows.new ≡ rows.old) }
    ensures rest_unchanged { OnOk result (drop count.new rows.new ≡ drop count.new rows.old) }
{
    let (pred, c) = read_asked(alloc, opened, fields, name)?;
    match top(alloc, opened.index(), c, rows.len(), extreme, &pred) {
        Ok(listed) => {
            write_rows(&listed, rows);
            *count = listed.len();
            Ok(())
        }
        Err(refused) => Err(refusal_of(refused)),
    }
}

/// Writes rows, for which the buffer is large enough.
fn write_rows(listed: &[TopRow], rows: &mut [FlatRow])
    requires { length listed.now ≤ length rows.old }
    ensures listed { AllZip IsWrittenRow listed.now (take (length listed.now) rows.new) }
    ensures long { length rows.new ≡ length rows.old }
    ensures rest_unchanged { drop (length listed.now) rows.new ≡ drop (length listed.now) rows.old }
{
    'rows: for (at, row) in listed.iter().enumerate() {
        rows[at] = flat_row(row);
    }
}

/// Returns a row as C has it.
fn flat_row(row: &TopRow) -> FlatRow
    ensures { IsWrittenRow row.now result }
{
    FlatRow {
        row: row.row,
        number: row.number,
    }
}
