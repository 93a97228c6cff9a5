//! The columns in which C passes rows (`ColumnInput`), numbers and a validity bitmap; functions check and read them.

ghost use Rattle.std.specs.Prelude.{◌≡◌, ℕ, ◌+◌, ◌*◌, ◌/◌, ◌%◌, ◌<◌, ◌≤◌, length, slice_index, true};
ghost use Rattle.std.specs.Int.{bit_at};
ghost use Rattle.std.specs.List.{list_all};
ghost use Rattle.bsi_ffi.specs.Columns.{are_columns, first_unlike, has_rows, input_entry, row_count, IsNotNullWord};
ghost use Rattle.bsi_rows.specs.RowBlocks.{max_block_rows};
ghost use Rattle.bsi_schema.specs.Columns.{is_between};

use bsi_schema::Limits;

/// The entries of a column: numbers, and a bitmap of which of them are there, the lowest bit of a byte first. A bitmap
/// of no bytes says that all are.
#[repr(C)]
#[derive(Drop)]
pub struct ColumnInput<'a> {
    /// The numbers. That of an entry that is not there may be any.
    pub values: &'a [i64],
    /// The bitmap.
    pub valid: &'a [u8],
}

/// Returns whether the column has so many numbers, and a bit for each.
fn has_rows(column: &ColumnInput, rows: usize) -> bool
    ensures { result ≡ has_rows rows column.now }
{
    column.values.len() == rows
        && (column.valid.is_empty() || rows.div_ceil(8) <= column.valid.len())
}

/// Returns whether each column has so many numbers, and a bit for each.
fn have_rows(columns: &[ColumnInput], rows: usize) -> bool
    ensures { result ≡ list_all (has_rows rows) columns.now }
{
    columns.iter().all(|column| has_rows(column, rows))
}

/// Returns how many rows the columns have.
pub(crate) fn count_rows(columns: &[ColumnInput]) -> usize
    ensures { result ≡ row_count columns.now }
{
    match columns {
        [] => 0,
        [first, ..] => first.values.len(),
    }
}

/// Returns whether there are so many columns, all of one length, with a bit for each number.
pub(crate) fn are_columns(columns: &[ColumnInput], count: u32) -> bool
    ensures { result ≡ are_columns count columns.now }
{
    columns.len() == count as usize && have_rows(columns, count_rows(columns))
}

/// Returns the first column that an index of so many columns does not accept: how many of the first so many have the
/// number of rows of the first one, and a bit for each.
pub(crate) fn first_unlike(columns: &[ColumnInput], count: u32) -> usize
    ensures { result ≡ first_unlike count columns.now }
{
    let rows = count_rows(columns);
    let expected = &columns[..(count as usize).min(columns.len())];
    let unlike = expected.iter().position(|column| !has_rows(column, rows));
    unlike.unwrap_or(expected.len())
}

/// Returns the entry of row `r`.
fn entry(column: &ColumnInput, r: usize) -> Option<i64>
    requires whole { has_rows (length column.now.values.now) column.now ≡ true }
    requires within { r < length column.now.values.now }
    ensures { result ≡ input_entry r column.now }
{
    if !column.valid.is_empty() && column.valid[r / 8] >> (r % 8) & 1 == 0 {
        return None;
    }
    Some(column.values[r])
}

/// Returns whether a column of a schema accepts the entry of row `r`.
pub(crate) fn is_accepted(column: &ColumnInput, r: usize, limits: Limits) -> bool
    requires whole { has_rows (length column.now.values.now) column.now ≡ true }
    requires within { r < length column.now.values.now }
    ensures { result ≡ is_between limits.least limits.size (input_entry r column.now) }
{
    let Some(number) = entry(column, r) else {
        return true;
    };
    limits.accepts(Some(i128::from(number)))
}

/// Returns the word that tells which of so many entries, from entry `from` on, are there. It reads whole bytes: `from` is
/// a multiple of 64, and there are 1 to 64 entries.
pub(crate) fn not_null_word(column: &ColumnInput, from: usize, count: usize) -> u64
    requires whole { has_rows (length column.now.values.now) column.now ≡ true }
    requires within { from + count ≤ length column.now.values.now }
    requires first { from % max_block_rows ≡ 0 }
    requires few { (0 < count) × (count ≤ max_block_rows) }
    ensures { IsNotNullWord column.now.valid.now from count result }
{
    let each = u64::MAX >> (64 - count);
    if column.valid.is_empty() {
        return each;
    }
    let first = from / 8;
    word_of(&column.valid[first..first + count.div_ceil(8)]) & each
}

/// Returns the word of at most eight bytes, of which the first is the lowest.
fn word_of(bytes: &[u8]) -> u64
    requires { length bytes.now ≤ 8 }
    ensures { (r : ℕ) → r < 8 * length bytes.now →
        bit_at result r ≡ bit_at (slice_index bytes.now (r / 8)) (r % 8) }
{
    let mut word = 0;
    'bytes: for (i, byte) in bytes.iter().enumerate() {
        word |= u64::from(*byte) << (8 * i);
    }
    word
}
