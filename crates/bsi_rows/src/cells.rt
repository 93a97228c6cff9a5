//! Writes and reads the entries of a block, row by row or column by column.
//!
//! The numbers of column `c` are in 64 slots from slot `64 * c` on, each less the least number that the column accepts,
//! and bit `r` of word `c` tells whether entry `r` is one.

ghost use Rattle.std.specs.Prelude.{◌≡◌, ◌≢◌, ◌↔◌, ℕ, ◌+◌, ◌*◌, ◌^◌, ◌<◌, ◌≤◌, All, IfOk, IsTrue, Some, length, slice_index, true, false};
ghost use Rattle.bsi_digits.specs.Blocks.{value_entries, value_entry};
ghost use Rattle.bsi_digits.specs.Offsets.{number_of, IsInRange};
ghost use Rattle.bsi_schema.specs.Columns.{entry_at, is_between};
ghost use Rattle.bsi_rows.specs.RowBlocks.{least_at, max_block_rows, cell_entry, row_of_cells, IsSameCell, IsValueAt, IsWrittenEntry};
ghost use Rattle.bsi_bits.specs.Packed.{end_of_u64};

use crate::NoMemory;
use crate::block::MAX_BLOCK_ROWS;
use bsi_schema::Limits;
use std::alloc::Global;

/// Returns how far a number is above the least one.
fn distance(least: i64, number: i128) -> u64
    requires { IsInRange least end_of_u64 (Some number) }
    ensures { number_of least result ≡ number }
{
    (number - i128::from(least)) as u64
}

/// Writes entry `r` of column `c`, of which there is none yet: a null, or a number that the column accepts.
fn write_entry(
    limits: &[Limits],
    entry: Option<i128>,
    c: usize,
    r: usize,
    numbers: &mut [u64],
    not_null: &mut [u64],
)
    requires within { c < length limits.now }
    requires long { length numbers.old ≡ max_block_rows * length limits.now }
    requires words { length not_null.old ≡ length limits.now }
    requires slot { r < max_block_rows }
    requires range { IsInRange (least_at limits.now c) end_of_u64 entry }
    requires clear { slice_index not_null.old c < 2 ^ r }
    ensures long { length numbers.new ≡ length numbers.old }
    ensures words { length not_null.new ≡ length not_null.old }
    ensures written { IsWrittenEntry limits.now numbers.new not_null.new c r entry }
    ensures other_rows { (k s : ℕ) → s < max_block_rows → s ≢ r →
        IsSameCell numbers.old not_null.old numbers.new not_null.new k s }
    ensures other_columns { (k : ℕ) → k ≢ c →
        IsSameCell numbers.old not_null.old numbers.new not_null.new k r }
    ensures other_words { (k : ℕ) → k ≢ c → slice_index not_null.new k ≡ slice_index not_null.old k }
{
    let Some(number) = entry else {
        numbers[MAX_BLOCK_ROWS * c + r] = 0;
        return;
    };
    numbers[MAX_BLOCK_ROWS * c + r] = distance(limits[c].least(), number);
    not_null[c] |= 1 << r;
}

/// Writes the entries of row `r`, of which there is none yet, and each of which its column accepts.
pub(crate) fn write_row(
    limits: &[Limits],
    entries: &[Option<i128>],
    r: usize,
    numbers: &mut [u64],
    not_null: &mut [u64],
)
    requires wide { length entries.now ≡ length limits.now }
    requires long { length numbers.old ≡ max_block_rows * length limits.now }
    requires words { length not_null.old ≡ length limits.now }
    requires slot { r < max_block_rows }
    requires range { (c : ℕ) → c < length limits.now →
        IsInRange (least_at limits.now c) end_of_u64 (entry_at entries.now c) }
    requires clear { (c : ℕ) → slice_index not_null.old c < 2 ^ r }
    ensures long { length numbers.new ≡ length numbers.old }
    ensures words { length not_null.new ≡ length not_null.old }
    ensures written { (c : ℕ) → c < length limits.now →
        IsWrittenEntry limits.now numbers.new not_null.new c r (entry_at entries.now c) }
    ensures other_rows { (c s : ℕ) → s < max_block_rows → s ≢ r →
        IsSameCell numbers.old not_null.old numbers.new not_null.new c s }
{
    'columns: for (c, entry) in entries.iter().enumerate() {
        write_entry(limits, *entry, c, r, numbers, not_null);
    }
}

/// Writes the entries of row `r`, as `write_row` does.
pub(crate) fn write_entries(
    limits: &[Limits],
    entries: &[Option<i64>],
    r: usize,
    numbers: &mut [u64],
    not_null: &mut [u64],
)
    requires wide { length entries.now ≡ length limits.now }
    requires long { length numbers.old ≡ max_block_rows * length limits.now }
    requires words { length not_null.old ≡ length limits.now }
    requires slot { r < max_block_rows }
    requires range { (c : ℕ) → c < length limits.now →
        IsInRange (least_at limits.now c) end_of_u64 (entry_at entries.now c) }
    requires clear { (c : ℕ) → slice_index not_null.old c < 2 ^ r }
    ensures long { length numbers.new ≡ length numbers.old }
    ensures words { length not_null.new ≡ length not_null.old }
    ensures written { (c : ℕ) → c < length limits.now →
        IsWrittenEntry limits.now numbers.new not_null.new c r (entry_at entries.now c) }
    ensures other_rows { (c s : ℕ) → s < max_block_rows → s ≢ r →
        IsSameCell numbers.old not_null.old numbers.new not_null.new c s }
{
    'columns: for (c, entry) in entries.iter().enumerate() {
        write_entry(limits, entry.map(i128::from), c, r, numbers, not_null);
    }
}

/// Reads the entries of row `r`.
pub(crate) fn read_row(
    alloc: Global,
    limits: &[Limits],
    r: usize,
    numbers: &[u64],
    not_null: &[u64],
) -> Result<Vec<Option<i128>>, NoMemory>
    requires long { length numbers.now ≡ max_block_rows * length limits.now }
    requires words { length not_null.now ≡ length limits.now }
    requires slot { r < max_block_rows }
    ensures { IfOk result (λ entries. entries.items
        ≡ row_of_cells (length limits.now) (cell_entry limits.now numbers.now not_null.now) r) }
{
    let mut entries = Vec::with_capacity(alloc, limits.len())?;
    'columns: for c in 0..limits.len() {
        entries.push_reserved(read_entry(limits, c, r, numbers, not_null));
    }
    Ok(entries)
}

/// Reads entry `r` of column `c`.
fn read_entry(
    limits: &[Limits],
    c: usize,
    r: usize,
    numbers: &[u64],
    not_null: &[u64],
) -> Option<i128>
    requires within { c < length limits.now }
    requires long { length numbers.now ≡ max_block_rows * length limits.now }
    requires words { length not_null.now ≡ length limits.now }
    requires slot { r < max_block_rows }
    ensures { result ≡ cell_entry limits.now numbers.now not_null.now c r }
{
    if not_null[c] >> r & 1 == 0 {
        return None;
    }
    Some(i128::from(limits[c].least()) + i128::from(numbers[MAX_BLOCK_ROWS * c + r]))
}

/// Returns entry `r` of a column of values.
fn value_at(values: &[i64], not_null: u64, r: usize) -> Option<i128>
    requires within { r < length values.now }
    requires few { length values.now ≤ max_block_rows }
    ensures { result ≡ value_entry values.now not_null r }
{
    if not_null >> r & 1 == 0 {
        return None;
    }
    Some(i128::from(values[r]))
}

/// Returns whether a word has no bit past so many rows.
pub(crate) fn has_no_bit_past(word: u64, rows: usize) -> bool
    requires { rows ≤ max_block_rows }
    ensures { IsTrue result ↔ (word < 2 ^ rows) }
{
    rows == MAX_BLOCK_ROWS || word >> rows == 0
}

/// Returns whether each entry of a column of values is a null or one of these numbers.
pub(crate) fn accepts_values(limits: Limits, values: &[i64], not_null: u64) -> bool
    requires { length values.now ≤ max_block_rows }
    ensures { IsTrue result ↔ All (λ entry. is_between limits.least limits.size entry ≡ true)
        (value_entries values.now not_null) }
{
    'rows: for r in 0..values.len() {
        if !limits.accepts(value_at(values, not_null, r)) {
            return false;
        }
    }
    true
}

/// Returns how far a value is above the least one, and 0 for a null.
fn stored(least: i64, value: i64, is_number: bool) -> u64
    requires { is_number ≡ true → IsInRange least end_of_u64 (Some value) }
    ensures number { is_number ≡ true → number_of least result ≡ value }
    ensures null { is_number ≡ false → result ≡ 0 }
{
    if is_number {
        distance(least, i128::from(value))
    } else {
        0
    }
}

/// Writes the values of column `c`, each less the least number that it accepts, and a 0 for each null.
pub(crate) fn write_values(
    limits: &[Limits],
    values: &[i64],
    not_null: u64,
    c: usize,
    numbers: &mut [u64],
)
    requires within { c < length limits.now }
    requires long { length numbers.old ≡ max_block_rows * length limits.now }
    requires few { length values.now ≤ max_block_rows }
    requires range { (r : ℕ) → r < length values.now →
        IsInRange (least_at limits.now c) end_of_u64 (value_entry values.now not_null r) }
    ensures long { length numbers.new ≡ length numbers.old }
    ensures written { (r : ℕ) → r < length values.now →
        IsValueAt limits.now values.now not_null numbers.new c r }
    ensures others { (k s : ℕ) → k ≢ c → s < max_block_rows →
        slice_index numbers.new (max_block_rows * k + s)
        ≡ slice_index numbers.old (max_block_rows * k + s) }
{
    let least = limits[c].least();
    let first = MAX_BLOCK_ROWS * c;
    'rows: for (r, value) in values.iter().enumerate() {
        numbers[first + r] = stored(least, *value, not_null >> r & 1 == 1);
    }
}

/// Writes a 0 in slots `from` to `end` of each of `columns` columns. It leaves the slots before.
pub(crate) fn write_nulls(columns: usize, from: usize, end: usize, numbers: &mut [u64])
    requires long { length numbers.old ≡ max_block_rows * columns }
    requires within { (from ≤ end) × (end ≤ max_block_rows) }
    ensures long { length numbers.new ≡ length numbers.old }
    ensures zero { (c r : ℕ) → c < columns → from ≤ r → r < end →
        slice_index numbers.new (max_block_rows * c + r) ≡ 0 }
    ensures others { (c r : ℕ) → r < from →
        slice_index numbers.new (max_block_rows * c + r)
        ≡ slice_index numbers.old (max_block_rows * c + r) }
{
    'columns: for c in 0..columns {
        let first = MAX_BLOCK_ROWS * c;
        numbers[first + from..first + end].fill(0);
    }
}
