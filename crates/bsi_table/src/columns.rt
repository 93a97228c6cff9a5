//! The columns of an index, side by side: each call is made on each of them.
//!
//! A block of rows goes in column by column. All columns and the list of feeders grow before the first is changed.

ghost use Rattle.std.specs.Prelude.{◌≡◌, ℕ, ◌+◌, ◌<◌, ◌≤◌, [], All, None, length, slice_index_or, true, IfOk, OnOk};
ghost use Rattle.bsi_digits.specs.Offsets.{IsInRange};
ghost use Rattle.bsi_bits.specs.BitList.{max_len};
ghost use Rattle.bsi_columns.specs.AnyColumns.{any_entries};
ghost use Rattle.bsi_shift.specs.Shifted.{shifted_entries, shifted_room, shifted_size};
ghost use Rattle.bsi_schema.specs.Columns.{column_at, IsForm};
ghost use Rattle.bsi_rows.specs.Rows.{column_of, row_entries};
ghost use Rattle.bsi_table.specs.Encoded.{encoded_at, AreAlikeColumns, AreInRange, AreEncoded, AreI64, AreSameColumns, HasMore, HaveMore, HaveOneMore, HaveRoom, HaveRows, IsInForm, Encodes, AcceptsRow, row_in};

use crate::{Block, Form, NoMemory, Schema};
use bsi_bits::MAX_BLOCK;
use bsi_columns::{AnyColumn, Decomposed, Slices};
use bsi_schema::to_i64;
use bsi_shift::Shifted;
use std::alloc::Global;

/// Makes an empty column for each column of a schema.
pub(crate) fn make_each(alloc: Global, schema: &Schema) -> Result<Vec<Shifted>, NoMemory>
    ensures { IfOk result (λ made. AreEncoded schema.now.columns made.items 0) }
{
    let mut made = Vec::with_capacity(alloc, schema.columns() as usize)?;
    'columns: for c in 0..schema.columns() {
        made.push_reserved(make_one(alloc, schema, c)?);
    }
    Ok(made)
}

/// Makes an empty column for column `c` of a schema.
fn make_one(alloc: Global, schema: &Schema, c: u32) -> Result<Shifted, NoMemory>
    requires { c < length schema.now.columns }
    ensures { IfOk result (λ made. Encodes (column_at schema.now.columns c) made 0) }
{
    let stored = make_stored(alloc, schema.form(c))?;
    Ok(Shifted::new(stored, schema.offset(c)))
}

/// Makes an empty column in a form.
fn make_stored(alloc: Global, form: &Form) -> Result<AnyColumn, NoMemory>
    requires { IsForm form.now }
    ensures form { IfOk result (IsInForm form.now) }
    ensures empty { IfOk result (λ made. any_entries made ≡ []) }
{
    match form {
        Form::Slices(width) => Ok(AnyColumn::Slices(Slices::new(alloc, *width)?)),
        Form::Equality(bases) => Ok(AnyColumn::Equality(Decomposed::new(alloc, bases.copy()?)?)),
        Form::Range(bases) => Ok(AnyColumn::Range(Decomposed::new(alloc, bases.copy()?)?)),
    }
}

/// Makes room for `more` further entries in each column. Whatever the result, the columns stay.
pub(crate) fn reserve_each(columns: &mut [Shifted], more: u64) -> Result<(), NoMemory>
    requires { (k : ℕ) → k < length columns.old →
        length (shifted_entries (encoded_at columns.old k)) + more ≤ max_len }
    ensures same { AreSameColumns columns.old columns.new }
    ensures ok { OnOk result (HaveRoom columns.new (length columns.old) more) }
    ensures no_less { (k : ℕ) → k < length columns.old →
        shifted_room (encoded_at columns.old k) ≤ shifted_room (encoded_at columns.new k) }
{
    'columns: for column in columns.iter_mut() {
        column.reserve(more)?;
    }
    Ok(())
}

/// Removes all entries of each column, and keeps its room.
pub(crate) fn clear_each(columns: &mut [Shifted])
    ensures long { length columns.new ≡ length columns.old }
    ensures alike { AreAlikeColumns columns.old columns.new }
    ensures empty { (k : ℕ) → k < length columns.old →
        shifted_entries (encoded_at columns.new k) ≡ [] }
    ensures room { (k : ℕ) → k < length columns.old →
        length (shifted_entries (encoded_at columns.old k)) + shifted_room (encoded_at columns.old k)
        ≤ shifted_room (encoded_at columns.new k) }
{
    'columns: for column in columns.iter_mut() {
        column.clear();
    }
}

/// Appends to each column its entry of a row, into room that is already there.
pub(crate) fn push_each(columns: &mut [Shifted], values: &[Option<i128>])
    requires long { length values.now ≡ length columns.old }
    requires room { HaveRoom columns.old (length columns.old) 1 }
    requires range { AreInRange columns.old values.now }
    requires small { AreI64 columns.old values.now }
    ensures { HaveOneMore columns.old columns.new values.now }
{
    'columns: for (c, value) in values.iter().enumerate() {
        columns[c].push_reserved(to_i64(*value));
    }
}

/// Appends to each column its entries of a block of rows, into room that is already there.
pub(crate) fn push_block_each(columns: &mut [Shifted], block: &Block)
    requires wide { length columns.old ≡ length block.now.schema.columns }
    requires room { HaveRoom columns.old (length columns.old) (length block.now.rows) }
    requires accepted { All (λ row. AcceptsRow columns.old (row_entries row)) block.now.rows }
    ensures { HaveMore columns.old columns.new block.now.rows }
{
    'columns: for (c, column) in columns.iter_mut().enumerate() {
        push_column(column, block, c);
    }
}

/// Appends to a column its entries of a block of rows, as column `c`, into room that is already there.
fn push_column(column: &mut Shifted, block: &Block, c: usize)
    requires within { c < length block.now.schema.columns }
    requires room { length block.now.rows ≤ shifted_room column.old }
    requires range { All (IsInRange column.old.offset (shifted_size column.old))
        (column_of block.now.rows c) }
    ensures { HasMore column.old column.new (column_of block.now.rows c) }
{
    let entries = block.column(c);
    column.push_block_reserved(entries.offset, entries.numbers, entries.not_null);
}

/// Appends to each column all entries of another one, which is encoded alike, into room that is already there.
pub(crate) fn push_all_each(columns: &mut [Shifted], others: &[Shifted])
    requires long { length others.now ≡ length columns.old }
    requires alike { AreAlikeColumns columns.old others.now }
    requires room { (k : ℕ) → k < length columns.old →
        length (shifted_entries (encoded_at others.now k)) ≤ shifted_room (encoded_at columns.old k) }
    ensures long { length columns.new ≡ length columns.old }
    ensures more { (k : ℕ) → k < length columns.old →
        HasMore (encoded_at columns.old k) (encoded_at columns.new k)
        (shifted_entries (encoded_at others.now k)) }
{
    'columns: for (c, other) in others.iter().enumerate() {
        columns[c].push_all_reserved(other);
    }
}

/// Returns whether two lists have as many columns, each encoded like the other list's.
pub(crate) fn are_encoded_alike(columns: &[Shifted], others: &[Shifted]) -> bool
    ensures long { result ≡ true → length others.now ≡ length columns.now }
    ensures alike { result ≡ true → AreAlikeColumns columns.now others.now }
    ensures all { length others.now ≡ length columns.now → AreAlikeColumns columns.now others.now →
        result ≡ true }
{
    columns.len() == others.len()
        && columns
            .iter()
            .zip(others)
            .all(|(column, other)| column.is_alike(other))
}

/// Makes a second list of the same columns.
pub(crate) fn copy_each(alloc: Global, columns: &[Shifted]) -> Result<Vec<Shifted>, NoMemory>
    ensures long { IfOk result (λ copied. length copied.items ≡ length columns.now) }
    ensures same { IfOk result (λ copied. AreSameColumns columns.now copied.items) }
{
    let mut copied = Vec::with_capacity(alloc, columns.len())?;
    'columns: for column in columns {
        copied.push_reserved(column.copy()?);
    }
    Ok(copied)
}

/// Reads the entry of each column in row `r`.
pub(crate) fn read_row(
    alloc: Global,
    columns: &[Shifted],
    rows: u64,
    r: u64,
) -> Result<Vec<Option<i128>>, NoMemory>
    requires few { rows ≤ max_len }
    requires even { HaveRows columns.now rows }
    requires there { r < rows }
    ensures { IfOk result (λ row. row.items ≡ row_in columns.now r) }
{
    let mut row = Vec::with_capacity(alloc, columns.len())?;
    'columns: for column in columns {
        row.push_reserved(read_entry(column, r));
    }
    Ok(row)
}

/// Reads the entry of a column in row `r`.
fn read_entry(column: &Shifted, r: u64) -> Option<i128>
    requires { r < length (shifted_entries column.now) }
    ensures { result ≡ slice_index_or (shifted_entries column.now) r None }
{
    let mut numbers = [0; MAX_BLOCK];
    let there = column.read_block((r / 64) as usize, &mut numbers);
    let at = (r % 64) as usize;
    if there >> at & 1 == 0 {
        return None;
    }
    Some(i128::from(numbers[at]))
}
