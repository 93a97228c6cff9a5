//! Checks rows that C passes as arrays, one a column (`ColumnInput`), and appends them to an index, block by block.

ghost use Rattle.std.specs.Prelude.{◌≡◌, ◌+◌, ◌%◌, ◌<◌, ◌≤◌, length, replicate, true, IfErr, OnErr, OnOk};
ghost use Rattle.bsi_ffi.specs.Calls.{with_first, AreAppendable, AppendsColumns, IsRowsRefusal};
ghost use Rattle.bsi_ffi.specs.Columns.{are_columns, input_rows, row_count, AreAccepted};
ghost use Rattle.bsi_rows.specs.RowBlocks.{max_block_rows};
ghost use Rattle.bsi_rows.specs.Rows.{feeders_of};
ghost use Rattle.bsi_rows.specs.Table.{with_rows, AreFitting};
ghost use Rattle.bsi_table.specs.Index.{table_of};

use crate::columns::{ColumnInput, are_columns, count_rows, first_unlike, not_null_word};
use crate::refusal::Refusal;
use crate::validation::first_misfit;
use bsi_table::{Block, Index, MAX_BLOCK_ROWS, NoMemory};

/// Gives the block so many rows of a feeder, for their columns to be written. Those that it has stay, if they are as many.
fn size_block(feeder: u32, count: usize, block: &mut Block)
    requires fed { feeder < block.old.feeders }
    requires from { feeders_of block.old.rows ≡ replicate (length block.old.rows) feeder }
    requires few { count ≤ max_block_rows }
    ensures schema { block.new.schema ≡ block.old.schema }
    ensures feeders { block.new.feeders ≡ block.old.feeders }
    ensures from { feeders_of block.new.rows ≡ replicate count feeder }
    ensures fitting { AreFitting block.new.schema.columns block.new.rows }
{
    if block.len() == count {
        return;
    }
    block.clear();
    block.push_nulls(feeder, count);
}

/// Fills the block with 1 to 64 rows of a feeder, from row `from` on, a multiple of 64, column by column. Each fits.
fn fill_block(feeder: u32, columns: &[ColumnInput], from: usize, count: usize, block: &mut Block)
    requires fed { feeder < block.old.feeders }
    requires fed_before { feeders_of block.old.rows ≡ replicate (length block.old.rows) feeder }
    requires even { are_columns (length block.old.schema.columns) columns.now ≡ true }
    requires accepted { AreAccepted block.old.schema.columns columns.now (row_count columns.now) }
    requires within { from + count ≤ row_count columns.now }
    requires first { from % max_block_rows ≡ 0 }
    requires few { (0 < count) × (count ≤ max_block_rows) }
    ensures schema { block.new.schema ≡ block.old.schema }
    ensures feeders { block.new.feeders ≡ block.old.feeders }
    ensures rows { block.new.rows ≡ input_rows feeder columns.now from count }
{
    size_block(feeder, count, block);
    'columns: for (c, column) in columns.iter().enumerate() {
        let not_null = not_null_word(column, from, count);
        block.write_column(c, &column.values[from..from + count], not_null);
    }
}

/// Appends 1 to 64 rows from row `from` on, a multiple of 64, or none. Each fits, and all are within the limit.
fn append_block(
    index: &mut Index,
    feeder: u32,
    columns: &[ColumnInput],
    from: usize,
    count: usize,
    block: &mut Block,
) -> Result<(), NoMemory>
    requires fed { feeder < index.old.feeders }
    requires even { are_columns (length index.old.schema.columns) columns.now ≡ true }
    requires accepted { AreAccepted index.old.schema.columns columns.now (row_count columns.now) }
    requires within { from + count ≤ row_count columns.now }
    requires first { from % max_block_rows ≡ 0 }
    requires few { (0 < count) × (count ≤ max_block_rows) }
    requires schema { block.old.schema ≡ index.old.schema }
    requires feeders { block.old.feeders ≡ index.old.feeders }
    requires fed_before { feeders_of block.old.rows ≡ replicate (length block.old.rows) feeder }
    ensures schema { block.new.schema ≡ block.old.schema }
    ensures feeders { block.new.feeders ≡ block.old.feeders }
    ensures from { feeders_of block.new.rows ≡ replicate (length block.new.rows) feeder }
    ensures appended { OnOk result
        (table_of index.new
        ≡ with_rows (table_of index.old) (input_rows feeder columns.now from count)) }
    ensures unchanged { OnErr result (table_of index.new ≡ table_of index.old) }
{
    fill_block(feeder, columns, from, count, block);
    // All rows were tested, so only memory can be refused.
    index.append_block(block).map_err(|_| NoMemory)?;
    Ok(())
}

/// Appends all rows of the columns, in blocks, and writes how many were appended. If memory is refused, these are those
/// of the blocks before.
fn append_blocks(
    index: &mut Index,
    feeder: u32,
    columns: &[ColumnInput],
    appended: &mut u64,
) -> Result<(), NoMemory>
    requires { AreAppendable (table_of index.old) feeder columns.now }
    ensures rows { table_of index.new
        ≡ with_first (table_of index.old) feeder columns.now appended.new }
    ensures within { appended.new ≤ row_count columns.now }
    ensures all { OnOk result (appended.new ≡ row_count columns.now) }
    ensures some_left { OnErr result (appended.new < row_count columns.now) }
    ensures whole { OnErr result (appended.new % max_block_rows ≡ 0) }
{
    *appended = 0;
    let rows = count_rows(columns);
    if rows == 0 {
        return Ok(());
    }
    let mut block = index.new_block()?;
    'parts: for k in 0..rows.div_ceil(MAX_BLOCK_ROWS) {
        let from = MAX_BLOCK_ROWS * k;
        let count = (rows - from).min(MAX_BLOCK_ROWS);
        append_block(index, feeder, columns, from, count, &mut block)?;
        *appended = (from + count) as u64;
    }
    Ok(())
}

/// Tests whether all rows of the columns can be appended. It writes the first row that does not fit, and the first column
/// that is refused, if these are why not.
fn check_rows(
    index: &Index,
    feeder: u32,
    columns: &[ColumnInput],
    row: &mut u64,
    column: &mut usize,
) -> Result<(), Refusal>
    requires { (row.old ≡ 0) × (column.old ≡ 0) }
    ensures accepted { OnOk result (AreAppendable (table_of index.now) feeder columns.now) }
    ensures unmarked { OnOk result (column.new ≡ 0) }
    ensures refused { IfErr result (IsRowsRefusal (table_of index.now) feeder columns.now row.new
        column.new) }
{
    if feeder >= index.feeders() {
        return Err(Refusal::BadFeeder);
    }
    let schema = index.schema();
    if !are_columns(columns, schema.columns()) {
        *column = first_unlike(columns, schema.columns());
        return Err(Refusal::BadColumns);
    }
    let rows = count_rows(columns);
    let misfit = first_misfit(schema, columns, rows);
    if misfit.row < rows {
        *row = misfit.row as u64;
        *column = misfit.column;
        return Err(Refusal::BadRow);
    }
    if rows as u64 > index.limit() - index.len() {
        return Err(Refusal::IndexFull);
    }
    Ok(())
}

/// Appends all rows of the columns, and writes how many. If one does not fit, it writes the number of the first such
/// row, and appends none. If memory is refused, it writes how many were appended. It writes the first column that is
/// refused.
pub(crate) fn append_columns(
    index: &mut Index,
    feeder: u32,
    columns: &[ColumnInput],
    row: &mut u64,
    column: &mut usize,
) -> Result<(), Refusal>
    requires { (row.old ≡ 0) × (column.old ≡ 0) }
    ensures { AppendsColumns (table_of index.old) feeder columns.now row.new column.new
        (table_of index.new) result }
{
    check_rows(index, feeder, columns, row, column)?;
    append_blocks(index, feeder, columns, row)?;
    Ok(())
}
