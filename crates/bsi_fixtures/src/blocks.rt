//! Blocks that tests fill column by column, and rows of blocks that they test against another schema.

ghost use Rattle.std.specs.Prelude.{◌≡◌, ◌<◌, Some, length, slice_get, true, false, IfOk};
ghost use Rattle.bsi_digits.specs.Blocks.{value_entries};
ghost use Rattle.bsi_rows.specs.RowBlocks.{entries_of, HasColumn};
ghost use Rattle.bsi_rows.specs.Table.{AreFitting};

use crate::NoMemory;
use bsi_table::{Block, Row, Schema};

/// Writes the values of column `c` in all rows of a block, if it has the column and that accepts each. Returns whether
/// it does.
pub fn write_values(block: &mut Block, c: usize, values: &[i64], not_null: u64) -> bool
    ensures schema { block.new.schema ≡ block.old.schema }
    ensures written { result ≡ true →
        HasColumn block.old block.new c (value_entries values.now not_null) }
    ensures unchanged { result ≡ false → block.new ≡ block.old }
{
    if c >= block.columns() || values.len() != block.len() {
        return false;
    }
    if !block.accepts_column(c, values, not_null) {
        return false;
    }
    block.write_column(c, values, not_null);
    true
}

fn row_at(block: &Block, r: usize) -> Result<Row, NoMemory>
    requires { r < length block.now.rows }
    ensures { IfOk result (λ row. slice_get (entries_of block.now.rows) r ≡ Some row) }
{
    match block.row(r) {
        Err(_) => block.row(r),
        made => made,
    }
}

/// Returns whether a block has rows, and each fits a schema, for which it need not have been made. Where memory is
/// refused, it makes the row again.
pub fn has_fitting_rows(block: &Block, schema: &Schema) -> Result<bool, NoMemory>
    ensures wide { IfOk result (λ fit. fit ≡ true →
        length block.now.schema.columns ≡ length schema.now.columns) }
    ensures fits { IfOk result (λ fit. fit ≡ true →
        AreFitting schema.now.columns block.now.rows) }
{
    let rows = block.len();
    for r in 0..rows {
        let row = row_at(block, r)?;
        if !schema.fits(&row) {
            return Ok(false);
        }
    }
    Ok(rows > 0)
}
