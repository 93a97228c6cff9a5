//! Encodes the rows of an index as words: the bitmaps of each column, and the feeder of each row.

ghost use Rattle.std.specs.Prelude.{◌≡◌, ◌++◌, IfOk, OnOk, length};
ghost use Rattle.bsi_storage.specs.Saved.{columns_words, rows_words};

use crate::NoMemory;
use crate::columns::encode_column;
use bsi_segments::encode_bytes;
use bsi_table::Index;
use std::alloc::Global;

/// Makes the words of the rows of an index.
pub(crate) fn encode_rows(alloc: Global, index: &Index) -> Result<Vec<u64>, NoMemory>
    ensures { IfOk result (λ words. words.items
        ≡ rows_words index.now.schema index.now.feeders index.now.rows) }
{
    let mut words = Vec::new(alloc);
    encode_columns(index, &mut words)?;
    if index.feeders() != 1 {
        encode_bytes(index.row_feeders(), &mut words)?;
    }
    Ok(words)
}

/// Appends the words of the bitmaps of each column.
fn encode_columns(index: &Index, words: &mut Vec<u64>) -> Result<(), NoMemory>
    ensures { OnOk result (words.new.items ≡ words.old.items
        ++ columns_words index.now.schema index.now.rows 0 (length index.now.schema.columns)) }
{
    'columns: for c in 0..index.schema().columns() {
        encode_column(index.column(c).stored(), words)?;
    }
    Ok(())
}
