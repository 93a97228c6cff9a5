//! The growth of an index: the columns get the entries of further rows, and the origins their feeders. Rows are
//! removed all at once.

ghost use Rattle.std.specs.Prelude.{◌≡◌, ℕ, ◌+◌, ◌<◌, ◌≤◌, ◌++◌, ◌∷◌, [], All, length, OnOk};
ghost use Rattle.bsi_rows.specs.Table.{max_feeders, AreFrom};
ghost use Rattle.bsi_bits.specs.BitList.{max_len};
ghost use Rattle.bsi_shift.specs.Shifted.{shifted_entries, shifted_room};
ghost use Rattle.bsi_rows.specs.Rows.{feeders_of, row_entries};
ghost use Rattle.bsi_table.specs.Joined.{feeders_as, AreEnough};
ghost use Rattle.bsi_table.specs.Encoded.{encoded_at, AreAlikeColumns, AreI64, AreInRange, AreSameColumns, HasMore, HaveMore, HaveOneMore, HaveRoom, HaveRows, AcceptsRow};

use crate::columns::{clear_each, push_all_each, push_block_each, push_each, reserve_each};
use crate::{Block, NoMemory};
use bsi_origins::Origins;
use bsi_shift::Shifted;

/// Makes room for `more` further rows. Whatever the result, the rows stay.
pub(crate) fn reserve_rows(
    columns: &mut Vec<Shifted>,
    origins: &mut Origins,
    more: u64,
) -> Result<(), NoMemory>
    requires short { (k : ℕ) → k < length columns.old.items →
        length (shifted_entries (encoded_at columns.old.items k)) + more ≤ max_len }
    requires few { length origins.old.rows + more ≤ max_len }
    ensures long { length columns.new.items ≡ length columns.old.items }
    ensures same { AreSameColumns columns.old.items columns.new.items }
    ensures rows { origins.new.rows ≡ origins.old.rows }
    ensures feeders { origins.new.feeders ≡ origins.old.feeders }
    ensures ok { OnOk result (HaveRoom columns.new.items (length columns.old.items) more) }
    ensures room { OnOk result (more ≤ origins.new.room) }
    ensures no_less { (k : ℕ) → k < length columns.old.items →
        shifted_room (encoded_at columns.old.items k) ≤ shifted_room (encoded_at columns.new.items k) }
    ensures origins_no_less { origins.old.room ≤ origins.new.room }
{
    reserve_each(columns, more)?;
    origins.reserve(more)
}

/// Removes all rows, and keeps the room.
pub(crate) fn clear_rows(columns: &mut Vec<Shifted>, origins: &mut Origins)
    ensures long { length columns.new.items ≡ length columns.old.items }
    ensures alike { AreAlikeColumns columns.old.items columns.new.items }
    ensures empty { (k : ℕ) → k < length columns.old.items →
        shifted_entries (encoded_at columns.new.items k) ≡ [] }
    ensures room { (k : ℕ) → k < length columns.old.items →
        length (shifted_entries (encoded_at columns.old.items k))
        + shifted_room (encoded_at columns.old.items k)
        ≤ shifted_room (encoded_at columns.new.items k) }
    ensures rows { origins.new.rows ≡ [] }
    ensures feeders { origins.new.feeders ≡ origins.old.feeders }
    ensures reserved { length origins.old.rows + origins.old.room ≤ origins.new.room }
{
    clear_each(columns);
    origins.clear();
}

/// Appends a row, into room that is already there.
pub(crate) fn push_row(
    columns: &mut Vec<Shifted>,
    origins: &mut Origins,
    feeder: u8,
    values: &[Option<i128>],
)
    requires long { length values.now ≡ length columns.old.items }
    requires room { HaveRoom columns.old.items (length columns.old.items) 1 }
    requires reserved { 0 < origins.old.room }
    requires feeder { feeder < origins.old.feeders }
    requires range { AreInRange columns.old.items values.now }
    requires small { AreI64 columns.old.items values.now }
    ensures long { length columns.new.items ≡ length columns.old.items }
    ensures more { HaveOneMore columns.old.items columns.new.items values.now }
    ensures rows { origins.new.rows ≡ origins.old.rows ++ feeder ∷ [] }
    ensures feeders { origins.new.feeders ≡ origins.old.feeders }
    ensures room_left { origins.new.room + 1 ≡ origins.old.room }
{
    push_each(columns, values);
    origins.push_reserved(feeder);
}

/// Appends a block of rows, into room that is already there.
pub(crate) fn push_rows(columns: &mut Vec<Shifted>, origins: &mut Origins, block: &Block)
    requires wide { length columns.old.items ≡ length block.now.schema.columns }
    requires room { HaveRoom columns.old.items (length columns.old.items)
        (length block.now.rows) }
    requires reserved { length block.now.rows ≤ origins.old.room }
    requires accepted { All (λ row. AcceptsRow columns.old.items (row_entries row)) block.now.rows }
    requires from { AreFrom origins.old.feeders block.now.rows }
    requires bytes { origins.old.feeders ≤ max_feeders }
    ensures long { length columns.new.items ≡ length columns.old.items }
    ensures more { HaveMore columns.old.items columns.new.items block.now.rows }
    ensures rows { origins.new.rows ≡ origins.old.rows ++ feeders_of block.now.rows }
    ensures feeders { origins.new.feeders ≡ origins.old.feeders }
    ensures room_left { origins.new.room + length block.now.rows ≡ origins.old.room }
{
    push_block_each(columns, block);
    push_feeders(origins, block.row_feeders());
}

/// Appends all rows of other columns, which are encoded alike, into room that is already there: as rows of one feeder,
/// if it is given, and else of the list of their feeders.
pub(crate) fn push_all(
    columns: &mut Vec<Shifted>,
    origins: &mut Origins,
    others: &[Shifted],
    other_origins: &Origins,
    feeder: Option<u32>,
)
    requires long { length others.now ≡ length columns.old.items }
    requires alike { AreAlikeColumns columns.old.items others.now }
    requires even { HaveRows others.now (length other_origins.now.rows) }
    requires room { HaveRoom columns.old.items (length columns.old.items)
        (length other_origins.now.rows) }
    requires reserved { length other_origins.now.rows ≤ origins.old.room }
    requires feeders { AreEnough origins.old.feeders feeder other_origins.now.feeders }
    requires bytes { origins.old.feeders ≤ max_feeders }
    ensures long { length columns.new.items ≡ length columns.old.items }
    ensures more { (k : ℕ) → k < length columns.old.items →
        HasMore (encoded_at columns.old.items k) (encoded_at columns.new.items k)
        (shifted_entries (encoded_at others.now k)) }
    ensures rows { origins.new.rows
        ≡ origins.old.rows ++ feeders_as feeder other_origins.now.rows }
    ensures feeders { origins.new.feeders ≡ origins.old.feeders }
    ensures room_left { origins.new.room + length other_origins.now.rows ≡ origins.old.room }
{
    push_all_each(columns, others);
    match feeder {
        None => origins.push_all_reserved(other_origins),
        Some(feeder) => origins.push_many_reserved(feeder as u8, other_origins.len()),
    }
}

/// Appends the feeder of each row, into room that is already there.
fn push_feeders(origins: &mut Origins, row_feeders: &[u32])
    requires reserved { length row_feeders.now ≤ origins.old.room }
    requires from { All (λ feeder. feeder < origins.old.feeders) row_feeders.now }
    requires bytes { origins.old.feeders ≤ max_feeders }
    ensures rows { origins.new.rows ≡ origins.old.rows ++ row_feeders.now }
    ensures feeders { origins.new.feeders ≡ origins.old.feeders }
    ensures room_left { origins.new.room + length row_feeders.now ≡ origins.old.room }
{
    'rows: for feeder in row_feeders {
        origins.push_reserved(*feeder as u8);
    }
}
