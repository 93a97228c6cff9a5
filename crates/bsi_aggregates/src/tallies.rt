//! Groups of rows by one pass over a selection, with a tally (count, sum, least and greatest) for each entry that the
//! column of the groups may have.

ghost use Rattle.std.specs.Prelude.{◌≡◌, pos, ◌+ℤ◌, ◌≤ℤ◌, ◌<◌, ◌≤◌, ◌+◌, ◌*◌, ◌^◌, ℕ, Bool, List, None, length, slice_index_or, IfErr, IfOk, IfSome};
ghost use Rattle.bsi_bits.specs.BitList.{max_block, word_count};
ghost use Rattle.std.specs.Option.{option_map};
ghost use Rattle.bsi_rows.specs.Answers.{columns_of_total, missing_of};
ghost use Rattle.bsi_rows.specs.Rows.{column_of};
ghost use Rattle.bsi_table.specs.Totals.{NeedsNoMemory};
ghost use Rattle.bsi_digits.specs.Blocks.{value_entry};
ghost use Rattle.bsi_digits.specs.Offsets.{number_of, IsInRange};
ghost use Rattle.bsi_shift.specs.Shifted.{shifted_entries, shifted_size};
ghost use Rattle.bsi_aggregates.specs.ColumnGroups.{AreColumnGroups, IsRefusedColumn};
ghost use Rattle.bsi_aggregates.specs.Tallies.{entries_or_nulls, total_column, AreEntryTallies, IsTallyIndex};

use crate::column_groups::ColumnGroup;
use crate::grouping::GroupError;
use crate::tally::Tally;
use bsi_bits::{Bits, MAX_BLOCK, MAX_LEN};
use bsi_shift::Shifted;
use bsi_table::{Index, NoMemory, Total};
use std::alloc::Global;

/// The most groups that are split off a selection one by one where the rows of the others can be tallied.
const MAX_SPLIT_GROUPS: usize = 32;

/// The most numbers that an entry may be for the rows to be tallied.
const MAX_TALLIES: u64 = 1 << 16;

/// The most of them for each row of the table.
const MAX_TALLIES_A_ROW: u64 = 8;

/// Groups the selected rows, as `group_by` does. It reads the column of the groups and that of the total
/// once, 64 rows at a time, and takes 64 bytes for each number that an entry of the groups may be.
pub(crate) fn group_by_tally(
    alloc: Global,
    index: &Index,
    total: Total,
    by: u32,
    selection: &Bits,
    most: usize,
) -> Result<Vec<ColumnGroup>, GroupError>
    requires by { by < length index.now.schema.columns }
    requires there { missing_of (length index.now.schema.columns) (columns_of_total total) ≡ None }
    requires cheap { NeedsNoMemory total }
    requires same { length selection.now.bits ≡ length index.now.rows }
    ensures groups { IfOk result (λ groups.
        AreColumnGroups total selection.now.bits by index.now.rows groups.items) }
    ensures few { IfOk result (λ groups. length groups.items ≤ most) }
    ensures refused { IfErr result (IsRefusedColumn selection.now.bits by index.now.rows most) }
{
    let keys = index.column(by);
    let (offset, size) = (index.schema().offset(by), keys.size());
    let entries = column_of_total(index, total);
    let tallies = tally_rows(alloc, keys, entries, selection)?;
    let mut groups = Vec::new(alloc);
    'tallies: for k in 0..tallies.len() {
        if tallies[k].has_rows() {
            if groups.len() == most {
                return Err(GroupError::TooMany);
            }
            groups.reserve(1)?;
            groups.push_reserved(ColumnGroup {
                entry: entry_at(offset, size, k),
                answer: tallies[k].answer(total),
            });
        }
    }
    Ok(groups)
}

/// Returns how many groups are split off a selection one by one: all that there may be, or the first few where the
/// rows of the others can be tallied.
pub(crate) fn split_off_count(column: &Shifted, total: Total, most: usize) -> usize
    ensures few { result ≤ most }
    ensures cheap { result < most → NeedsNoMemory total }
{
    if column.size() > MAX_TALLIES.min(MAX_TALLIES_A_ROW * column.len()) {
        return most;
    }
    match total {
        Total::Count | Total::Sum(_) | Total::Least(_) | Total::Greatest(_) => most.min(
            MAX_SPLIT_GROUPS,
        ),
        Total::Median(_) | Total::Rank(..) | Total::Rows => most,
    }
}

/// Returns the column whose entries a total reads.
fn column_of_total(index: &Index, total: Total) -> Option<&Shifted>
    requires { missing_of (length index.now.schema.columns) (columns_of_total total) ≡ None }
    ensures { option_map (λ c. shifted_entries c.now) result
        ≡ option_map (column_of index.now.rows) (total_column total) }
{
    match total {
        Total::Sum(c)
        | Total::Least(c)
        | Total::Greatest(c)
        | Total::Median(c)
        | Total::Rank(c, _) => Some(index.column(c)),
        Total::Count | Total::Rows => None,
    }
}

/// Makes a tally for each entry that a row may have in a column, of the selected rows that have it. The second
/// column is that of the total.
fn tally_rows(
    alloc: Global,
    keys: &Shifted,
    entries: Option<&Shifted>,
    selection: &Bits,
) -> Result<Vec<Tally>, NoMemory>
    requires keys { length (shifted_entries keys.now) ≡ length selection.now.bits }
    requires entries { IfSome entries
        (λ c. length (shifted_entries c.now) ≡ length selection.now.bits) }
    ensures { IfOk result (λ tallies. AreEntryTallies keys.now
        (entries_or_nulls selection.now.bits (option_map (λ c. shifted_entries c.now) entries.entry))
        selection.now.bits (length selection.now.bits) tallies.items) }
{
    let mut tallies = vec![in alloc; Tally::new(); keys.size() as usize + 1]?;
    'words: for (at, rows) in selection.words().iter().enumerate() {
        if *rows != 0 {
            tally_block(keys, entries, selection, at, &mut tallies);
        }
    }
    Ok(tallies)
}

/// Adds the selected ones of the 64 rows from row `64 * at` on to the tallies of their entries. It allocates no memory.
fn tally_block(
    keys: &Shifted,
    entries: Option<&Shifted>,
    selection: &Bits,
    at: usize,
    tallies: &mut [Tally],
)
    requires keys { length (shifted_entries keys.now) ≡ length selection.now.bits }
    requires entries { IfSome entries
        (λ c. length (shifted_entries c.now) ≡ length selection.now.bits) }
    requires at { at < word_count (length selection.now.bits) }
    requires before { AreEntryTallies keys.now
        (entries_or_nulls selection.now.bits (option_map (λ c. shifted_entries c.now) entries))
        selection.now.bits (64 * at) tallies.old }
    ensures { AreEntryTallies keys.now
        (entries_or_nulls selection.now.bits (option_map (λ c. shifted_entries c.now) entries.entry))
        selection.now.bits (64 * (at + 1)) tallies.new }
{
    // The proof takes from this that there are at most 2^32 rows.
    prove!(selection.len() <= MAX_LEN);
    let (mut key_block, mut entry_block) = ([0; MAX_BLOCK], [0; MAX_BLOCK]);
    let keys_there = keys.read_block(at, &mut key_block);
    let entries_there = read_entries(entries, at, &mut entry_block);
    let (offset, size) = (keys.offset(), keys.size());
    let rows = selection.words()[at];
    'rows: for r in 0..MAX_BLOCK {
        if rows >> r & 1 == 1 {
            let index = tally_index(offset, size, entry_in(keys_there, &key_block, r));
            tallies[index] = tallies[index].with(entry_in(entries_there, &entry_block, r));
        }
    }
}

/// Reads the entries of 64 rows of a column as `Shifted::read_block` does, or nulls where there is no column.
fn read_entries(column: Option<&Shifted>, at: usize, block: &mut [i64; MAX_BLOCK]) -> u64
    requires { IfSome column (λ c. at < word_count (length (shifted_entries c.now))) }
    ensures { (selection : List Bool) (r : ℕ) → r < max_block → value_entry block.new result r
        ≡ slice_index_or (entries_or_nulls selection
        (option_map (λ c. shifted_entries c.now) column.entry)) (64 * at + r) None }
{
    match column {
        Some(column) => column.read_block(at, block),
        None => 0,
    }
}

/// Returns the entry of a row of a block.
fn entry_in(there: u64, block: &[i64; MAX_BLOCK], r: usize) -> Option<i64>
    requires { r < max_block }
    ensures { result ≡ value_entry block.now there r }
{
    if there >> r & 1 == 1 {
        Some(block[r])
    } else {
        None
    }
}

/// Returns the index of the tally of an entry.
fn tally_index(offset: i64, size: u64, entry: Option<i64>) -> usize
    requires small { size ≤ 2 ^ 63 }
    requires range { IsInRange offset size entry }
    ensures { IsTallyIndex offset size entry result }
{
    match entry {
        Some(number) => (number - offset) as usize,
        None => size as usize,
    }
}

/// Returns the entry whose tally has an index.
fn entry_at(offset: i64, size: u64, k: usize) -> Option<i64>
    requires below { (offset +ℤ pos size) ≤ℤ pos (2 ^ 63) }
    requires small { size ≤ 2 ^ 63 }
    requires within { k ≤ size }
    ensures { IsTallyIndex offset size result k }
{
    if (k as u64) < size {
        Some(offset + k as i64)
    } else {
        None
    }
}
