//! The rows of a selection, each by its feeder and its number among the rows of that feeder (`number_rows`).
//!
//! It counts forward and keeps the counts of all feeders as it goes, so no chunk is read twice. Where more than an
//! eighth of the rows is selected it tests each row's bit in one pass, which costs less than looking for the next set
//! place.

ghost use Rattle.std.specs.Prelude.{◌≡◌, ◌<◌, ◌≤◌, IfOk, length};
ghost use Rattle.bsi_bits.specs.BitList.{set_positions};
ghost use Rattle.bsi_rows.specs.Numbering.{numbered_at};
ghost use Rattle.bsi_origins.specs.Origins.{AreCountsBefore};

use crate::origins::{CHUNK_ROWS, Counts};
use crate::{NoMemory, Origins};
use bsi_bits::Bits;
use bsi_rows::MAX_FEEDERS;
use std::alloc::Global;

/// The fewest rows for each selected row with which the numbering goes from one selected row to the next, and not over
/// all rows.
const MIN_ROWS_PER_SELECTED: u64 = 8;

/// Returns the rows of a selection in order, each by its feeder and its number among that feeder's rows. `origins`
/// gives the feeder of each row of the index. If few rows are selected, it reads, in each chunk of 512 rows, the
/// feeders up to the last selected row, and none in a chunk with no selected row.
pub fn number_rows(
    alloc: Global,
    selection: &Bits,
    origins: &Origins,
) -> Result<Vec<(u32, u64)>, NoMemory>
    requires { length selection.now.bits ≡ length origins.now.rows }
    ensures { IfOk result (λ rows. rows.items
        ≡ numbered_at origins.now.rows (set_positions selection.now.bits)) }
{
    let count = selection.count();
    if count > origins.len() / MIN_ROWS_PER_SELECTED {
        number_many(alloc, selection, count, origins)
    } else {
        number_few(alloc, selection, count, origins)
    }
}

/// Numbers the selected rows, going from one to the next. It takes memory for `count` rows at first.
fn number_few(
    alloc: Global,
    selection: &Bits,
    count: u64,
    origins: &Origins,
) -> Result<Vec<(u32, u64)>, NoMemory>
    requires { length selection.now.bits ≡ length origins.now.rows }
    ensures { IfOk result (λ rows. rows.items
        ≡ numbered_at origins.now.rows (set_positions selection.now.bits)) }
{
    let mut counts = [0u64; MAX_FEEDERS as usize];
    let mut at = 0;
    let mut rows = Vec::with_capacity(alloc, count as usize)?;
    'rows: for r in selection.ones() {
        count_forward(origins, &mut counts, at, r);
        at = r;
        let feeder = origins.feeder(r);
        rows.push((u32::from(feeder), counts[feeder as usize]))?;
    }
    Ok(rows)
}

/// Numbers the selected rows in one pass over all rows. It takes memory for `count` rows at first.
// In a caller that has much else to hold, the loop would read its pointers from the stack for each row.
#[inline(never)]
fn number_many(
    alloc: Global,
    selection: &Bits,
    count: u64,
    origins: &Origins,
) -> Result<Vec<(u32, u64)>, NoMemory>
    requires { length selection.now.bits ≡ length origins.now.rows }
    ensures { IfOk result (λ rows. rows.items
        ≡ numbered_at origins.now.rows (set_positions selection.now.bits)) }
{
    let mut counts = [0u64; MAX_FEEDERS as usize];
    let mut listed = Vec::with_capacity(alloc, count as usize)?;
    'rows: for r in 0..origins.len() {
        let feeder = origins.feeder(r);
        let before = counts[feeder as usize];
        if selection.get(r) {
            listed.push((u32::from(feeder), before))?;
        }
        counts[feeder as usize] = before + 1;
    }
    Ok(listed)
}

/// Moves the counts of the rows before `from` forward to those before `to`. Within the same chunk it counts on from
/// there; for a later chunk it begins at its tally.
fn count_forward(origins: &Origins, counts: &mut Counts, from: u64, to: u64)
    requires forward { from ≤ to }
    requires within { to < length origins.now.rows }
    requires counted { AreCountsBefore origins.now.feeders origins.now.rows from counts.old }
    ensures { AreCountsBefore origins.now.feeders origins.now.rows to counts.new }
{
    if origins.feeders() == 1 {
        counts[0] = to;
    } else if from / CHUNK_ROWS < to / CHUNK_ROWS {
        origins.read_tally(to / CHUNK_ROWS, counts);
        count_rows(origins, counts, to / CHUNK_ROWS * CHUNK_ROWS, to);
    } else {
        count_rows(origins, counts, from, to);
    }
}

/// Counts the rows from `from` on and before `to`, each for its feeder.
fn count_rows(origins: &Origins, counts: &mut Counts, from: u64, to: u64)
    requires forward { from ≤ to }
    requires within { to ≤ length origins.now.rows }
    requires counted { AreCountsBefore origins.now.feeders origins.now.rows from counts.old }
    ensures { AreCountsBefore origins.now.feeders origins.now.rows to counts.new }
{
    'rows: for r in from..to {
        counts[origins.feeder(r) as usize] += 1;
    }
}
