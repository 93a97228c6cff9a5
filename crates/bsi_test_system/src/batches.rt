//! Steps for `tests.rt`: a feeder sends batches of rows, which the loader loads, each at one step.

use crate::calls::{load, publish, row, submit, sum_of};
use bsi_system::{Analyst, BatchRefused, Feeder, LoadRefused, Loader, NoMemory, SystemTag};
use bsi_table::{ColumnSpec, Index, Schema};
use std::alloc::Global;
use std::sync::Wait;

/// Makes a batch of no rows, for a column of so many binary places.
fn new_batch(alloc: Global, width: u32) -> Result<Index, NoMemory> {
    let mut schema = Schema::new(alloc);
    if schema.add("number", ColumnSpec::Slices(width)).is_err() {
        return Err(NoMemory);
    }
    Index::new(alloc, schema, 1, 1_000).map_err(|_| NoMemory)
}

/// Adds a row of this number, if it fits.
fn add(alloc: Global, batch: &mut Index, number: i128) -> Option<()> {
    let row = row(alloc, number)?;
    if batch.schema().fits(&row) && batch.feeders() > 0 {
        batch.append(0, &row).ok()?;
    }
    Some(())
}

/// Sends a batch of two rows, of the numbers 2 and 3. Returns whether the feeder accepts it.
fn submit_two(alloc: Global, feeder: &mut Feeder, width: u32) -> Option<bool> {
    let mut batch = match new_batch(alloc, width) {
        Err(_) => new_batch(alloc, width).ok()?,
        Ok(batch) => batch,
    };
    add(alloc, &mut batch, 2)?;
    add(alloc, &mut batch, 3)?;
    Some(feeder.submit_batch(batch).is_ok())
}

fn load_batch<B: SystemTag>(loader: &mut Loader<B>) -> Result<usize, LoadRefused> {
    match loader.load_batch(0) {
        Err(LoadRefused::NoMemory) => loader.load_batch(0),
        loaded => loaded,
    }
}

/// Returns whether a row and a batch of two are loaded, each at one step, and another batch row by row, with nothing
/// behind it.
fn load_all<B: SystemTag>(loader: &mut Loader<B>) -> bool {
    let whole = load_batch(loader) == Ok(1) && load_batch(loader) == Ok(2);
    let first = load(loader, 0).is_ok();
    let second = load_batch(loader);
    whole && first && second == Ok(1) && load_batch(loader) == Err(LoadRefused::Empty)
}

/// Sends a row, two batches of two, and a batch for another column, which comes back. Returns whether just that is so,
/// and what was popped can be read.
pub(crate) fn send_batches<B: SystemTag, R: Wait>(
    rt: &R,
    alloc: Global,
    feeder: Feeder,
    loader: &mut Loader<B>,
    analyst: &mut Analyst<B>,
) -> Option<bool> {
    let mut feeder = feeder;
    let sent = submit(alloc, &mut feeder, 1);
    let taken = submit_two(alloc, &mut feeder, 3)? && submit_two(alloc, &mut feeder, 3)?;
    let other = submit_two(alloc, &mut feeder, 4)?;
    let loaded = load_all(loader);
    let published = publish(rt, loader) == Some(5);
    Some(sent && taken && !other && loaded && published && sum_of(analyst) == Some(11))
}

/// Sends a batch of so many rows. Returns whether the feeder accepts it, or finds no slots for it.
fn submit_many(alloc: Global, feeder: &mut Feeder, rows: u32) -> Option<bool> {
    let mut batch = new_batch(alloc, 3).ok()?;
    for _row in 0..rows {
        add(alloc, &mut batch, 7)?;
    }
    match feeder.submit_batch(batch) {
        Ok(()) => Some(true),
        Err(BatchRefused::Full(_)) => Some(false),
        Err(BatchRefused::Misfit(_)) => None,
    }
}

/// Takes two batches of these lengths, one after the other. Returns whether they have them.
fn load_two<B: SystemTag>(loader: &mut Loader<B>, first: usize, second: usize) -> bool {
    let taken = load_batch(loader) == Ok(first);
    taken && load_batch(loader) == Ok(second)
}

/// Fills a ring of 1,024 slots by two batches, so that a batch between them and a row behind them find no free slots,
/// and takes the first out, so that the batch does. Once all are popped, the first fits again: the ring counts the
/// slots of each that was popped. Returns whether just that is so.
pub(crate) fn fill_by_batches<B: SystemTag>(
    alloc: Global,
    feeder: Feeder,
    loader: &mut Loader<B>,
) -> Option<bool> {
    let mut feeder = feeder;
    let most = submit_many(alloc, &mut feeder, 1_000)?;
    let over = submit_many(alloc, &mut feeder, 25)?;
    let rest = submit_many(alloc, &mut feeder, 24)?;
    let full = most && !over && rest && !submit(alloc, &mut feeder, 1);
    let taken = load_batch(loader) == Ok(1_000);
    let fits = taken && submit_many(alloc, &mut feeder, 25)?;
    let all = load_two(loader, 24, 25);
    Some(full && fits && all && submit_many(alloc, &mut feeder, 1_000)?)
}
