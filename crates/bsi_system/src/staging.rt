//! Stages the rows that are first in a feeder's ring. They stay in the ring.

ghost use Rattle.std.specs.Prelude.{◌≡◌, ◌+◌, ◌<◌, ◌≤◌, IfOk, OnErr, OnOk, length, true};
ghost use Rattle.bsi_rows.specs.Table.{AreEncodedAlike};
ghost use Rattle.bsi_system.specs.Readers.{HasFirst, StagesFirst};
ghost use Rattle.bsi_system.specs.LoaderSteps.{IsLoader};

use crate::readers::{copy_first_of, first_batch_of, first_row_of};
use crate::{NoMemory, RingReader};
use bsi_snapshots::{Publisher, SystemTag};
use bsi_table::Index;

/// Stages the batch of a feeder that is first, where the index accepts it by words and its limit allows all rows, and
/// else one row. It returns how many rows it stages.
pub(crate) fn stage_next<B: SystemTag>(
    publisher: &mut Publisher<B>,
    readers: &Vec<RingReader>,
    feeder: u32,
) -> Result<usize, NoMemory>
    requires first { HasFirst readers.now.items feeder }
    requires limit { length publisher.old.table.rows + length publisher.old.staged
        < publisher.old.table.limit }
    requires loader { IsLoader readers.now.items publisher.old }
    ensures ok { IfOk result
        (λ many. StagesFirst readers.now.items feeder publisher.old many publisher.new) }
    ensures err { OnErr result (publisher.new ≡ publisher.old) }
{
    match first_batch_of(readers, feeder) {
        Some(batch) if accepts_batch(publisher, batch) => {
            publisher.stage_batch(feeder, batch)?;
            Ok(batch.len() as usize)
        }
        _ => {
            stage_first(publisher, readers, feeder)?;
            Ok(1)
        }
    }
}

/// Stages the row of a feeder that is first.
pub(crate) fn stage_first<B: SystemTag>(
    publisher: &mut Publisher<B>,
    readers: &Vec<RingReader>,
    feeder: u32,
) -> Result<(), NoMemory>
    requires first { HasFirst readers.now.items feeder }
    requires limit { length publisher.old.table.rows + length publisher.old.staged
        < publisher.old.table.limit }
    requires loader { IsLoader readers.now.items publisher.old }
    ensures ok { OnOk result
        (StagesFirst readers.now.items feeder publisher.old 1 publisher.new) }
    ensures err { OnErr result (publisher.new ≡ publisher.old) }
{
    match first_row_of(readers, feeder) {
        Some(row) => publisher.stage_row(feeder, row),
        None => publisher.stage_row(feeder, &copy_first_of(readers, feeder)?),
    }
}

/// Returns whether the index encodes its columns as a batch does, has as many feeders or more, and its limit allows
/// the batch's rows.
fn accepts_batch<B: SystemTag>(publisher: &Publisher<B>, batch: &Index) -> bool
    ensures limit { result ≡ true → length publisher.now.table.rows + length publisher.now.staged
        + length batch.now.rows ≤ publisher.now.table.limit }
    ensures alike { result ≡ true → AreEncodedAlike publisher.now.table.schema batch.now.schema }
{
    let index = publisher.published();
    let (published, staged) = publisher.counts();
    batch.len() <= index.limit() - published - staged && index.is_encoded_like(batch)
}
