//! Calls on one of the loader's ring readers, by its feeder's number: they look at, lend, copy and pop what is first in
//! the ring, and settle the reader by a closing.

ghost use Rattle.std.specs.Prelude.{◌≡◌, ◌≢◌, ◌<◌, ◌≤◌, Some, IfErr, IfOk, IfSome, OnErr, OnOk, length, slice_get};
ghost use Rattle.std.specs.Option.{option_copied};
ghost use Rattle.bsi_system.specs.Rings.{channels_of};
ghost use Rattle.bsi_system.specs.LoaderSteps.{progress_of, seen_at, seen_of, RefusesOnlyWithRow};
ghost use Rattle.bsi_system.specs.Readers.{AreUnpopped, HasFirst, IsBatchAt, IsFirstAt, IsFirstReply, LooksAtReader, PopsAt, SettlesAt};

use crate::{Closing, Front, NoMemory, RingReader};
use bsi_rows::LoadRefused;
use bsi_table::{Index, Row};

/// Why a closing is not accepted.
#[derive(Drop)]
pub enum SettleRefused {
    /// There is no such feeder, or the closing is another feeder's. The closing is handed back.
    WrongClosing(Closing),
}

/// Looks for the row of a feeder that is to be taken next. The row stays in the ring.
pub(crate) fn check_first(
    readers: &mut Vec<RingReader>,
    feeder: u32,
    full: bool,
) -> Result<(), LoadRefused>
    ensures reply { IsFirstReply (progress_of readers.old.items) feeder full result }
    ensures same { AreUnpopped readers.old.items feeder readers.new.items }
    ensures first { OnOk result (HasFirst readers.new.items feeder) }
    ensures seen { IfErr result (RefusesOnlyWithRow (seen_at (seen_of readers.new.items) feeder)) }
{
    let number = feeder as usize;
    if number >= readers.len() {
        return Err(LoadRefused::UnknownFeeder);
    }
    match front_of(readers, number) {
        Front::Row => {}
        Front::Empty => return Err(LoadRefused::Empty),
        Front::Ended => return Err(LoadRefused::Ended),
    }
    if full {
        return Err(LoadRefused::IndexFull);
    }
    Ok(())
}

/// Lends the first row of a feeder, or none where it is one of a batch.
pub(crate) fn first_row_of(readers: &Vec<RingReader>, feeder: u32) -> Option<&Row>
    requires { HasFirst readers.now.items feeder }
    ensures { IfSome (option_copied result) (IsFirstAt readers.now.items feeder) }
{
    readers[feeder as usize].first_row()
}

/// Makes a second row of the first row of a feeder. If that is one of a batch, it passes over the whole batch.
pub(crate) fn copy_first_of(readers: &Vec<RingReader>, feeder: u32) -> Result<Row, NoMemory>
    requires { HasFirst readers.now.items feeder }
    ensures { IfOk result (IsFirstAt readers.now.items feeder) }
{
    readers[feeder as usize].copy_first()
}

/// Lends the batch of a feeder that is first. It returns none where a row is first, or a row of the batch was popped,
/// or the columns of the batch do not have the same limits as those of the schema.
pub(crate) fn first_batch_of(readers: &Vec<RingReader>, feeder: u32) -> Option<&Index>
    requires { HasFirst readers.now.items feeder }
    ensures { IfSome (option_copied result) (IsBatchAt readers.now.items feeder) }
{
    readers[feeder as usize].first_batch()
}

/// Looks at what is at the front of a ring.
fn front_of(readers: &mut Vec<RingReader>, number: usize) -> Front
    requires { number < length readers.old.items }
    ensures { LooksAtReader readers.old.items number result readers.new.items }
{
    let reader = &mut readers[number];
    reader.front()
}

/// Pops so many rows of a feeder from its ring.
pub(crate) fn pop_rows_of(readers: &mut Vec<RingReader>, feeder: u32, rows: usize)
    requires feeder { feeder < length readers.old.items }
    requires rows { rows ≤ length (seen_at (seen_of readers.old.items) feeder) }
    ensures { PopsAt readers.old.items feeder rows readers.new.items }
{
    let reader = &mut readers[feeder as usize];
    reader.pop(rows);
}

/// Learns from the closing of a feeder what it sent, if the closing is this feeder's.
pub(crate) fn settle_reader(
    readers: &mut Vec<RingReader>,
    feeder: u32,
    closing: Closing,
) -> Result<(), SettleRefused>
    requires { slice_get (channels_of readers.old.items) closing.number ≡ Some closing.channel }
    ensures ok { OnOk result ((closing.number ≡ feeder)
        × SettlesAt readers.old.items feeder closing readers.new.items) }
    ensures wrong { IfErr result (λ e. (e ≡ SettleRefused.WrongClosing closing)
        × (closing.number ≢ feeder)) }
    ensures unchanged { OnErr result (readers.new ≡ readers.old) }
{
    if closing.feeder() != feeder {
        return Err(SettleRefused::WrongClosing(closing));
    }
    let reader = &mut readers[feeder as usize];
    reader.settle(closing);
    Ok(())
}
