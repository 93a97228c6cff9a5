//! The two copies of the index: the operations that wait for them, and the step that shows them. Analysts read one copy
//! while the publisher writes the other (left-right, Ramalhete and Correia 2015).

ghost use Rattle.std.specs.Prelude.{◌≡◌, ◌++◌, ◌∷◌, [], ◌⊎◌, OnErr, OnOk, fold, length};
ghost use mathlib.Core.List.{IsPrefix};
ghost use Rattle.bsi_snapshots.specs.History.{with_list};
ghost use Rattle.bsi_snapshots.specs.Versions.{after, pending, pending_rows, to_show, IsFor, IsVersionOf, LastStampIsPrefix, MovesToPending};
ghost use Rattle.bsi_snapshots.specs.declared.operation.Operation.TheVariants.{Stamp};

use crate::history::{History, RowList};
use crate::operation::Operation;
use crate::system_tag::VersionRule;
use crate::version::Version;
use crate::{NoMemory, SystemTag};
use bsi_table::{Block, Index};
use core::mem::{replace, replace_with};
use left_right::writer::Writer;
use logbook::Plain;
use std::sync::Wait;

/// The two copies of the index, and the operations that are pending.
pub(crate) type Copies<B> = Writer<Version, Operation, (), VersionRule<B>>;

/// What a publish adds to the history: the rows that are shown, followed by those of the pending operations.
struct Next;

impl<B: SystemTag> Plain<Copies<B>, RowList, u64> for Next {
    ghost use Rattle.std.specs.Prelude.{None};
    ghost use Rattle.bsi_snapshots.specs.Versions.{pending, to_show};

    ghost ask = { λ w. to_show w.desk.shown.value (pending w) };

    ghost state = { λ w. None };
}

/// Appends the rows of a block to the pending operations, unless it has none. It replaces the block by another one, so
/// it asks for memory before it changes anything.
pub(crate) fn append_block<B: SystemTag>(
    copies: &mut Copies<B>,
    block: &mut Block,
) -> Result<(), NoMemory>
    requires kind { IsFor copies.old.desk.shown.value.table block.old }
    ensures desk { copies.new.desk ≡ copies.old.desk }
    ensures staged { MovesToPending (pending copies.old) block.old.rows
        (pending copies.new) block.new.rows }
    ensures kind { IsFor copies.new.desk.shown.value.table block.new }
    ensures ok { OnOk result (block.new.rows ≡ []) }
{
    if block.is_empty() {
        return Ok(());
    }
    let next = copies.published().index().new_block()?;
    match copies.append(Operation::Block(replace(block, next))) {
        Ok(()) => Ok(()),
        Err(Operation::Block(back)) => {
            *block = back;
            Err(NoMemory)
        }
        // A refused operation comes back as it was given, so this is never so.
        Err(Operation::Batch(_) | Operation::Stamp(_)) => Err(NoMemory),
    }
}

/// Appends the rows of a batch to the pending operations. It replaces the batch by another one, so it asks for memory
/// before it changes anything.
pub(crate) fn append_batch<B: SystemTag>(
    copies: &mut Copies<B>,
    batch: &mut Index,
) -> Result<(), NoMemory>
    ensures desk { copies.new.desk ≡ copies.old.desk }
    ensures staged { MovesToPending (pending copies.old) batch.old.rows
        (pending copies.new) batch.new.rows }
    ensures schema { batch.new.schema ≡ batch.old.schema }
    ensures feeders { batch.new.feeders ≡ batch.old.feeders }
    ensures limit { batch.new.limit ≡ batch.old.limit }
    ensures ok { OnOk result (batch.new.rows ≡ []) }
{
    let next = batch.new_like()?;
    match copies.append(Operation::Batch(replace(batch, next))) {
        Ok(()) => Ok(()),
        Err(Operation::Batch(back)) => {
            *batch = back;
            Err(NoMemory)
        }
        // A refused operation comes back as it was given, so this is never so.
        Err(Operation::Block(_) | Operation::Stamp(_)) => Err(NoMemory),
    }
}

/// Stamps the list that is to be shown, unless a publish that was refused has stamped it, or it is shown already.
pub(crate) fn stamp_all<B: SystemTag>(
    copies: &mut Copies<B>,
    history: &mut History,
    stamped: &mut u64,
    len: u64,
) -> Result<(), NoMemory>
    requires begins { IsPrefix history.old.list
        (to_show copies.old.desk.shown.value (pending copies.old)) }
    requires len { len ≡ length (to_show copies.old.desk.shown.value (pending copies.old)) }
    requires book { history.old.book ≡ B.book }
    requires stamped { LastStampIsPrefix B.book copies.old.desk.shown.value (pending copies.old) stamped.old }
    ensures desk { copies.new.desk ≡ copies.old.desk }
    ensures history { (history.new ≡ history.old)
        ⊎ (history.new
        ≡ with_list history.old (to_show copies.old.desk.shown.value (pending copies.old))) }
    ensures rows { pending_rows (pending copies.new) ≡ pending_rows (pending copies.old) }
    ensures stamped { LastStampIsPrefix B.book copies.old.desk.shown.value (pending copies.new) stamped.new }
    ensures once { stamped.old ≡ len → pending copies.new ≡ pending copies.old }
    ensures ok { OnOk result (stamped.new ≡ len) }
{
    if *stamped == len {
        return Ok(());
    }
    stamp(copies, history, len)?;
    *stamped = len;
    Ok(())
}

/// Adds to the history the list that is to be shown, and appends its stamp after the pending rows.
fn stamp<B: SystemTag>(
    copies: &mut Copies<B>,
    history: &mut History,
    len: u64,
) -> Result<(), NoMemory>
    requires begins { IsPrefix history.old.list
        (to_show copies.old.desk.shown.value (pending copies.old)) }
    requires len { len ≡ length (to_show copies.old.desk.shown.value (pending copies.old)) }
    ensures desk { copies.new.desk ≡ copies.old.desk }
    ensures history { (history.new ≡ history.old)
        ⊎ (history.new
        ≡ with_list history.old (to_show copies.old.desk.shown.value (pending copies.old))) }
    ensures list { OnOk result (history.new
        ≡ with_list history.old (to_show copies.old.desk.shown.value (pending copies.old))) }
    ensures ok { OnOk result (pending copies.new ≡ pending copies.old ++ Stamp history.new ∷ []) }
    ensures err { OnErr result (pending copies.new ≡ pending copies.old) }
{
    if !history.add::<Copies<B>, Next>(copies, len) {
        return Err(NoMemory);
    }
    copies
        .append(Operation::Stamp(history.token()))
        .map_err(|_| NoMemory)
}

/// Shows at one step the copy that has every pending operation.
pub(crate) fn exchange<B: SystemTag, R: Wait>(
    copies: &mut Copies<B>,
    rt: &R,
) -> Result<(), NoMemory>
    requires { IsVersionOf B.book B.about
        (fold after copies.old.desk.shown.value (pending copies.old)) }
    ensures shown { OnOk result (copies.new.desk.shown.value
        ≡ fold after copies.old.desk.shown.value (pending copies.old)) }
    ensures none { OnOk result (pending copies.new ≡ []) }
    ensures unchanged { OnErr result (copies.new.desk.shown.value ≡ copies.old.desk.shown.value) }
    ensures pending { OnErr result (pending copies.new ≡ pending copies.old) }
{
    replace_with(
        copies,
        rt,
        |copies, rt| copies.publish_as::<VersionRule<B>, R>(rt),
    )
}
