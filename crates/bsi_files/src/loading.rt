//! What the loader does in a run: it loads while feeders run, settles closings, loads the rest, and looks for faults.
//!
//! It loads batches of a feeder until these have 256 rows before it goes on to the next one, so that no ring stays
//! full because another is long. It publishes nothing: nobody asks before all rows are staged, and then the loader
//! hands over its table.

ghost use Rattle.std.specs.Prelude.{◌≡◌, ◌≢◌, ◌<◌, ◌≤◌, ℕ, [], All, Err, IfErr, IfSome, None, OnErr, OnOk, Ok, Some, false, length, true};
ghost use Rattle.bsi_system.specs.LoaderSteps.{progress_at, IsClosingOf};
ghost use Rattle.bsi_files.specs.Ends.{AreClosings};
ghost use Rattle.bsi_files.specs.Progress.{all_closed, AreClosingsSettled, EndedWell, IsDrained, IsFedOf, IsFullAt, IsFullWithRowsLeft, NoneStopped, OthersUnchanged, PopsOnlyOf, SettledUnchanged};
ghost use Rattle.bsi_answers.specs.Faults.{raised_while_loading};
ghost use Rattle.bsi_files.specs.RunFaults.{IsEndFault, IsFirstStopFault, IsNotClosed, IsSourceFault};
ghost use Rattle.bsi_rows.specs.Table.{max_feeders};

use crate::threads::RunFlags;
use crate::{FeedEnd, FilesFault, Gate, NoMemory, Pause};
use bsi_answers::{Fed, file_number};
use bsi_input::SourceFault;
use bsi_system::{Closing, LoadRefused, Loader, SystemTag};
use std::sync::Wait;

/// Once so many rows of one feeder were loaded, the next feeder comes.
const ROWS_AT_ONCE: usize = 256;

/// How often a loader that sees no row yields before it sleeps.
const MAX_LOADER_YIELDS: u32 = 256;

/// Goes from feeder to feeder, round after round, and loads rows until each feeder has ended. It stops at a row that
/// is refused, unless the cause is that no row is seen. From then on, feeders whose rings are full stop. A full index
/// is no fault yet: once the feeders have ended, their closings tell whether they sent more rows than the limit.
pub(crate) fn load_until_ended<B: SystemTag, R: Wait, G: Gate>(
    rt: &R,
    loader: &mut Loader<B>,
    feeders: u32,
    flags: &RunFlags<'_, G>,
) -> Result<(), FilesFault>
    ensures system { loader.new.system ≡ loader.old.system }
    ensures while_loading { IfErr result (λ fault. raised_while_loading fault ≡ true) }
    ensures not_full { IfErr result (λ fault. fault ≢ FilesFault.IndexFull) }
{
    let mut pause = Pause::new(MAX_LOADER_YIELDS);
    'rounds: for _ in rt.forever() {
        if flags.ended() >= u64::from(feeders) {
            return Ok(());
        }
        match load_round(loader, feeders) {
            Ok(true) => pause = Pause::new(MAX_LOADER_YIELDS),
            Ok(false) => pause.wait(rt),
            Err(fault) => {
                flags.refuse();
                return unless_full(fault);
            }
        }
    }
    // 'forever' does not end.
    unreachable!()
}

/// Returns the fault that a row was refused for, unless the index is full.
fn unless_full(fault: FilesFault) -> Result<(), FilesFault>
    requires { raised_while_loading fault ≡ true }
    ensures while_loading { IfErr result (λ fault. raised_while_loading fault ≡ true) }
    ensures not_full { IfErr result (λ fault. fault ≢ FilesFault.IndexFull) }
{
    match fault {
        FilesFault::IndexFull => Ok(()),
        fault => Err(fault),
    }
}

/// Loads some rows of each feeder, and returns whether there was one.
fn load_round<B: SystemTag>(loader: &mut Loader<B>, feeders: u32) -> Result<bool, FilesFault>
    ensures system { loader.new.system ≡ loader.old.system }
    ensures while_loading { IfErr result (λ fault. raised_while_loading fault ≡ true) }
{
    let mut any = false;
    'feeders: for feeder in 0..feeders {
        any |= load_some(loader, feeder)?;
    }
    Ok(any)
}

/// Loads some rows of a feeder, and returns whether there was one.
fn load_some<B: SystemTag>(loader: &mut Loader<B>, feeder: u32) -> Result<bool, FilesFault>
    ensures system { loader.new.system ≡ loader.old.system }
    ensures while_loading { IfErr result (λ fault. raised_while_loading fault ≡ true) }
{
    let mut popped = 0usize;
    'rows: while popped < ROWS_AT_ONCE {
        let rows = load_next(loader, feeder)?;
        if rows == 0 {
            break;
        }
        popped = popped.saturating_add(rows);
    }
    Ok(popped > 0)
}

/// Loads a batch of a feeder or one row, and returns how many rows there were.
fn load_next<B: SystemTag>(loader: &mut Loader<B>, feeder: u32) -> Result<usize, FilesFault>
    ensures system { loader.new.system ≡ loader.old.system }
    ensures pops { PopsOnlyOf feeder loader.old.progress loader.new.progress }
    ensures drained { result ≡ Ok 0 → IsDrained feeder loader.new.progress }
    ensures while_loading { IfErr result (λ fault. raised_while_loading fault ≡ true) }
    ensures full { result ≡ Err FilesFault.IndexFull → IsFullAt feeder loader.new }
{
    match loader.load_batch(feeder) {
        Ok(rows) => Ok(rows),
        Err(LoadRefused::IndexFull) => Err(FilesFault::IndexFull),
        Err(LoadRefused::NoMemory) => Err(FilesFault::NoMemory),
        Err(LoadRefused::UnknownFeeder | LoadRefused::Ended | LoadRefused::Empty) => Ok(0),
    }
}

/// Tells the loader of each closing, in the order of the feeders.
pub(crate) fn settle_all<B: SystemTag>(
    loader: &mut Loader<B>,
    ends: Vec<FeedEnd>,
    fed: &mut Vec<Fed>,
) -> Result<(), NoMemory>
    requires closings { AreClosings loader.old.system 0 ends.items }
    requires none { fed.old.items ≡ [] }
    ensures system { loader.new.system ≡ loader.old.system }
    ensures settled { OnOk result (AreClosingsSettled loader.new.progress 0 ends.items fed.new.items) }
{
    'ends: for end in ends {
        let left = settle_end(loader, end);
        fed.push(left)?;
    }
    Ok(())
}

/// Tells the loader of the closing that a feeder left, and returns what else it left.
fn settle_end<B: SystemTag>(loader: &mut Loader<B>, end: FeedEnd) -> Fed
    requires { IfSome end.closing (λ closing. IsClosingOf closing loader.old.system) }
    ensures system { loader.new.system ≡ loader.old.system }
    ensures fed { IsFedOf end result }
    ensures settled { IfSome end.closing
        (λ closing. (progress_at loader.new.progress closing.number).carried ≡ Some closing.rows) }
    ensures others { IfSome end.closing
        (λ closing. OthersUnchanged closing.number loader.old.progress loader.new.progress) }
    ensures same { end.closing ≡ None → loader.new.progress ≡ loader.old.progress }
{
    let FeedEnd {
        accepted,
        bad,
        stopped,
        fault,
        closing,
    } = end;
    let closed = closing.is_some();
    if let Some(closing) = closing {
        settle(loader, closing);
    }
    Fed {
        accepted,
        bad,
        stopped,
        fault,
        closed,
    }
}

/// Tells the loader of a closing.
fn settle<B: SystemTag>(loader: &mut Loader<B>, closing: Closing)
    requires { IsClosingOf closing loader.old.system }
    ensures system { loader.new.system ≡ loader.old.system }
    ensures settled { (progress_at loader.new.progress closing.number).carried ≡ Some closing.rows }
    ensures others { OthersUnchanged closing.number loader.old.progress loader.new.progress }
{
    let feeder = closing.feeder();
    // A closing is refused only for another feeder's number, and this number is its own.
    let _ = loader.settle(feeder, closing);
}

/// Returns whether each feeder left a closing.
fn are_closed(fed: &[Fed]) -> bool
    ensures { result ≡ all_closed fed.now }
{
    fed.iter().all(|end| end.closed)
}

/// Loads all rows that are left, feeder after feeder, if each of them left a closing.
pub(crate) fn load_rest<B: SystemTag, R: Wait>(
    rt: &R,
    loader: &mut Loader<B>,
    fed: &[Fed],
) -> Result<(), FilesFault>
    requires { length fed.now ≤ max_feeders }
    ensures system { loader.new.system ≡ loader.old.system }
    ensures settled_unchanged { SettledUnchanged loader.old.progress loader.new.progress }
    ensures while_loading { IfErr result (λ fault. raised_while_loading fault ≡ true) }
    ensures drained { OnOk result (all_closed fed.now ≡ true →
        (f : ℕ) → f < length fed.now → IsDrained f loader.new.progress) }
    ensures full { IfErr result (λ fault. fault ≡ FilesFault.IndexFull →
        (all_closed fed.now ≡ true) × IsFullWithRowsLeft (length fed.now) loader.new) }
{
    if !are_closed(fed) {
        return Ok(());
    }
    drain_all(rt, loader, fed.len() as u32)
}

/// Loads the rows that are left of the first feeders, whose closings were settled.
fn drain_all<B: SystemTag, R: Wait>(
    rt: &R,
    loader: &mut Loader<B>,
    feeders: u32,
) -> Result<(), FilesFault>
    ensures system { loader.new.system ≡ loader.old.system }
    ensures settled_unchanged { SettledUnchanged loader.old.progress loader.new.progress }
    ensures while_loading { IfErr result (λ fault. raised_while_loading fault ≡ true) }
    ensures drained { OnOk result ((f : ℕ) → f < feeders → IsDrained f loader.new.progress) }
    ensures full { result ≡ Err FilesFault.IndexFull → IsFullWithRowsLeft feeders loader.new }
{
    'feeders: for feeder in 0..feeders {
        drain(rt, loader, feeder)?;
    }
    Ok(())
}

/// Loads the rows that are left of a feeder whose closing was settled.
fn drain<B: SystemTag, R: Wait>(
    rt: &R,
    loader: &mut Loader<B>,
    feeder: u32,
) -> Result<(), FilesFault>
    ensures system { loader.new.system ≡ loader.old.system }
    ensures while_loading { IfErr result (λ fault. raised_while_loading fault ≡ true) }
    ensures pops { PopsOnlyOf feeder loader.old.progress loader.new.progress }
    ensures drained { OnOk result (IsDrained feeder loader.new.progress) }
    ensures full { result ≡ Err FilesFault.IndexFull → IsFullAt feeder loader.new }
{
    'rows: for _ in rt.forever() {
        if load_next(loader, feeder)? == 0 {
            return Ok(());
        }
    }
    // 'forever' does not end.
    unreachable!()
}

/// Looks for a feeder that was stopped though no gate stops one, then for a fault of a source, and then for a feeder
/// that left no closing.
pub(crate) fn check_all(fed: &[Fed], stops: bool) -> Result<(), FilesFault>
    requires { length fed.now ≤ max_feeders }
    ensures fault { IfErr result (IsEndFault stops fed.now) }
    ensures fine { OnOk result (All (EndedWell stops) fed.now) }

    // A fault of a source comes before a feeder that was not closed, unless one was stopped though no gate stops any.
    ensures order { (file : ℕ) → result ≡ Err (FilesFault.NotClosed file) →
        (stops ≡ false → NoneStopped fed.now) → All (λ end. end.fault ≡ None) fed.now }
{
    check_stopped(fed, stops)?;
    check_sources(fed)?;
    check_closed(fed)
}

/// Looks for a feeder that was stopped though no gate stops one, and answers the fault of the first feeder that left
/// no closing. Where each left one, the full index that stops a feeder was reported before.
fn check_stopped(fed: &[Fed], stops: bool) -> Result<(), FilesFault>
    requires { length fed.now ≤ max_feeders }
    ensures fault { IfErr result (IsFirstStopFault fed.now) }
    ensures gate { OnErr result (stops ≡ false) }
    ensures none_stopped { OnOk result (stops ≡ false → NoneStopped fed.now) }
    ensures stopped { OnErr result (¬ (stops ≡ false → NoneStopped fed.now)) }
{
    if stops {
        return Ok(());
    }
    'files: for (file, end) in fed.iter().enumerate() {
        if end.stopped {
            check_closed(fed)?;
            return Err(FilesFault::NotClosed(file_number(file)));
        }
    }
    Ok(())
}

/// Looks for the first file whose source answered a fault, and answers this fault.
fn check_sources(fed: &[Fed]) -> Result<(), FilesFault>
    requires { length fed.now ≤ max_feeders }
    ensures fault { IfErr result (IsSourceFault fed.now) }
    ensures fine { OnOk result (All (λ end. end.fault ≡ None) fed.now) }
    ensures kind { (file : ℕ) → result ≢ Err (FilesFault.NotClosed file) }
{
    'files: for (file, end) in fed.iter().enumerate() {
        if let Some(fault) = end.fault {
            return Err(FilesFault::Source(file_number(file), fault));
        }
    }
    Ok(())
}

/// Looks for the first feeder that left no closing, and answers this fault.
fn check_closed(fed: &[Fed]) -> Result<(), FilesFault>
    requires { length fed.now ≤ max_feeders }
    ensures fault { IfErr result (IsNotClosed fed.now) }
    ensures closed { OnOk result (All (λ end. end.closed ≡ true) fed.now) }
{
    'files: for (file, end) in fed.iter().enumerate() {
        if !end.closed {
            return Err(FilesFault::NotClosed(file_number(file)));
        }
    }
    Ok(())
}
