//! Steps for `tests.rt`: what the ends of a running system refuse, and what they do without memory, in one thread.

ghost use Rattle.std.specs.Prelude.{◌≡◌};
ghost use Rattle.bsi_system.specs.LoaderSteps.{IsFeederOf, IsClosingOf};

use crate::calls::{load, publish, row, submit};
use bsi_system::{Analyst, Closing, Feeder, LoadRefused, Loader, SettleRefused, SystemTag};
use bsi_table::Row;
use std::alloc::Global;
use std::sync::Wait;

/// Fills the first feeder's ring, which has one slot, so that a second row comes back, and sends a row of the other
/// feeder. It returns whether just that is so.
fn fill(alloc: Global, first: &mut Feeder, second: &mut Feeder) -> bool
    ensures number { second.new.number ≡ second.old.number }
    ensures channel { second.new.channel ≡ second.old.channel }
{
    let five = submit(alloc, first, 5);
    let six = submit(alloc, first, 6);
    let seven = submit(alloc, second, 7);
    five && !six && seven
}

/// Loads one row into the table. It returns whether the table refuses the other feeder's row, which is to stay in its
/// ring.
fn load_to_the_limit<B: SystemTag>(loader: &mut Loader<B>) -> bool
    ensures { loader.new.system ≡ loader.old.system }
{
    let loaded = load(loader, 0);
    let none = load(loader, 0);
    let full = load(loader, 1);
    loaded == Ok(()) && none == Err(LoadRefused::Empty) && full == Err(LoadRefused::IndexFull)
}

/// Tells a closing as another feeder's, gets it back, and then tells it as what it is. It returns whether that is so.
fn settle_as_both<B: SystemTag>(loader: &mut Loader<B>, closing: Closing) -> bool
    requires { IsClosingOf closing loader.old.system }
    ensures { loader.new.system ≡ loader.old.system }
{
    match loader.settle(0, closing) {
        Err(SettleRefused::WrongClosing(back)) => loader.settle(1, back).is_ok(),
        Ok(()) => false,
    }
}

/// Returns whether a closing changes nothing of the full table, whose one row is then published.
fn publish_the_one<B: SystemTag, R: Wait>(rt: &R, loader: &mut Loader<B>) -> bool {
    let full = load(loader, 1);
    let counts = loader.counts();
    full == Err(LoadRefused::IndexFull) && counts == (0, 1) && publish(rt, loader) == Some(1)
}

/// Plays on a system whose rings and whose table get full.
pub(crate) fn refuse<B: SystemTag, R: Wait>(
    rt: &R,
    alloc: Global,
    first: Feeder,
    second: Feeder,
    loader: &mut Loader<B>,
) -> Option<bool>
    requires { IsFeederOf second loader.old.system }
{
    let mut first = first;
    let mut second = second;
    let filled = fill(alloc, &mut first, &mut second);
    let loaded = load_to_the_limit(loader);
    let settled = settle_as_both(loader, second.close()?);
    Some(filled && loaded && settled && publish_the_one(rt, loader))
}

/// Rows that are made beforehand.
#[derive(Drop)]
struct ThreeRows {
    first: Row,
    second: Row,
    third: Row,
}

fn make_three(alloc: Global) -> Option<ThreeRows> {
    Some(ThreeRows {
        first: row(alloc, 1)?,
        second: row(alloc, 2)?,
        third: row(alloc, 3)?,
    })
}

/// Sends a row, loads it and publishes it. It returns whether all of that is done.
fn publish_one<B: SystemTag, R: Wait>(
    rt: &R,
    alloc: Global,
    feeder: &mut Feeder,
    loader: &mut Loader<B>,
) -> bool
    ensures number { feeder.new.number ≡ feeder.old.number }
    ensures channel { feeder.new.channel ≡ feeder.old.channel }
    ensures system { loader.new.system ≡ loader.old.system }
{
    let sent = submit(alloc, feeder, 5);
    let loaded = load(loader, 0).is_ok();
    let published = publish(rt, loader) == Some(1);
    sent && loaded && published
}

/// Sends three rows to a ring of two slots. It returns whether just the third one comes back.
fn send_three(feeder: &mut Feeder, rows: ThreeRows) -> bool
    ensures number { feeder.new.number ≡ feeder.old.number }
    ensures channel { feeder.new.channel ≡ feeder.old.channel }
{
    let first = feeder.submit(rows.first).is_ok();
    let second = feeder.submit(rows.second).is_ok();
    let third = feeder.submit(rows.third).is_ok();
    first && second && !third
}

/// Makes the calls that allocate no memory. It returns whether they do what they should.
fn call_with_none<B: SystemTag>(
    feeder: Feeder,
    loader: &mut Loader<B>,
    analyst: &mut Analyst<B>,
    rows: ThreeRows,
) -> bool
    requires { IsFeederOf feeder loader.old.system }
{
    let mut feeder = feeder;
    let sent = send_three(&mut feeder, rows);
    let settled = match feeder.close() {
        Some(closing) => loader.settle(0, closing).is_ok(),
        None => false,
    };
    analyst.learn(loader.tell());
    sent && settled && loader.counts() == (1, 0)
}

/// Makes those calls behind a probe, from which on nothing asks for memory: each later allocation may be refused too.
pub(crate) fn need_none<B: SystemTag, R: Wait>(
    rt: &R,
    alloc: Global,
    feeder: Feeder,
    loader: &mut Loader<B>,
    analyst: Analyst<B>,
) -> Option<bool>
    requires { IsFeederOf feeder loader.old.system }
{
    let mut feeder = feeder;
    let mut analyst = analyst;
    if !publish_one(rt, alloc, &mut feeder, loader) {
        return None;
    }
    let rows = make_three(alloc)?;
    let _probe = Vec::<u8>::with_capacity(alloc, 1);
    Some(call_with_none(feeder, loader, &mut analyst, rows))
}
