//! Calls on a running system that tolerate one refused allocation: the call is then made again.

ghost use Rattle.std.specs.Prelude.{◌≡◌, ◌≤◌, [], All, IfSome, length};
ghost use Rattle.bsi_rows.specs.Table.{no_rows};
ghost use Rattle.bsi_system.specs.LoaderSteps.{IsFeederOf};
ghost use Rattle.bsi_snapshots.specs.Versions.{max_analysts};

use bsi_system::{
    Analyst, AnalystRefused, Feeder, History, LoadRefused, Loader, OpenRefused, System, SystemTag,
    open,
};
use bsi_table::{Answer, AskError, ColumnSpec, Pred, Query, Row, Schema, Total};
use std::alloc::Global;
use std::sync::Wait;

fn one_row(alloc: Global, n: i128) -> Option<Row> {
    let values = Vec::from_slice(alloc, &[Some(n)]).ok()?;
    Some(Row::new(values))
}

/// Makes a row of one number. It returns none if memory is refused twice.
pub(crate) fn row(alloc: Global, n: i128) -> Option<Row> {
    match one_row(alloc, n) {
        None => one_row(alloc, n),
        made => made,
    }
}

/// Sends a row of one number. It returns whether the feeder accepts it.
pub(crate) fn submit(alloc: Global, feeder: &mut Feeder, n: i128) -> bool
    ensures number { feeder.new.number ≡ feeder.old.number }
    ensures channel { feeder.new.channel ≡ feeder.old.channel }
{
    match row(alloc, n) {
        Some(row) => feeder.submit(row).is_ok(),
        None => false,
    }
}

pub(crate) fn quantities(alloc: Global) -> Option<Schema> {
    let mut schema = Schema::new(alloc);
    schema.add("qty", ColumnSpec::Slices(3)).ok()?;
    Some(schema)
}

/// Opens a system. It returns none if memory is refused.
pub(crate) fn opened<B: SystemTag, R: Wait>(
    rt: &R,
    alloc: Global,
    history: History,
    schema: Schema,
    capacities: Vec<u32>,
    limit: u64,
    analysts: u32,
) -> Option<System<B>>
    requires few { analysts ≤ max_analysts }
    requires history { history ≡ record { book = B.book; list = [] } }
    requires about { B.about ≡ no_rows schema (length capacities.items) limit }
    ensures { IfSome result (λ s. All (λ f. IsFeederOf f s.loader.system) s.feeders.items) }
{
    match open::<B>(alloc, history, schema, capacities, limit, analysts) {
        Ok(system) => Some(system),
        Err(OpenRefused::Make(_)) => None,
        Err(OpenRefused::Readers(loader)) => {
            loader.end(rt);
            None
        }
    }
}

/// Loads the next row of a feeder. A load that finds no memory and changes nothing is made again.
pub(crate) fn load<B: SystemTag>(loader: &mut Loader<B>, feeder: u32) -> Result<(), LoadRefused>
    ensures { loader.new.system ≡ loader.old.system }
{
    let before = loader.counts();
    match loader.load(feeder) {
        Err(LoadRefused::NoMemory) if loader.counts() == before => loader.load(feeder),
        loaded => loaded,
    }
}

/// Publishes, and returns how many rows are published. It returns none if memory is refused twice, or if a refusal
/// changes what is staged.
pub(crate) fn publish<B: SystemTag, R: Wait>(rt: &R, loader: &mut Loader<B>) -> Option<u64>
    ensures { loader.new.system ≡ loader.old.system }
{
    let before = loader.counts();
    match loader.publish(rt) {
        Ok(len) => Some(len),
        Err(_) if loader.counts() == before => loader.publish(rt).ok(),
        Err(_) => None,
    }
}

pub(crate) fn ask<B: SystemTag>(
    analyst: &mut Analyst<B>,
    total: Total,
) -> Result<Answer, AnalystRefused> {
    let query = Query {
        pred: Pred::All,
        total,
    };
    match analyst.ask(&query) {
        Err(AnalystRefused::Ask(AskError::NoMemory)) => analyst.ask(&query),
        answered => answered,
    }
}

pub(crate) fn count_of<B: SystemTag>(analyst: &mut Analyst<B>) -> Option<u64> {
    match ask(analyst, Total::Count) {
        Ok(Answer::Count(count)) => Some(count),
        _ => None,
    }
}

pub(crate) fn sum_of<B: SystemTag>(analyst: &mut Analyst<B>) -> Option<i128> {
    match ask(analyst, Total::Sum(0)) {
        Ok(Answer::Sum(sum)) => Some(sum),
        _ => None,
    }
}

/// Returns whether a test that was played went right. One that gave up did only where no memory is to be had, which it
/// tells.
pub(crate) fn went_right(rt: &HostRuntime, played: Option<bool>) -> bool {
    if let Some(right) = played {
        return right;
    }
    let refused = Vec::<u8>::with_capacity(rt.alloc(), 1).is_err();
    if refused {
        let _ = eprintln!(rt; "gave up: no memory for the fixture");
    }
    refused
}
