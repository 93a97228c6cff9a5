//! A running system: feeders on threads of their own, a loader, and an analyst who is told what was published.

ghost use Rattle.std.specs.Prelude.{◌≡◌, [], All, IfSome, length};
ghost use Rattle.bsi_library.specs.Table.{no_rows};
ghost use Rattle.bsi_library.specs.LoaderSteps.{IsFeederOf};

use bsi_library::running::{
    Analyst, Closing, Feeder, History, Loader, OpenRefused, System, SystemTag, Told, open,
};
use bsi_library::{Answer, ColumnSpec, Pred, Query, Row, Schema, Total};
use std::alloc::Global;
use std::marker::Brand;
use std::snapshot::Snapshot;
use std::sync::Wait;
use std::thread;
use std::thread::{Promise, PromisedHandle, Threads};

/// The most rows of the index.
const LIMIT: u64 = 1_000;

/// The promise of a thread: its closing is that of the feeder that it was given.
#[derive(Drop)]
struct OfFeeder {
    feeder: Snapshot<Feeder>,
}

impl Promise<Option<Closing>> for OfFeeder {
    ghost kept_by = { λ promise ended.
        IfSome ended (λ c. (c.number ≡ promise.feeder.value.number) × (c.channel ≡ promise.feeder.value.channel)) };
}

/// A feeder's thread.
type Sender = PromisedHandle<Option<Closing>, OfFeeder>;

/// Sends four rows, and closes the feeder.
fn feed(alloc: Global, feeder: Feeder) -> Option<Closing>
    ensures { IfSome result (λ c. (c.number ≡ feeder.number) × (c.channel ≡ feeder.channel)) }
{
    let mut feeder = feeder;
    'rows: for quantity in 1..5u32 {
        let row = Row::new(vec![in alloc; Some(i128::from(quantity))].ok()?);
        feeder.submit(row).ok()?;
    }
    feeder.close()
}

/// Starts the thread of a feeder.
fn start<R: Threads>(rt: &R, alloc: Global, feeder: Feeder) -> Option<Sender>
    ensures { IfSome result (λ handle. handle.promise.feeder.value ≡ feeder) }
{
    let promise = OfFeeder {
        feeder: Snapshot::of(&feeder),
    };
    thread::spawn_with(rt, promise, move || feed(alloc, feeder)).ok()
}

/// Waits for a feeder's thread, and loads all that it sent.
fn load_all<B: SystemTag, R: Threads>(rt: &R, loader: &mut Loader<B>, sender: Sender) -> Option<()>
    requires { IsFeederOf sender.promise.feeder.value loader.old.system }
    ensures { loader.new.system ≡ loader.old.system }
{
    let closing = sender.join(rt)?;
    let feeder = closing.feeder();
    loader.settle(feeder, closing).ok()?;
    'loads: for _ in 0..4 {
        loader.load(feeder).ok()?;
    }
    Some(())
}

/// Learns what was published, and sums it.
fn sum_published<B: SystemTag>(analyst: Analyst<B>, told: Told<B>) -> Option<Answer> {
    let mut analyst = analyst;
    analyst.learn(told);
    let total = Total::Sum(0);
    let pred = Pred::All;
    analyst.ask(&Query { total, pred }).ok()
}

/// Runs two feeders on threads, loads and publishes what they send, and tells an analyst on a thread.
fn serve<B: SystemTag + Send + Sync + 'static, R: Threads + Wait>(
    rt: &R,
    alloc: Global,
    feeders: Vec<Feeder>,
    analyst: Analyst<B>,
    loader: &mut Loader<B>,
) -> Option<Answer>
    requires { All (λ f. IsFeederOf f loader.old.system) feeders.items }
{
    let mut feeders = feeders;
    let second = start(rt, alloc, feeders.pop()?)?;
    let first = start(rt, alloc, feeders.pop()?)?;
    load_all(rt, loader, first)?;
    load_all(rt, loader, second)?;
    loader.publish(rt).ok()?;
    let told = loader.tell();
    let asking = thread::spawn(rt, move || sum_published(analyst, told)).ok()?;
    asking.join(rt)
}

/// Opens a system with a feeder for each capacity and one analyst, and ends it once all were served.
fn run_in<B: SystemTag + Send + Sync + 'static, R: Threads + Wait>(
    rt: &R,
    alloc: Global,
    history: History,
    schema: Schema,
    capacities: Vec<u32>,
) -> Option<Answer>
    requires history { history ≡ record { book = B.book; list = [] } }
    requires about { B.about ≡ no_rows schema (length capacities.items) LIMIT }
{
    let System {
        feeders,
        mut loader,
        mut analysts,
    } = match open::<B>(alloc, history, schema, capacities, LIMIT, 1) {
        Ok(system) => system,
        Err(OpenRefused::Make(_)) => return None,
        Err(OpenRefused::Readers(loader)) => {
            loader.end(rt);
            return None;
        }
    };
    let answer = match analysts.pop() {
        Some(analyst) => serve(rt, alloc, feeders, analyst, &mut loader),
        None => None,
    };
    loader.end(rt);
    answer
}

/// Runs a system of two feeders, and returns what its analyst was answered.
pub(crate) fn run<R: Threads + Wait>(rt: &R, alloc: Global) -> Option<Answer> {
    let mut schema = Schema::new(alloc);
    schema.add("qty", ColumnSpec::Slices(7)).ok()?;
    let capacities = vec![in alloc; 4, 4].ok()?;
    run_in::<Brand, R>(rt, alloc, History::new(), schema, capacities)
}
