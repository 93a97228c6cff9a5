//! A run over row files, from their headers to the answers (`run_files`), or to one index of all rows (`load_files`).
//!
//! Its lines are stated over the rows of the files, one file after the other. The loader mixes them as the threads
//! run; by `laws::any_mix` a line is the same for each mix. Only closings tie rows to files, so a full index is
//! reported once they are settled. Where a ring gave no closing, `NotClosed` or a source's fault is reported in its
//! place. Nobody asks while the threads run, so nothing is published: the loader hands over its table, and the
//! questions are put to it.

ghost use Rattle.std.specs.Prelude.{◌≡◌, ◌≢◌, ◌<◌, ◌≤◌, ◌↔◌, ◌++◌, ℕ, [], All, Err, IfErr, IfOk, List, OnOk, Some, false, length, map, true};
ghost use Rattle.bsi_rows.specs.Table.{no_rows, max_feeders};
ghost use Rattle.bsi_files.specs.Ends.{AreReady};
ghost use Rattle.bsi_answers.specs.RowFiles.{fed_counts};
ghost use Rattle.bsi_files.specs.Feds.{IsAllFed};
ghost use Rattle.bsi_answers.specs.Faults.{may_follow_output, raised_while_loading};
ghost use Rattle.bsi_files.specs.Headers.{HasHeader};
ghost use Rattle.bsi_files.specs.Prefixes.{HasLoadedPrefixes, IsPrefixRun};
ghost use Rattle.bsi_files.specs.RunFaults.{is_of_loading, IsFaultOf, IsFaultOver, IsLoadFault};
ghost use Rattle.bsi_answers.specs.Runs.{HasLoaded, IsRun};
ghost use Rattle.bsi_answers.specs.Writing.{Leaves, WhereFilesKnown, WhereKnown, WritesAll};
ghost use Rattle.bsi_system.specs.LoaderSteps.{AlwaysHolds};

use crate::headers::{begin_all, capacities};
use crate::loading::{check_all, load_rest, load_until_ended, settle_all};
use crate::threads::{RunFlags, join_all, start_all};
use crate::{FilesFault, Gate, NoMemory, Stopping};
use bsi_answers::{Fed, answer_all, file_number};
use bsi_input::{RowFormat, RowSource, read_schema};
use bsi_syntax::DeclaredTable;
use bsi_system::{Feeder, History, Loader, OpenRefused, System, SystemTag, open};
use bsi_table::{Index, MAX_FEEDERS, Schema};
use std::alloc::Global;
use std::io::{Read, Write};
use std::marker::Brand;
use std::sync::Wait;
use std::thread;
use std::thread::{Scope, Threads};

/// The rows of all files in one index, and what each file gave.
#[derive(Drop)]
pub struct Loaded {
    /// The index. Its feeder of a number is the file of this number, from 0.
    pub table: Index,
    /// What each file gave, in their order.
    pub fed: Vec<Fed>,
}

/// Loads the good rows of at most 64 files into one index, and answers the questions over all of them.
///
/// The schema file declares the columns and the limit. The rows are loaded as `load_files` does. Then it writes one
/// line for each file, in their order, and one line for each record of the questions. No line depends on how the
/// threads ran. A feeder that the gate stops is no fault, and the rows that it sent count.
///
/// It looks for faults in this order: the number of files; the schema file; those of `load_files`; the questions and
/// the writer. Refused memory is answered where it is met. Lines before a fault are whole, unless the writer fails.
pub fn run_files<
    R: Threads + Wait + AllocGlobal + Sync,
    S: Read + Drop,
    A: Read + Drop,
    I: Read + Drop + Send,
    W: Write,
    G: Gate + Stopping + Sync,
>(rt: &R, schema: S, asks: A, sources: Vec<I>, writer: &mut W, gate: &G) -> Result<(), FilesFault>
    requires { 0 < length sources.items }
    ensures files { (result ≡ Err FilesFault.TooManyFiles) ↔ (max_feeders < length sources.items) }
    ensures output_unchanged { IfErr result (λ fault. may_follow_output fault ≡ false →
        W.contents writer.new ≡ W.contents writer.old) }

    // What a fault says about the bytes of the schema file and of the row files.
    ensures fault { IfErr result (λ fault.
        WhereFilesKnown (S.remaining schema) (map I.remaining sources.items)
        (λ declared texts. IsFaultOf G.STOPS declared texts fault)) }

    // From bytes to bytes, where no gate stops a feeder.
    ensures lines { OnOk result (G.STOPS ≡ false →
        WhereKnown (S.remaining schema) (map I.remaining sources.items) (A.remaining asks)
        (λ declared texts asked. WritesAll (IsRun declared texts) asked
        (W.contents writer.old) (W.contents writer.new))) }
    ensures prefix { IfErr result (λ fault. G.STOPS ≡ false →
        WhereKnown (S.remaining schema) (map I.remaining sources.items) (A.remaining asks)
        (λ declared texts asked. Leaves (IsRun declared texts) asked fault
        (W.contents writer.old) (W.contents writer.new))) }

    // And whatever a gate stops.
    ensures prefixes { OnOk result
        (WhereKnown (S.remaining schema) (map I.remaining sources.items) (A.remaining asks)
        (λ declared texts asked. WritesAll (IsPrefixRun declared texts) asked
        (W.contents writer.old) (W.contents writer.new))) }
{
    if sources.len() > MAX_FEEDERS as usize {
        return Err(FilesFault::TooManyFiles);
    }
    let DeclaredTable { schema, limit } = read_schema(rt.alloc(), schema)?;
    let loaded = load_files(rt, &schema, limit, sources, gate)?;
    answer_all(rt, &loaded.table, &loaded.fed, asks, writer)
}

/// Loads the good rows of 1 to 64 files of a format into one index of its schema, of this limit.
///
/// A feeder on a thread of its own reads each file, and sends its rows through a ring of 1,024 rows; the calling
/// thread pops the rows. How the rows of several files mix depends on how the threads ran.
///
/// It looks for faults in this order: the header of each row file; a thread for each feeder; the limit; a row file
/// that gives no more rows; a feeder without a closing. Where a feeder was stopped though its gate stops none, it
/// looks for a feeder without a closing before it looks at the row files. Of several row files or feeders it reports
/// the first. Refused memory is answered where it is met. It keeps each row once, in the index.
pub fn load_files<
    R: Threads + Wait + AllocGlobal + Sync,
    I: Read + Drop + Send,
    F: RowFormat + Drop + Send,
    G: Gate + Stopping + Sync,
>(rt: &R, format: &F, limit: u64, sources: Vec<I>, gate: &G) -> Result<Loaded, FilesFault>
    requires some { 0 < length sources.items }
    requires few { length sources.items ≤ max_feeders }
    ensures schema { IfOk result (λ loaded. loaded.table.schema ≡ (F.format format.now).schema) }
    ensures limit { IfOk result (λ loaded. loaded.table.limit ≡ limit) }
    ensures feeders { IfOk result (λ loaded. loaded.table.feeders ≡ length sources.items) }
    ensures counts { IfOk result (λ loaded. length loaded.fed.items ≡ length sources.items) }
    ensures headers { OnOk result ((texts : List (List ℕ)) →
        map I.remaining sources.items ≡ map Some texts → All (HasHeader (F.format format.now)) texts) }
    ensures counted { IfErr result (λ fault. fault ≢ FilesFault.TooManyFiles) }
    ensures loading { IfErr result (λ fault. is_of_loading fault ≡ true) }
    ensures fault { IfErr result (IsFaultOver G.STOPS (F.format format.now) limit (map I.remaining sources.items)) }
    ensures follows_output { IfErr result (λ fault. may_follow_output fault ≡ true → fault ≡ FilesFault.NoMemory) }

    // By the bytes of the files, where no gate stops a feeder.
    ensures rows { IfOk result (λ loaded. G.STOPS ≡ false → (texts : List (List ℕ)) →
        map I.remaining sources.items ≡ map Some texts →
        HasLoaded (F.format format.now) limit texts loaded.table.rows (map fed_counts loaded.fed.items)) }

    // Whatever a gate stops.
    ensures prefixes { IfOk result (λ loaded. (texts : List (List ℕ)) →
        map I.remaining sources.items ≡ map Some texts →
        HasLoadedPrefixes (F.format format.now) limit texts loaded.table.rows (map fed_counts loaded.fed.items)) }
{
    let alloc = rt.alloc();
    let sources = begin_all(alloc, format, sources)?;
    let capacities = capacities(alloc, sources.len())?;
    let schema = format.row_schema().copy()?;
    let history = History::new();
    let loaded = load_with_system::<Brand, R, I, F, G>(
        rt, history, schema, capacities, limit, sources, gate,
    );
    gate.done();
    loaded
}

/// Opens a system, and loads the files by it.
fn load_with_system<
    B: SystemTag,
    R: Threads + Wait + AllocGlobal + Sync,
    I: Read + Drop + Send,
    F: RowFormat + Drop + Send,
    G: Gate + Stopping + Sync,
>(
    rt: &R,
    history: History,
    schema: Schema,
    capacities: Vec<u32>,
    limit: u64,
    sources: Vec<RowSource<I, F>>,
    gate: &G,
) -> Result<Loaded, FilesFault>
    requires history { history ≡ record { book = B.book; list = [] } }
    requires about { B.about ≡ no_rows schema (length capacities.items) limit }
    requires many { length sources.items ≡ length capacities.items }
    requires few { length sources.items ≤ max_feeders }
    ensures fault { IfErr result (IsLoadFault F.format I.remaining G.STOPS limit sources.items) }
    ensures fed { IfOk result (λ loaded. IsAllFed F.format I.remaining G.STOPS limit
        loaded.table.rows sources.items loaded.fed.items) }
    ensures schema { IfOk result (λ loaded. loaded.table.schema ≡ schema) }
    ensures limit { IfOk result (λ loaded. loaded.table.limit ≡ limit) }
    ensures feeders { IfOk result (λ loaded. loaded.table.feeders ≡ length sources.items) }
{
    match open::<B>(rt.alloc(), history, schema, capacities, limit, 0) {
        Ok(
            System {
                feeders,
                loader,
                analysts: _analysts,
            },
        ) => feed_files(rt, loader, feeders, sources, gate),
        // The sizes are in range, so only memory can be refused.
        Err(OpenRefused::Make(_)) => Err(FilesFault::NoMemory),
        Err(OpenRefused::Readers(loader)) => {
            loader.end(rt);
            Err(FilesFault::Readers)
        }
    }
}

/// A loader that ends where it is dropped, so that the closure of a scope may own it.
struct OwnedLoader<'r, B: SystemTag, R: Wait> {
    loader: Loader<B>,
    rt: &'r R,
}

impl<B: SystemTag, R: Wait> Drop for OwnedLoader<'_, B, R> {
    fn drop(self) {
        let OwnedLoader { loader, rt } = self;
        loader.end(rt);
    }
}

impl<B: SystemTag, R: Wait> OwnedLoader<'_, B, R> {
    /// Hands over the table of all rows that were popped.
    fn into_table(self) -> Result<Index, NoMemory>
        ensures rows { IfOk result (λ table. table.rows ≡ self.entry.loader.published ++ self.entry.loader.staged) }
        ensures schema { IfOk result (λ table. table.schema ≡ self.entry.loader.system.schema) }
        ensures limit { IfOk result (λ table. table.limit ≡ self.entry.loader.system.limit) }
        ensures feeders { IfOk result (λ table. table.feeders ≡ length self.entry.loader.system.channels) }
        ensures within { IfOk result (λ table. length table.rows ≤ self.entry.loader.system.limit) }
        ensures always { AlwaysHolds self.entry.loader }
    {
        let OwnedLoader { loader, rt } = self;
        match loader.into_table(rt) {
            Ok(table) => Ok(table),
            Err(loader) => {
                loader.end(rt);
                Err(NoMemory)
            }
        }
    }
}

/// Feeds the files, and loads their rows. When it returns, all threads have ended.
fn feed_files<
    B: SystemTag,
    R: Threads + Wait + AllocGlobal + Sync,
    I: Read + Drop + Send,
    F: RowFormat + Drop + Send,
    G: Gate + Stopping + Sync,
>(
    rt: &R,
    loader: Loader<B>,
    feeders: Vec<Feeder>,
    sources: Vec<RowSource<I, F>>,
    gate: &G,
) -> Result<Loaded, FilesFault>
    requires ready { AreReady loader.system B.about.limit feeders.items sources.items }
    ensures fault { IfErr result (IsLoadFault F.format I.remaining G.STOPS B.about.limit sources.items) }
    ensures fed { IfOk result (λ loaded. IsAllFed F.format I.remaining G.STOPS B.about.limit
        loaded.table.rows sources.items loaded.fed.items) }
    ensures schema { IfOk result (λ loaded. loaded.table.schema ≡ loader.system.schema) }
    ensures limit { IfOk result (λ loaded. loaded.table.limit ≡ loader.system.limit) }
    ensures feeders { IfOk result (λ loaded.
        loaded.table.feeders ≡ length loader.system.channels) }
{
    let flags = RunFlags::new(gate);
    let shared = &flags;
    let owned = OwnedLoader { loader, rt };
    thread::scope(
        thread::scope_env(),
        rt,
        move |scope| -> Result<Loaded, FilesFault>
            requires { AreReady owned.loader.system B.about.limit feeders.items sources.items }
            ensures fault { IfErr result
                (IsLoadFault F.format I.remaining G.STOPS B.about.limit sources.items) }
            ensures fed { IfOk result (λ loaded. IsAllFed F.format I.remaining G.STOPS B.about.limit
                loaded.table.rows sources.items loaded.fed.items) }
            ensures schema { IfOk result (λ loaded.
                loaded.table.schema ≡ owned.entry.loader.system.schema) }
            ensures limit { IfOk result (λ loaded.
                loaded.table.limit ≡ owned.entry.loader.system.limit) }
            ensures feeders { IfOk result (λ loaded.
                loaded.table.feeders ≡ length owned.entry.loader.system.channels) }
        { load_with_threads(scope, rt, shared, owned, feeders, sources) },
    )
}

/// Feeds the files by threads of a scope, and loads their rows.
fn load_with_threads<
    's,
    E,
    B: SystemTag,
    R: Threads + Wait + AllocGlobal + Sync + 's,
    I: Read + Drop + Send + 's,
    F: RowFormat + Drop + Send + 's,
    G: Gate + Stopping + Sync + 's,
>(
    scope: &Scope<'s, E>,
    rt: &'s R,
    flags: &'s RunFlags<'s, G>,
    mut owned: OwnedLoader<'s, B, R>,
    feeders: Vec<Feeder>,
    sources: Vec<RowSource<I, F>>,
) -> Result<Loaded, FilesFault>
    requires { AreReady owned.loader.system B.about.limit feeders.items sources.items }
    ensures fault { IfErr result (IsLoadFault F.format I.remaining G.STOPS B.about.limit sources.items) }
    ensures fed { IfOk result (λ loaded. IsAllFed F.format I.remaining G.STOPS B.about.limit
        loaded.table.rows sources.items loaded.fed.items) }
    ensures schema { IfOk result (λ loaded.
        loaded.table.schema ≡ owned.entry.loader.system.schema) }
    ensures limit { IfOk result (λ loaded. loaded.table.limit ≡ owned.entry.loader.system.limit) }
    ensures feeders { IfOk result (λ loaded.
        loaded.table.feeders ≡ length owned.entry.loader.system.channels) }
{
    let fed = load_all(scope, rt, flags, &mut owned.loader, feeders, sources)?;
    let table = owned.into_table()?;
    Ok(Loaded { fed, table })
}

/// Feeds the files by threads of a scope, loads all their rows, and returns what each feeder leaves. `into_table` gives
/// both premises of `fed`.
fn load_all<
    's,
    E,
    B: SystemTag,
    R: Threads + Wait + AllocGlobal + Sync + 's,
    I: Read + Drop + Send + 's,
    F: RowFormat + Drop + Send + 's,
    G: Gate + Stopping + Sync + 's,
>(
    scope: &Scope<'s, E>,
    rt: &'s R,
    flags: &'s RunFlags<'s, G>,
    loader: &mut Loader<B>,
    feeders: Vec<Feeder>,
    sources: Vec<RowSource<I, F>>,
) -> Result<Vec<Fed>, FilesFault>
    requires { AreReady loader.old.system B.about.limit feeders.items sources.items }
    ensures fault { IfErr result (IsLoadFault F.format I.remaining G.STOPS B.about.limit sources.items) }
    ensures fed { IfOk result (λ fed. AlwaysHolds loader.new →
        length (loader.new.published ++ loader.new.staged) ≤ loader.new.system.limit →
        IsAllFed F.format I.remaining G.STOPS B.about.limit (loader.new.published ++ loader.new.staged)
        sources.items fed.items) }
    ensures system { loader.new.system ≡ loader.old.system }
{
    let files = feeders.len();
    let mut threads = Vec::with_capacity(rt.alloc(), files)?;
    let mut ends = Vec::with_capacity(rt.alloc(), files)?;
    let mut fed = Vec::with_capacity(rt.alloc(), files)?;
    let started = start_all(scope, rt, flags, feeders, sources, &mut threads);
    let loaded = load_if_started(rt, loader, file_number(files), flags, started);
    let joined = join_all(rt, threads, &mut ends);
    loaded?;
    joined?;
    settle_all(loader, ends, &mut fed)?;
    load_rest(rt, loader, &fed)?;
    check_all(&fed, G::STOPS)?;
    Ok(fed)
}

/// Loads beside the feeders if all of them were started. Otherwise it tells those whose rings are full to stop.
fn load_if_started<B: SystemTag, R: Wait, G: Gate>(
    rt: &R,
    loader: &mut Loader<B>,
    feeders: u32,
    flags: &RunFlags<'_, G>,
    started: bool,
) -> Result<(), FilesFault>
    ensures system { loader.new.system ≡ loader.old.system }
    ensures while_loading { IfErr result (λ fault. raised_while_loading fault ≡ true) }
    ensures not_full { IfErr result (λ fault. fault ≢ FilesFault.IndexFull) }
    ensures started { OnOk result (started ≡ true) }
{
    if !started {
        flags.refuse();
        return Err(FilesFault::NoMemory);
    }
    load_until_ended(rt, loader, feeders, flags)
}
