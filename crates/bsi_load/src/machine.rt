//! The step machine (`Core`): a bounded queue for each feeder over an index, driven by events in one thread.

ghost use Rattle.std.specs.Prelude.{◌≡◌, ℕ, ◌≤◌, [], ◌∷◌, None, length, map, IfErr, IfOk, OnOk, if◌then◌else◌};
ghost use Rattle.bsi_rows.specs.Answers.{IsReply};
ghost use Rattle.bsi_rows.specs.Refusals.{IsFirstOr};
ghost use Rattle.bsi_rows.specs.Table.{max_feeders};
ghost use Rattle.bsi_rows.specs.declared.event.Event.TheVariants as event;
ghost use Rattle.bsi_rows.specs.declared.event.Reply.TheVariants as reply;
ghost use Rattle.bsi_rows.specs.Runs.{shown_after, past_of, past_at, AreLawful, IsConserved, StaysClosed};
ghost use Rattle.bsi_rows.specs.Shown.{submit_reply, close_reply, feeder_at, is_unknown, IsLoadReply, IsLawful};
ghost use Rattle.bsi_rows.specs.Sizes.{new_feeder, new_machine, sizes_refusal};

use crate::queue::Queue;
use crate::{
    CloseRefused, Event, LoadRefused, MakeError, NoMemory, Reply, RunRefused, SubmitRefused,
    check_sizes,
};
use bsi_table::{Answer, AskError, Index, Query, Row, Schema};
use circular_buffer::HeapCircularBuffer;
use std::alloc::Global;
use std::marker::Model;

/// An index, and the rows of each feeder that wait to be indexed.
#[derive(Drop)]
pub struct Core {
    index: Index,
    feeders: Vec<Queue>,
}

// Clauses see the index, and of each feeder the rows that wait, whether it was closed, and its capacity.
impl Model for Core {
    ghost use Rattle.bsi_rows.specs.Shown.{Shown, IsMachine};
    ghost use Rattle.bsi_table.specs.Index.{table_of};

    ghost Value = { Shown };

    ghost view = { λ c. record { index = table_of c.index; feeders = c.feeders.items } };

    ghost invariant = { λ c. IsMachine (table_of c.index) c.feeders.items };
}

impl Core {
    /// Makes a machine with a feeder for each capacity and an index of at most `limit` rows. All feeders are open, and
    /// there are no rows.
    pub fn new(
        alloc: Global,
        schema: Schema,
        capacities: Vec<u32>,
        limit: u64,
    ) -> Result<Core, MakeError>
        ensures ok { IfOk result (λ core. core ≡ new_machine schema capacities.items limit) }
        ensures accepted { OnOk result (sizes_refusal schema capacities.items limit ≡ None) }
        ensures refused { IfErr result
            (IsFirstOr MakeError.NoMemory (sizes_refusal schema capacities.items limit)) }
    {
        check_sizes(&schema, &capacities, limit)?;
        let feeders = open_feeders(alloc, &capacities)?;
        let index = Index::new(alloc, schema, capacities.len() as u32, limit)?;
        Ok(Core { index, feeders })
    }

    /// Returns the number of feeders, from 1 to 64.
    pub fn feeders(&self) -> u32
        ensures feeders { result ≡ length self.now.feeders }
        ensures within { (1 ≤ result) × (result ≤ max_feeders) }
    {
        self.feeders.len() as u32
    }

    /// Returns how many rows of a feeder wait, or none if there is no such feeder.
    pub fn waiting(&self, f: u32) -> Option<u32>
        ensures { result ≡ (if is_unknown self.now f then None else Some
            (length (feeder_at self.now f).rows)) }
    {
        let feeder = self.feeders.get(f as usize)?;
        Some(feeder.rows.len() as u32)
    }

    /// Lends the schema of the index.
    pub fn schema(&self) -> &Schema
        ensures { result.now ≡ self.now.index.schema }
    {
        self.index.schema()
    }

    /// Accepts a row of a feeder. From then on the row waits after the feeder's other rows. It allocates no memory.
    pub fn submit(&mut self, f: u32, row: Row) -> Result<(), SubmitRefused>
        ensures reply { result ≡ submit_reply self.old f row }
        ensures after { self.new
            ≡ shown_after self.old ((event.Submit f row, reply.Submitted result) ∷ []) }
    {
        if f >= self.feeders() {
            return Err(SubmitRefused::UnknownFeeder(row));
        }
        let number = f as usize;
        if self.feeders[number].closed {
            return Err(SubmitRefused::Closed(row));
        }
        if !self.index.schema().fits(&row) {
            return Err(SubmitRefused::Misfit(row));
        }
        let queue = &mut self.feeders[number].rows;
        queue.try_push_back(row).map_err(SubmitRefused::Full)
    }

    /// Moves the row of a feeder that has waited longest into the index, and returns its row position there. If the
    /// index is full or is refused memory, the row is still the first that waits.
    pub fn load(&mut self, f: u32) -> Result<u64, LoadRefused>
        ensures reply { IsLoadReply self.old f result }
        ensures after { self.new ≡ shown_after self.old ((event.Load f, reply.Loaded result) ∷ []) }
    {
        if f >= self.feeders() {
            return Err(LoadRefused::UnknownFeeder);
        }
        let number = f as usize;
        let Some(row) = self.feeders[number].rows.front() else {
            return Err(self.feeders[number].refusal());
        };
        let position = self.index.append(f, row)?;
        self.feeders[number].rows.pop_front();
        Ok(position)
    }

    /// Closes a feeder. Its rows still wait. It allocates no memory.
    pub fn close(&mut self, f: u32) -> Result<(), CloseRefused>
        ensures reply { result ≡ close_reply self.old f }
        ensures after { self.new
            ≡ shown_after self.old ((event.Close f, reply.Closed result) ∷ []) }
    {
        if f >= self.feeders() {
            return Err(CloseRefused::UnknownFeeder);
        }
        let number = f as usize;
        if self.feeders[number].closed {
            return Err(CloseRefused::AlreadyClosed);
        }
        self.feeders[number].closed = true;
        Ok(())
    }

    /// Answers a query over the indexed rows. Waiting rows are not among them.
    pub fn ask(&self, query: &Query) -> Result<Answer, AskError>
        ensures { IsReply self.now.index.schema self.now.index.rows query.now result }
    {
        self.index.ask(query)
    }

    /// Carries out one event, and returns its reply. Of a sequence of such steps the laws of `laws` say what they come
    /// to: it is one run, and nothing is lost in it.
    pub fn step(&mut self, event: Event) -> Reply
        ensures lawful { IsLawful self.old event result }
        ensures after { self.new ≡ shown_after self.old ((event, result) ∷ []) }
    {
        match event {
            Event::Submit(f, row) => Reply::Submitted(self.submit(f, row)),
            Event::Load(f) => Reply::Loaded(self.load(f)),
            Event::Close(f) => Reply::Closed(self.close(f)),
            Event::Ask(query) => Reply::Answered(self.ask(&query)),
        }
    }

    /// Carries out a list of events in order, and returns their replies in the same order.
    ///
    /// For every list of submissions, loads, closings and queries, each feeder's indexed rows followed by its waiting
    /// rows are exactly its accepted rows, each once and in order of submission. No row submitted after its feeder's
    /// closing is among them. Every answer is that of the plain definition over the rows indexed at that step, whatever
    /// forms the columns have.
    ///
    /// A load or a query may be refused memory, and then it changes nothing. If memory is refused for the list of
    /// replies, the events are handed back and none of them takes place.
    pub fn run(&mut self, events: Vec<Event>) -> Result<Vec<Reply>, RunRefused>
        ensures length { IfOk result (λ replies. length replies.items ≡ length events.items) }
        ensures lawful { IfOk result
            (λ replies. AreLawful self.old (past_of events.items replies.items)) }
        ensures after { IfOk result (λ replies. self.new
            ≡ shown_after self.old (past_of events.items replies.items)) }
        ensures nothing_lost { IfOk result (λ replies. (n : ℕ) →
            IsConserved self.old (past_at events.items replies.items n)) }
        ensures stays_closed { IfOk result
            (λ replies. StaysClosed self.old events.items replies.items) }
        ensures refused { IfErr result
            (λ e. (e.events.items ≡ events.items) × (self.new ≡ self.old)) }
    {
        let alloc = *self.feeders.allocator();
        let Ok(mut replies) = Vec::with_capacity(alloc, events.len()) else {
            return Err(RunRefused { events });
        };
        'events: for event in events {
            let reply = self.step(event);
            replies.push_reserved(reply);
        }
        Ok(replies)
    }
}

/// Makes an open feeder for each capacity.
fn open_feeders(alloc: Global, capacities: &[u32]) -> Result<Vec<Queue>, NoMemory>
    ensures { IfOk result (λ feeders. feeders.items ≡ map new_feeder capacities.now) }
{
    let mut feeders = Vec::with_capacity(alloc, capacities.len())?;
    'feeders: for capacity in capacities {
        let rows = HeapCircularBuffer::with_capacity(alloc, *capacity as usize)?;
        feeders.push_reserved(Queue {
            rows,
            closed: false,
        });
    }
    Ok(feeders)
}
