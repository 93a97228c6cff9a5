//! A feeder (`Feeder`): the producer of one ring, which submits rows and batches, and closes.

ghost use Rattle.std.specs.Prelude.{◌≡◌, ◌+◌, ◌<◌, ◌≤◌, ◌⊎◌, [], IfOk, IfSome, OnErr, OnOk, false, length, true};
ghost use Rattle.rtrb.specs.Ring.{known_free, producer_capacity, sent, ProducerLooked};
ghost use Rattle.bsi_system.specs.Rings.{all_rows};

use crate::credits::Credits;
use crate::message::{Batch, Message};
use crate::{Closing, NoMemory};
use bsi_table::{Index, MAX_ROWS, Row, Schema};
use rtrb::Producer;
use std::alloc::Global;
use std::marker::Model;
use std::sync::Arc;

/// Why a row is not sent, in the order of the checks. The row is handed back.
#[derive(Debug, Drop, PartialEq, Eq)]
pub enum SubmitRefused {
    /// The row does not fit the schema.
    Misfit(Row),
    /// The feeder sees no free slot in the ring. The loader frees one for each row that it pops.
    Full(Row),
}

/// Why a batch is not sent, in the order of the checks. The batch is handed back.
#[derive(Drop)]
pub enum BatchRefused {
    /// The columns of the batch do not have the same limits as those of the schema.
    Misfit(Index),
    /// The feeder sees fewer free slots in the ring than the batch has rows. The loader frees one for each row that it
    /// pops. A batch of more rows than the ring's capacity is always refused.
    Full(Index),
}

/// The producer end of a ring, by which one feeder submits rows. It may move to a thread of its own.
#[derive(Drop)]
pub struct Feeder {
    number: u32,
    alloc: Global,
    schema: Arc<Schema, Global>,
    ring: Producer<Message>,
    credits: Credits,
}

// Clauses see the feeder's number, which ring it sends to, the schema, the ring's capacity, the rows that were sent, and
// what was seen of the ring.
impl Model for Feeder {
    ghost use Rattle.std.specs.Prelude.{◌≡◌, ◌+◌, ◌<◌, ◌≤◌, All, length};
    ghost use Rattle.rtrb.specs.Ring.{known_free, sent};
    ghost use Rattle.bsi_rows.specs.Table.{end_of_u32};
    ghost use Rattle.bsi_system.specs.Rings.{all_rows, ring_of, FeederState, IsMessageFor};

    ghost Value = { FeederState };

    ghost view = { λ f. record {
      number = f.number;
      channel = record { ring = ring_of f.ring.end; schema = f.schema.value };
      capacity = f.ring.capacity;
      sent = all_rows (sent f.ring);
      look = record { acked = f.credits.acked; free = known_free f.ring };
    } };

    ghost invariant = { λ f. All (IsMessageFor f.schema.value) (sent f.ring)
        × (f.credits.acked + f.credits.in_flight ≡ length (all_rows (sent f.ring)))
        × (f.credits.in_flight ≤ f.ring.capacity)
        × (f.ring.capacity < end_of_u32) };
}

impl Feeder {
    ghost use Rattle.bsi_rows.specs.RowBlocks.{entries_of};
    ghost use Rattle.bsi_system.specs.Rings.{new_feeder_state, ring_of, with_look, with_sent, with_sent_rows, Closes, IsBatchReply, IsSubmitReply};
    ghost use Rattle.bsi_rows.specs.Table.{end_of_u32, max_rows, no_rows};
    ghost use Rattle.bsi_table.specs.Index.{table_of};

    /// Makes the feeder of a ring to which nothing has been sent.
    pub(crate) fn new(
        number: u32,
        alloc: Global,
        schema: Arc<Schema, Global>,
        ring: Producer<Message>,
        credits: Credits,
    ) -> Feeder
        requires ring { (sent ring ≡ []) × (known_free ring ≡ producer_capacity ring) }
        requires credits { (credits.acked ≡ 0) × (credits.in_flight ≡ 0) }
        requires small { producer_capacity ring < end_of_u32 }
        ensures { result ≡ new_feeder_state number
            (record { ring = ring_of ring.end; schema = schema.value }) (producer_capacity ring) }
    {
        Feeder {
            number,
            alloc,
            schema,
            ring,
            credits,
        }
    }

    /// Returns the feeder's number among those of its system, from 0.
    pub fn number(&self) -> u32
        ensures { result ≡ self.now.number }
    {
        self.number
    }

    /// Returns how many rows may be on their way in the ring.
    pub fn capacity(&self) -> u32
        ensures { result ≡ self.now.capacity }
    {
        self.ring.capacity() as u32
    }

    /// Makes a batch of no rows, an index of one feeder that encodes its columns as the loader's does: the loader
    /// appends its rows by words.
    pub fn batch(&self) -> Result<Index, NoMemory>
        ensures { IfOk result (λ batch. table_of batch
            ≡ no_rows self.now.channel.schema 1 max_rows) }
    {
        Index::with_schema(self.alloc, &self.schema, 1, MAX_ROWS).map_err(|_| NoMemory)
    }

    /// Sends a row. It allocates no memory and never waits.
    pub fn submit(&mut self, row: Row) -> Result<(), SubmitRefused>
        ensures reply { IsSubmitReply self.old row self.new.look result }
        ensures sent { OnOk result (self.new ≡ with_look (with_sent self.old row) self.new.look) }
        ensures unchanged { OnErr result (self.new ≡ with_look self.old self.new.look) }
    {
        if !self.schema.fits(&row) {
            return Err(SubmitRefused::Misfit(row));
        }
        if !spend_credits(&mut self.ring, &mut self.credits, 1) {
            return Err(SubmitRefused::Full(row));
        }
        self.ring.push_reserved(Message::Row(row));
        Ok(())
    }

    /// Sends the rows of a batch, in their order, each as a row of this feeder, whatever feeders the batch has. It
    /// allocates no memory and never waits. A batch of no row is sent by doing nothing. One that is not kept as the
    /// loader's index is, or has more feeders, is loaded row by row, and each row costs a pass over the batch.
    pub fn submit_batch(&mut self, batch: Index) -> Result<(), BatchRefused>
        ensures reply { IsBatchReply self.old batch self.new.look result }
        ensures sent { OnOk result
            (self.new ≡ with_look (with_sent_rows self.old (entries_of batch.rows)) self.new.look) }
        ensures unchanged { OnErr result (self.new ≡ with_look self.old self.new.look) }
    {
        if !batch.has_limits_of(&self.schema) {
            return Err(BatchRefused::Misfit(batch));
        }
        let rows = batch.len() as usize;
        if rows == 0 {
            return Ok(());
        }
        if !spend_credits(&mut self.ring, &mut self.credits, rows) {
            return Err(BatchRefused::Full(batch));
        }
        self.ring.push_reserved(Message::Batch(Batch::new(batch)));
        Ok(())
    }

    /// Ends the feeder, and returns the closing that tells the loader which rows were sent. It returns none if the ring
    /// gives none, for example because the loader is gone.
    pub fn close(self) -> Option<Closing>
        ensures { IfSome result (Closes self) }
    {
        let Feeder {
            number,
            alloc: _,
            schema,
            ring,
            credits: _credits,
        } = self;
        let finished = ring.finish()?;
        Some(Closing::new(number, schema, finished))
    }
}

/// Counts a message of so many rows as sent, if its feeder has the credit for it, and returns whether it does.
fn spend_credits(ring: &mut Producer<Message>, credits: &mut Credits, rows: usize) -> bool
    requires some { 0 < rows }
    requires count { credits.old.acked + credits.old.in_flight ≡ length (all_rows (sent ring.old)) }
    ensures filled { result ≡ true →
        credits.new.acked + credits.new.in_flight ≡ length (all_rows (sent ring.old)) + rows }
    ensures within { result ≡ true → credits.new.in_flight ≤ producer_capacity ring.old }
    ensures free { result ≡ true → 0 < known_free ring.new }
    ensures unchanged { result ≡ false →
        (credits.new.acked + credits.new.in_flight ≡ length (all_rows (sent ring.old)))
        × (credits.new.in_flight ≤ credits.old.in_flight) }
    ensures many { result ≡ false →
        producer_capacity ring.old < length (all_rows (sent ring.old)) + rows }
    ensures full { result ≡ false →
        (producer_capacity ring.old < credits.new.in_flight + rows) ⊎ (known_free ring.new ≡ 0) }
    ensures looked { ProducerLooked ring.old ring.new }
{
    !ring.is_full() && credits.spend(ring.capacity(), rows)
}
