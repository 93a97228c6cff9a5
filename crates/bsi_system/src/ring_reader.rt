//! A ring reader: the loader's end of one ring. Once its feeder has closed, it also knows all rows that were sent.

ghost use Rattle.std.specs.Prelude.{◌≡◌, ◌+◌, ◌-◌, ◌<◌, ◌≤◌, ◌↔◌, [], ◌∷◌, ◌++◌, IfOk, IfSome, IsTrue, length};
ghost use Rattle.std.specs.Option.{option_copied};
ghost use mathlib.Core.List.{IsPrefix};
ghost use Rattle.rtrb.specs.Ring.{received, known_items, SameConsumer};
ghost use Rattle.bsi_system.specs.Rings.{all_rows, first_rows};

use crate::message::Message;
use crate::{Closing, NoMemory};
use bsi_table::{Index, Row, Schema};
use rtrb::{Consumer, Finished};
use std::alloc::Global;
use std::marker::Model;
use std::sync::Arc;
use std::sync::atomic::{AtomicU64, Ordering};

/// What is at the front of a ring.
#[derive(Clone, Copy, Debug, PartialEq, Eq)]
pub enum Front {
    /// A row that fits the schema.
    Row,
    /// No row that fits the schema is seen.
    Empty,
    /// The reader is settled, and all rows that were sent have been popped.
    Ended,
}

/// The consumer end of a ring, and what is left of its feeder's end once it is settled.
#[derive(Drop)]
pub struct RingReader {
    schema: Arc<Schema, Global>,
    ring: Consumer<Message>,
    /// So many rows of the first message are popped.
    next: usize,
    /// How many rows were popped, for the feeder to read.
    shared_acked: Arc<AtomicU64, Global>,
    finished: Option<Finished<Message>>,
}

// Clauses see which ring it is, the rows that were popped, those that are seen in the ring, and what the closing
// carried.
impl Model for RingReader {
    ghost use Rattle.std.specs.Prelude.{◌≡◌, IfSome, option_map};
    ghost use Rattle.rtrb.specs.Ring.{all_sent, received, known_items};
    ghost use Rattle.bsi_system.specs.Rings.{ring_of, ring_reader, IsRingReader, RingReader};

    ghost Value = { RingReader };

    ghost view = { λ l. ring_reader (record { ring = ring_of l.ring.end; schema = l.schema.value })
        (received l.ring) (known_items l.ring) l.next (option_map all_sent l.finished) };

    ghost invariant = { λ l. IsRingReader l.schema.value (received l.ring) (known_items l.ring) l.next
        (option_map all_sent l.finished)
        × IfSome l.finished (λ finished. ring_of finished.end ≡ ring_of l.ring.end) };
}

impl RingReader {
    ghost use Rattle.bsi_rows.specs.RowBlocks.{entries_of, HaveSameLimits};
    ghost use Rattle.bsi_system.specs.Rings.{new_reader, ring_of, with_more_popped, with_seen, AllFit, IsFront, IsWhole, Settles};

    /// Makes the reader of a ring from which nothing has been popped.
    pub(crate) fn new(
        schema: Arc<Schema, Global>,
        ring: Consumer<Message>,
        shared_acked: Arc<AtomicU64, Global>,
    ) -> RingReader
        requires { (received ring ≡ []) × (known_items ring ≡ []) }
        ensures { result ≡ new_reader (record { ring = ring_of ring.end; schema = schema.value }) }
    {
        RingReader {
            schema,
            ring,
            next: 0,
            shared_acked,
            finished: None,
        }
    }

    /// Looks at what is at the front of the ring. It pops no row.
    pub fn front(&mut self) -> Front
        ensures front { IsFront self.new result }
        ensures whole { IsWhole self.new }
        ensures unchanged { self.new ≡ with_seen self.old self.new.seen }
    {
        if self.look() {
            // Of a ring that is not settled nothing is known but its messages, so they are tested again.
            if self.ring.peek_known().is_for(&self.schema) {
                return Front::Row;
            }
            return Front::Empty;
        }
        if self.finished.is_some() {
            return Front::Ended;
        }
        Front::Empty
    }

    /// Returns whether a row is seen in the ring. Once the reader is settled, all rows are seen, and it does not read
    /// the ring again.
    fn look(&mut self) -> bool
        ensures seen { IsTrue result ↔ (0 < length self.new.seen) }
        ensures unchanged { self.new ≡ with_seen self.old self.new.seen }
    {
        if self.finished.is_some() {
            self.ring.cached_slots() > 0
        } else {
            !self.ring.is_empty()
        }
    }

    /// Lends the row that is first, or none where it is one of a batch.
    pub fn first_row(&self) -> Option<&Row>
        requires { 0 < length self.now.seen }
        ensures { IfSome (option_copied result) (λ row. IsPrefix (row ∷ []) self.now.seen) }
    {
        match self.ring.peek_known() {
            Message::Row(row) => Some(row),
            Message::Batch(_) => None,
        }
    }

    /// Makes a second row of that which is first. If that is one of a batch, it passes over the whole batch.
    pub fn copy_first(&self) -> Result<Row, NoMemory>
        requires { 0 < length self.now.seen }
        ensures { IfOk result (λ row. IsPrefix (row ∷ []) self.now.seen) }
    {
        match self.ring.peek_known() {
            Message::Row(row) => row.copy(),
            Message::Batch(batch) => batch.index.row(self.next as u64),
        }
    }

    /// Lends the batch that is first. It returns none where a row is first, or a row of the batch was popped, or the
    /// columns of the batch do not have the same limits as those of the schema.
    pub fn first_batch(&self) -> Option<&Index>
        requires { 0 < length self.now.seen }
        ensures rows { IfSome (option_copied result)
            (λ batch. IsPrefix (entries_of batch.rows) self.now.seen) }
        ensures some { IfSome (option_copied result) (λ batch. 0 < length batch.rows) }
        ensures alike { IfSome (option_copied result)
            (λ batch. HaveSameLimits batch.schema self.now.channel.schema) }
        ensures fitting { IfSome (option_copied result)
            (λ batch. AllFit self.now.channel.schema (entries_of batch.rows)) }
    {
        // The batch is tested again, as a row is in `front`.
        match self.ring.peek_known() {
            Message::Batch(batch) if self.next == 0 && batch.is_for(&self.schema) => {
                Some(&batch.index)
            }
            _ => None,
        }
    }

    /// Pops `rows` rows from the ring, and drops them.
    pub fn pop(&mut self, rows: usize)
        requires { rows ≤ length self.old.seen }
        ensures popped { self.new ≡ with_more_popped self.old rows }
        ensures whole { IsWhole self.new }
    {
        self.next = pop_rows(&mut self.ring, self.next, rows);
        self.shared_acked.fetch_add(rows as u64, Ordering::SeqCst);
    }

    /// Learns from the closing of the ring's feeder what was sent. It pops no row and allocates no memory. A second
    /// closing of one ring would carry the same rows.
    pub fn settle(&mut self, closing: Closing)
        requires { closing.channel ≡ self.old.channel }
        ensures settled { Settles self.old closing self.new }
        ensures whole { IsWhole self.new }
        ensures once { IfSome self.old.carried (λ sent. closing.rows ≡ sent) }
    {
        let mut finished = closing.into_finished();
        self.ring.slots_after(&mut finished);
        match &mut self.finished {
            // The first closing stays. The proof takes from this call that both carried the same rows.
            Some(first) => {
                self.ring.slots_after(first);
            }
            None => self.finished = Some(finished),
        }
    }
}

/// Pops so many rows from a ring, after the first `next` of the message that is first. It returns how many rows are
/// then popped of the first message. A message goes out of the ring with its last row.
fn pop_rows(ring: &mut Consumer<Message>, next: usize, rows: usize) -> usize
    requires within_first { next ≤ length (first_rows (known_items ring.old)) - 1 }
    requires seen { next + rows ≤ length (all_rows (known_items ring.old)) }
    ensures ring { SameConsumer ring.old ring.new }
    ensures messages { received ring.new ++ known_items ring.new
        ≡ received ring.old ++ known_items ring.old }
    ensures popped { length (all_rows (received ring.new)) + result
        ≡ length (all_rows (received ring.old)) + next + rows }
    ensures within_first { result ≤ length (first_rows (known_items ring.new)) - 1 }
{
    let mut at = next;
    let mut left = rows;
    'messages: while left > 0 {
        let here = ring.peek_known().len() - at;
        if left < here {
            return at + left;
        }
        ring.pop_known();
        left -= here;
        at = 0;
    }
    at
}
