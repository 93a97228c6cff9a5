//! A message of a ring: a row, or a batch of rows.
//!
//! A batch is a small index: its feeder builds the bitmaps, and the loader's index takes them by words.

ghost use Rattle.std.specs.Prelude.{◌<◌, length};

use bsi_table::{Index, Row, Schema};

/// A row, or a batch.
#[derive(Drop)]
pub(crate) enum Message {
    Row(Row),
    Batch(Batch),
}

/// An index of one row or more. What it says of feeders counts for nothing.
#[derive(Drop)]
pub(crate) struct Batch {
    pub(crate) index: Index,
    ghost some: { 0 < length index.rows },
}

impl Message {
    ghost use Rattle.std.specs.Prelude.{◌≡◌, ◌↔◌, IsTrue, length};
    ghost use Rattle.bsi_system.specs.Rings.{rows_of, IsMessageFor};

    /// Returns the number of rows.
    pub(crate) fn len(&self) -> usize
        ensures { result ≡ length (rows_of self.now) }
    {
        match self {
            Message::Row(_) => 1,
            Message::Batch(batch) => batch.index.len() as usize,
        }
    }

    /// Returns whether a feeder of this schema sends it.
    pub(crate) fn is_for(&self, schema: &Schema) -> bool
        ensures { IsTrue result ↔ IsMessageFor schema.now self.now }
    {
        match self {
            Message::Row(row) => schema.fits(row),
            Message::Batch(batch) => batch.is_for(schema),
        }
    }
}

impl Batch {
    ghost use Rattle.std.specs.Prelude.{◌≡◌, ◌↔◌, IsTrue};
    ghost use Rattle.bsi_system.specs.Rings.{IsMessageFor};

    /// Makes a batch of an index that has a row. The clause proves the ghost field, so each batch is made here.
    pub(crate) fn new(index: Index) -> Batch
        requires { 0 < length index.rows }
        ensures { result.index ≡ index }
    {
        Batch { index }
    }

    /// Returns whether a feeder of this schema sends it.
    pub(crate) fn is_for(&self, schema: &Schema) -> bool
        ensures { IsTrue result ↔ IsMessageFor schema.now (Message.Batch self.now) }
    {
        self.index.has_limits_of(schema)
    }
}
