//! A block of up to 64 rows of one schema, stored column by column (`Block`).
//!
//! The numbers of column `c` are in 64 slots from slot `64 * c` on, so a row is written without moving another, and
//! a column is written and lent as one slice.
//!
//! A block carries the feeder of each row, so one block serves all feeders. It holds its schema by an `Arc`, where a
//! ghost snapshot would do for the proofs: what has a snapshot can't be shown to go to another thread.

ghost use Rattle.std.specs.Prelude.{◌≡◌, ◌↔◌, [], ◌+◌, ◌++◌, ◌^◌, ◌<◌, ◌≤◌, All, Some, IfOk, IsTrue, length, replicate, slice_get, vec_capacity, true, false};
ghost use Rattle.bsi_digits.specs.Blocks.{offset_entries, value_entries, IsNumberBlock};
ghost use Rattle.bsi_schema.specs.Columns.{column_at, fits, is_accepted_by};
ghost use Rattle.bsi_rows.specs.RowBlocks.{emptied_block, entries_of, max_block_rows, no_block_rows, with_block_row, with_null_rows, HasColumn, HaveSameLimits};
ghost use Rattle.bsi_rows.specs.Rows.{column_of, feeders_of};
ghost use Rattle.bsi_rows.specs.Table.{AreFitting, AreFrom};

use crate::cells::{
    accepts_values, has_no_bit_past, read_row, write_entries, write_nulls, write_row, write_values,
};
use crate::{NoMemory, Row, Schema};
use bsi_schema::{Limits, accepts_row, have_same_limits};
use std::alloc::Global;
use std::marker::Model;
use std::sync::Arc;

/// The most rows of a block that can be appended at once.
pub const MAX_BLOCK_ROWS: usize = 64;

/// At most 64 rows that fit a schema, each from one of so many feeders. `push` tests a row as it adds it; the other calls
/// are given what fits. Filling the block again takes no memory. For each of the 64 rows it takes 8 bytes and a bit a
/// column, and 4 bytes for its feeder.
pub struct Block {
    schema: Arc<Schema, Global>,
    // What each column accepts, beside the shared schema, so that a row is tested without it.
    limits: Vec<Limits>,
    feeders: u32,
    // The feeder of each row.
    row_feeders: Vec<u32>,
    // 64 a column, each less the least number that the column accepts; 0 for a null.
    numbers: Vec<u64>,
    // A word a column, of which entries are numbers.
    not_null: Vec<u64>,
}

/// A column of a block. Entry `r` is a null where bit `r` of `not_null` is clear, and number `r` is 0 there; else it is
/// number `r` and the offset.
#[derive(Clone, Copy)]
pub struct BlockColumn<'a> {
    /// The least number that the column accepts.
    pub offset: i64,
    /// The numbers less the offset, in order of the rows.
    pub numbers: &'a [u64],
    /// Which entries are numbers. No bit past the last entry is set.
    pub not_null: u64,
}

// What a derive drops, each crate above would prove anew.
impl Drop for Block {
    fn drop(self) {
        let Block {
            schema: _schema,
            limits: _limits,
            feeders: _,
            row_feeders: _row_feeders,
            numbers: _numbers,
            not_null: _not_null,
        } = self;
    }
}

// Clauses see the schema, the number of feeders, and the rows, each with its feeder.
impl Model for Block {
    ghost use Rattle.std.specs.Prelude.{◌≤◌, vec_capacity};
    ghost use Rattle.bsi_rows.specs.RowBlocks.{block_view, max_block_rows, IsBlock, RowBlock};

    ghost Value = { RowBlock };

    ghost view = { λ b. block_view b.schema.value b.feeders b.row_feeders.items b.limits.items
        b.numbers.items b.not_null.items };

    ghost invariant = { λ b. IsBlock b.schema.value.columns b.limits.items b.feeders b.row_feeders.items
        b.numbers.items b.not_null.items × (max_block_rows ≤ vec_capacity b.row_feeders) };
}

impl Block {
    /// Makes a block of no rows, with room for 64 rows of a schema, each from one of so many feeders.
    pub fn new(alloc: Global, schema: &Arc<Schema, Global>, feeders: u32) -> Result<Block, NoMemory>
        ensures { IfOk result (λ block. block ≡ no_block_rows schema.now.value feeders) }
    {
        let shared = Arc::try_clone(schema)?;
        let limits = Vec::from_slice(alloc, schema.limits())?;
        let row_feeders = Vec::with_capacity(alloc, MAX_BLOCK_ROWS)?;
        let columns = schema.columns() as usize;
        let numbers = vec![in alloc; 0; MAX_BLOCK_ROWS * columns]?;
        let not_null = vec![in alloc; 0; columns]?;
        Ok(Block {
            schema: shared,
            limits,
            feeders,
            row_feeders,
            numbers,
            not_null,
        })
    }

    /// Returns the number of rows, at most 64.
    pub fn len(&self) -> usize
        ensures len { result ≡ length self.now.rows }
        ensures within { result ≤ max_block_rows }
        ensures fitting { AreFitting self.now.schema.columns self.now.rows }
        ensures from { AreFrom self.now.feeders self.now.rows }
    {
        self.row_feeders.len()
    }

    /// Returns whether there is no row.
    pub fn is_empty(&self) -> bool
        ensures { IsTrue result ↔ (self.now.rows ≡ []) }
    {
        self.len() == 0
    }

    /// Returns the number of columns.
    pub fn columns(&self) -> usize
        ensures { result ≡ length self.now.schema.columns }
    {
        self.limits.len()
    }

    /// Returns how many feeders there are, of which each row is from one.
    pub fn feeders(&self) -> u32
        ensures feeders { result ≡ self.now.feeders }
        ensures from { AreFrom self.now.feeders self.now.rows }
    {
        self.feeders
    }

    /// Removes all rows. It keeps the room.
    pub fn clear(&mut self)
        ensures { self.new ≡ emptied_block self.old }
    {
        self.row_feeders.clear();
        self.not_null.fill(0);
    }

    /// Adds a row of a feeder after the others, and returns whether it fits. If it does not, the block stays.
    pub fn push(&mut self, feeder: u32, row: &Row) -> bool
        requires room { length self.old.rows < max_block_rows }
        requires feeder { feeder < self.old.feeders }
        ensures fits { result ≡ fits self.old.schema.columns row.now }
        ensures added { result ≡ true → self.new ≡ with_block_row self.old feeder row.now }
        ensures unchanged { result ≡ false → self.new ≡ self.old }
    {
        if !accepts_row(&self.limits, row) {
            return false;
        }
        let at = self.row_feeders.len();
        write_row(
            &self.limits,
            row.values(),
            at,
            &mut self.numbers,
            &mut self.not_null,
        );
        self.row_feeders.push_reserved(feeder);
        true
    }

    /// Adds a row of a feeder that fits after the others. Its entries are numbers of 64 bits already.
    pub fn push_fitting(&mut self, feeder: u32, entries: &[Option<i64>])
        requires room { length self.old.rows < max_block_rows }
        requires feeder { feeder < self.old.feeders }
        requires fits { IsTrue (fits self.old.schema.columns entries.now) }
        ensures { self.new ≡ with_block_row self.old feeder entries.now }
    {
        let at = self.row_feeders.len();
        write_entries(
            &self.limits,
            entries,
            at,
            &mut self.numbers,
            &mut self.not_null,
        );
        self.row_feeders.push_reserved(feeder);
    }

    /// Adds so many rows of a feeder after the others, of nulls, which `write_column` may then replace.
    pub fn push_nulls(&mut self, feeder: u32, rows: usize)
        requires room { length self.old.rows + rows ≤ max_block_rows }
        requires feeder { feeder < self.old.feeders }
        ensures { self.new ≡ with_null_rows self.old feeder rows }
    {
        let from = self.row_feeders.len();
        write_nulls(self.limits.len(), from, from + rows, &mut self.numbers);
        push_feeder(&mut self.row_feeders, feeder, rows);
    }

    /// Returns whether at most 64 entries may be written in column `c`: it accepts each, and `not_null` has no bit past
    /// the last.
    pub fn accepts_column(&self, c: usize, values: &[i64], not_null: u64) -> bool
        requires within { c < length self.now.schema.columns }
        requires few { length values.now ≤ max_block_rows }
        ensures { IsTrue result ↔ (not_null < 2 ^ length values.now)
            × All (λ entry. is_accepted_by (column_at self.now.schema.columns c) entry ≡ true)
            (value_entries values.now not_null) }
    {
        has_no_bit_past(not_null, values.len()) && accepts_values(self.limits[c], values, not_null)
    }

    /// Writes the entries of column `c` in all rows at once: value `r` where bit `r` of `not_null` is set, and a null
    /// elsewhere. The column accepts each, and no bit past the last entry is set.
    pub fn write_column(&mut self, c: usize, values: &[i64], not_null: u64)
        requires within { c < length self.old.schema.columns }
        requires long { length values.now ≡ length self.old.rows }
        requires clear { not_null < 2 ^ length values.now }
        requires accepted { All (λ entry. is_accepted_by (column_at self.old.schema.columns c) entry ≡ true)
            (value_entries values.now not_null) }
        ensures column { HasColumn self.old self.new c (value_entries values.now not_null) }
        ensures fitting { AreFitting self.new.schema.columns self.new.rows }
    {
        write_values(&self.limits, values, not_null, c, &mut self.numbers);
        self.not_null[c] = not_null;
    }

    /// Returns whether the columns of a schema accept the same numbers as those that the block was made for. It takes
    /// no memory.
    pub fn has_limits_of(&self, schema: &Schema) -> bool
        ensures alike { IsTrue result ↔ HaveSameLimits self.now.schema schema.now }
        ensures fits { IsTrue result → AreFitting schema.now.columns self.now.rows }
    {
        have_same_limits(&self.limits, schema.limits())
    }

    /// Makes row `r`, counted from 0, as a row of its own.
    pub fn row(&self, r: usize) -> Result<Row, NoMemory>
        requires { r < length self.now.rows }
        ensures { IfOk result (λ row. slice_get (entries_of self.now.rows) r ≡ Some row) }
    {
        let alloc = *self.numbers.allocator();
        let entries = read_row(alloc, &self.limits, r, &self.numbers, &self.not_null)?;
        Ok(Row::new(entries))
    }

    /// Lends the feeder of each row.
    pub fn row_feeders(&self) -> &[u32]
        ensures { result.now ≡ feeders_of self.now.rows }
    {
        &self.row_feeders
    }

    /// Lends the entries of column `c`, in order of the rows.
    pub fn column(&self, c: usize) -> BlockColumn<'_>
        requires { c < length self.now.schema.columns }
        ensures offset { result.offset ≡ (column_at self.now.schema.columns c).offset }
        ensures entries { offset_entries result.offset result.numbers.now result.not_null
            ≡ column_of self.now.rows c }
        ensures block { IsNumberBlock result.numbers.now result.not_null }
        ensures long { length result.numbers.now ≡ length self.now.rows }
        ensures few { length result.numbers.now ≤ max_block_rows }
    {
        let rows = self.row_feeders.len();
        let first = MAX_BLOCK_ROWS * c;
        BlockColumn {
            offset: self.limits[c].least(),
            numbers: &self.numbers[first..first + rows],
            not_null: self.not_null[c],
        }
    }
}

/// Adds a feeder so many times, into room that is already there.
fn push_feeder(row_feeders: &mut Vec<u32>, feeder: u32, rows: usize)
    requires { length row_feeders.old.items + rows ≤ vec_capacity row_feeders.old }
    ensures items { row_feeders.new.items ≡ row_feeders.old.items ++ replicate rows feeder }
    ensures room { vec_capacity row_feeders.new ≡ vec_capacity row_feeders.old }
{
    'rows: for _ in 0..rows {
        row_feeders.push_reserved(feeder);
    }
}
