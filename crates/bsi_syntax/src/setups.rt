//! Reads the records that declare columns, feeders and the limit of rows (`Setup`).

ghost use Rattle.std.specs.Prelude.{◌≡◌, ◌≤◌, drop, IfOk, IfSome, OnErr};
ghost use Rattle.csv.specs.Records.{fields_of};
ghost use Rattle.bsi_syntax.specs.Setups.{can_begin, capacities_after, declared_after, declared_table, is_begin, limit_of, nothing_declared, only_number, table_after, undeclared_table, IsChange, IsSetup};

use crate::NoMemory;
use crate::columns::declare_column;
use crate::numbers::read_between;
use crate::records::field;
use bsi_rows::{MAX_FEEDERS, MAX_ROWS, MAX_WAITING, Schema};
use csv::ByteRecord;
use std::alloc::Global;
use std::marker::Model;

/// The columns and the limit of an index, as records declare them.
#[derive(Drop)]
pub struct DeclaredTable {
    /// The columns.
    pub schema: Schema,
    /// The most rows of the index.
    pub limit: u64,
}

impl DeclaredTable {
    /// Makes the table of which nothing was declared: no column, and the greatest limit. It allocates no memory.
    pub fn new(alloc: Global) -> DeclaredTable
        ensures { result ≡ undeclared_table }
    {
        DeclaredTable {
            schema: Schema::new(alloc),
            limit: MAX_ROWS,
        }
    }
}

/// Reads the number of a record that consists of a word and a number from 1 to `most`.
fn read_only_number(fields: &ByteRecord, most: u64) -> Option<u64>
    ensures value { result ≡ only_number most (drop 1 (fields_of fields.now)) }
    ensures within { IfSome result (λ n. (1 ≤ n) × (n ≤ most)) }
{
    if fields.len() != 2 {
        return None;
    }
    read_between(1, most, field(fields, 1))
}

/// Carries out a `column` or `limit` record, and returns true. It returns false, and changes nothing, for a record that
/// a script answers `bad`, or for another record. It allocates memory for the bases and the name of a column; if that
/// is refused, it changes nothing.
pub fn read_setup(
    alloc: Global,
    schema: &mut Schema,
    limit: &mut u64,
    fields: &ByteRecord,
) -> Result<bool, NoMemory>
    ensures done { IfOk result (IsChange
        (table_after (declared_table schema.old limit.old) (fields_of fields.now))
        (declared_table schema.old limit.old) (declared_table schema.new limit.new)) }
    ensures unchanged { OnErr result ((schema.new ≡ schema.old) × (limit.new ≡ limit.old)) }
{
    let Some(word) = fields.get(0) else {
        return Ok(false);
    };
    if word == b"column".as_slice() {
        return declare_column(alloc, schema, fields);
    }
    if word == b"limit".as_slice() {
        return Ok(declare_limit(limit, fields));
    }
    Ok(false)
}

/// Sets the limit by a record `limit,N`, and returns whether it did. A later limit replaces an earlier one.
fn declare_limit(limit: &mut u64, fields: &ByteRecord) -> bool
    ensures { IsChange (limit_of (drop 1 (fields_of fields.now))) limit.old limit.new result }
{
    let Some(rows) = read_only_number(fields, MAX_ROWS) else {
        return false;
    };
    *limit = rows;
    true
}

/// Returns whether the record is just `begin`, which ends what a script declares. It allocates no memory.
pub fn is_begin(fields: &ByteRecord) -> bool
    ensures { result ≡ is_begin (fields_of fields.now) }
{
    fields.len() == 1 && field(fields, 0) == b"begin".as_slice()
}

/// What the records of a script before `begin` have declared so far: the columns and the limit of the index, and the
/// feeders, each with the number of its rows that may wait.
#[derive(Drop)]
pub struct Setup {
    table: DeclaredTable,
    capacities: Vec<u32>,
}

// Clauses see the table and the capacities.
impl Model for Setup {
    ghost use Rattle.bsi_syntax.specs.Setups.{IsSetup, Setup};

    ghost Value = { Setup };

    ghost view = { λ s. record { table = s.table; capacities = s.capacities.items } };

    ghost invariant = { λ s. IsSetup s.capacities.items s.table.limit };
}

impl Setup {
    /// Makes a setup with no column, no feeder and the greatest limit. It allocates no memory.
    pub fn new(alloc: Global) -> Setup
        ensures { result ≡ nothing_declared }
    {
        Setup {
            table: DeclaredTable::new(alloc),
            capacities: Vec::new(alloc),
        }
    }

    /// Carries out a `column`, `feeder` or `limit` record, and returns true. It returns false, and changes nothing, for
    /// a record that a script answers `bad`, or for another record. If memory is refused, it changes nothing.
    pub fn declare(&mut self, alloc: Global, fields: &ByteRecord) -> Result<bool, NoMemory>
        ensures done { IfOk result
            (IsChange (declared_after self.old (fields_of fields.now)) self.old self.new) }
        ensures unchanged { OnErr result (self.new ≡ self.old) }
    {
        let Some(word) = fields.get(0) else {
            return Ok(false);
        };
        if word == b"feeder".as_slice() {
            return declare_feeder(&mut self.capacities, fields);
        }
        read_setup(alloc, &mut self.table.schema, &mut self.table.limit, fields)
    }

    /// Returns whether a script can begin: there are a column and a feeder.
    pub fn can_begin(&self) -> bool
        ensures { result ≡ can_begin self.now }
    {
        self.table.schema.columns() > 0 && !self.capacities.is_empty()
    }

    /// Hands over the table, and the capacity of each feeder. It allocates no memory.
    pub fn into_parts(self) -> (DeclaredTable, Vec<u32>)
        ensures table { result.0 ≡ self.table }
        ensures capacities { result.1.items ≡ self.capacities }
        ensures sizes { IsSetup self.capacities self.table.limit }
    {
        (self.table, self.capacities)
    }
}

/// Declares the feeder of a record `feeder,CAP`, if there are fewer than 64 feeders, and returns whether it did.
fn declare_feeder(capacities: &mut Vec<u32>, fields: &ByteRecord) -> Result<bool, NoMemory>
    ensures done { IfOk result
        (IsChange (capacities_after capacities.old.items (drop 1 (fields_of fields.now)))
        capacities.old.items capacities.new.items) }
    ensures unchanged { OnErr result (capacities.new.items ≡ capacities.old.items) }
{
    if capacities.len() >= MAX_FEEDERS as usize {
        return Ok(false);
    }
    let Some(capacity) = read_only_number(fields, u64::from(MAX_WAITING)) else {
        return Ok(false);
    };
    capacities.push(capacity as u32)?;
    Ok(true)
}
