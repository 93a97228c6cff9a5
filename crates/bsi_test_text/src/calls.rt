//! Tests of the calls on texts: they read numbers, rows, queries and setup records, and write the lines of replies.

use crate::ends::buffer;
use bsi_load::Reply;
use bsi_table::{Answer, Query, Row, Schema, Total};
use bsi_text::{
    DeclaredTable, NoMemory, read_number, read_query, read_row, read_setup, read_signed, write_bad,
    write_fed, write_reply,
};
use csv::ByteRecord;
use std::alloc::Global;

fn split(alloc: Global, line: &str) -> Result<ByteRecord, NoMemory> {
    let mut fields = ByteRecord::new(alloc);
    for field in line.as_bytes().split(|byte| *byte == b',') {
        fields.push_field(field)?;
    }
    Ok(fields)
}

// The record of a line without quotes; a refused growth is asked for again.
fn record(alloc: Global, line: &str) -> Result<ByteRecord, NoMemory> {
    match split(alloc, line) {
        Err(_) => split(alloc, line),
        made => made,
    }
}

// Whether a setup record is done. Where memory is refused nothing changes.
fn declare(alloc: Global, table: &mut DeclaredTable, line: &str) -> Result<bool, NoMemory> {
    let fields = record(alloc, line)?;
    let DeclaredTable { schema, limit } = table;
    let before = (schema.columns(), *limit);
    match read_setup(alloc, schema, limit, &fields) {
        Err(_) if (schema.columns(), *limit) == before => {
            read_setup(alloc, schema, limit, &fields)
        }
        done => done,
    }
}

// The row of a submission's fields.
fn row(alloc: Global, schema: &Schema, line: &str) -> Result<Option<Row>, NoMemory> {
    let fields = record(alloc, line)?;
    match read_row(alloc, schema, &fields, 2) {
        Err(_) => read_row(alloc, schema, &fields, 2),
        read => read,
    }
}

fn query(alloc: Global, schema: &Schema, line: &str) -> Result<Option<Query>, NoMemory> {
    let fields = record(alloc, line)?;
    match read_query(alloc, schema, &fields) {
        Err(_) => read_query(alloc, schema, &fields),
        read => read,
    }
}

// A table of the column qty, of numbers below 8.
fn quantities(alloc: Global) -> Result<DeclaredTable, NoMemory> {
    let mut table = DeclaredTable::new(alloc);
    declare(alloc, &mut table, "column,qty,slices,3")?;
    Ok(table)
}

/// Setup records that change nothing of a table that has the column.
const NOT_DONE: [&str; 3] = ["limit,0", "begin", "column,qty,slices,3"];

// Whether a setup record is done, and others change nothing.
fn does_setups(alloc: Global, table: &mut DeclaredTable) -> Result<bool, NoMemory> {
    let one = declare(alloc, table, "limit,1")?;
    for line in NOT_DONE {
        if declare(alloc, table, line)? {
            return Ok(false);
        }
    }
    Ok(one && table.limit == 1 && table.schema.columns() == 1)
}

fn setups_are_read(alloc: Global) -> Result<bool, NoMemory> {
    let mut table = quantities(alloc)?;
    does_setups(alloc, &mut table)
}

// Whether a submission's fields from index 2 on are these entries, or none.
fn is_row(
    alloc: Global,
    schema: &Schema,
    line: &str,
    want: Option<&[Option<i128>]>,
) -> Result<bool, NoMemory> {
    let read = row(alloc, schema, line)?;
    Ok(match (&read, want) {
        (None, None) => true,
        (Some(row), Some(entries)) => row.values() == entries,
        _ => false,
    })
}

fn rows_are_read(alloc: Global, schema: &Schema) -> Result<bool, NoMemory> {
    let entries = [Some(5), None];
    Ok(
        is_row(alloc, schema, "submit,0,5,", Some(&entries))?
            && is_row(alloc, schema, "submit,0,x", None)?,
    )
}

// What a query asks of the rows that it selects.
fn total(alloc: Global, schema: &Schema, line: &str) -> Result<Option<Total>, NoMemory> {
    let read = query(alloc, schema, line)?;
    Ok(match &read {
        None => None,
        Some(query) => Some(query.total),
    })
}

fn queries_are_read(alloc: Global, schema: &Schema) -> Result<bool, NoMemory> {
    let count = total(alloc, schema, "count,all")?;
    let load = total(alloc, schema, "load,0")?;
    Ok(count == Some(Total::Count) && load == None)
}

fn both_are_read(alloc: Global, schema: &Schema) -> Result<bool, NoMemory> {
    Ok(rows_are_read(alloc, schema)? && queries_are_read(alloc, schema)?)
}

fn rows_and_queries_are_read(alloc: Global) -> Result<bool, NoMemory> {
    let table = quantities(alloc)?;
    both_are_read(alloc, &table.schema)
}

#[test]
fn records_are_read_from_fields(rt: HostRuntime) {
    assert!(rt; matches!(setups_are_read(rt.alloc()), Ok(true)));
    assert!(rt; matches!(rows_and_queries_are_read(rt.alloc()), Ok(true)));
}

#[test]
fn numbers_are_read_from_fields(rt: HostRuntime) {
    assert!(rt; read_number(b"007") == Some(7) && read_signed(b"-7") == Some(-7));
}

// Writes a reply. A refused growth appends nothing, and the same call is made again.
fn write(reply: &Reply, lines: &mut Vec<u8>) -> Result<(), NoMemory> {
    let before = lines.len();
    match write_reply(reply, lines) {
        Err(_) if lines.len() == before => write_reply(reply, lines),
        done => done,
    }
}

fn write_replies(alloc: Global, lines: &mut Vec<u8>) -> Result<(), NoMemory> {
    write(&Reply::Answered(Ok(Answer::Sum(-12))), lines)?;
    write(&Reply::Answered(Ok(Answer::Rows(Vec::new(alloc)))), lines)
}

fn write_others(lines: &mut Vec<u8>) -> Result<(), NoMemory> {
    write_bad(lines)?;
    write_fed(63, 1_000_000, 7, lines)
}

// Whether lines are written, into a list that has no room for them too.
fn lines_are_written(alloc: Global) -> Result<bool, NoMemory> {
    let mut replies = Vec::new(alloc);
    write_replies(alloc, &mut replies)?;
    let mut others = buffer(alloc)?;
    write_others(&mut others)?;
    Ok(
        replies.as_slice() == b"sum -12\nrows\n".as_slice()
            && others.as_slice() == b"bad\nfed 63 1000000 7\n".as_slice(),
    )
}

#[test]
fn replies_are_written_as_lines(rt: HostRuntime) {
    assert!(rt; matches!(lines_are_written(rt.alloc()), Ok(true)));
}
