//! Tests of the rows that a source reads from a row file, and that it stays at its end or its fault.

use crate::ends::{broken, whole};
use bsi_fixtures::TextReader;
use bsi_table::{ColumnSpec, Row, Schema, SchemaError};
use bsi_text::{RowSource, SourceFault};
use std::alloc::Global;
use std::io::Read;

fn schema_once(alloc: Global) -> Result<Schema, SchemaError> {
    let mut schema = Schema::new(alloc);
    schema.add("a", ColumnSpec::Slices(4))?;
    let bases = Vec::from_slice(alloc, &[10])?;
    schema.add("b", ColumnSpec::Range(bases))?;
    Ok(schema)
}

// The columns a, of numbers below 16, and b, of numbers below 10; a refused growth is asked for again.
pub(crate) fn schema_of(alloc: Global) -> Result<Schema, SchemaError> {
    match schema_once(alloc) {
        Err(SchemaError::NoMemory) => schema_once(alloc),
        made => made,
    }
}

// What a test expects of a call: a row, none, or a fault.
type GivenRow<'a> = Result<Option<&'a [Option<i128>]>, SourceFault>;

// Fills the row with the next one, by a row of its own or in place.
fn next<R: Read + Drop>(
    source: &mut RowSource<R, Schema>,
    row: &mut Row,
    is_own: bool,
) -> Result<bool, SourceFault> {
    if !is_own {
        return source.next_into(row);
    }
    match source.next_row()? {
        Some(own) => {
            *row = own;
            Ok(true)
        }
        None => Ok(false),
    }
}

// Whether a call filled the row with these entries, or answered the rest.
fn is_given(answer: Result<bool, SourceFault>, row: &Row, want: GivenRow<'_>) -> bool {
    match (answer, want) {
        (Ok(false), Ok(None)) => true,
        (Ok(true), Ok(Some(entries))) => row.values() == entries,
        (Err(fault), Err(expected)) => fault == expected,
        _ => false,
    }
}

// Whether a source gives these one after another, with so many bad records at the end. The fault that memory was
// refused stays.
fn gives_each<R: Read + Drop>(
    source: &mut RowSource<R, Schema>,
    row: &mut Row,
    file: File<'_>,
    is_own: bool,
) -> Result<bool, SourceFault> {
    for given in file.want {
        let answer = next(source, row, is_own);
        if answer == Err(SourceFault::NoMemory) {
            let again = next(source, row, is_own);
            return if again == answer { answer } else { Ok(false) };
        }
        if !is_given(answer, row, *given) {
            return Ok(false);
        }
    }
    Ok(source.bad() == file.bad)
}

fn gives_once(
    alloc: Global,
    schema: &Schema,
    file: File<'_>,
    is_own: bool,
) -> Result<bool, SourceFault> {
    let mut source = RowSource::begin(alloc, schema, file.reader)?;
    let mut row = Row::new(Vec::new(alloc));
    gives_each(&mut source, &mut row, file, is_own)
}

// A row file, what it gives, and its bad records.
#[derive(Clone, Copy)]
struct File<'a> {
    reader: TextReader<'a>,
    want: &'a [GivenRow<'a>],
    bad: u64,
}

// Whether a file gives these, by rows of their own or in place; where memory was refused, whether a new source then
// does.
fn gives(
    alloc: Global,
    schema: &Schema,
    file: File<'_>,
    is_own: bool,
) -> Result<bool, SourceFault> {
    match gives_once(alloc, schema, file, is_own) {
        Err(SourceFault::NoMemory) => gives_once(alloc, schema, file, is_own),
        given => given,
    }
}

// Whether it gives these both ways.
fn is_read(alloc: Global, file: File<'_>) -> bool {
    match schema_of(alloc) {
        Ok(schema) => {
            gives(alloc, &schema, file, true) == Ok(true)
                && gives(alloc, &schema, file, false) == Ok(true)
        }
        Err(_) => false,
    }
}

#[test]
fn row_source_calls(rt: HostRuntime) {
    let want: [GivenRow<'_>; 5] = [
        Ok(Some(&[Some(15), Some(3)])),
        Ok(Some(&[None, Some(9)])),
        Ok(Some(&[Some(0), Some(4)])),
        Ok(None),
        Ok(None),
    ];
    let file = File {
        reader: whole(b"b,a\n3,15\n9,\nx,1\n10,2\n\"4\",\"0\"\n\n7\n"),
        want: &want,
        bad: 3,
    };
    assert!(rt; is_read(rt.alloc(), file));
}

#[test]
fn a_file_that_is_too_long_stays_so(rt: HostRuntime) {
    let want: [GivenRow<'_>; 2] = [Err(SourceFault::TooLong), Err(SourceFault::TooLong)];
    let file = File {
        reader: TextReader {
            unit: b"x\n",
            times: 1_000_001,
            ..whole(b"a,b\n")
        },
        want: &want,
        bad: 1_000_000,
    };
    assert!(rt; is_read(rt.alloc(), file));
}

#[test]
fn a_fault_stays(rt: HostRuntime) {
    let want: [GivenRow<'_>; 4] = [
        Ok(Some(&[Some(1), Some(2)])),
        Ok(Some(&[Some(3), Some(4)])),
        Err(SourceFault::Read),
        Err(SourceFault::Read),
    ];
    let file = File {
        reader: broken(b"a,b\n1,2\n16,2\n3,4\n5,"),
        want: &want,
        bad: 1,
    };
    assert!(rt; is_read(rt.alloc(), file));
}
