//! Tests of blocks that are filled from row files, up to a fault, which the next call answers.

use crate::ends::broken;
use crate::row_files::schema_of;
use bsi_fixtures::TextReader;
use bsi_table::{Block, Row, Schema};
use bsi_text::{NoMemory, RowSource, SourceFault};
use std::alloc::Global;
use std::io::Read;

// What a test expects of a call: rows of two columns, or a fault.
type GivenRows<'a> = Result<&'a [[Option<i128>; 2]], SourceFault>;

// Whether the row has these entries.
fn is_row(row: &Row, want: Option<&[Option<i128>; 2]>) -> bool {
    match want {
        Some(entries) => row.values() == entries.as_slice(),
        None => false,
    }
}

// Whether a block has these rows, and no others.
fn has_rows(block: &Block, want: &[[Option<i128>; 2]]) -> Result<bool, NoMemory> {
    let mut right = block.len() == want.len();
    for r in 0..block.len() {
        let row = block.row(r)?;
        right &= is_row(&row, want.get(r));
    }
    Ok(right)
}

// Whether a call filled a block with these, or answered the fault.
fn is_given(
    filled: Result<(), SourceFault>,
    block: &Block,
    want: GivenRows<'_>,
) -> Result<bool, SourceFault> {
    match (filled, want) {
        (Err(SourceFault::NoMemory), _) => Err(SourceFault::NoMemory),
        (Err(fault), Err(expected)) => Ok(fault == expected),
        (Ok(()), Ok(rows)) => Ok(has_rows(block, rows)?),
        _ => Ok(false),
    }
}

// Whether a call fills a block with these, or answers the fault.
fn gives_next<R: Read + Drop>(
    source: &mut RowSource<R, Schema>,
    want: GivenRows<'_>,
) -> Result<bool, SourceFault> {
    let mut block = source.block(2)?;
    let filled = source.fill(1, &mut block);
    is_given(filled, &block, want)
}

fn gives_each<R: Read + Drop>(
    source: &mut RowSource<R, Schema>,
    want: &[GivenRows<'_>],
) -> Result<bool, SourceFault> {
    for given in want {
        if !gives_next(source, *given)? {
            return Ok(false);
        }
    }
    Ok(source.bad() == 1)
}

fn gives_once(
    alloc: Global,
    schema: &Schema,
    reader: TextReader<'_>,
    want: &[GivenRows<'_>],
) -> Result<bool, SourceFault> {
    let mut source = RowSource::begin(alloc, schema, reader)?;
    gives_each(&mut source, want)
}

// Whether a file gives these block after block, and has one bad record; where memory was refused, whether it then does.
fn gives(
    alloc: Global,
    schema: &Schema,
    reader: TextReader<'_>,
    want: &[GivenRows<'_>],
) -> Result<bool, SourceFault> {
    match gives_once(alloc, schema, reader, want) {
        Err(SourceFault::NoMemory) => gives_once(alloc, schema, reader, want),
        given => given,
    }
}

fn answers_the_fault_next(alloc: Global) -> Result<bool, SourceFault> {
    let schema = schema_of(alloc).map_err(|_| SourceFault::NoMemory)?;
    let rows = [[Some(1), Some(2)], [Some(3), Some(4)]];
    let want = [
        Ok(rows.as_slice()),
        Err(SourceFault::Read),
        Err(SourceFault::Read),
    ];
    gives(alloc, &schema, broken(b"a,b\n1,2\n16,2\n3,4\n5,"), &want)
}

#[test]
fn a_fault_after_rows_is_answered_next(rt: HostRuntime) {
    assert!(rt; matches!(answers_the_fault_next(rt.alloc()), Ok(true)));
}
