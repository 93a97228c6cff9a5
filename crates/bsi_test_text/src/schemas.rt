//! Tests of schemas that are read from their texts, and described as texts again.

use crate::ends::{broken, whole};
use bsi_fixtures::TextReader;
use bsi_input::describe_schema;
use bsi_text::{SchemaFault, SourceFault, read_schema};
use std::alloc::Global;

// How many columns a text declares, and the limit.
fn declared_once(alloc: Global, reader: TextReader<'_>) -> Result<(u32, u64), SchemaFault> {
    let table = read_schema(alloc, reader)?;
    Ok((table.schema.columns(), table.limit))
}

// Where memory was refused, the text is read again.
fn declared(alloc: Global, reader: TextReader<'_>) -> Result<(u32, u64), SchemaFault> {
    match declared_once(alloc, reader) {
        Err(SchemaFault::Source(SourceFault::NoMemory)) => declared_once(alloc, reader),
        declared => declared,
    }
}

#[test]
fn schemas_are_read_from_texts(rt: HostRuntime) {
    for (reader, want) in [
        (
            whole(b"column,a,slices,3\nlimit,5\ncolumn,b,range,10\n"),
            Ok((2, 5)),
        ),
        (whole(b"column,a,slices,3\n"), Ok((1, 1 << 32))),
        (
            whole(b"limit,5\nbegin\nlimit,0\n"),
            Err(SchemaFault::BadRecord(2)),
        ),
        (whole(b"limit,5\n"), Err(SchemaFault::NoColumns)),
        (
            broken(b"column,a,slices,3\n"),
            Err(SchemaFault::Source(SourceFault::Read)),
        ),
    ] {
        assert!(rt; declared(rt.alloc(), reader) == want, "{want:?}");
    }
}

// Schemas of each form, each as it is described: bases from the most significant, and an offset of 0 only beside others
// or alone.
const DESCRIBED: [&str; 6] = [
    "column,a,slices,5\nlimit,100\n",
    "column,a,range,3 5 7\ncolumn,b,equality,4 2\nlimit,4294967296\n",
    "column,a,slices,5,0\nlimit,1\n",
    "column,a,equality,9 8,0\ncolumn,b,range,2 1024,0\nlimit,1\n",
    "column,a,range,10 2,-20\ncolumn,b,slices,63,0\ncolumn,c,equality,2 3 4,5\nlimit,7\n",
    "column,a,slices,63,-9223372036854775808\nlimit,2\n",
];

fn described_once(alloc: Global, text: &str) -> Result<Vec<u8>, SchemaFault> {
    let table = read_schema(alloc, text.as_bytes())?;
    let described = describe_schema(alloc, &table.schema, table.limit)?;
    Ok(described)
}

// If memory was refused, the schema is described again. A description that declares another schema is no memory twice.
fn is_described(alloc: Global, text: &str) -> bool {
    let described = match described_once(alloc, text) {
        Err(SchemaFault::Source(SourceFault::NoMemory)) => described_once(alloc, text),
        described => described,
    };
    match described {
        Ok(described) => described.as_slice() == text.as_bytes(),
        Err(_) => false,
    }
}

#[test]
fn each_schema_is_described_as_it_was_declared(rt: HostRuntime) {
    for &text in &DESCRIBED {
        assert!(rt; is_described(rt.alloc(), text), "{text}");
    }
}
