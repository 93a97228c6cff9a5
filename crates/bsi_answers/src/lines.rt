//! Writes the lines of records that were read ahead (`write_answer_lines`). Threads make them if they pass over many rows.

ghost use Rattle.std.specs.Prelude.{◌≡◌, ◌⊎◌, ◌∷◌, [], IfErr, IfOk, IfSome, OnOk, map};
ghost use Rattle.std.specs.List.{AllZip};
ghost use Rattle.csv.specs.Records.{fields_of};
ghost use Rattle.bsi_answers.specs.AskLines.{IsAskLineBy};
ghost use Rattle.bsi_answers.specs.ReadAhead.{WritesFirstLines, WritesLines};

use crate::alone::{write_answer_line, write_any_line};
use crate::{FilesFault, NoMemory};
use bsi_input::write_bytes;
use bsi_syntax::{Grammar, Notation, Vocabulary, lend_fields};
use bsi_table::Index;
use csv::ByteRecord;
use rayon::prelude::*;
use std::alloc::Global;
use std::io::Write;
use std::thread::Threads;

/// From so many rows on, counted once for each record, threads save more time than they take to start.
const MANY_ROWS: u64 = 1 << 23;

/// Writes the line of each record, in their order: the answer to its question over the rows of an index, or that it is
/// bad. `line` is memory for a line.
pub fn write_answer_lines<
    R: Threads + AllocGlobal + Sync,
    V: Vocabulary + Notation + Sync,
    W: Write,
>(
    rt: &R,
    table: &Index,
    vocabulary: &V,
    grammar: Grammar,
    ahead: &[ByteRecord],
    line: &mut Vec<u8>,
    writer: &mut W,
) -> Result<(), FilesFault>
    ensures ok { OnOk result (WritesLines (IsAskLineBy grammar (V.words vocabulary.now)
        (V.number_texts vocabulary.now) table.now.schema table.now.rows) (map fields_of ahead.now)
        (W.contents writer.old) (W.contents writer.new)) }
    ensures prefix { IfErr result (WritesFirstLines (IsAskLineBy grammar (V.words vocabulary.now)
        (V.number_texts vocabulary.now) table.now.schema table.now.rows) (map fields_of ahead.now)
        (W.contents writer.old) (W.contents writer.new)) }
{
    let made = make_together(rt, table, vocabulary, grammar, ahead);
    'records: for k in 0..ahead.len() {
        write_line(
            rt.alloc(),
            table,
            vocabulary,
            grammar,
            &ahead[k],
            made.get(k),
            line,
            writer,
        )?;
    }
    Ok(())
}

/// Writes the line of a record, which may be made already. One that found no memory beside others may find it alone.
fn write_line<V: Vocabulary + Notation, W: Write>(
    alloc: Global,
    table: &Index,
    vocabulary: &V,
    grammar: Grammar,
    record: &ByteRecord,
    made: Option<&Result<Vec<u8>, NoMemory>>,
    line: &mut Vec<u8>,
    writer: &mut W,
) -> Result<(), FilesFault>
    requires { IfSome made (λ m. IfOk m.now (λ made_line. IsAskLineBy grammar (V.words vocabulary.now)
        (V.number_texts vocabulary.now) table.now.schema table.now.rows (fields_of record.now)
        made_line.items)) }
    ensures ok { OnOk result (WritesLines (IsAskLineBy grammar (V.words vocabulary.now)
        (V.number_texts vocabulary.now) table.now.schema table.now.rows) (fields_of record.now ∷ [])
        (W.contents writer.old) (W.contents writer.new)) }
    ensures prefix { IfErr result (WritesFirstLines (IsAskLineBy grammar (V.words vocabulary.now)
        (V.number_texts vocabulary.now) table.now.schema table.now.rows) (fields_of record.now ∷ [])
        (W.contents writer.old) (W.contents writer.new)) }
{
    if let Some(Ok(made)) = made {
        write_bytes(writer, made.as_slice())?;
        return Ok(());
    }
    let fields = lend_fields(alloc, record)?;
    line.clear();
    write_any_line(alloc, table, vocabulary, grammar, &fields, line)?;
    write_bytes(writer, line.as_slice())?;
    Ok(())
}

/// Makes the lines of several records on several threads, if they pass over many rows. Otherwise, or if memory for their
/// list is refused, there are none.
fn make_together<R: Threads + AllocGlobal + Sync, V: Vocabulary + Notation + Sync>(
    rt: &R,
    table: &Index,
    vocabulary: &V,
    grammar: Grammar,
    ahead: &[ByteRecord],
) -> Vec<Result<Vec<u8>, NoMemory>>
    ensures { (result.items ≡ []) ⊎ AllZip (λ asked made. IfOk made (λ line.
        IsAskLineBy grammar (V.words vocabulary.now) (V.number_texts vocabulary.now) table.now.schema
        table.now.rows (fields_of asked) line.items)) ahead.now result.items }
{
    let rows = table.len().saturating_mul(ahead.len() as u64);
    if ahead.len() < 2 || rows < MANY_ROWS {
        return Vec::new(rt.alloc());
    }
    match make_each(rt, rt.alloc(), table, vocabulary, grammar, ahead) {
        Ok(lines) => lines,
        Err(_) => Vec::new(rt.alloc()),
    }
}

/// Makes the line of each record, on as many threads as there are processors.
fn make_each<R: Threads + Sync, V: Vocabulary + Notation + Sync>(
    rt: &R,
    alloc: Global,
    table: &Index,
    vocabulary: &V,
    grammar: Grammar,
    ahead: &[ByteRecord],
) -> Result<Vec<Result<Vec<u8>, NoMemory>>, NoMemory>
    ensures { IfOk result (λ lines. AllZip (λ asked made. IfOk made (λ line.
        IsAskLineBy grammar (V.words vocabulary.now) (V.number_texts vocabulary.now) table.now.schema
        table.now.rows (fields_of asked) line.items)) ahead.now lines.items) }
{
    // A record passes over all rows, so each may be a piece of its own.
    ahead
        .par_iter()
        .with_min_len(1)
        .map(
            |record: &ByteRecord| -> Result<Vec<u8>, NoMemory>
                ensures { IfOk result (λ line. IsAskLineBy grammar (V.words vocabulary.entry.now)
                    (V.number_texts vocabulary.entry.now) table.entry.now.schema
                    table.entry.now.rows (fields_of record.now) line.items) }
            { make_line(alloc, table, vocabulary, grammar, record) },
        )
        .collect(rt, alloc)
}

/// Makes the line of a record.
fn make_line<V: Vocabulary + Notation>(
    alloc: Global,
    table: &Index,
    vocabulary: &V,
    grammar: Grammar,
    record: &ByteRecord,
) -> Result<Vec<u8>, NoMemory>
    ensures { IfOk result (λ line. IsAskLineBy grammar (V.words vocabulary.now)
        (V.number_texts vocabulary.now) table.now.schema table.now.rows (fields_of record.now) line.items) }
{
    let fields = lend_fields(alloc, record)?;
    let mut line = Vec::new(alloc);
    write_answer_line(alloc, table, vocabulary, grammar, &fields, &mut line)?;
    Ok(line)
}
