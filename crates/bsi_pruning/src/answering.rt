//! Answers each record of a text over the columns of a file that it names (`answer_named_asks`).

ghost use Rattle.std.specs.Prelude.{◌≡◌, All, None, IfErr, IfOk, IfSome, OnOk, map};
ghost use Rattle.std.specs.List.{AllZip};
ghost use Rattle.csv.specs.Reading.{reader_state, source_of};
ghost use Rattle.csv.specs.Records.{fields_of};
ghost use Rattle.csv.specs.declared.parser.State.TheVariants as st;
ghost use Rattle.bsi_answers.specs.AskLines.{IsAskLineBy};
ghost use Rattle.bsi_answers.specs.Writing.{WritesAll, WritesFirst};
ghost use Rattle.bsi_projection.specs.Words.{AreChosen};
ghost use Rattle.bsi_input.specs.Texts.{ForText};
ghost use Rattle.bsi_answers.specs.ReadAhead.{WritesFirstLines, WritesLines};
ghost use Rattle.bsi_pruning.specs.Named.{output_fault, IsNoDamage, IsOpenOf};
ghost use Rattle.bsi_rows.specs.Table.{Table};
ghost use Rattle.bsi_storage.specs.ChosenFiles.{AreFileHeads};
ghost use Rattle.bsi_syntax.specs.Bytes.{Bytes};

use crate::NamedFault;
use crate::open_columns::OpenColumns;
use crate::opening::open_named;
use bsi_answers::{FilesFault, Grammar, Which, read_ahead, write_answer_lines};
use bsi_input::{RecordAwareReader, RecordSource};
use bsi_pread::ReadAt;
use bsi_projection::ChosenWords;
use bsi_storage::FileHeads;
use bsi_syntax::{Notation, Vocabulary};
use csv::ByteRecord;
use std::io::{Read, Write};
use std::thread::Threads;

/// Writes a line for each record of a text: the answer to its question over the rows of a file that has these heads, or
/// that it is bad. A vocabulary says what the words of questions mean and how answers write the numbers of columns. The
/// columns that the fields of records name are read when they are first named. All lines of what was read are written
/// before more of the text is asked for. It looks for more than 1,000,000 records last.
pub fn answer_named_asks<
    R: Threads + AllocGlobal + Sync,
    S: ReadAt,
    V: Vocabulary + Notation + Sync,
    A: Read + Drop,
    W: Write,
>(
    rt: &R,
    file: &S,
    heads: &FileHeads,
    vocabulary: &V,
    grammar: Grammar,
    asks: A,
    writer: &mut W,
) -> Result<(), NamedFault>
    ensures ok { OnOk result ((t : Table) → (notes kinds : Bytes) →
        AreFileHeads (S.all_bytes file.now) heads.now.heads.items t notes kinds →
        IfSome (A.remaining asks) (λ bytes. WritesAll (AllZip (IsAskLineBy grammar
        (V.words vocabulary.now) (V.number_texts vocabulary.now) t.schema t.rows)) bytes
        (W.contents writer.old) (W.contents writer.new))) }
    ensures prefix { IfErr result (λ fault. (t : Table) → (notes kinds : Bytes) →
        AreFileHeads (S.all_bytes file.now) heads.now.heads.items t notes kinds →
        IfSome (A.remaining asks) (λ bytes. WritesFirst (AllZip (IsAskLineBy grammar
        (V.words vocabulary.now) (V.number_texts vocabulary.now) t.schema t.rows)) bytes
        (output_fault fault) (W.contents writer.old) (W.contents writer.new))) }
    ensures damage { IfErr result (λ fault. (t : Table) → (notes kinds : Bytes) →
        AreFileHeads (S.all_bytes file.now) heads.now.heads.items t notes kinds →
        IsNoDamage fault) }
{
    let mut records = RecordSource::new(rt.alloc(), RecordAwareReader::new(asks));
    answer_records(rt, file, heads, vocabulary, grammar, &mut records, writer)
}

/// Writes a line for each record of a text of which no record was read.
fn answer_records<
    R: Threads + AllocGlobal + Sync,
    S: ReadAt,
    V: Vocabulary + Notation + Sync,
    A: Read + Drop,
    W: Write,
>(
    rt: &R,
    file: &S,
    heads: &FileHeads,
    vocabulary: &V,
    grammar: Grammar,
    records: &mut RecordSource<RecordAwareReader<A>>,
    writer: &mut W,
) -> Result<(), NamedFault>
    requires fresh { (records.old.read_so_far ≡ 0) × (records.old.end ≡ None) }
    requires start { reader_state records.old.input ≡ st.StartRecord }
    ensures ok { OnOk result ((t : Table) → (notes kinds : Bytes) →
        AreFileHeads (S.all_bytes file.now) heads.now.heads.items t notes kinds →
        ForText (source_of (λ w. A.remaining w.inner) records.old.input) (λ bytes.
        WritesAll (AllZip (IsAskLineBy grammar (V.words vocabulary.now) (V.number_texts vocabulary.now)
        t.schema t.rows)) bytes (W.contents writer.old) (W.contents writer.new))) }
    ensures prefix { IfErr result (λ fault. (t : Table) → (notes kinds : Bytes) →
        AreFileHeads (S.all_bytes file.now) heads.now.heads.items t notes kinds →
        ForText (source_of (λ w. A.remaining w.inner) records.old.input) (λ bytes.
        WritesFirst (AllZip (IsAskLineBy grammar (V.words vocabulary.now) (V.number_texts vocabulary.now)
        t.schema t.rows)) bytes (output_fault fault) (W.contents writer.old) (W.contents writer.new))) }
    ensures damage { IfErr result (λ fault. (t : Table) → (notes kinds : Bytes) →
        AreFileHeads (S.all_bytes file.now) heads.now.heads.items t notes kinds →
        IsNoDamage fault) }
{
    let mut ahead = Vec::new(rt.alloc());
    let mut line = Vec::new(rt.alloc());
    let mut columns = None;
    // No text has so many records. The bound lets the proof see that the loop ends.
    'rounds: for _ in 0..u64::MAX {
        let more = read_ahead(rt.alloc(), records, &mut ahead);
        let opened = answer_ahead(
            rt, file, heads, vocabulary, grammar, &ahead, columns, &mut line, writer,
        )?;
        columns = Some(opened);
        match more {
            Ok(true) => {}
            Ok(false) => return Ok(()),
            Err(fault) => return Err(NamedFault::Run(fault)),
        }
    }
    // No text has so many records, so the loop has returned.
    Err(NamedFault::Run(FilesFault::TooLong(Which::AsksFile)))
}

/// Writes the lines of records that were read ahead, over the columns that they name, and returns the columns that are open then.
fn answer_ahead<
    R: Threads + AllocGlobal + Sync,
    S: ReadAt,
    V: Vocabulary + Notation + Sync,
    W: Write,
>(
    rt: &R,
    file: &S,
    heads: &FileHeads,
    vocabulary: &V,
    grammar: Grammar,
    ahead: &[ByteRecord],
    before: Option<OpenColumns>,
    line: &mut Vec<u8>,
    writer: &mut W,
) -> Result<OpenColumns, NamedFault>
    requires { IfSome before (IsOpenOf (S.all_bytes file.now) heads.now.heads.items) }
    ensures open_of { IfOk result (IsOpenOf (S.all_bytes file.now) heads.now.heads.items) }
    ensures ok { OnOk result ((t : Table) → (notes kinds : Bytes) →
        AreFileHeads (S.all_bytes file.now) heads.now.heads.items t notes kinds →
        WritesLines (IsAskLineBy grammar (V.words vocabulary.now) (V.number_texts vocabulary.now)
        t.schema t.rows) (map fields_of ahead.now) (W.contents writer.old) (W.contents writer.new)) }
    ensures prefix { IfErr result (λ fault. (t : Table) → (notes kinds : Bytes) →
        AreFileHeads (S.all_bytes file.now) heads.now.heads.items t notes kinds →
        WritesFirstLines (IsAskLineBy grammar (V.words vocabulary.now) (V.number_texts vocabulary.now)
        t.schema t.rows) (map fields_of ahead.now) (W.contents writer.old) (W.contents writer.new)
        (output_fault fault)) }
    ensures damage { IfErr result (λ fault. (t : Table) → (notes kinds : Bytes) →
        AreFileHeads (S.all_bytes file.now) heads.now.heads.items t notes kinds →
        IsNoDamage fault) }
{
    let columns = open_named(rt.alloc(), file, heads, vocabulary, ahead, before)?;
    write_lines_over(
        rt, file, heads, vocabulary, grammar, ahead, &columns, line, writer,
    )?;
    Ok(columns)
}

/// Writes the lines of records that were read ahead over open columns, which are all that the records name.
fn write_lines_over<
    R: Threads + AllocGlobal + Sync,
    S: ReadAt,
    V: Vocabulary + Notation + Sync,
    W: Write,
>(
    rt: &R,
    _file: &S,
    heads: &FileHeads,
    vocabulary: &V,
    grammar: Grammar,
    ahead: &[ByteRecord],
    columns: &OpenColumns,
    line: &mut Vec<u8>,
    writer: &mut W,
) -> Result<(), FilesFault>
    requires open_of { IsOpenOf (S.all_bytes _file.now) heads.now.heads.items columns.now }
    requires chosen { All (λ fields. AreChosen (V.words vocabulary.now) fields columns.now.chosen.items)
        (map fields_of ahead.now) }
    ensures ok { OnOk result ((t : Table) → (notes kinds : Bytes) →
        AreFileHeads (S.all_bytes _file.now) heads.now.heads.items t notes kinds →
        WritesLines (IsAskLineBy grammar (V.words vocabulary.now) (V.number_texts vocabulary.now)
        t.schema t.rows) (map fields_of ahead.now) (W.contents writer.old) (W.contents writer.new)) }
    ensures prefix { IfErr result (λ fault. (t : Table) → (notes kinds : Bytes) →
        AreFileHeads (S.all_bytes _file.now) heads.now.heads.items t notes kinds →
        WritesFirstLines (IsAskLineBy grammar (V.words vocabulary.now) (V.number_texts vocabulary.now)
        t.schema t.rows) (map fields_of ahead.now) (W.contents writer.old) (W.contents writer.new) fault) }
{
    let words = ChosenWords::new(vocabulary, &columns.chosen, heads.schema().columns());
    write_answer_lines(rt, &columns.index, &words, grammar, ahead, line, writer)
}
