//! Answers each record of a text by a line (`answer_asks`), behind the lines of the row files (`answer_all`). Threads
//! answer the questions that were read ahead if these pass over many rows.

ghost use Rattle.std.specs.Prelude.{◌≡◌, ◌≤◌, None, IfErr, IfSome, OnOk, length, map, true};
ghost use Rattle.std.specs.List.{AllZip};
ghost use Rattle.csv.specs.Reading.{reader_state, source_of};
ghost use Rattle.csv.specs.declared.parser.State.TheVariants as st;
ghost use Rattle.bsi_syntax.specs.declared.grammar.Grammar.TheVariants.{Script};
ghost use Rattle.bsi_rows.specs.Table.{max_feeders};
ghost use Rattle.bsi_input.specs.Texts.{ForText};
ghost use Rattle.bsi_answers.specs.AskLines.{IsAskLine, IsAskLineBy};
ghost use Rattle.bsi_answers.specs.Faults.{may_follow_output};
ghost use Rattle.bsi_answers.specs.RowFiles.{fed_counts};
ghost use Rattle.bsi_answers.specs.Runs.{AreLines};
ghost use Rattle.bsi_answers.specs.Writing.{WritesAll, WritesFirst};

use crate::ahead::read_ahead;
use crate::lines::write_answer_lines;
use crate::{Fed, FilesFault, Which, write_fed_lines};
use bsi_input::{RecordAwareReader, RecordSource};
use bsi_syntax::{Grammar, Notation, Vocabulary};
use bsi_table::Index;
use std::io::{Read, Write};
use std::thread::Threads;

/// Writes a line for each feeder, and then a line for each record of the text: the answer to its question over the rows
/// of the table, or that it is bad.
pub fn answer_all<R: Threads + AllocGlobal + Sync, A: Read + Drop, W: Write>(
    rt: &R,
    table: &Index,
    fed: &[Fed],
    asks: A,
    writer: &mut W,
) -> Result<(), FilesFault>
    requires few { length fed.now ≤ max_feeders }
    ensures follows_output { IfErr result (λ fault. may_follow_output fault ≡ true) }
    ensures ok { OnOk result (IfSome (A.remaining asks) (λ bytes.
        WritesAll (AreLines table.now.schema table.now.rows (map fed_counts fed.now)) bytes
        (W.contents writer.old) (W.contents writer.new))) }
    ensures prefix { IfErr result (λ fault. IfSome (A.remaining asks) (λ bytes.
        WritesFirst (AreLines table.now.schema table.now.rows (map fed_counts fed.now)) bytes fault
        (W.contents writer.old) (W.contents writer.new))) }
{
    write_fed_lines(rt.alloc(), fed, writer)?;
    answer_plain_asks(rt, table, Grammar::Script, asks, writer)
}

/// Writes a line for each record of a text: the answer to its question over the rows of an index of whole numbers, or that
/// it is bad. All lines of what was read are written before more of the text is asked for. It looks for more than
/// 1,000,000 records last.
pub fn answer_plain_asks<R: Threads + AllocGlobal + Sync, A: Read + Drop, W: Write>(
    rt: &R,
    table: &Index,
    grammar: Grammar,
    asks: A,
    writer: &mut W,
) -> Result<(), FilesFault>
    ensures follows_output { IfErr result (λ fault. may_follow_output fault ≡ true) }
    ensures ok { OnOk result (IfSome (A.remaining asks) (λ bytes.
        WritesAll (AllZip (IsAskLine grammar table.now.schema table.now.rows)) bytes
        (W.contents writer.old) (W.contents writer.new))) }
    ensures prefix { IfErr result (λ fault. IfSome (A.remaining asks) (λ bytes.
        WritesFirst (AllZip (IsAskLine grammar table.now.schema table.now.rows)) bytes fault
        (W.contents writer.old) (W.contents writer.new))) }
{
    answer_asks(rt, table, table.schema(), grammar, asks, writer)
}

/// Writes a line for each record of a text, as `answer_plain_asks`, where a vocabulary says what the words of questions
/// mean and how answers write the numbers of columns.
pub fn answer_asks<
    R: Threads + AllocGlobal + Sync,
    V: Vocabulary + Notation + Sync,
    A: Read + Drop,
    W: Write,
>(
    rt: &R,
    table: &Index,
    vocabulary: &V,
    grammar: Grammar,
    asks: A,
    writer: &mut W,
) -> Result<(), FilesFault>
    ensures follows_output { IfErr result (λ fault. may_follow_output fault ≡ true) }
    ensures ok { OnOk result (IfSome (A.remaining asks) (λ bytes.
        WritesAll (AllZip (IsAskLineBy grammar (V.words vocabulary.now) (V.number_texts vocabulary.now)
        table.now.schema table.now.rows)) bytes (W.contents writer.old) (W.contents writer.new))) }
    ensures prefix { IfErr result (λ fault. IfSome (A.remaining asks) (λ bytes.
        WritesFirst (AllZip (IsAskLineBy grammar (V.words vocabulary.now) (V.number_texts vocabulary.now)
        table.now.schema table.now.rows)) bytes fault (W.contents writer.old) (W.contents writer.new))) }
{
    let mut records = RecordSource::new(rt.alloc(), RecordAwareReader::new(asks));
    answer_ahead(rt, table, vocabulary, grammar, &mut records, writer)
}

/// Writes a line for each record of a text of which no record was read.
fn answer_ahead<
    R: Threads + AllocGlobal + Sync,
    V: Vocabulary + Notation + Sync,
    A: Read + Drop,
    W: Write,
>(
    rt: &R,
    table: &Index,
    vocabulary: &V,
    grammar: Grammar,
    records: &mut RecordSource<RecordAwareReader<A>>,
    writer: &mut W,
) -> Result<(), FilesFault>
    requires fresh { (records.old.read_so_far ≡ 0) × (records.old.end ≡ None) }
    requires start { reader_state records.old.input ≡ st.StartRecord }
    ensures follows_output { IfErr result (λ fault. may_follow_output fault ≡ true) }
    ensures ok { OnOk result (ForText (source_of (λ w. A.remaining w.inner) records.old.input) (λ bytes.
        WritesAll (AllZip (IsAskLineBy grammar (V.words vocabulary.now) (V.number_texts vocabulary.now)
        table.now.schema table.now.rows)) bytes (W.contents writer.old) (W.contents writer.new))) }
    ensures prefix { IfErr result (λ fault. ForText (source_of (λ w. A.remaining w.inner) records.old.input)
        (λ bytes. WritesFirst (AllZip (IsAskLineBy grammar (V.words vocabulary.now)
        (V.number_texts vocabulary.now) table.now.schema table.now.rows)) bytes fault
        (W.contents writer.old) (W.contents writer.new))) }
{
    let mut ahead = Vec::new(rt.alloc());
    let mut line = Vec::new(rt.alloc());
    // No text has so many records. The bound lets the proof see that the loop ends.
    'rounds: for _ in 0..u64::MAX {
        let more = read_ahead(rt.alloc(), records, &mut ahead);
        write_answer_lines(rt, table, vocabulary, grammar, &ahead, &mut line, writer)?;
        if !more? {
            return Ok(());
        }
    }
    // No text has so many records, so the loop has returned.
    Err(FilesFault::TooLong(Which::AsksFile))
}
