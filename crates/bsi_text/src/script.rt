//! Runs a script (`run_script`): reads its records, and writes one line for each; or ends by a fault (`ScriptFault`).

ghost use Rattle.std.specs.Prelude.{◌≡◌, ◌≢◌, ◌++◌, [], Err, OnOk, OnErr, IfErr};
ghost use Rattle.std.specs.Io.KnownBytes.{Appends};
ghost use Rattle.csv.specs.Reading.{reader_state, source_of};
ghost use Rattle.csv.specs.declared.parser.State.TheVariants as st;
ghost use Rattle.bsi_syntax.specs.Setups.{nothing_declared};
ghost use Rattle.bsi_text.specs.FaultTexts.{script_fault_text};
ghost use Rattle.bsi_input.specs.Scripts.{Declaring};
ghost use Rattle.bsi_text.specs.Sessions.{phase_of};
ghost use Rattle.bsi_input.specs.Sources.{IsPlainReader};
ghost use Rattle.bsi_input.specs.Texts.{ForText, ForTextAfterFlush, IfBytesKnown, IsAnswered, IsTooLong, WrotePrefix, WroteWholeLines};
ghost use Rattle.bsi_input.specs.BufferedOutput.{AppendsAllBut, AppendsPrefix, HoldsAfterAnyPartialFlush};

use crate::session::Session;
use crate::{NoMemory, WriteFault, write_bytes};
use bsi_input::{MAX_RECORDS, RecordAwareReader, has_buffered_record, plain_reader, read_next};
use csv::{ByteRecord, Reader};
use std::alloc::Global;
use std::io::{Read, Write};
use thiserror::Error;

/// The most bytes of buffered lines.
const MAX_BUFFERED: usize = 1 << 16;

/// Why a script ends before its input does. `run_script` says what was written.
#[derive(Clone, Copy, Debug, PartialEq, Eq, Error)]
#[error("{}", self.text())]
pub enum ScriptFault {
    /// The reader failed.
    Read,
    /// The writer failed, or took no byte.
    Write,
    /// Memory was refused while a record was read, something was set up or a line was written.
    NoMemory,
    /// There are more than 1,000,000 records.
    TooLong,
}

impl ScriptFault {
    /// Returns what is printed of this fault.
    pub fn text(&self) -> &'static str
        ensures { result.now ≡ script_fault_text self.now }
    {
        match self {
            ScriptFault::Read => "bsi: read failed",
            ScriptFault::Write => "bsi: write failed",
            ScriptFault::NoMemory => "bsi: no memory",
            ScriptFault::TooLong => "bsi: input too long",
        }
    }
}

impl From<csv::Error> for ScriptFault {
    ghost use Rattle.std.specs.Prelude.{◌≡◌, if◌then◌else◌};
    ghost use Rattle.csv.specs.Reading.{error_kind, is_io};
    ghost use Rattle.bsi_text.specs.declared.script.ScriptFault.TheVariants.{NoMemory, Read};

    ghost from_gives = { λ error e. e ≡ (if is_io (error_kind error) then Read else NoMemory) };

    fn from(error: csv::Error) -> ScriptFault {
        if error.is_io_error() {
            ScriptFault::Read
        } else {
            ScriptFault::NoMemory
        }
    }
}

impl From<WriteFault> for ScriptFault {
    ghost use Rattle.bsi_text.specs.declared.script.ScriptFault.TheVariants.{Write};

    ghost from_gives = { λ _ e. e ≡ Write };

    fn from(_fault: WriteFault) -> ScriptFault {
        ScriptFault::Write
    }
}

impl From<NoMemory> for ScriptFault {
    ghost use Rattle.bsi_text.specs.declared.script.ScriptFault.TheVariants.{NoMemory};

    ghost from_gives = { λ _ e. e ≡ NoMemory };

    fn from(_refused: NoMemory) -> ScriptFault {
        ScriptFault::NoMemory
    }
}

/// Answers each record of the reader with a line to the writer.
///
/// At the end, the lines of all records were written, at most 1,000,000. It answers `TooLong` if there are more
/// records, and has then written a line for each of the first 1,000,000. After every fault, what was written is a first
/// part of the lines that answer the whole text, and only `Write` cuts a line.
///
/// Lines wait, at most 64 KiB of them, while the next record was already read as a whole. They are written before more
/// bytes are asked for.
///
/// It keeps the script's columns, feeders and rows, the current record and its line, and the waiting lines. A load or a
/// query that is refused memory is answered so. Every other refusal of memory is `NoMemory`.
pub fn run_script<R: Read + Drop, W: Write>(
    alloc: Global,
    reader: R,
    writer: &mut W,
) -> Result<(), ScriptFault>
    ensures ok { OnOk result
        (IfBytesKnown (R.remaining reader) IsAnswered (W.contents writer.old) (W.contents writer.new)) }
    ensures too_long { result ≡ Err ScriptFault.TooLong →
        IfBytesKnown (R.remaining reader) IsTooLong (W.contents writer.old) (W.contents writer.new) }
    ensures fault { OnErr result
        (IfBytesKnown (R.remaining reader) WrotePrefix (W.contents writer.old) (W.contents writer.new)) }
    ensures whole { IfErr result (λ fault. fault ≢ ScriptFault.Write →
        IfBytesKnown (R.remaining reader) WroteWholeLines (W.contents writer.old) (W.contents writer.new)) }
{
    let mut input = plain_reader(alloc, RecordAwareReader::new(reader));
    let mut session = Session::new(alloc);
    let mut fields = ByteRecord::new(alloc);
    let mut line = Vec::new(alloc);
    let mut buffer = Vec::new(alloc);
    let ended = serve(
        alloc,
        &mut session,
        &mut input,
        &mut fields,
        &mut line,
        &mut buffer,
        writer,
    );
    flush_buffer(&mut buffer, writer)?;
    ended
}

/// Answers the records of a text, at most 1,000,000 of them. The last lines still wait; after a failed write, none
/// does.
fn serve<R: Read + Drop, W: Write>(
    alloc: Global,
    session: &mut Session,
    input: &mut Reader<RecordAwareReader<R>>,
    fields: &mut ByteRecord,
    line: &mut Vec<u8>,
    buffer: &mut Vec<u8>,
    writer: &mut W,
) -> Result<(), ScriptFault>
    requires first { phase_of session.old ≡ Declaring nothing_declared }
    requires plain { IsPlainReader input.old }
    requires start { reader_state input.old ≡ st.StartRecord }
    requires none { buffer.old.items ≡ [] }
    ensures ok { OnOk result
        (ForTextAfterFlush (source_of (λ w. R.remaining w.inner) input.old) IsAnswered
        (W.contents writer.old) (W.contents writer.new) buffer.new.items) }
    ensures too_long { result ≡ Err ScriptFault.TooLong →
        ForTextAfterFlush (source_of (λ w. R.remaining w.inner) input.old) IsTooLong
        (W.contents writer.old) (W.contents writer.new) buffer.new.items }
    ensures whole { IfErr result (λ fault. fault ≢ ScriptFault.Write →
        ForTextAfterFlush (source_of (λ w. R.remaining w.inner) input.old) WroteWholeLines
        (W.contents writer.old) (W.contents writer.new) buffer.new.items) }
    ensures prefix { ForText (source_of (λ w. R.remaining w.inner) input.old)
        (λ bytes. HoldsAfterAnyPartialFlush (W.contents writer.new) buffer.new.items
        (WrotePrefix bytes (W.contents writer.old))) }
{
    'records: for count in 0..MAX_RECORDS {
        flush_unless_buffered(input, buffer, writer)?;
        if !read_next(input, fields)? {
            return Ok(());
        }
        session.answer(alloc, fields, line)?;
        buffer_line(line.as_slice(), buffer, writer)?;
    }
    flush_unless_buffered(input, buffer, writer)?;
    if read_next(input, fields)? {
        return Err(ScriptFault::TooLong);
    }
    Ok(())
}

/// Flushes the buffered lines, unless the next record was already read as a whole.
fn flush_unless_buffered<R: Read + Drop, W: Write>(
    input: &Reader<RecordAwareReader<R>>,
    buffer: &mut Vec<u8>,
    writer: &mut W,
) -> Result<(), WriteFault>
    ensures ok { OnOk result
        (AppendsAllBut (W.contents writer.old) (W.contents writer.new) buffer.new.items
        buffer.old.items) }
    ensures prefix { OnErr result
        (AppendsPrefix (W.contents writer.old) (W.contents writer.new) buffer.old.items) }
    ensures none { OnErr result (buffer.new.items ≡ []) }
{
    if has_buffered_record(input) {
        return Ok(());
    }
    flush_buffer(buffer, writer)
}

/// Appends a line to the buffer. If there would be too many bytes, or memory is refused, it writes all lines.
fn buffer_line<W: Write>(
    line: &[u8],
    buffer: &mut Vec<u8>,
    writer: &mut W,
) -> Result<(), WriteFault>
    ensures ok { OnOk result
        (AppendsAllBut (W.contents writer.old) (W.contents writer.new) buffer.new.items
        (buffer.old.items ++ line.now)) }
    ensures prefix { OnErr result
        (AppendsPrefix (W.contents writer.old) (W.contents writer.new) (buffer.old.items ++ line.now)) }
    ensures none { OnErr result (buffer.new.items ≡ []) }
{
    let many = buffer.len().saturating_add(line.len()) > MAX_BUFFERED;
    if !many && buffer.extend_from_slice(line).is_ok() {
        return Ok(());
    }
    flush_buffer(buffer, writer)?;
    write_bytes(writer, line)
}

/// Flushes the buffer, which is empty from then on.
fn flush_buffer<W: Write>(buffer: &mut Vec<u8>, writer: &mut W) -> Result<(), WriteFault>
    ensures ok { OnOk result
        (Appends (W.contents writer.old) (W.contents writer.new) buffer.old.items) }
    ensures prefix { OnErr result
        (AppendsPrefix (W.contents writer.old) (W.contents writer.new) buffer.old.items) }
    ensures none { buffer.new.items ≡ [] }
{
    let written = write_bytes(writer, buffer.as_slice());
    buffer.clear();
    written
}
