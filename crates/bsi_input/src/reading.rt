//! Makes the reader of the records of a text (`plain_reader`) or of a row file (`row_file_reader`), by `csv`, and reads
//! the next one.

ghost use Rattle.std.specs.Prelude.{◌≡◌, ◌≤◌, Err, IfErr, IfOk, OnOk, Some, option_map};
ghost use Rattle.csv.specs.Reading.{ReadRecord, error_kind, reader_state, source_of, strip_bom};
ghost use Rattle.csv.specs.Records.{fields_of};
ghost use Rattle.csv.specs.declared.parser.State.TheVariants as st;
ghost use Rattle.bsi_input.specs.Formats.{config_of};
ghost use Rattle.bsi_input.specs.RecordSources.{Fails, ReadsRecord};
ghost use Rattle.bsi_input.specs.Sources.{end_after, IsPlainReader, IsReadFault, IsReaderBy};

use crate::format::RowFormat;
use crate::rows::SourceFault;
use csv::{ByteRecord, Reader, ReaderBuilder};
use std::alloc::Global;
use std::io::Read;

/// The most records that are read of a text, or after the header of a row file of whole numbers.
pub const MAX_RECORDS: u64 = 1_000_000;

/// Makes the reader of a text. Its first record is a record like the others, and records may have any number of fields.
pub fn plain_reader<R: Read + Drop>(alloc: Global, reader: R) -> Reader<R>
    ensures plain { IsPlainReader result }
    ensures start { reader_state result ≡ st.StartRecord }
    ensures source { source_of R.remaining result ≡ option_map strip_bom (R.remaining reader) }
{
    ReaderBuilder::new()
        .has_headers(false)
        .flexible(true)
        .from_reader(alloc, reader)
}

/// Makes the reader of a row file whose fields have this byte between them. Its first record is a record like the
/// others, and records may have any number of fields.
pub fn row_file_reader<R: Read + Drop>(alloc: Global, delimiter: u8, reader: R) -> Reader<R>
    ensures by { IsReaderBy (config_of delimiter) result }
    ensures start { reader_state result ≡ st.StartRecord }
    ensures source { source_of R.remaining result ≡ option_map strip_bom (R.remaining reader) }
{
    ReaderBuilder::new()
        .has_headers(false)
        .flexible(true)
        .delimiter(delimiter)
        .from_reader(alloc, reader)
}

/// Reads the next record of a row file of a format, and returns whether there was one.
// Its clauses say what csv's call does with a reader of this format.
pub(crate) fn read_next_by<R: Read + Drop, F: RowFormat + Drop>(
    _format: &F,
    input: &mut Reader<R>,
    fields: &mut ByteRecord,
) -> Result<bool, csv::Error>
    requires by { IsReaderBy (F.format _format.now).config input.old }
    ensures reads { IfOk result
        (λ more. ReadRecord R.remaining input.old input.new more (fields_of fields.new)) }
    ensures by { OnOk result (IsReaderBy (F.format _format.now).config input.new) }
    ensures fault { IfErr result (λ e. IsReadFault (error_kind e)) }
{
    input.read_byte_record(fields)
}

/// Reads the next record, and returns whether there was one.
// It is a function because its clauses say what csv's call does with such a reader.
pub fn read_next<R: Read + Drop>(
    input: &mut Reader<R>,
    fields: &mut ByteRecord,
) -> Result<bool, csv::Error>
    requires plain { IsPlainReader input.old }
    ensures reads { IfOk result
        (λ more. ReadRecord R.remaining input.old input.new more (fields_of fields.new)) }
    ensures plain { OnOk result (IsPlainReader input.new) }
    ensures fault { IfErr result (λ e. IsReadFault (error_kind e)) }
{
    input.read_byte_record(fields)
}

/// Reads the next record, if it is one of the first so many.
pub(crate) fn read_record<R: Read + Drop>(
    input: &mut Reader<R>,
    fields: &mut ByteRecord,
    most: u64,
    read_so_far: &mut u64,
) -> Result<bool, SourceFault>
    requires plain { IsPlainReader input.old }
    requires few { read_so_far.old ≤ most }
    ensures reads { IfOk result
        (ReadsRecord R.remaining input.old input.new read_so_far.old read_so_far.new (fields_of fields.new)) }
    ensures stopped { IfErr result (Fails most R.remaining input.old read_so_far.old read_so_far.new) }
    ensures few { read_so_far.new ≤ most }
    ensures plain { OnOk result (IsPlainReader input.new) }
{
    if !read_next(input, fields)? {
        return Ok(false);
    }
    if *read_so_far == most {
        return Err(SourceFault::TooLong);
    }
    *read_so_far += 1;
    Ok(true)
}

/// Returns how a source stands after a call: it has ended if no record was found, or by a fault.
pub(crate) fn end_after_call(more: Result<bool, SourceFault>) -> Option<Result<(), SourceFault>>
    ensures more { IfOk more (λ any. result ≡ end_after any) }
    ensures fault { IfErr more (λ fault. result ≡ Some (Err fault)) }
{
    match more {
        Ok(true) => None,
        Ok(false) => Some(Ok(())),
        Err(fault) => Some(Err(fault)),
    }
}
