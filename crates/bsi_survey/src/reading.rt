//! Makes the reader of a text's records by a delimiter (`record_reader`), and reads the next one.

ghost use Rattle.std.specs.Prelude.{◌≡◌, ◌⊎◌, IfErr, IfOk, OnOk, option_map};
ghost use Rattle.csv.specs.Reading.{ReadRecord, error_kind, reader_config, reader_state, source_of, strip_bom};
ghost use Rattle.csv.specs.Records.{fields_of};
ghost use Rattle.csv.specs.declared.parser.State.TheVariants as st;
ghost use Rattle.bsi_input.specs.Formats.{config_of};
ghost use Rattle.bsi_survey.specs.TextRecords.{IsReadFault, IsRecordReader};

use csv::{ByteRecord, Reader, ReaderBuilder};
use std::alloc::Global;
use std::io::Read;

/// Makes the reader of a text whose fields have this byte between them.
pub(crate) fn record_reader<R: Read + Drop>(alloc: Global, delimiter: u8, reader: R) -> Reader<R>
    ensures records { IsRecordReader result }
    ensures config { reader_config result ≡ config_of delimiter }
    ensures start { reader_state result ≡ st.StartRecord }
    ensures source { source_of R.remaining result ≡ option_map strip_bom (R.remaining reader) }
{
    ReaderBuilder::new()
        .has_headers(false)
        .flexible(true)
        .delimiter(delimiter)
        .from_reader(alloc, reader)
}

/// Reads the next record, and returns whether there was one.
pub(crate) fn read_next<R: Read + Drop>(
    input: &mut Reader<R>,
    fields: &mut ByteRecord,
) -> Result<bool, csv::Error>
    requires { IsRecordReader input.old }
    ensures reads { IfOk result
        (λ more. ReadRecord R.remaining input.old input.new more (fields_of fields.new)) }
    ensures reader { OnOk result (IsRecordReader input.new) }
    ensures fault { IfErr result (λ e. IsReadFault (error_kind e)) }
{
    input.read_byte_record(fields)
}
