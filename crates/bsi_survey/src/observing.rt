//! Shows the records that a reader has left to the candidates of the columns (`observe_all`).

ghost use Rattle.std.specs.Prelude.{◌≡◌, ◌≢◌, length, map, Err, IfOk, OnOk};
ghost use Rattle.csv.specs.Records.{fields_of};
ghost use Rattle.bsi_survey.specs.Choices.{chosen_fields};
ghost use Rattle.bsi_survey.specs.Looking.{AreSteps};
ghost use Rattle.bsi_survey.specs.Surveys.{HaveObserved, HaveObservedAll};
ghost use Rattle.bsi_survey.specs.TextRecords.{IsRecordReader};

use crate::NoMemory;
use crate::choice::Choice;
use crate::counts::Counts;
use crate::reading::read_next;
use bsi_inference::Candidates;
use bsi_input::SourceFault;
use bsi_syntax::field;
use csv::{ByteRecord, Reader};
use std::io::Read;

/// Reads all records that are left, and shows those that are as long as the header to the columns. `words` are the null
/// words.
pub(crate) fn observe_all<R: Read + Drop>(
    input: &mut Reader<R>,
    words: &[Vec<u8>],
    choice: &Choice,
    fields: &mut ByteRecord,
    columns: &mut [Candidates],
    counts: &mut Counts,
) -> Result<(), SourceFault>
    requires reader { IsRecordReader input.old }
    requires chosen { length choice.now.indexes.items ≡ length columns.old }
    ensures observed { OnOk result (HaveObservedAll R.remaining choice.now
        (map (λ w. w.items) words.now) input.old columns.old columns.new counts.old counts.new) }
    ensures fault { result ≢ Err SourceFault.BadHeader }
{
    // No text has so many records. The bound lets the proof see that the loop ends.
    'records: for _ in 0..u64::MAX {
        if !read_next(input, fields)? {
            return Ok(());
        }
        let whole = observe_record(words, choice, fields, columns)?;
        counts.count(whole)?;
    }
    Err(SourceFault::TooLong)
}

/// Shows a record to the columns, if it is as long as the header, and returns whether it is.
fn observe_record(
    words: &[Vec<u8>],
    choice: &Choice,
    fields: &ByteRecord,
    columns: &mut [Candidates],
) -> Result<bool, NoMemory>
    requires { length choice.now.indexes.items ≡ length columns.old }
    ensures { IfOk result (HaveObserved choice.now (map (λ w. w.items) words.now)
        (fields_of fields.now) columns.old columns.new) }
{
    if fields.len() != choice.many {
        return Ok(false);
    }
    observe_fields(words, choice, fields, columns)?;
    Ok(true)
}

/// Shows each column its field of a record.
fn observe_fields(
    words: &[Vec<u8>],
    choice: &Choice,
    fields: &ByteRecord,
    columns: &mut [Candidates],
) -> Result<(), NoMemory>
    requires { length choice.now.indexes.items ≡ length columns.old }
    ensures { OnOk result (AreSteps (map (λ w. w.items) words.now)
        (chosen_fields choice.now (fields_of fields.now)) columns.old columns.new) }
{
    'columns: for c in 0..columns.len() {
        let text = field(fields, choice.indexes[c]);
        columns[c].observe(words, text)?;
    }
    Ok(())
}
