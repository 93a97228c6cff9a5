//! Writes on stderr why no schema of kinds was found for row files.
ghost use Rattle.bsi_shell.specs.FaultLines.{IsSomeTextWritten};

use crate::fault_lines::write_store_fault;
use bsi_files::FilesFault;
use bsi_inference::Doubt;
use bsi_input::SourceFault;
use bsi_rows::NoMemory;
use bsi_store::{StoreFault, SurveyFault};
use bsi_survey::{ColumnDoubt, SchemaRefusal};
use bsi_text::{WriteFault, write_bytes};
use itoa::Buffer;
use std::alloc::Global;
use std::io::Write;

/// Writes the lines of a fault: one, or one for each column that is in doubt. `rounding` is the number of places to which
/// decimals were to be rounded, if that was said.
pub(crate) fn write_survey_fault<F: Write>(
    alloc: Global,
    fault: SurveyFault<'_>,
    rounding: Option<u32>,
    stderr: &mut F,
) -> Result<(), WriteFault>
    ensures { IsSomeTextWritten result (F.contents stderr.old) (F.contents stderr.new) }
{
    match fault {
        SurveyFault::Store(fault) => write_store_fault(fault, stderr),
        fault => match make_lines(alloc, &fault, rounding) {
            Ok(text) => write_bytes(stderr, text.as_slice()),
            Err(NoMemory) => write_store_fault(StoreFault::Run(FilesFault::NoMemory), stderr),
        },
    }
}

/// Makes the lines of a fault.
fn make_lines(
    alloc: Global,
    fault: &SurveyFault<'_>,
    rounding: Option<u32>,
) -> Result<Vec<u8>, NoMemory> {
    let mut text = Vec::new(alloc);
    match fault {
        SurveyFault::Store(_) => {}
        SurveyFault::NotTwice(path)
        | SurveyFault::Utf16(path)
        | SurveyFault::NotUtf8(path)
        | SurveyFault::Unread(path, _)
        | SurveyFault::OtherHeader(path)
        | SurveyFault::PointBetween(path) => push_path(path, file_text(fault), &mut text)?,
        SurveyFault::NoColumn(path, title) => {
            push_each(&["bsi: ", path, ": has no column '"], &mut text)?;
            text.extend_from_slice(title.as_slice())?;
            push_each(&["'\n"], &mut text)?;
        }
        SurveyFault::Refused(refusal) => push_refusal(refusal, rounding, &mut text)?,
    }
    Ok(text)
}

/// Returns what a fault of a file is.
fn file_text(fault: &SurveyFault<'_>) -> &'static str {
    match fault {
        SurveyFault::NotTwice(_) => "is no file that can be read twice: give --schema",
        SurveyFault::Utf16(_) => "is UTF-16: convert it by iconv",
        SurveyFault::NotUtf8(_) => "is not UTF-8: convert it by iconv",
        SurveyFault::Unread(_, fault) => unread_text(*fault),
        SurveyFault::OtherHeader(_) => "has another header than the first file",
        SurveyFault::PointBetween(_) => {
            "has commas between its fields: --decimal , needs another --delimiter"
        }
        SurveyFault::Store(_) | SurveyFault::NoColumn(..) | SurveyFault::Refused(_) => "",
    }
}

/// Returns why a file was not surveyed.
fn unread_text(fault: SourceFault) -> &'static str {
    match fault {
        SourceFault::BadHeader => "has no header",
        fault => fault.text(),
    }
}

/// Appends the line of a path.
fn push_path(path: &str, why: &str, text: &mut Vec<u8>) -> Result<(), NoMemory> {
    push_each(&["bsi: ", path, ": ", why, "\n"], text)
}

/// Appends texts, one after another.
fn push_each(parts: &[&str], text: &mut Vec<u8>) -> Result<(), NoMemory> {
    'parts: for part in parts {
        text.extend_from_slice(part.as_bytes())?;
    }
    Ok(())
}

/// Appends the lines of why a survey makes no schema.
fn push_refusal(
    refusal: &SchemaRefusal,
    rounding: Option<u32>,
    text: &mut Vec<u8>,
) -> Result<(), NoMemory> {
    match refusal {
        SchemaRefusal::TooManyColumns => push_each(
            &["bsi: more than 64 columns: --columns TITLE,.. chooses some\n"],
            text,
        ),
        SchemaRefusal::RepeatedTitle(c) => {
            let mut number = Buffer::new();
            let column = number.format(c.saturating_add(1));
            push_each(
                &[
                    "bsi: column ",
                    column,
                    " has the title of a column before it\n",
                ],
                text,
            )
        }
        SchemaRefusal::Doubts(doubts) => push_doubts(doubts, rounding, text),
        SchemaRefusal::Undeclared(why) => push_each(&["bsi: ", why.text(), "\n"], text),
        SchemaRefusal::NoMemory => Err(NoMemory),
    }
}

/// Appends a line for each column that is in doubt.
fn push_doubts(
    doubts: &[ColumnDoubt],
    rounding: Option<u32>,
    text: &mut Vec<u8>,
) -> Result<(), NoMemory> {
    'doubts: for doubt in doubts {
        push_each(&["bsi: column '"], text)?;
        text.extend_from_slice(doubt.title.as_slice())?;
        push_each(&["' ", doubt_text(doubt.doubt, rounding), "\n"], text)?;
    }
    Ok(())
}

/// Returns why the fields of a column do not decide its kind.
fn doubt_text(doubt: Doubt, rounding: Option<u32>) -> &'static str {
    match doubt {
        Doubt::TooManyDigits(_) => digits_text(rounding),
        Doubt::TwoOrders(_) => {
            "has dates that may begin with the day or with the month: --dates dmy or --dates mdy says which"
        }
        Doubt::TextsMissing => "has texts behind other values",
        Doubt::TooManyTexts => "has more than 65,536 texts: --columns can leave it out",
    }
}

/// Returns why the numbers of a column can't be saved, and which option may help.
fn digits_text(rounding: Option<u32>) -> &'static str {
    match rounding {
        None => "has numbers of more digits than 63 bits hold: --round 6 rounds them to 6 places",
        Some(0) => "has whole numbers of more digits than 63 bits hold: --columns can leave it out",
        Some(_) => {
            "has numbers of more digits than 63 bits hold: --round 0 rounds them to whole numbers"
        }
    }
}
