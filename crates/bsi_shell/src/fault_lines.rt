//! Writes the line of a fault on stderr, or the usage line of a command; and the text of `bsi help` (`HELP`).
ghost use Rattle.std.specs.Prelude.{◌≡◌, ◌≤◌, ◌++◌, codes, length};
ghost use Rattle.bsi_answers.specs.FaultTexts.{max_fault_text};
ghost use Rattle.bsi_store.specs.Faults.{bad_records_line, file_fault_text, store_fault_line, write_fault_reason};
ghost use Rattle.bsi_shell.specs.FaultLines.{fault_line, usage_of, IsLineWritten};

use crate::files::RunFault;
use crate::request::Subcommand;
use arrayvec::ArrayString;
use bsi_files::MAX_FAULT_TEXT;
use bsi_store::{FileFault, MAX_FILE_TEXT, StoreFault, WriteReason};
use bsi_text::{WriteFault, write_bytes};
use itoa::Buffer;
use std::io::Write;

/// What `bsi help` writes.
pub(crate) const HELP: &str =
    "bsi keeps the rows of CSV files in bitmap indexes, and answers questions about them.\n\
    \n  \
    bsi save [--schema FILE] --to FILE CSV..        saves the rows of CSV files as an index in a file\n  \
    bsi schema CSV..                                writes the schema that save would find\n  \
    bsi add FILE CSV..                              adds rows to a saved index\n  \
    bsi ask FILE [--asks FILE]                      answers the questions of a file or of standard input\n  \
    bsi show FILE                                   describes a saved index\n  \
    bsi check --schema FILE [--asks FILE] CSV..     says which records and questions are bad, and why\n  \
    bsi check FILE                                  reads all of a saved index, and counts its rows\n  \
    bsi files --schema FILE --asks FILE CSV..       answers questions about CSV files, saving no index\n  \
    bsi script                                      carries out the events of standard input\n  \
    bsi help                                        writes this\n\
    \n\
    A question is a line as count,all or by,station,median,price,day,>=,2026-01-31: see man bsi.\n";

/// The most bytes of the line of a fault that names no path.
const MAX_LINE: usize = MAX_FAULT_TEXT + 1;

/// The most bytes of the line of bad records: those of its texts, and of a number of 20 digits.
const MAX_BAD_LINE: usize = 18 + 20 + 23;

/// The most bytes of what follows a path, with its line end.
const MAX_FILE_LINE: usize = 2 + MAX_FILE_TEXT + 1;

/// Writes the line of a fault whose text is this. It makes one write where the writer takes the whole line.
pub fn write_fault<F: Write>(text: &str, stderr: &mut F) -> Result<(), WriteFault>
    requires { length text.now ≤ max_fault_text }
    ensures { IsLineWritten result (F.contents stderr.old) (F.contents stderr.new)
        (text.now ++ codes "\n") }
{
    let mut line = ArrayString::<MAX_LINE>::new();
    line.push_str(text);
    line.push_str("\n");
    write_bytes(stderr, line.as_str().as_bytes())
}

/// Writes the line of a fault.
pub(crate) fn write_run_fault<F: Write>(
    fault: RunFault<'_>,
    stderr: &mut F,
) -> Result<(), WriteFault>
    ensures { IsLineWritten result (F.contents stderr.old) (F.contents stderr.new) (fault_line fault.entry) }
{
    match fault {
        RunFault::CannotOpen(path) => write_message("bsi: cannot open ", path, "\n", stderr),
        RunFault::Run(fault) => write_fault(fault.text().as_str(), stderr),
    }
}

/// Writes the line of a fault of a command over a saved index.
pub(crate) fn write_store_fault<F: Write>(
    fault: StoreFault<'_>,
    stderr: &mut F,
) -> Result<(), WriteFault>
    ensures { IsLineWritten result (F.contents stderr.old) (F.contents stderr.new) (store_fault_line fault.entry) }
{
    match fault {
        StoreFault::CannotOpen(path) => write_message("bsi: cannot open ", path, "\n", stderr),
        StoreFault::CannotWrite(path, why) => write_unwritten_file(path, why, stderr),
        StoreFault::Unusable(path, fault) => write_unusable_file(path, fault, stderr),
        StoreFault::BadRecords(bad) => write_bad_records(bad, stderr),
        StoreFault::Run(fault) => write_fault(fault.text().as_str(), stderr),
    }
}

/// Writes the line that says how many records of row files are bad.
pub(crate) fn write_bad_records<F: Write>(bad: u64, stderr: &mut F) -> Result<(), WriteFault>
    ensures { IsLineWritten result (F.contents stderr.old) (F.contents stderr.new)
        (bad_records_line bad) }
{
    write_bytes(stderr, bad_records_line(bad).as_str().as_bytes())
}

/// Makes the line that says how many records of row files are bad.
fn bad_records_line(bad: u64) -> ArrayString<MAX_BAD_LINE>
    ensures { result.bytes ≡ bad_records_line bad }
{
    let mut line = ArrayString::<MAX_BAD_LINE>::new();
    line.push_str("bsi: bad records: ");
    line.push_str(Buffer::new().format(bad));
    line.push_str("; bsi check says which\n");
    line
}

/// Writes the line of what is wrong with the file of a path.
fn write_unusable_file<F: Write>(
    path: &str,
    fault: FileFault,
    stderr: &mut F,
) -> Result<(), WriteFault>
    ensures { IsLineWritten result (F.contents stderr.old) (F.contents stderr.new)
        (codes "bsi: " ++ path.now ++ (codes ": " ++ (file_fault_text fault ++ codes "\n"))) }
{
    let mut reported = ArrayString::<MAX_FILE_LINE>::new();
    reported.push_str(": ");
    reported.push_str(fault.text().as_str());
    reported.push_str("\n");
    write_message("bsi: ", path, reported.as_str(), stderr)
}

/// Writes the line of why the file of a path can't be written.
fn write_unwritten_file<F: Write>(
    path: &str,
    why: WriteReason,
    stderr: &mut F,
) -> Result<(), WriteFault>
    ensures { IsLineWritten result (F.contents stderr.old) (F.contents stderr.new)
        (codes "bsi: cannot write " ++ (path.now ++ (write_fault_reason why ++ codes "\n"))) }
{
    let mut reported = ArrayString::<MAX_FILE_LINE>::new();
    reported.push_str(why.text());
    reported.push_str("\n");
    write_message("bsi: cannot write ", path, reported.as_str(), stderr)
}

/// Writes a line that has a path between two texts.
fn write_message<F: Write>(
    before: &str,
    path: &str,
    after: &str,
    stderr: &mut F,
) -> Result<(), WriteFault>
    ensures { IsLineWritten result (F.contents stderr.old) (F.contents stderr.new)
        (before.now ++ (path.now ++ after.now)) }
{
    write_bytes(stderr, before.as_bytes())?;
    write_bytes(stderr, path.as_bytes())?;
    write_bytes(stderr, after.as_bytes())
}

/// Writes the usage line of a command.
pub(crate) fn write_usage<F: Write>(command: Subcommand, stderr: &mut F) -> Result<(), WriteFault>
    ensures { IsLineWritten result (F.contents stderr.old) (F.contents stderr.new) (usage_of command) }
{
    write_bytes(stderr, usage_of(command).as_bytes())
}

/// Returns the usage line of a command. Those of `script` and `files` are one.
fn usage_of(command: Subcommand) -> &'static str
    ensures { result.now ≡ usage_of command }
{
    match command {
        Subcommand::Script | Subcommand::Files => {
            "usage: bsi script | bsi files --schema FILE --asks FILE CSV..\n"
        }
        Subcommand::Check =>
            "usage: bsi check --schema FILE [--asks FILE] CSV.. | bsi check FILE\n",
        Subcommand::Save =>
            "usage: bsi save [--force] [--strict] [--schema FILE | --delimiter C --decimal C --dates dmy|mdy --null WORD --columns TITLE,.. --round PLACES] --to FILE CSV..\n",
        Subcommand::Schema => {
            "usage: bsi schema [--delimiter C --decimal C --dates dmy|mdy --null WORD --columns TITLE,.. --round PLACES] CSV..\n"
        }
        Subcommand::Add => "usage: bsi add [--so-far] [--strict] FILE CSV..\n",
        Subcommand::Ask => "usage: bsi ask [--so-far] FILE [--asks FILE]\n",
        Subcommand::Show => "usage: bsi show FILE\n",
        Subcommand::Help => "usage: bsi help\n",
    }
}
