//! Why a run over row files ends early (`FilesFault`), and what is printed of it.

ghost use Rattle.std.specs.Prelude.{◌≡◌, ◌+◌, ◌≤◌, ◌++◌, codes, decimal, length, true};
ghost use Rattle.bsi_answers.specs.FaultTexts.{fault_text, which_text};
ghost use Rattle.bsi_answers.specs.Faults.{may_follow_output, text_fault};

use arrayvec::ArrayString;
use bsi_input::{SchemaFault, SourceFault, WriteFault};
use itoa::Buffer;
use std::alloc::AllocError;
use std::fmt;
use thiserror::Error;

/// The most bytes of the text of a fault: those of `bsi: schema: bad record ` and of a number of 20 digits.
pub const MAX_FAULT_TEXT: usize = 44;

/// The text of a fault.
pub type FaultText = ArrayString<MAX_FAULT_TEXT>;

/// One of the two texts beside the row files.
#[derive(Clone, Copy, Debug, PartialEq, Eq)]
pub enum Which {
    /// The file that declares the columns and the limit.
    SchemaFile,
    /// The file of questions.
    AsksFile,
}

impl Which {
    /// Returns what is printed of this text.
    pub fn name(&self) -> &'static str
        ensures { result.now ≡ which_text self.now }
    {
        match self {
            Which::SchemaFile => "schema",
            Which::AsksFile => "asks",
        }
    }
}

impl fmt::Display for Which {
    ghost use Rattle.std.specs.Prelude.{Some};
    ghost use Rattle.bsi_answers.specs.FaultTexts.{which_text};

    ghost output = { λ which. Some (which_text which) };

    fn fmt<W: fmt::Write>(&self, f: &mut fmt::Formatter<W>) -> fmt::Result {
        write!(f, "{}", self.name())
    }
}

/// Why a run over row files ends early; `run_files` says in which order it looks for the causes. A fault of the
/// questions, of memory or of the writer may come after some lines were written; before the others,
/// nothing was written.
#[derive(Clone, Copy, Debug, PartialEq, Eq, Error)]
#[error("{}", self.text())]
pub enum FilesFault {
    /// There are more than 64 row files.
    TooManyFiles,
    /// The reader of the text failed.
    Read(Which),
    /// The text has more than 1,000,000 records.
    TooLong(Which),
    /// The schema's record of this number, from 1, declares neither a column nor the limit, or can't be carried
    /// out.
    BadSchema(u64),
    /// The schema declares no column.
    NoColumns,
    /// The row file of this number, from 0, is the first that gives no more rows.
    Source(u32, SourceFault),
    /// There are more good rows than the limit.
    IndexFull,
    /// The feeder of this number, from 0, is the first that left no closing. Where each left one, it is the first that
    /// was stopped though its gate stops none.
    NotClosed(u32),
    /// The index has no room for an analyst. No run meets this: it opens none.
    Readers,
    /// Memory other than that of an answer was refused, or a thread could not be started.
    NoMemory,
    /// The writer failed, or took no byte.
    Write,
}

impl From<AllocError> for FilesFault {
    ghost use Rattle.bsi_answers.specs.declared.faults.FilesFault.TheVariants.{NoMemory};

    ghost from_gives = { λ _ e. e ≡ NoMemory };

    fn from(_refused: AllocError) -> FilesFault {
        FilesFault::NoMemory
    }
}

impl From<WriteFault> for FilesFault {
    ghost use Rattle.bsi_answers.specs.declared.faults.FilesFault.TheVariants.{Write};

    ghost from_gives = { λ _ e. e ≡ Write };

    fn from(_fault: WriteFault) -> FilesFault {
        FilesFault::Write
    }
}

impl From<SchemaFault> for FilesFault {
    ghost use Rattle.bsi_answers.specs.Faults.{schema_fault};

    ghost from_gives = { λ fault e. e ≡ schema_fault fault };

    fn from(fault: SchemaFault) -> FilesFault {
        match fault {
            SchemaFault::BadRecord(record) => FilesFault::BadSchema(record),
            SchemaFault::NoColumns => FilesFault::NoColumns,
            SchemaFault::Source(fault) => FilesFault::of_text(Which::SchemaFile, fault),
        }
    }
}

impl FilesFault {
    /// Returns what is printed of this fault.
    #[tactic(auto, using(crate::proofs::Texts::which_short, crate::proofs::Texts::source_short))]
    pub fn text(&self) -> FaultText
        ensures { result.bytes ≡ fault_text self.now }
    {
        let mut text = FaultText::new();
        text.push_str("bsi: ");
        match self {
            FilesFault::TooManyFiles => text.push_str("more than 64 files"),
            FilesFault::Read(which) => push_both(&mut text, which.name(), ": read failed"),
            FilesFault::TooLong(which) => push_both(&mut text, which.name(), ": input too long"),
            FilesFault::BadSchema(record) => {
                text.push_str("schema: bad record ");
                text.push_str(Buffer::new().format(*record));
            }
            FilesFault::NoColumns => text.push_str("schema: no columns"),
            FilesFault::Source(file, fault) => push_file(&mut text, *file, fault.text()),
            FilesFault::IndexFull => text.push_str("index full"),
            FilesFault::NotClosed(file) => push_file(&mut text, *file, "not closed"),
            FilesFault::Readers => text.push_str("no reader"),
            FilesFault::NoMemory => text.push_str("no memory"),
            FilesFault::Write => text.push_str("write failed"),
        }
        text
    }

    /// Returns the fault of a run for a text whose records were not all read.
    pub fn of_text(which: Which, fault: SourceFault) -> FilesFault
        ensures asks { which ≡ Which.AsksFile → may_follow_output result ≡ true }
        ensures text { result ≡ text_fault which fault }
    {
        match fault {
            SourceFault::TooLong => FilesFault::TooLong(which),
            SourceFault::NoMemory => FilesFault::NoMemory,
            // A text has no header, so its source never answers BadHeader.
            SourceFault::Read | SourceFault::BadHeader => FilesFault::Read(which),
        }
    }
}

/// Puts two texts behind what there is.
fn push_both(text: &mut FaultText, first: &str, second: &str)
    requires { length text.old.bytes + (length first.now + length second.now) ≤ 44 }
    ensures { text.new.bytes ≡ text.old.bytes ++ (first.now ++ second.now) }
{
    text.push_str(first);
    text.push_str(second);
}

/// Puts the number of a row file, and what is wrong with it, behind what there is.
fn push_file(text: &mut FaultText, file: u32, message: &str)
    requires { length text.old.bytes + length message.now ≤ 27 }
    ensures { text.new.bytes ≡ text.old.bytes ++ (codes "file " ++ decimal file ++ codes ": " ++ message.now) }
{
    text.push_str("file ");
    text.push_str(Buffer::new().format(file));
    push_both(text, ": ", message);
}
