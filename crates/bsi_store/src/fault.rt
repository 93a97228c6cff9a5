//! Why a command over a saved index ends early (`StoreFault`), and the texts of what is wrong with a file (`FileFault`) and
//! of why one can't be written (`WriteReason`).

ghost use Rattle.std.specs.Prelude.{◌≡◌, ◌+◌, ◌≤◌, ◌++◌, [], decimal, length};
ghost use Rattle.bsi_store.specs.Faults.{cut_off, file_fault_text, unopened, write_fault_reason, NamesPath};
ghost use Rattle.bsi_store.specs.Saving.{IsNotAboutBytes};

use arrayvec::ArrayString;
use bsi_answers::FilesFault;
use bsi_input::{SchemaFault, WriteFault};
use bsi_storage::OpenFault;
use itoa::Buffer;
use std::alloc::AllocError;
use std::io;

/// The most bytes of the text about a file: those of `cut short after `, of a number of 20 digits and of ` rows`.
pub const MAX_FILE_TEXT: usize = 41;

/// The text about a file.
pub type FileText = ArrayString<MAX_FILE_TEXT>;

/// What is wrong with a file that is to be an index.
#[derive(Clone, Copy, Debug, PartialEq, Eq)]
pub enum FileFault {
    /// Its bytes are not those of a saved index.
    NotAnIndex,
    /// It is of another version of the format.
    OtherVersion,
    /// It ends within a segment, behind so many whole rows.
    CutShort(u64),
    /// It is not as it was written, behind so many whole rows.
    Damaged(u64),
    /// It can't be read to its end.
    Read,
    /// Another command uses it.
    InUse,
    /// Its rows come from so many feeders, and there are more row files.
    TooManyFiles(u32),
    /// Its text of kinds says no schema of its columns.
    BadKinds,
    /// The texts of its columns take more bytes than a file has for kinds.
    LongKinds,
}

/// Why a file can't be written, as the system says it.
#[derive(Clone, Copy, Debug, PartialEq, Eq)]
pub enum WriteReason {
    /// There is no such file, or no such folder.
    NotFound,
    /// The system's rights forbid it.
    PermissionDenied,
    /// A part of the path before the last is no folder.
    NotAFolder,
    /// It is a folder, a pipe or a device.
    NotAFile,
    /// The file system is only read.
    ReadOnly,
    /// There is no space for it.
    NoSpace,
    /// The system names none of these.
    Unnamed,
}

/// Why a command over a saved index ends early. Each path is as it was written.
#[derive(Clone, Copy, Debug)]
pub enum StoreFault<'a> {
    /// The file of this path can't be opened.
    CannotOpen(&'a str),
    /// The file of this path, or the new one beside it, can't be written.
    CannotWrite(&'a str, WriteReason),
    /// This is wrong with the file of this path.
    Unusable(&'a str, FileFault),
    /// So many records of the row files are bad, and none was to be.
    BadRecords(u64),
    /// The run over the row files or the questions met a fault.
    Run(FilesFault),
}

impl From<FilesFault> for StoreFault<'_> {
    ghost use Rattle.bsi_store.specs.declared.fault.StoreFault.TheVariants.{Run};

    ghost from_gives = { λ fault e. e ≡ Run fault };

    fn from(fault: FilesFault) -> Self {
        StoreFault::Run(fault)
    }
}

impl From<AllocError> for StoreFault<'_> {
    ghost use Rattle.bsi_answers.specs.declared.faults.FilesFault.TheVariants.{NoMemory};
    ghost use Rattle.bsi_store.specs.declared.fault.StoreFault.TheVariants.{Run};

    ghost from_gives = { λ _ e. e ≡ Run NoMemory };

    fn from(_refused: AllocError) -> Self {
        StoreFault::Run(FilesFault::NoMemory)
    }
}

impl From<WriteFault> for StoreFault<'_> {
    ghost use Rattle.bsi_answers.specs.declared.faults.FilesFault.TheVariants.{Write};
    ghost use Rattle.bsi_store.specs.declared.fault.StoreFault.TheVariants.{Run};

    ghost from_gives = { λ _ e. e ≡ Run Write };

    fn from(_fault: WriteFault) -> Self {
        StoreFault::Run(FilesFault::Write)
    }
}

impl From<SchemaFault> for StoreFault<'_> {
    ghost use Rattle.bsi_answers.specs.Faults.{schema_fault};
    ghost use Rattle.bsi_store.specs.declared.fault.StoreFault.TheVariants.{Run};

    ghost from_gives = { λ fault e. e ≡ Run (schema_fault fault) };

    fn from(fault: SchemaFault) -> Self {
        StoreFault::Run(FilesFault::from(fault))
    }
}

impl<'a> StoreFault<'a> {
    /// Returns the fault of a file of a path that can't be written, by the error of the system.
    pub(crate) fn unwritten(path: &'a str, error: &io::Error) -> StoreFault<'a>
        ensures fault { IsNotAboutBytes result }
        ensures named { NamesPath (λ named. named ≡ path.entry) result }
    {
        StoreFault::CannotWrite(path, WriteReason::of(error))
    }

    /// Returns the fault of a file of a path that no index was opened of.
    pub(crate) fn unopened(path: &'a str, fault: OpenFault) -> StoreFault<'a>
        ensures { result ≡ unopened path.entry fault }
    {
        match fault {
            OpenFault::NotAnIndex => StoreFault::Unusable(path, FileFault::NotAnIndex),
            fault => StoreFault::cut_off(path, fault, 0),
        }
    }

    /// Returns the fault of a file of a path behind so many rows that were opened.
    pub(crate) fn cut_off(path: &'a str, fault: OpenFault, rows: u64) -> StoreFault<'a>
        ensures { result ≡ cut_off path.entry fault rows }
    {
        match fault {
            OpenFault::NotAnIndex | OpenFault::Damaged => {
                StoreFault::Unusable(path, FileFault::Damaged(rows))
            }
            OpenFault::OtherVersion => StoreFault::Unusable(path, FileFault::OtherVersion),
            OpenFault::CutShort => StoreFault::Unusable(path, FileFault::CutShort(rows)),
            OpenFault::Read => StoreFault::Unusable(path, FileFault::Read),
            OpenFault::NoMemory => StoreFault::Run(FilesFault::NoMemory),
        }
    }
}

impl WriteReason {
    /// Returns the reason that an error of the system names. It has no `ensures`, because no contract says which error a
    /// call of the system has.
    pub(crate) fn of(error: &io::Error) -> WriteReason {
        match error.kind() {
            io::ErrorKind::NotFound => WriteReason::NotFound,
            io::ErrorKind::PermissionDenied => WriteReason::PermissionDenied,
            io::ErrorKind::NotADirectory => WriteReason::NotAFolder,
            io::ErrorKind::IsADirectory | io::ErrorKind::InvalidInput => WriteReason::NotAFile,
            io::ErrorKind::ReadOnlyFilesystem => WriteReason::ReadOnly,
            io::ErrorKind::StorageFull
            | io::ErrorKind::QuotaExceeded
            | io::ErrorKind::FileTooLarge => WriteReason::NoSpace,
            _ => WriteReason::Unnamed,
        }
    }

    /// Returns what follows the path in the line of the fault, in at most 26 bytes.
    pub fn text(self) -> &'static str
        ensures text { result.now ≡ write_fault_reason self }
        ensures within { length result.now ≤ 26 }
    {
        match self {
            WriteReason::NotFound => ": no such file or folder",
            WriteReason::PermissionDenied => ": permission denied",
            WriteReason::NotAFolder => ": not a folder",
            WriteReason::NotAFile => ": not a regular file",
            WriteReason::ReadOnly => ": read-only file system",
            WriteReason::NoSpace => ": no space left",
            WriteReason::Unnamed => "",
        }
    }
}

impl FileFault {
    /// Returns the text about the file.
    pub fn text(&self) -> FileText
        ensures { result.bytes ≡ file_fault_text self.now }
    {
        let mut text = FileText::new();
        match self {
            FileFault::NotAnIndex => text.push_str("not a kept index"),
            FileFault::OtherVersion => text.push_str("of another version"),
            FileFault::CutShort(rows) => push_counted(
                &mut text,
                "cut short after ",
                *rows,
                " rows",
            ),
            FileFault::Damaged(rows) => push_counted(&mut text, "damaged after ", *rows, " rows"),
            FileFault::Read => text.push_str("read failed"),
            FileFault::InUse => text.push_str("in use"),
            FileFault::TooManyFiles(feeders) => {
                push_counted(&mut text, "more than ", u64::from(*feeders), " files");
            }
            FileFault::BadKinds => text.push_str("of kinds that are not known"),
            FileFault::LongKinds => text.push_str("texts past 64 MiB"),
        }
        text
    }
}

/// Puts a number between two texts.
fn push_counted(text: &mut FileText, before: &str, number: u64, after: &str)
    requires empty { text.old.bytes ≡ [] }
    requires fits { length before.now + length after.now ≤ 21 }
    ensures { text.new.bytes ≡ before.now ++ decimal number ++ after.now }
{
    text.push_str(before);
    text.push_str(Buffer::new().format(number));
    text.push_str(after);
}
