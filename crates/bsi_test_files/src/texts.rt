//! Tests that each fault of a script, a row file or a run prints its text, which no clause says.

use bsi_files::{FilesFault, Which};
use bsi_text::{ScriptFault, SourceFault};
use std::fmt::{Display, InlineText};

const SCRIPT_FAULTS: [ScriptFault; 4] = [
    ScriptFault::Read,
    ScriptFault::Write,
    ScriptFault::NoMemory,
    ScriptFault::TooLong,
];

const SOURCE_FAULTS: [SourceFault; 4] = [
    SourceFault::BadHeader,
    SourceFault::Read,
    SourceFault::NoMemory,
    SourceFault::TooLong,
];

const FILES_FAULTS: [FilesFault; 16] = [
    FilesFault::TooManyFiles,
    FilesFault::Read(Which::SchemaFile),
    FilesFault::Read(Which::AsksFile),
    FilesFault::TooLong(Which::SchemaFile),
    FilesFault::TooLong(Which::AsksFile),
    FilesFault::BadSchema(1_000_000),
    FilesFault::NoColumns,
    FilesFault::Source(0, SourceFault::BadHeader),
    FilesFault::Source(10, SourceFault::Read),
    FilesFault::Source(63, SourceFault::NoMemory),
    FilesFault::Source(1, SourceFault::TooLong),
    FilesFault::IndexFull,
    FilesFault::NotClosed(12),
    FilesFault::Readers,
    FilesFault::NoMemory,
    FilesFault::Write,
];

// Whether a fault prints its text.
fn prints<F: Display + Drop, T: Display + Drop>(fault: F, text: T) -> bool {
    InlineText::<64>::of(fault).as_str() == InlineText::<64>::of(text).as_str()
}

#[test]
fn faults_print_their_texts(rt: HostRuntime) {
    let scripts = SCRIPT_FAULTS
        .iter()
        .all(|fault| prints(*fault, fault.text()));
    let sources = SOURCE_FAULTS
        .iter()
        .all(|fault| prints(*fault, fault.text()));
    let files = FILES_FAULTS
        .iter()
        .all(|fault| prints(*fault, fault.text()));
    assert!(rt; scripts && sources && files);
}
