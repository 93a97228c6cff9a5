//! The command line of `bsi`: reads the words after the program's name, and carries out what they ask for. A program of
//! one's own that opens a running system, or runs over files, names what it needs from here too.
#![tactic(auto)]

mod check;
mod fault_lines;
mod files;
mod paths;
mod request;
mod row_options;
mod store_commands;
mod survey_lines;
mod words;

pub use bsi_files::{FaultText, FeedEnd, FilesFault, Gate, Go, Stopping, Which, feed, run_files};
pub use bsi_store::LockFile;
pub use bsi_system::{
    Analyst, AnalystRefused, BatchRefused, Closing, Feeder, History, LoadRefused, Loader, NoMemory,
    OpenRefused, SettleRefused, SubmitRefused, System, SystemTag, Told, open,
};
pub use bsi_text::{ScriptFault, WriteFault};
pub use fault_lines::write_fault;
pub use words::{CommandEnd, run_words};
