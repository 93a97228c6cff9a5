//! What a run over row files would not accept, and why: the reasons that `bsi check` writes.
//!
//! Its verdicts are those of `bsi_input` and `bsi_syntax`: a record is good where `good_row` gives its row, and an
//! ask where it is a query. Clauses say how many reasons there are, of which files and in which order, what is written of
//! a file that was not read, and which column a reason of a bad record is about; what else is wrong is text for people.
#![tactic(auto)]

mod asks;
mod check;
mod diagnostics;
mod explains;
mod fault;
mod finding;
mod lines;
mod named;
mod report;
mod row_files;
mod rows;
mod schema;

pub use bsi_syntax::NoMemory;
pub use check::check_files;
pub use explains::Explains;
pub use fault::CheckFault;
pub use finding::{AsksFinding, FileCounts, FileFinding};
pub use named::NamedFile;
pub use row_files::check_row_files;
