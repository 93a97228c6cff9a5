//! The lines of a run over row files: how many rows each gave, and the answers to questions about them all; and why such
//! a run ends early.
#![tactic(auto)]

mod ahead;
mod alone;
mod answering;
mod faults;
mod fed;
mod feds;
pub mod laws;
mod lines;
mod parallel;
mod reply_lines;

pub use ahead::read_ahead;
pub use alone::write_answer_line;
pub use answering::{answer_all, answer_asks, answer_plain_asks};
pub use bsi_syntax::Grammar;
pub use faults::{FaultText, FilesFault, MAX_FAULT_TEXT, Which};
pub use fed::{Fed, file_number};
pub use feds::write_fed_lines;
pub use lines::write_answer_lines;
pub use parallel::answer_each;
pub use std::alloc::AllocError as NoMemory;
