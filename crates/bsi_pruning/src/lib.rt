//! Answers questions over a saved index, of which it reads only the columns that they name.
#![tactic(auto)]

mod answering;
mod choosing;
mod fault;
pub mod laws;
mod open_columns;
mod opening;

pub use answering::answer_named_asks;
pub use fault::NamedFault;
