//! Reads fields as events, rows, questions and setups, and writes replies as lines.
#![tactic(auto)]

mod columns;
mod grammar;
mod leading_fields;
mod lines;
mod notation;
mod numbers;
mod predicates;
mod queries;
mod questions;
mod records;
mod setups;
mod vocabulary;

pub use grammar::{Expected, Grammar, QuestionError, Stop};
pub use leading_fields::lend_fields;
pub use lines::{write_bad, write_fed, write_reply};
pub use notation::Notation;
pub use numbers::{read_entry, read_number, read_signed, read_value};
pub use predicates::{MAX_PREDICATE_FIELDS, read_predicate};
pub use queries::{read_query, read_query_in};
pub use questions::{MAX_GROUP_COLUMNS, read_question};
pub use records::{field, read_event, read_row};
pub use setups::{DeclaredTable, Setup, is_begin, read_setup};
pub use std::alloc::AllocError as NoMemory;
pub use vocabulary::Vocabulary;
