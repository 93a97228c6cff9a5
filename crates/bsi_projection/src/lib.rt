//! Projections: some columns of a table as a table of their own, whose answers to questions that name no others are
//! those over all columns; and how answers over parts of the rows are joined.
#![tactic(auto)]

pub mod laws;
mod words;

pub use words::ChosenWords;
