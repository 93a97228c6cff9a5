//! Surveys the texts of row files: what kind each column of the header may have, by all fields under it.
#![tactic(auto)]

mod choice;
mod choosing;
mod counts;
mod deciding;
mod delimiter;
mod join_error;
mod joining;
mod making;
mod naming;
mod numbering;
mod observing;
mod options;
mod reading;
mod repeated;
mod schema_refusal;
mod slicing;
mod survey;
mod survey_error;
mod titling;

pub use bsi_inference::NoMemory;
pub use choice::Choice;
pub use counts::Counts;
pub use delimiter::find_delimiter;
pub use join_error::JoinError;
pub use options::{ColumnStart, SurveyOptions};
pub use schema_refusal::{ColumnDoubt, SchemaRefusal};
pub use survey::Survey;
pub use survey_error::SurveyError;
