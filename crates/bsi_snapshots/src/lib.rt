//! An index that grows by publishing: a publisher whose staged rows become visible at one step, and analysts whose
//! answers never go back to fewer rows.
#![tactic(auto)]

mod analyst;
mod copies;
mod history;
mod operation;
mod publisher;
mod system_tag;
mod told;
mod version;
mod write_buffer;

pub use analyst::{Analyst, AnalystRefused};
pub use history::History;
pub use publisher::Publisher;
pub use std::alloc::AllocError as NoMemory;
pub use system_tag::SystemTag;
pub use told::Told;
