//! The step machine that loses nothing: rows of feeders wait in bounded queues until they are loaded into an index.
#![tactic(auto)]

mod machine;
mod queue;

pub use bsi_rows::{
    CloseRefused, Event, LoadRefused, MAX_WAITING, MakeError, Reply, RunRefused, SubmitRefused,
    check_sizes, laws,
};
pub use machine::Core;
pub use std::alloc::AllocError as NoMemory;
