//! Feeders and analysts on threads, a bounded ring for each feeder, and one loader that loses nothing.
#![tactic(auto)]

mod closing;
mod credits;
mod feeder;
mod loader;
mod message;
mod opening;
mod readers;
mod ring_reader;
mod rings;
mod staging;
mod system;

pub use bsi_rows::{LoadRefused, MakeError};
pub use bsi_snapshots::{Analyst, AnalystRefused, History, SystemTag, Told};
pub use closing::Closing;
pub use feeder::{BatchRefused, Feeder, SubmitRefused};
pub use loader::Loader;
pub use opening::open;
pub use readers::SettleRefused;
pub use ring_reader::{Front, RingReader};
pub use rings::{Rings, open_rings};
pub use std::alloc::AllocError as NoMemory;
pub use system::{OpenRefused, System};
