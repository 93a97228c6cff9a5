//! Examples of calls, which README.md and CALLING.md show. `make test` proves and runs them, and no crate uses this
//! one.
#![tactic(auto)]

#[cfg(test)]
mod asking;
mod encoding;
#[cfg(test)]
mod first;
#[cfg(test)]
mod machine;
mod refused;
#[cfg(test)]
mod tests;
#[cfg(test)]
mod threads;

pub use encoding::ByBase;
