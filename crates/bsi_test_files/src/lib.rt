//! Tests of feeders that read row files, runs over them, their faults in order, and command lines. No crate uses it.
#![tactic(auto)]

#[cfg(test)]
mod command_lines;
#[cfg(test)]
mod faults;
#[cfg(test)]
mod feeders;
#[cfg(test)]
mod gates;
#[cfg(test)]
mod inputs;
#[cfg(test)]
mod order;
#[cfg(test)]
mod runs;
#[cfg(test)]
mod texts;
