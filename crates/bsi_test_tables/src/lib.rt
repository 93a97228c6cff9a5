//! Tests of indexes, blocks, batches and the step machine: worked rows, their groups, ranks and first rows, and runs.
//! No crate uses it.
#![tactic(auto)]

#[cfg(test)]
mod batches;
#[cfg(test)]
mod groups;
#[cfg(test)]
mod indexes;
#[cfg(test)]
mod machine;
#[cfg(test)]
mod numbers;
#[cfg(test)]
mod tables;
