//! Tests of calls on texts, schemas, row files, kinds and their inference, checks, surveys, scripts in pieces, faults
//! and moves between threads. No crate uses it.
#![tactic(auto)]

#[cfg(test)]
mod blocks;
#[cfg(test)]
mod calls;
#[cfg(test)]
mod checking;
#[cfg(test)]
mod ends;
#[cfg(test)]
mod inferring;
#[cfg(test)]
mod kinds;
#[cfg(test)]
mod logicals;
#[cfg(test)]
mod pieces;
#[cfg(test)]
mod row_files;
#[cfg(test)]
mod schemas;
#[cfg(test)]
mod surveying;
#[cfg(test)]
mod threads;
