//! Tests of the running system, on worked rows and on threads, and of many questions that several threads answer.
#![tactic(auto)]

#[cfg(test)]
mod batches;
#[cfg(test)]
mod calls;
#[cfg(test)]
mod crowd;
#[cfg(test)]
mod parallel;
#[cfg(test)]
mod refusals;
#[cfg(test)]
mod tests;
