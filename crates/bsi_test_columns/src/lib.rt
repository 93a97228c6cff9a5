//! Tests of bit vectors, digits, components, and columns of every form, on worked rows: what they answer, what they
//! store, and how they grow. No crate uses it.
#![tactic(auto)]

#[cfg(test)]
mod bits;
#[cfg(test)]
mod comparisons;
#[cfg(test)]
mod components;
#[cfg(test)]
mod digits;
#[cfg(test)]
mod growth;
#[cfg(test)]
mod stored;
#[cfg(test)]
mod totals;
