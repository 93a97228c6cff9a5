//! A list of optional numbers, stored as a bit vector for each binary place, with every comparison and total; and the
//! trait of a column of any form (`Column`).
#![tactic(auto)]

mod column;
mod decision;
mod not_null;
mod pair_relation;
mod slices;
#[doc(hidden)]
pub mod transposing;

pub use bsi_digits::{Extreme, Op};
pub use column::Column;
pub use decision::{Decision, Relation, Test, decide};
pub use not_null::NotNull;
pub use pair_relation::PairRelation;
pub use slices::{ColumnComparison, Slices};
pub use std::alloc::AllocError as NoMemory;
