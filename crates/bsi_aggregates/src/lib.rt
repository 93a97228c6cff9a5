//! What reports ask of the rows that a query selects: groups (O'Neil and Quass 1997), ranks, quantiles, different
//! numbers, and the first rows.
#![tactic(auto)]

mod answering;
mod column_groups;
mod distinct_numbers;
mod grouping;
mod groups;
mod quantiles;
mod ranking;
mod selecting;
mod splitting;
mod tallies;
mod tally;
mod tops;

pub use answering::{MAX_GROUPS, QuestionReply, answer, arrange_answer};
pub use bsi_rows::{Extreme, Share};
pub use distinct_numbers::distinct;
pub use grouping::{GroupError, group_by};
pub use groups::{Group, Groups};
pub use quantiles::quantile;
pub use ranking::ranks;
pub use tops::{TopRow, top};
