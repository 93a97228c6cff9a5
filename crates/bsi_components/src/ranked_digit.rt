//! The digit of the row of a rank, and the rank of that row among the rows of this digit (`RankedDigit`).

/// A digit, and a rank, from 0, among the rows that have it.
#[derive(Clone, Copy, Debug, PartialEq, Eq)]
pub struct RankedDigit {
    /// The digit.
    pub digit: u32,
    /// The rank among the rows of this digit.
    pub rank: u64,
}
