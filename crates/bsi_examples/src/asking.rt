//! Asks an index of prices for the lower median of those below a bound.

use bsi_library::{Answer, AskError, Index, Op, Pred, Query, Total};

/// Finds the lower median of the prices below a bound.
pub(crate) fn find_median(index: &Index, bound: i128) -> Result<Answer, AskError> {
    let total = Total::Median(0);
    let pred = Pred::Compare(0, Op::Lt, bound);
    index.ask(&Query { total, pred })
}
