//! The least and the greatest number of a selection in one pass over the column, span by span and from the most
//! significant slice down.
//!
//! Most spans show at their first slices that none of their rows improves the best number so far. No set is copied, so
//! it takes no memory.

ghost use Rattle.std.specs.Prelude.{◌≡◌, ℕ, ◌+◌, ◌*◌, ◌-◌, ◌/◌, ◌≤◌, length};
ghost use Rattle.bsi_bits.specs.BitList.{word_count};
ghost use Rattle.bsi_slices.specs.Extremes.{IsExtremeUpto, IsExtremeOf};
ghost use Rattle.bsi_slices.specs.Spans.{max_lanes};
ghost use Rattle.bsi_digits.specs.Orders.{values_at};

use crate::slices::Slices;
use crate::{Column, Extreme};
use bsi_bits::{Bits, MAX_LEN};
use bsi_kernels::improve_by_places;
use bsi_kernels::registers::{REGISTER_WORDS, span_at};

impl Slices {
    /// Returns the extreme of the numbers at the rows of a selection, or none if there is no number.
    pub(crate) fn find_extreme(&self, selection: &Bits, extreme: Extreme) -> Option<u64>
        requires { length self.now.entries ≡ length selection.now.bits }
        ensures { IsExtremeOf extreme (values_at selection.now.bits self.now.entries) result }
    {
        let whole = selection.words().len() / REGISTER_WORDS * REGISTER_WORDS;
        let best = self.extreme_upto::<REGISTER_WORDS>(selection, extreme, 0, None);
        self.extreme_upto::<1>(selection, extreme, whole, best)
    }

    /// Returns the extreme of the numbers of the selected rows, given that of the rows before word `from`, `before`. It
    /// goes over the words from there on, as far as whole spans of `N` words go.
    fn extreme_upto<const N: usize>(
        &self,
        selection: &Bits,
        extreme: Extreme,
        from: usize,
        before: Option<u64>,
    ) -> Option<u64>
        requires spans { (1 ≤ N) × (N ≤ max_lanes) }
        requires same { length self.now.entries ≡ length selection.now.bits }
        requires within { from ≤ word_count (length selection.now.bits) }
        requires before { IsExtremeUpto extreme selection.now.bits self.now.entries (64 * from) before }
        ensures { IsExtremeUpto extreme selection.now.bits self.now.entries
            (64 * (from + N * ((word_count (length selection.now.bits) - from) / N))) result }
    {
        // The proof takes from this that there are at most 2^32 rows, so at most 2^26 words.
        prove!(selection.len() <= MAX_LEN);
        let slices = self.slices.as_slice();
        let mut best = before;
        'span: for k in 0..(selection.words().len() - from) / N {
            let at = from + N * k;
            let rows = span_at::<N>(selection, at) & span_at::<N>(self.not_null(), at);
            best = improve_by_places::<N>(slices, rows, extreme, at, best).or(best);
        }
        best
    }
}
