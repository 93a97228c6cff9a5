//! Counts of selected rows by digit in an equality encoded component, and what follows from them: the digit of the row
//! of a given rank, and the sum where no binary places are stored.

ghost use Rattle.std.specs.Prelude.{◌≡◌, ◌<◌, ◌≤◌, ◌==◌, ◌&&◌, length, count_by, nat_eq};
ghost use Rattle.std.specs.Simd.Lanes.{zip2};
ghost use Rattle.bsi_kernels.specs.Ranks.{IsRankedRows};
ghost use Rattle.bsi_components.specs.Component.{count_where, IsRankedDigit};
ghost use Rattle.bsi_components.specs.Equality.{is_among};

use crate::equality::EqualityComponent;
use crate::ranked_digit::RankedDigit;
use bsi_bits::{Bits, MAX_LEN};
use bsi_kernels::RankedRows;

impl EqualityComponent {
    /// Returns how many rows of a selection have a digit of `d`.
    pub(crate) fn count_eq(&self, d: u32, selection: &Bits) -> u64
        requires below { d < self.now.base }
        requires same { length self.now.digits ≡ length selection.now.bits }
        ensures { result ≡ count_where (λ v. v == d) selection.now.bits self.now.digits }
    {
        if self.is_stored(d) {
            selection.count_and(self.bitmap(d))
        } else {
            selection.count_and_not(self.bitmap(1))
        }
    }

    /// Returns how many rows of a selection have a digit from `from` on and below `to`.
    pub(crate) fn count_among(&self, from: u32, to: u32, selection: &Bits) -> u64
        requires within { (from ≤ to) × (to ≤ self.now.base) }
        requires same { length self.now.digits ≡ length selection.now.bits }
        ensures { result ≡ count_where (is_among from to) selection.now.bits self.now.digits }
    {
        // The proof takes from this that there are at most 2^32 rows.
        prove!(selection.len() <= MAX_LEN);
        let mut rows = 0;
        'digits: for j in from..to {
            rows += self.count_eq(j, selection);
        }
        rows
    }

    /// Returns the digit of the row of rank `rank` among the rows of a selection, and its rank among those of its
    /// digit. It counts the digits from 0 up.
    fn rank_from_least(&self, rank: u64, selection: &Bits) -> RankedDigit
        requires same { length self.now.digits ≡ length selection.now.bits }
        requires there { rank < count_by (λ b. b) selection.now.bits }
        ensures digit { result.digit < self.now.base }
        ensures ranked { IsRankedDigit rank selection.now.bits self.now.digits result }
    {
        let top = self.own_base() - 1;
        let mut left = rank;
        'digits: for digit in 0..top {
            let rows = self.count_eq(digit, selection);
            if left < rows {
                return RankedDigit { digit, rank: left };
            }
            left -= rows;
        }
        RankedDigit {
            digit: top,
            rank: left,
        }
    }

    /// Clears in a set of rows those whose digit is not `d`.
    fn and_digit(&self, d: u32, rows: &mut Bits)
        requires below { d < self.now.base }
        requires same { length self.now.digits ≡ length rows.old.bits }
        ensures { rows.new.bits ≡ zip2 (λ f v. f && nat_eq v d) rows.old.bits self.now.digits }
    {
        if self.is_stored(d) {
            rows.and_with(self.bitmap(d));
        } else {
            rows.and_not_with(self.bitmap(1));
        }
    }

    /// Returns the rows of a selection that have the digit of the row of rank `rank`, by counts of the digits from 0
    /// up.
    pub(crate) fn rows_by_counts(&self, rank: u64, selection: Bits) -> RankedRows
        requires same { length self.now.digits ≡ length selection.bits }
        requires there { rank < count_by (λ b. b) selection.bits }
        ensures digit { result.number < self.now.base }
        ensures ranked { IsRankedRows rank selection.bits self.now.digits
            result.number result.rank result.rows.bits }
    {
        let ranked = self.rank_from_least(rank, &selection);
        let mut rows = selection;
        self.and_digit(ranked.digit, &mut rows);
        RankedRows {
            number: u64::from(ranked.digit),
            rank: ranked.rank,
            rows,
        }
    }
}
