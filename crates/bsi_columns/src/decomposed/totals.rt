//! The sum of the numbers of a selection, by the sums of the digits, and the number of a given rank, by narrowing the
//! selection from the most significant component down.
//!
//! Each component goes over the rows by itself: one pass for all would need a further call of `Encoding`, and would
//! read the selection once in place of once a component.

ghost use Rattle.std.specs.Prelude.{◌≡◌, ◌<◌, length, sum, IfOk};
ghost use Rattle.bsi_bits.specs.BitList.{sum_end};
ghost use Rattle.bsi_digits.specs.Orders.{values_at};
ghost use Rattle.bsi_digits.specs.Totals.{IsRanked};

use crate::decomposed::Decomposed;
use crate::{Column, Encoding, NoMemory};
use bsi_bits::{Bits, MAX_LEN};

impl<E: Encoding> Decomposed<E> {
    /// Returns the sum of the numbers at the rows of a selection: for each component, its sum of digits times its
    /// weight.
    pub(crate) fn sum_selected(&self, selection: &Bits) -> u128
        requires { length self.now.entries ≡ length selection.now.bits }
        ensures sum { result ≡ sum (values_at selection.now.bits self.now.entries) }
        ensures within { result < sum_end }
    {
        // The proof takes from this that at most 2^32 numbers, each below 2^63, add up to less than 2^95.
        prove!(selection.len() <= MAX_LEN);
        let bases = self.bases();
        let mut total = 0;
        'components: for i in 0..bases.len() {
            total += self.component(i).digit_sum(selection) * u128::from(bases.weight(i));
        }
        total
    }

    /// Returns the number of a rank, from 0, among those at the rows of a selection.
    pub(crate) fn number_of_rank(&self, selection: &Bits, rank: u64) -> Result<u64, NoMemory>
        requires same { length self.now.entries ≡ length selection.now.bits }
        requires there { rank < length (values_at selection.now.bits self.now.entries) }
        ensures { IfOk result (IsRanked (values_at selection.now.bits self.now.entries) rank) }
    {
        let mut chosen = selection.copy()?;
        chosen.and_with(self.not_null());
        let bases = self.bases();
        let (mut number, mut left) = (0, rank);
        'components: for i in (0..bases.len()).rev() {
            let ranked = self.component(i).rows_of_rank(left, chosen)?;
            number = number * u64::from(bases.base(i)) + ranked.number;
            left = ranked.rank;
            chosen = ranked.rows;
        }
        Ok(number)
    }
}
