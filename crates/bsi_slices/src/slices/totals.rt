//! The sum of the numbers of a selection, by counts in the slices, and the number of a given rank, by narrowing the
//! selection from the most significant slice down.

ghost use Rattle.std.specs.Prelude.{◌≡◌, ◌<◌, length, sum, IfOk};
ghost use Rattle.bsi_bits.specs.BitList.{sum_end};
ghost use Rattle.bsi_digits.specs.Orders.{values_at};
ghost use Rattle.bsi_digits.specs.Totals.{IsRanked};

use crate::slices::Slices;
use crate::{Column, NoMemory};
use bsi_bits::{Bits, MAX_LEN};
use bsi_digits::MAX_SLICES;
use bsi_kernels::{rows_of_rank, sum_by_places};

impl Slices {
    /// Returns the sum of the numbers at the rows of a selection. A null's slices are clear, so it adds nothing.
    pub(crate) fn sum_selected(&self, selection: &Bits) -> u128
        requires { length self.now.entries ≡ length selection.now.bits }
        ensures sum { result ≡ sum (values_at selection.now.bits self.now.entries) }
        ensures within { result < sum_end }
    {
        // The proof takes from these that at most 2^32 numbers, each below 2^63, add up to less than 2^95.
        prove!(selection.len() <= MAX_LEN);
        prove!(self.width() <= MAX_SLICES);
        sum_by_places(self.slices.as_slice(), selection)
    }

    /// Returns the number of a rank, from 0, among those at the rows of a selection.
    pub(crate) fn number_of_rank(&self, selection: &Bits, rank: u64) -> Result<u64, NoMemory>
        requires same { length self.now.entries ≡ length selection.now.bits }
        requires there { rank < length (values_at selection.now.bits self.now.entries) }
        ensures { IfOk result (IsRanked (values_at selection.now.bits self.now.entries) rank) }
    {
        // The proof takes from this that there is a slice, and that each number is below two to the power of the width.
        prove!(self.width() <= MAX_SLICES);
        let mut rows = selection.copy()?;
        rows.and_with(self.not_null());
        Ok(rows_of_rank(self.slices.as_slice(), rank, rows).number)
    }
}
