//! Totals of a column that is stored less its offset, over selected rows: sum, least, greatest, median and ranked number,
//! each that of the stored numbers with the offset added back.

ghost use Rattle.std.specs.Prelude.{◌≡◌, pos, neg_ℤ, ◌+ℤ◌, ◌*ℤ◌, ◌≤ℤ◌, ◌<ℤ◌, ◌<◌, ◌≤◌, length, IfOk, IfSome, IsOk};
ghost use Rattle.std.specs.Option.{option_map};
ghost use Rattle.bsi_digits.specs.Digits.{max_size};
ghost use Rattle.bsi_digits.specs.Signed.{end_of_i64};
ghost use Rattle.bsi_bits.specs.BitList.{max_len, sum_end};
ghost use Rattle.bsi_digits.specs.Offsets.{number_of};
ghost use Rattle.bsi_digits.specs.Orders.{values_at};
ghost use Rattle.bsi_digits.specs.Ranks.{IsSignedRankOf};
ghost use Rattle.bsi_digits.specs.WholeNumbers.{signed_sum, IsSignedLeastOf, IsSignedGreatestOf, IsSignedMedianOf};
ghost use Rattle.bsi_shift.specs.Shifted.{shifted_entries};

use crate::{NoMemory, Shifted};
use bsi_bits::{Bits, MAX_LEN};
use bsi_columns::Column;

impl Shifted {
    /// Returns the sum of the numbers at the rows of a selection, which is from -2^95 to 2^95 - 1. A null counts for
    /// nothing. It takes no memory.
    pub fn sum(&self, selection: &Bits) -> i128
        requires { length (shifted_entries self.now) ≡ length selection.now.bits }
        ensures sum { result ≡ signed_sum (values_at selection.now.bits (shifted_entries self.now)) }
        ensures within { (neg_ℤ (pos sum_end) ≤ℤ result) × (result <ℤ pos sum_end) }
    {
        // The proof takes from this that there are at most 2^32 rows, so the offset is added at most 2^32 times.
        prove!(selection.len() <= MAX_LEN);
        let count = selection.count_and(self.stored.not_null());
        sum_from(self.stored.sum(selection), self.offset, count)
    }

    /// Returns the least number at the rows of a selection, or none if there is no number. It takes no memory.
    pub fn least(&self, selection: &Bits) -> Result<Option<i64>, NoMemory>
        requires { length (shifted_entries self.now) ≡ length selection.now.bits }
        ensures least { IfOk result (IsSignedLeastOf
            (values_at selection.now.bits (shifted_entries self.now))) }
        ensures succeeds { IsOk result }
    {
        Ok(number_from(self.offset, self.stored.least(selection)?))
    }

    /// Returns the greatest number at the rows of a selection, or none if there is no number. It takes no memory.
    pub fn greatest(&self, selection: &Bits) -> Result<Option<i64>, NoMemory>
        requires { length (shifted_entries self.now) ≡ length selection.now.bits }
        ensures greatest { IfOk result (IsSignedGreatestOf
            (values_at selection.now.bits (shifted_entries self.now))) }
        ensures succeeds { IsOk result }
    {
        Ok(number_from(self.offset, self.stored.greatest(selection)?))
    }

    /// Returns the lower median of the numbers at the rows of a selection, or none if there is no number. It copies the
    /// selection, a bit for each row.
    pub fn median(&self, selection: &Bits) -> Result<Option<i64>, NoMemory>
        requires { length (shifted_entries self.now) ≡ length selection.now.bits }
        ensures { IfOk result (IsSignedMedianOf
            (values_at selection.now.bits (shifted_entries self.now))) }
    {
        Ok(number_from(self.offset, self.stored.median(selection)?))
    }

    /// Returns the number of a rank, from 0, among the numbers at the rows of a selection, or none if the rank is past
    /// the last. It takes memory as `median` does.
    pub fn ranked(&self, selection: &Bits, rank: u64) -> Result<Option<i64>, NoMemory>
        requires { length (shifted_entries self.now) ≡ length selection.now.bits }
        ensures { IfOk result (IsSignedRankOf rank
            (values_at selection.now.bits (shifted_entries self.now))) }
    {
        let count = self.stored.count_numbers(selection);
        if count <= rank {
            return Ok(None);
        }
        let number = self.stored.ranked(selection, rank)?;
        Ok(number_from(self.offset, Some(number)))
    }
}

/// Returns the number that a stored number stands for, or none for a null.
fn number_from(offset: i64, entry: Option<u64>) -> Option<i64>
    requires { IfSome entry (λ n. (n < max_size) × (number_of offset n <ℤ pos end_of_i64)) }
    ensures { result ≡ option_map (number_of offset) entry }
{
    let number = entry?;
    Some(offset + number as i64)
}

/// Returns the sum of `count` numbers, where `sum` is that of their stored numbers: each number is the offset plus its
/// stored number.
fn sum_from(sum: u128, offset: i64, count: u64) -> i128
    requires { (sum < sum_end) × (count ≤ max_len) }
    ensures { result ≡ pos sum +ℤ (offset *ℤ pos count) }
{
    sum as i128 + i128::from(offset) * i128::from(count)
}
