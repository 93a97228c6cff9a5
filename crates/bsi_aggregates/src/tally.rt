//! The tally of rows that have the same entry in a column (`Tally`): count, sum, least and greatest, by which their
//! total is answered.

ghost use Rattle.std.specs.Prelude.{◌≡◌, ℕ, ℤ, ◌<◌, ◌++◌, ◌∷◌, [], List, Option, nat_lt};
ghost use Rattle.bsi_bits.specs.BitList.{max_len};
ghost use Rattle.bsi_digits.specs.Orders.{IsGreatestBy, IsLeastBy};
ghost use Rattle.bsi_digits.specs.WholeNumbers.{signed_order, IsSignedGreatestOf, IsSignedLeastOf};
ghost use Rattle.bsi_table.specs.Totals.{NeedsNoMemory};
ghost use Rattle.bsi_aggregates.specs.Tallies.{IsTally, IsTotalOf, IsWithin};

use bsi_table::{Answer, Total};

/// What the totals need of rows that have an entry, a number or null, in the column of the total.
#[derive(Clone, Copy)]
pub(crate) struct Tally {
    rows: u64,
    sum: i128,
    least: Option<i64>,
    greatest: Option<i64>,
}

impl Tally {
    /// Makes the tally of no row.
    pub(crate) fn new() -> Tally
        ensures { IsTally [] result }
    {
        Tally {
            rows: 0,
            sum: 0,
            least: None,
            greatest: None,
        }
    }

    /// Returns the tally with one row more, of this entry.
    pub(crate) fn with(self, entry: Option<i64>) -> Tally
        requires few { self.rows < max_len }
        requires within { IsWithin self }
        ensures { (entries : List (Option ℤ)) → IsTally entries self →
            IsTally (entries ++ entry ∷ []) result }
    {
        let Some(number) = entry else {
            return Tally {
                rows: self.rows + 1,
                ..self
            };
        };
        Tally {
            rows: self.rows + 1,
            sum: self.sum + i128::from(number),
            least: Some(lesser(self.least, number)),
            greatest: Some(greater(self.greatest, number)),
        }
    }

    /// Returns whether there is a row.
    pub(crate) fn has_rows(&self) -> bool
        ensures { result ≡ nat_lt 0 self.now.rows }
    {
        self.rows > 0
    }

    /// Returns the total of the rows.
    pub(crate) fn answer(&self, total: Total) -> Answer
        requires { NeedsNoMemory total }
        ensures { (entries : List (Option ℤ)) → IsTally entries self.now →
            IsTotalOf total entries result }
    {
        match total {
            Total::Sum(_) => Answer::Sum(self.sum),
            Total::Least(_) => Answer::Value(self.least),
            Total::Greatest(_) => Answer::Value(self.greatest),
            // The other totals need memory.
            _ => Answer::Count(self.rows),
        }
    }
}

/// Returns the lesser of a number and the least one before it.
fn lesser(least: Option<i64>, number: i64) -> i64
    ensures { (numbers : List ℤ) → IsSignedLeastOf numbers least →
        IsLeastBy signed_order (numbers ++ number ∷ []) result }
{
    match least {
        Some(least) if least < number => least,
        _ => number,
    }
}

/// Returns the greater of a number and the greatest one before it.
fn greater(greatest: Option<i64>, number: i64) -> i64
    ensures { (numbers : List ℤ) → IsSignedGreatestOf numbers greatest →
        IsGreatestBy signed_order (numbers ++ number ∷ []) result }
{
    match greatest {
        Some(greatest) if greatest > number => greatest,
        _ => number,
    }
}
