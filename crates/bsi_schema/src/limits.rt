//! The range of numbers that a column accepts (`Limits`), tests of entries and of rows against it, and whether two
//! lists of columns have the same.

ghost use Rattle.std.specs.Prelude.{◌≡◌, ◌↔◌, IsTrue, List, map};
ghost use Rattle.bsi_digits.specs.Signed.{IsI64};
ghost use Rattle.bsi_schema.specs.Columns.{fits, is_between, size_in, IsForm, NamedColumn};
ghost use Rattle.bsi_schema.specs.Limits.{limits_of};

use crate::Row;
use crate::form::Layout;

/// This many numbers, from the least one up.
#[derive(Clone, Copy, PartialEq, Eq)]
pub struct Limits {
    least: i64,
    size: u64,
}

impl Limits {
    /// Returns the numbers that a column of this layout accepts.
    pub(crate) fn of(layout: &Layout) -> Limits
        requires { IsForm layout.now.form }
        ensures { result ≡ record { least = layout.now.offset; size = size_in layout.now.form } }
    {
        Limits {
            least: layout.offset,
            size: layout.form.size(),
        }
    }

    /// Returns the least of these numbers.
    pub fn least(self) -> i64
        ensures { result ≡ self.least }
    {
        self.least
    }

    /// Returns whether an entry is a null or one of these numbers.
    pub fn accepts(self, entry: Option<i128>) -> bool
        ensures { result ≡ is_between self.least self.size entry }
    {
        let Some(number) = entry else {
            return true;
        };
        let least = i128::from(self.least);
        least <= number && number < least + i128::from(self.size)
    }
}

/// Returns the same entry, as a number of 64 bits.
pub fn to_i64(entry: Option<i128>) -> Option<i64>
    requires { IsI64 entry }
    ensures { result ≡ entry }
{
    let number = entry?;
    Some(number as i64)
}

/// Returns whether a row has one entry for each of these columns, each a null or a number that its column accepts.
pub fn accepts_row(limits: &[Limits], row: &Row) -> bool
    ensures { (columns : List NamedColumn) → limits.now ≡ map limits_of columns →
        result ≡ fits columns row.now }
{
    let values = row.values();
    values.len() == limits.len()
        && limits
            .iter()
            .zip(values)
            .all(|(limits, entry)| limits.accepts(*entry))
}

/// Returns whether two lists of columns accept the same numbers.
// It is a function because its clause says what `==` of two such lists means.
pub fn have_same_limits(first: &[Limits], second: &[Limits]) -> bool
    ensures { IsTrue result ↔ (first.now ≡ second.now) }
{
    first == second
}
