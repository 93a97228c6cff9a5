//! The trait of a column (`Column`): a list of optional numbers below its size that grows, is compared with constants,
//! and gives sums, extremes and the numbers of given ranks.
//!
//! Least, greatest and median are provided calls over one required call, `ranked`; forms have their own least and
//! greatest. The form is the column's own type, because the trait can't name the encoding of a decomposed one.

ghost use Rattle.std.specs.Prelude.{◌≡◌, ◌↔◌, ℕ, ◌^◌, ◌+◌, ◌≤◌, ◌<◌, List, Option, [], ◌∷◌, ◌++◌, All, length, map, is_some, is_none, nat_lt, sum, IfOk, OnOk, OnErr, IsOk, IsTrue};
ghost use Rattle.bsi_digits.specs.Digits.{max_size};
ghost use Rattle.bsi_bits.specs.BitList.{max_block, max_len, sum_end};
ghost use Rattle.bsi_digits.specs.Blocks.{block_entries, IsNumberBlock};
ghost use Rattle.bsi_digits.specs.Orders.{values_at};
ghost use Rattle.bsi_digits.specs.Comparisons.{number_or_zero, selects};
ghost use Rattle.bsi_digits.specs.Totals.{IsRanked, IsLeastOf, IsGreatestOf, IsMedianOf};

use crate::{NoMemory, Op};
use bsi_bits::Bits;

/// A column: a list of entries, each a number below the column's size or a null.
pub trait Column: Drop {
    /// The forms that such a column can have.
    ghost Form: { Type 0 };

    /// The form: how the entries are stored, and which numbers they can be. No call changes it.
    ghost form_of: { Self → Form };

    /// The size of a column of a form: each number is below it.
    ghost size_of: { Form → ℕ };

    /// The numbers and nulls, in order of the rows.
    ghost entries: { Self → List (Option ℕ) };

    /// How many more entries there is room for: to append these takes no memory.
    ghost room_of: { Self → ℕ };

    /// Returns the size, at most 2^63. Each number is below it.
    fn size(&self) -> u64
        ensures size { result ≡ size_of (form_of self.now) }
        ensures within { (2 ≤ result) × (result ≤ max_size) }
        ensures below { All (λ e. number_or_zero e < size_of (form_of self.now))
            (entries self.now) };

    /// Returns the number of rows, at most 2^32.
    fn len(&self) -> u64
        ensures len { result ≡ length (entries self.now) }
        ensures within { result ≤ max_len };

    /// Returns whether there is no row.
    fn is_empty(&self) -> bool
        ensures { IsTrue result ↔ (entries self.now ≡ []) }
    {
        self.len() == 0
    }

    /// Returns how many more entries there is room for: to append these takes no memory.
    fn room(&self) -> u64
        ensures room { result ≡ room_of self.now }
        ensures within { length (entries self.now) + result ≤ max_len };

    /// Makes room for `more` further entries. Whatever the result, the entries stay and there is no less room than
    /// before. If it is refused, the room is as it was. It takes memory only if there is not enough room already.
    fn reserve(&mut self, more: u64) -> Result<(), NoMemory>
        requires { length (entries self.old) + more ≤ max_len }
        ensures entries { entries self.new ≡ entries self.old }
        ensures form { form_of self.new ≡ form_of self.old }
        ensures ok { OnOk result (more ≤ room_of self.new) }
        ensures no_less { room_of self.old ≤ room_of self.new }
        ensures err { OnErr result (room_of self.new ≡ room_of self.old) }
        ensures refused { OnErr result (room_of self.new < more) }
        ensures succeeds { more ≤ room_of self.old → IsOk result };

    /// Removes all entries. It takes no memory and keeps the room.
    fn clear(&mut self)
        ensures entries { entries self.new ≡ [] }
        ensures form { form_of self.new ≡ form_of self.old }
        ensures room { length (entries self.old) + room_of self.old ≤ room_of self.new };

    /// Appends a number below the size, or a null, into room that is already there.
    fn push_reserved(&mut self, entry: Option<u64>)
        requires room { 0 < room_of self.old }
        requires below { number_or_zero entry < size_of (form_of self.old) }
        ensures entries { entries self.new ≡ entries self.old ++ entry ∷ [] }
        ensures form { form_of self.new ≡ form_of self.old }
        ensures room { room_of self.old ≤ room_of self.new + 1 };

    /// Appends a block of at most 64 entries into room that is already there. Entry `r` is number `r`, which is below
    /// the size, or a null if bit `r` of the word `not_null` is clear; the number of a null is 0, and no bit past the last
    /// entry is set. The provided body appends them one by one.
    fn push_block_reserved(&mut self, numbers: &[u64], not_null: u64)
        requires few { length numbers.now ≤ max_block }
        requires block { IsNumberBlock numbers.now not_null }
        requires room { length numbers.now ≤ room_of self.old }
        requires below { All (λ n. n < size_of (form_of self.old)) numbers.now }
        ensures entries { entries self.new
            ≡ entries self.old ++ block_entries numbers.now not_null }
        ensures form { form_of self.new ≡ form_of self.old }
        ensures room { room_of self.old ≤ room_of self.new + length numbers.now }
    {
        'entries: for (r, number) in numbers.iter().enumerate() {
            self.push_reserved((not_null >> r & 1 == 1).then_some(*number));
        }
    }

    /// Appends all entries of another column of the same form, in their order, into room that is already there.
    fn push_all_reserved(&mut self, other: &Self)
        requires form { form_of other.now ≡ form_of self.old }
        requires room { length (entries other.now) ≤ room_of self.old }
        ensures entries { entries self.new ≡ entries self.old ++ entries other.now }
        ensures form { form_of self.new ≡ form_of self.old }
        ensures room { room_of self.old ≤ room_of self.new + length (entries other.now) };

    /// Returns whether there is room for one more entry: to append it takes no memory.
    fn has_room(&self) -> bool
        ensures { result ≡ nat_lt 0 (room_of self.now) }
    {
        self.room() > 0
    }

    /// Makes room for one more entry, as `reserve` does for many.
    fn reserve_one(&mut self) -> Result<(), NoMemory>
        requires { length (entries self.old) < max_len }
        ensures entries { entries self.new ≡ entries self.old }
        ensures form { form_of self.new ≡ form_of self.old }
        ensures ok { OnOk result (0 < room_of self.new) }
        ensures no_less { room_of self.old ≤ room_of self.new }
        ensures err { OnErr result (room_of self.new ≡ room_of self.old) }
        ensures succeeds { 0 < room_of self.old → IsOk result }
    {
        self.reserve(1)
    }

    /// Returns for each row whether it is a number that satisfies the comparison `op` with `constant`, which may be
    /// past the size. A null row is never selected. The answer takes memory, a bit for each row.
    fn compare(&self, op: Op, constant: u64) -> Result<Bits, NoMemory>
        ensures { IfOk result (λ b. b.bits ≡ map (selects op constant) (entries self.now)) };

    /// Writes for each row whether it is null.
    fn nulls_into(&self, out: &mut Bits)
        requires { length (entries self.now) ≡ length out.old.bits }
        ensures bits { out.new.bits ≡ map is_none (entries self.now) }
        ensures room { out.new.room ≡ out.old.room }
    {
        out.copy_from(self.not_null());
        out.flip();
    }

    /// Returns the sum of the numbers at the rows of a selection, below 2^95. A null counts for nothing. It takes no
    /// memory.
    fn sum(&self, selection: &Bits) -> u128
        requires { length (entries self.now) ≡ length selection.now.bits }
        ensures sum { result ≡ sum (values_at selection.now.bits (entries self.now)) }
        ensures within { result < sum_end };

    /// Returns the number of a rank, from 0, among those at the rows of a selection: the one at that place when they
    /// stand in order. Slices and components copy the selection, a bit for each row.
    fn ranked(&self, selection: &Bits, rank: u64) -> Result<u64, NoMemory>
        requires same { length (entries self.now) ≡ length selection.now.bits }
        requires there { rank < length (values_at selection.now.bits (entries self.now)) }
        ensures { IfOk result (IsRanked (values_at selection.now.bits (entries self.now)) rank) };

    /// Returns how many rows of a selection have a number.
    fn count_numbers(&self, selection: &Bits) -> u64
        requires { length (entries self.now) ≡ length selection.now.bits }
        ensures { result ≡ length (values_at selection.now.bits (entries self.now)) }
    {
        selection.count_and(self.not_null())
    }

    /// Returns the least number at the rows of a selection, or none if there is no number. The provided body takes
    /// memory as `ranked` does. That of slices, and of components that work on spans, takes no memory.
    fn least(&self, selection: &Bits) -> Result<Option<u64>, NoMemory>
        requires { length (entries self.now) ≡ length selection.now.bits }
        ensures { IfOk result (IsLeastOf (values_at selection.now.bits (entries self.now))) }
    {
        match self.count_numbers(selection) {
            0 => Ok(None),
            _ => Ok(Some(self.ranked(selection, 0)?)),
        }
    }

    /// Returns the greatest number at the rows of a selection, or none if there is no number. It takes memory as
    /// `least` does.
    fn greatest(&self, selection: &Bits) -> Result<Option<u64>, NoMemory>
        requires { length (entries self.now) ≡ length selection.now.bits }
        ensures { IfOk result (IsGreatestOf (values_at selection.now.bits (entries self.now))) }
    {
        match self.count_numbers(selection) {
            0 => Ok(None),
            count => Ok(Some(self.ranked(selection, count - 1)?)),
        }
    }

    /// Returns the lower median of the numbers at the rows of a selection, or none if there is no number. It takes
    /// memory as `ranked` does.
    fn median(&self, selection: &Bits) -> Result<Option<u64>, NoMemory>
        requires { length (entries self.now) ≡ length selection.now.bits }
        ensures { IfOk result (IsMedianOf (values_at selection.now.bits (entries self.now))) }
    {
        match self.count_numbers(selection) {
            0 => Ok(None),
            count => Ok(Some(self.ranked(selection, (count - 1) / 2)?)),
        }
    }

    /// Returns the not-null bitmap.
    fn not_null(&self) -> &Bits
        ensures { result.now.bits ≡ map is_some (entries self.now) };

    /// Makes a second column of the same entries, in the same form.
    fn copy(&self) -> Result<Self, NoMemory>
        ensures entries { IfOk result (λ c. entries c ≡ entries self.now) }
        ensures form { IfOk result (λ c. form_of c ≡ form_of self.now) };
}
