//! Reads the whole numbers of 64 rows at once (`read_block`), and compares two columns (`and_compare_columns`).

ghost use Rattle.std.specs.Prelude.{◌≡◌, ℕ, pos, ◌<ℤ◌, ◌+◌, ◌*◌, ◌<◌, ◌≤◌, ◌==◌, ◌&&◌, length, None, slice_index, slice_index_or};
ghost use Rattle.std.specs.Int.{bit_at};
ghost use Rattle.bsi_digits.specs.Digits.{max_size};
ghost use Rattle.bsi_digits.specs.Signed.{end_of_i64};
ghost use Rattle.bsi_bits.specs.BitList.{max_block, word_count};
ghost use Rattle.bsi_digits.specs.Blocks.{value_entry};
ghost use Rattle.bsi_digits.specs.Offsets.{number_of};
ghost use Rattle.bsi_digits.specs.Orders.{compares_by};
ghost use Rattle.bsi_digits.specs.WholeNumbers.{signed_order, signed_relates};
ghost use Rattle.bsi_slices.specs.Related.{compares_numbers};
ghost use Rattle.bsi_shift.specs.Related.{AndsCompared};
ghost use Rattle.bsi_shift.specs.Shifted.{shifted_entries};

use crate::Shifted;
use bsi_bits::MAX_BLOCK;
use bsi_columns::{Column, ColumnComparison, Op};

impl Shifted {
    /// Reads the 64 rows from row `64 * at` on: writes that of row `64 * at + r` as number `r`, and returns a word whose
    /// bit `r` says whether it has one. Past the last row the bits are 0. What is written for a row without a number is
    /// unspecified. It takes no memory.
    pub fn read_block(&self, at: usize, numbers: &mut [i64; MAX_BLOCK]) -> u64
        requires { at < word_count (length (shifted_entries self.now)) }
        ensures long { length numbers.new ≡ max_block }
        ensures entries { (r : ℕ) → r < max_block → value_entry numbers.new result r
            ≡ slice_index_or (shifted_entries self.now) (64 * at + r) None }
    {
        let mut stored = [0; MAX_BLOCK];
        self.stored.numbers_into(at, &mut stored);
        add_offset(self.offset, &stored, numbers);
        self.stored.not_null().words()[at]
    }

    /// Keeps in a span of words the rows whose number satisfies the comparison `op` with the number that another column
    /// of as many rows has there. The first word stands for the 64 rows from row `64 * at` on. A row that is null in one
    /// of the two is not kept, nor a bit past the last row. It takes no memory. Two columns go by their binary places,
    /// each of which is read once. It is fastest where both are of slices and their offsets lie less than 2^63 apart, and
    /// where both have the same bases and the same offset, in whichever encodings. Else numbers under bases are put
    /// together, place by place, which takes a few additions of places for each digit.
    pub fn and_compare_columns(&self, op: Op, other: &Shifted, at: usize, span: &mut [u64])
        requires within { at + length span.old ≤ word_count (length (shifted_entries self.now)) }
        requires same { length (shifted_entries other.now) ≡ length (shifted_entries self.now) }
        ensures { AndsCompared op (shifted_entries self.now) (shifted_entries other.now) at
            span.old span.new }
    {
        let comparison = column_comparison(self.offset, op, other.offset);
        self.stored
            .and_compare_columns(comparison, &other.stored, at, span);
    }
}

/// Returns the comparison of stored numbers that says the same as `op` of numbers from these offsets on. Where the offsets
/// lie 2^63 or more apart it adds 2^63, which stored numbers are below.
fn column_comparison(offset: i64, op: Op, other: i64) -> ColumnComparison
    ensures small { (result.left_addend ≤ max_size) × (result.right_addend ≤ max_size) }
    ensures agree { (x y : ℕ) → x < max_size → y < max_size → compares_numbers result x y
        ≡ compares_by signed_order op (number_of offset x) (number_of other y) }
{
    let apart = offset.abs_diff(other).min(1 << 63);
    let (left_addend, right_addend) = if offset < other {
        (0, apart)
    } else {
        (apart, 0)
    };
    ColumnComparison {
        left_addend,
        op,
        right_addend,
    }
}

/// Writes the number that is stored as each of these. One that no column stores is cut to 64 bits.
fn add_offset(offset: i64, stored: &[u64; MAX_BLOCK], numbers: &mut [i64; MAX_BLOCK])
    ensures long { length numbers.new ≡ max_block }
    ensures numbers { (r : ℕ) → r < max_block → slice_index stored.now r < max_size →
        number_of offset (slice_index stored.now r) <ℤ pos end_of_i64 →
        slice_index_or numbers.new r (pos 0) ≡ number_of offset (slice_index stored.now r) }
{
    'rows: for r in 0..MAX_BLOCK {
        numbers[r] = offset.wrapping_add_unsigned(stored[r]);
    }
}
