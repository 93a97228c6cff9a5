//! The range encoded component: bitmap j says of each row whether its digit is at most j (Chan and Ioannidis 1998).
//!
//! A step reads one bitmap or two. The digit of a rank is found by halving, so by at most ten counts, since a base is
//! at most 1,024, or by two where a sample of the rows tells the digit; where it tells a wrong one, by both. A sum
//! counts the binary places of the digits, which stand behind the bitmaps.

ghost use Rattle.std.specs.Prelude.{◌≡◌, ℕ, ◌+◌, ◌*◌, ◌<◌, ◌≤◌, ◌&&◌, length, map, nat_le, nat_lt, true, slice_index, IsTrue, IsFalse};
ghost use Rattle.bsi_bits.specs.BitList.{word_count};
ghost use Rattle.bsi_bits.specs.Packed.{bit_of};
ghost use Rattle.bsi_bits.specs.SetRows.{HasRow};
ghost use Rattle.bsi_digits.specs.Digits.{max_base};

use crate::NoMemory;
use crate::building::rows_above;
use crate::component::Component;
use crate::marking::Marking;
use bsi_bits::Bits;
use bsi_kernels::marks::{mark_below, one_hot_digits};
use bsi_kernels::spans::{has_bit_outside, intersects};
use std::alloc::Global;

mod ranks;
mod reads;

/// Range encoding: the bitmap of a digit has the rows of the digits below it. Digit 0 has none.
#[derive(Drop)]
pub enum Range {}

/// A component that stores for each digit but the greatest the bitmap of the rows whose digit is at most this one.
pub type RangeComponent = Component<Range>;

impl Marking for Range {
    ghost use Rattle.std.specs.Prelude.{nat_lt};
    ghost use Rattle.std.proofs.Common.{arith};
    ghost use Rattle.std.proofs.lemmas.Bool.Decides.{nat_tests};

    ghost first = { λ base. 1 };

    ghost marks = { λ d v. nat_lt v d };

    fn first_stored(_base: u32) -> u32 {
        1
    }

    fn marked_range(base: u32, digit: u32) -> (usize, usize) {
        (digit as usize, base as usize - 1)
    }

    fn mark_block(block: &[u32], base: u32, words: &mut [u64]) {
        one_hot_digits(block, base as usize, words);
        mark_below(words, base as usize);
    }

    fn make_bitmap(alloc: Global, places: &[Bits], _base: u32, j: u32) -> Result<Bits, NoMemory> {
        let mut rows = rows_above(alloc, places, j)?;
        rows.flip();
        Ok(rows)
    }

    ghost sound = { record {
      low = λ base. Prim.omega arith;
      distinguishes = λ v w below. Prim.grind (arith, nat_tests);
    } };
}

impl RangeComponent {
    /// Returns the bitmap of the rows whose digit is at most `j`, as it is stored.
    pub fn bitmap(&self, j: u32) -> &Bits
        requires { j + 1 < self.now.base }
        ensures { result.now.bits ≡ map (λ v. nat_le v j) self.now.digits }
    {
        // The proof takes from this that `j + 1` fits.
        prove!(j < self.top());
        self.bitmap_of(j + 1)
    }

    /// Returns whether a row of a span has a digit of at most `d`.
    fn has_upto(&self, d: u32, at: usize, span: &[u64]) -> bool
        requires below { d + 1 < self.now.base }
        requires within { at + length span.now ≤ word_count (length self.now.digits) }
        requires rows { (p : ℕ) → p < 64 * length span.now → bit_of span.now p ≡ true →
            64 * at + p < length self.now.digits }
        ensures some { IsTrue result →
            HasRow (λ p. bit_of span.now p
            && nat_le (slice_index self.now.digits (64 * at + p)) d) (64 * length span.now) }
        ensures none { IsFalse result → (p : ℕ) → p < 64 * length span.now →
            bit_of span.now p ≡ true → d < slice_index self.now.digits (64 * at + p) }
    {
        intersects(self.bitmap(d), at, span)
    }

    /// Returns whether a row of a span has a digit above `d`.
    fn has_above(&self, d: u32, at: usize, span: &[u64]) -> bool
        requires below { d + 1 < self.now.base }
        requires within { at + length span.now ≤ word_count (length self.now.digits) }
        requires rows { (p : ℕ) → p < 64 * length span.now → bit_of span.now p ≡ true →
            64 * at + p < length self.now.digits }
        ensures some { IsTrue result →
            HasRow (λ p. bit_of span.now p
            && nat_lt d (slice_index self.now.digits (64 * at + p))) (64 * length span.now) }
        ensures none { IsFalse result → (p : ℕ) → p < 64 * length span.now →
            bit_of span.now p ≡ true → slice_index self.now.digits (64 * at + p) ≤ d }
    {
        has_bit_outside(self.bitmap(d), at, span)
    }

    /// Returns the greatest digit.
    fn top(&self) -> u32
        ensures base { result + 1 ≡ self.now.base }
        ensures within { (1 ≤ result) × (result < max_base) }
        ensures most { (k : ℕ) → slice_index self.now.digits k ≤ result }
    {
        self.own_base() - 1
    }
}
