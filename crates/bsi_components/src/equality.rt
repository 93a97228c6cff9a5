//! The equality encoded component: a bitmap for each digit says which rows have it (Chan and Ioannidis 1998).
//!
//! A step reads the bitmaps up to the digit, those past it or, on spans, the binary places of the digits, which stand
//! behind the bitmaps: whichever are fewest. A sum counts these places, and a rank goes down them. Under base 2 or 3,
//! which has none, a rank is counted one digit after another.

ghost use Rattle.std.specs.Prelude.{◌≡◌, ◌≢◌, ℕ, ◌+◌, ◌*◌, ◌<◌, ◌≤◌, ◌==◌, ◌&&◌, ◌||◌, not, length, map, slice_index, IsTrue, IsFalse};
ghost use Rattle.bsi_bits.specs.BitList.{word_count};
ghost use Rattle.bsi_bits.specs.Packed.{bit_of};
ghost use Rattle.bsi_kernels.specs.Places.{at_most_step};
ghost use Rattle.bsi_components.specs.Equality.{is_among};

use crate::NoMemory;
use crate::building::rows_equal;
use crate::component::Component;
use crate::marking::Marking;
use bsi_bits::Bits;
use bsi_kernels::marks::one_hot_digits;
use bsi_kernels::spans::{and_assign, and_not_assign, or_assign, or_not_assign};
use std::alloc::Global;

mod counts;
mod extremes;
mod reads;

/// Equality encoding: the bitmap of a digit has the rows of this digit. Base 2 has that of digit 1 alone.
#[derive(Drop)]
pub enum Equality {}

/// A component that stores a bitmap for each digit.
pub type EqualityComponent = Component<Equality>;

impl Marking for Equality {
    ghost use Rattle.std.specs.Prelude.{◌==◌};
    ghost use Rattle.std.proofs.Common.{arith};
    ghost use Rattle.std.proofs.lemmas.Bool.Decides.{nat_tests};
    ghost use Rattle.bsi_components.specs.Equality.{first_stored};

    ghost first = { first_stored };

    ghost marks = { λ d v. v == d };

    fn first_stored(base: u32) -> u32 {
        if base == 2 { 1 } else { 0 }
    }

    fn marked_range(base: u32, digit: u32) -> (usize, usize) {
        // Under base 2 the digit 0 has no bitmap.
        let to = (digit + 1 - Self::first_stored(base)) as usize;
        (to.saturating_sub(1), to)
    }

    fn mark_block(block: &[u32], base: u32, words: &mut [u64]) {
        one_hot_digits(block, base as usize, words);
    }

    fn make_bitmap(alloc: Global, places: &[Bits], base: u32, j: u32) -> Result<Bits, NoMemory> {
        rows_equal(alloc, places, Self::first_stored(base) + j)
    }

    ghost sound = { record {
      low = λ base. Prim.grind (arith, nat_tests);
      distinguishes = λ v w below. Prim.grind (arith, nat_tests);
    } };
}

impl EqualityComponent {
    /// Returns the bitmap of the rows whose digit is `j`, as it is stored. Base 2 stores that of digit 1 alone.
    pub fn bitmap(&self, j: u32) -> &Bits
        requires below { j < self.now.base }
        requires stored { self.now.base ≡ 2 → j ≡ 1 }
        ensures { result.now.bits ≡ map (λ v. v == j) self.now.digits }
    {
        self.bitmap_of(j)
    }

    /// Returns whether the digit `d` has a bitmap: under base 2 digit 1 alone has one.
    fn is_stored(&self, d: u32) -> bool
        requires { d < self.now.base }
        ensures some { IsTrue result → self.now.base ≡ 2 → d ≡ 1 }
        ensures none { IsFalse result → (self.now.base ≡ 2) × (d ≡ 0) }
        ensures few { IsFalse result → (k : ℕ) → slice_index self.now.digits k ≤ 1 }
    {
        d >= Equality::first_stored(self.own_base())
    }

    /// Writes for each row whether its digit is from `from` on and below `to`.
    fn among_into(&self, from: u32, to: u32, out: &mut Bits)
        requires within { (from < to) × (to ≤ self.now.base) }
        requires stored { self.now.base ≡ 2 → from ≡ 1 }
        requires same { length self.now.digits ≡ length out.old.bits }
        ensures bits { out.new.bits ≡ map (is_among from to) self.now.digits }
        ensures room { out.new.room ≡ out.old.room }
    {
        out.copy_from(self.bitmap(from));
        'digits: for j in from + 1..to {
            out.or_with(self.bitmap(j));
        }
    }

    /// Does what `le_span` does by the bitmaps up to the digit, or by those from it on, whichever are fewer.
    fn le_by_bitmaps(&self, d: u32, at: usize, span: &mut [u64])
        requires below { d < self.now.base }
        requires within { at + length span.old ≤ word_count (length self.now.digits) }
        ensures len { length span.new ≡ length span.old }
        ensures bits { (p : ℕ) → p < 64 * length span.old → 64 * at + p < length self.now.digits →
            bit_of span.new p ≡ at_most_step (bit_of span.old p)
            (slice_index self.now.digits (64 * at + p)) d }
    {
        let base = self.own_base();
        if base == 2 {
            if d == 0 {
                and_not_assign(self.bitmap(1), at, span);
            } else {
                or_not_assign(self.bitmap(1), at, span);
            }
        } else if 2 * d < base {
            and_assign(self.bitmap(d), at, span);
            self.or_among(0, d, at, span);
        } else {
            or_not_assign(self.bitmap(d), at, span);
            self.and_not_among(d + 1, base, at, span);
        }
    }

    /// Sets in a span the rows whose digit is from `from` on and below `to`.
    fn or_among(&self, from: u32, to: u32, at: usize, span: &mut [u64])
        requires within { (from ≤ to) × (to ≤ self.now.base) }
        requires stored { self.now.base ≢ 2 }
        requires rows { at + length span.old ≤ word_count (length self.now.digits) }
        ensures len { length span.new ≡ length span.old }
        ensures bits { (p : ℕ) → p < 64 * length span.old → 64 * at + p < length self.now.digits →
            bit_of span.new p ≡ (bit_of span.old p
            || is_among from to (slice_index self.now.digits (64 * at + p))) }
    {
        'digits: for j in from..to {
            or_assign(self.bitmap(j), at, span);
        }
    }

    /// Clears in a span the rows whose digit is from `from` on and below `to`.
    fn and_not_among(&self, from: u32, to: u32, at: usize, span: &mut [u64])
        requires within { (from ≤ to) × (to ≤ self.now.base) }
        requires stored { self.now.base ≢ 2 }
        requires rows { at + length span.old ≤ word_count (length self.now.digits) }
        ensures len { length span.new ≡ length span.old }
        ensures bits { (p : ℕ) → p < 64 * length span.old → 64 * at + p < length self.now.digits →
            bit_of span.new p ≡ (bit_of span.old p
            && not (is_among from to (slice_index self.now.digits (64 * at + p)))) }
    {
        'digits: for j in from..to {
            and_not_assign(self.bitmap(j), at, span);
        }
    }
}
