//! The extreme of the digits of a span's rows, by the binary places of the digits or by their bitmaps.

ghost use Rattle.std.specs.Prelude.{◌≡◌, ◌≢◌, ℕ, ◌+◌, ◌*◌, ◌<◌, ◌≤◌, ◌==◌, ◌&&◌, true, length, slice_index, IsTrue, IsFalse};
ghost use Rattle.bsi_bits.specs.BitList.{word_count};
ghost use Rattle.bsi_bits.specs.Packed.{bit_of};
ghost use Rattle.bsi_bits.specs.SetRows.{HasRow};
ghost use Rattle.bsi_kernels.specs.Extremes.{best_is_no_worse, improves, IsImprovement};
ghost use Rattle.bsi_digits.specs.declared.extreme.Extreme.TheVariants.{Greatest};
ghost use Rattle.bsi_components.specs.Bitmaps.{stored_places};
ghost use Rattle.bsi_components.specs.ExtremeDigits.{AnswersLeast, AnswersGreatest};

use crate::equality::EqualityComponent;
use bsi_bits::MAX_LEN;
use bsi_digits::Extreme;
use bsi_kernels::extreme_by_places;
use bsi_kernels::spans::{has_bit_outside, intersects};

impl EqualityComponent {
    /// Returns the extreme of the digits of the rows that a span of words has, or none if none improves the best digit
    /// so far. The words stand for the rows from `64 * at` on. It goes down the binary places, which the base has.
    pub(super) fn extreme_in_span(
        &self,
        extreme: Extreme,
        best: Option<u64>,
        at: usize,
        span: &[u64],
    ) -> Option<u32>
        requires some { 0 < stored_places self.now.base }
        requires within { at + length span.now ≤ word_count (length self.now.digits) }
        ensures { IsImprovement extreme (bit_of span.now) (λ p. slice_index self.now.digits (64 * at + p))
            (64 * length span.now) best result }
    {
        // The proof takes from this that there are at most 2^32 rows, so at most 2^26 words.
        prove!(self.bitmap(1).len() <= MAX_LEN);
        let digit = extreme_by_places(self.places(), extreme, best, at, span)?;
        Some(digit as u32)
    }

    /// Returns whether a row of a span has the digit `d`. It reads one bitmap.
    fn has_row_of(&self, d: u32, at: usize, span: &[u64]) -> bool
        requires below { d < self.now.base }
        requires within { at + length span.now ≤ word_count (length self.now.digits) }
        requires rows { (p : ℕ) → p < 64 * length span.now → bit_of span.now p ≡ true →
            64 * at + p < length self.now.digits }
        ensures some { IsTrue result → HasRow (λ p. bit_of span.now p
            && (slice_index self.now.digits (64 * at + p) == d)) (64 * length span.now) }
        ensures none { IsFalse result → (p : ℕ) → p < 64 * length span.now →
            bit_of span.now p ≡ true → slice_index self.now.digits (64 * at + p) ≢ d }
    {
        if self.is_stored(d) {
            intersects(self.bitmap(d), at, span)
        } else {
            has_bit_outside(self.bitmap(1), at, span)
        }
    }

    /// Does what `least_in_span` does by the bitmaps of the digits, from 0 up.
    pub(super) fn least_by_bitmaps(&self, bound: u32, at: usize, span: &[u64]) -> Option<u32>
        requires below { bound < self.now.base }
        requires within { at + length span.now ≤ word_count (length self.now.digits) }
        requires rows { (p : ℕ) → p < 64 * length span.now → bit_of span.now p ≡ true →
            64 * at + p < length self.now.digits }
        ensures { AnswersLeast bound (bit_of span.now)
            (λ p. slice_index self.now.digits (64 * at + p)) (64 * length span.now) result }
    {
        'digits: for digit in 0..=bound {
            if self.has_row_of(digit, at, span) {
                return Some(digit);
            }
        }
        None
    }

    /// Does what `greatest_in_span` does by the bitmaps of the digits, from the greatest down.
    pub(super) fn greatest_by_bitmaps(&self, bound: u32, at: usize, span: &[u64]) -> Option<u32>
        requires below { bound < self.now.base }
        requires within { at + length span.now ≤ word_count (length self.now.digits) }
        requires rows { (p : ℕ) → p < 64 * length span.now → bit_of span.now p ≡ true →
            64 * at + p < length self.now.digits }
        ensures { AnswersGreatest bound (bit_of span.now)
            (λ p. slice_index self.now.digits (64 * at + p)) (64 * length span.now) result }
    {
        'digits: for digit in (bound..self.own_base()).rev() {
            if self.has_row_of(digit, at, span) {
                return Some(digit);
            }
        }
        None
    }
}

/// Returns the number before a digit, or none before 0.
pub(super) fn just_below(digit: u32) -> Option<u64>
    ensures no_worse { (x : ℕ) → best_is_no_worse Greatest result x → x < digit }
    ensures improves { (x : ℕ) → improves Greatest x result → digit ≤ x }
{
    if digit == 0 {
        None
    } else {
        Some(u64::from(digit) - 1)
    }
}
