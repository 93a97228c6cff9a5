//! The least and the greatest number of a selection in one pass over the column, span by span and from the most
//! significant component down.
//!
//! The search leaves a span as soon as none of its rows can improve the best number so far. Most spans show
//! this at their first component.
//!
//! A component is asked for a digit within a bound, which a division of the best number gives. Its steps may
//! set bits past the last row of a span, so the rows are intersected with the not-null bitmap again.

ghost use Rattle.std.specs.Prelude.{◌≡◌, ℕ, ◌+◌, ◌*◌, ◌/◌, ◌<◌, ◌≤◌, ◌&&◌, true, false, length, slice_index, slice_index_or, is_some, None, IfOk, IsOk, IsTrue};
ghost use Rattle.bsi_bits.specs.BitList.{word_count};
ghost use Rattle.bsi_bits.specs.Packed.{bit_of};
ghost use Rattle.bsi_columns.specs.SpanExtremes.{AnswersExtreme, IsPastBound, AndsExtreme};
ghost use Rattle.bsi_bits.specs.SetRows.{HasRow};
ghost use Rattle.bsi_columns.specs.Extremes.{is_no_worse, best_is_no_worse, number_at, IsImprovement, IsExtremeOf};
ghost use Rattle.bsi_digits.specs.Orders.{values_at};

use crate::decomposed::Decomposed;
use crate::{Column, Encoding, NoMemory};
use bsi_bits::{Bits, MAX_LEN};
use bsi_kernels::cannot_improve;
use bsi_kernels::spans::{and_assign, assign, intersects};
use bsi_slices::Extreme;

/// The number of words that the search goes over at once.
const SEARCH_WORDS: usize = 32;

impl<E: Encoding> Decomposed<E> {
    /// Returns the extreme of the numbers at the rows of a selection, or none if there is no number. Where the
    /// encoding works on whole vectors alone, it counts the numbers and asks for the one of a rank.
    pub(crate) fn find_extreme(
        &self,
        selection: &Bits,
        extreme: Extreme,
    ) -> Result<Option<u64>, NoMemory>
        requires { length self.now.entries ≡ length selection.now.bits }
        ensures extreme { IfOk result (IsExtremeOf extreme (values_at selection.now.bits self.now.entries)) }
        ensures succeeds { IsTrue E.works_on_spans → IsOk result }
    {
        if E::on_spans() {
            return Ok(self.extreme_in_spans(selection, extreme));
        }
        match (self.count_numbers(selection), extreme) {
            (0, _) => Ok(None),
            (_, Extreme::Least) => Ok(Some(self.ranked(selection, 0)?)),
            (count, Extreme::Greatest) => Ok(Some(self.ranked(selection, count - 1)?)),
        }
    }

    /// Returns the extreme of the numbers at the rows of a selection, or none if there is no number, span by span.
    fn extreme_in_spans(&self, selection: &Bits, extreme: Extreme) -> Option<u64>
        requires spans { IsTrue E.works_on_spans }
        requires same { length self.now.entries ≡ length selection.now.bits }
        ensures { IsExtremeOf extreme (values_at selection.now.bits self.now.entries) result }
    {
        // The proof takes from this that there are at most 2^32 rows, so at most 2^26 words.
        prove!(selection.len() <= MAX_LEN);
        let len = selection.words().len();
        let mut buffer = [0; SEARCH_WORDS];
        let mut best = None;
        'span: for k in 0..len.div_ceil(SEARCH_WORDS) {
            let at = SEARCH_WORDS * k;
            let span = &mut buffer[..SEARCH_WORDS.min(len - at)];
            rows_into(selection, self.not_null(), at, span);
            best = self.improve_in_span(extreme, best, at, span).or(best);
        }
        best
    }

    /// Returns the extreme of the numbers of the rows of a span, or none if none improves the best number so far. The
    /// span's content afterwards is unspecified.
    fn improve_in_span(
        &self,
        extreme: Extreme,
        best: Option<u64>,
        at: usize,
        span: &mut [u64],
    ) -> Option<u64>
        requires spans { IsTrue E.works_on_spans }
        requires within { at + length span.old ≤ word_count (length self.now.entries) }
        requires rows { (p : ℕ) → p < 64 * length span.old → bit_of span.old p ≡ true →
            is_some (slice_index_or self.now.entries (64 * at + p) None) ≡ true }
        ensures { IsImprovement extreme (bit_of span.old)
            (λ p. number_at self.now.entries (64 * at + p)) (64 * length span.old) best result }
    {
        let not_null = self.not_null();
        if !intersects(not_null, at, span) {
            return None;
        }
        let bases = self.bases();
        let mut number = 0;
        'components: for i in (0..bases.len()).rev() {
            let (base, weight) = (bases.base(i), bases.weight(i));
            let above = number * u64::from(base);
            let bound = bound_of(extreme, best, above, base, weight);
            let digit = and_extreme(self.component(i), not_null, extreme, bound, at, span)?;
            number = above + u64::from(digit);
            if cannot_improve(extreme, best, number, weight) {
                return None;
            }
        }
        Some(number)
    }
}

/// Writes the rows of a span that are selected and not null.
fn rows_into(selection: &Bits, not_null: &Bits, at: usize, span: &mut [u64])
    requires selection { at + length span.old ≤ word_count (length selection.now.bits) }
    requires not_null { at + length span.old ≤ word_count (length not_null.now.bits) }
    ensures len { length span.new ≡ length span.old }
    ensures bits { (p : ℕ) → p < 64 * length span.old → bit_of span.new p
        ≡ (slice_index_or selection.now.bits (64 * at + p) false
        && slice_index_or not_null.now.bits (64 * at + p) false) }
{
    assign(selection, at, span);
    and_assign(not_null, at, span);
}

/// Returns the digit past which no number can improve the best number so far. `above` is what the more significant
/// digits weigh, in units of `weight`.
fn bound_of(extreme: Extreme, best: Option<u64>, above: u64, base: u32, weight: u64) -> u32
    requires some { 1 ≤ weight }
    requires base { 1 ≤ base }
    ensures below { result < base }
    ensures past { (d x : ℕ) → d < base → IsPastBound extreme result d →
        is_no_worse extreme (above + d) (x / weight) → best_is_no_worse extreme best x }
{
    match (best, extreme) {
        (None, Extreme::Least) => base - 1,
        (None, Extreme::Greatest) => 0,
        (Some(best), _) => (best / weight)
            .saturating_sub(above)
            .min(u64::from(base) - 1) as u32,
    }
}

/// Finds the extreme of the digits of a span's rows, or none if each is past a bound. It is a function, since a
/// proof loses what a `match` decides where the arms join.
fn extreme_digit<E: Encoding>(
    component: &E,
    extreme: Extreme,
    bound: u32,
    at: usize,
    span: &[u64],
) -> Option<u32>
    requires spans { IsTrue E.works_on_spans }
    requires below { bound < E.base_of component.now }
    requires within { at + length span.now ≤ word_count (length (E.digits component.now)) }
    requires rows { (p : ℕ) → p < 64 * length span.now → bit_of span.now p ≡ true →
        64 * at + p < length (E.digits component.now) }
    requires some { HasRow (bit_of span.now) (64 * length span.now) }
    ensures { AnswersExtreme extreme bound (bit_of span.now)
        (λ p. slice_index (E.digits component.now) (64 * at + p)) (64 * length span.now) result }
{
    match extreme {
        Extreme::Least => component.least_in_span(bound, at, span),
        Extreme::Greatest => component.greatest_in_span(bound, at, span),
    }
}

/// Keeps those rows of a span, none of which is null, whose digit is the extreme, and returns this digit, or none if
/// each is past a bound.
fn and_extreme<E: Encoding>(
    component: &E,
    not_null: &Bits,
    extreme: Extreme,
    bound: u32,
    at: usize,
    span: &mut [u64],
) -> Option<u32>
    requires spans { IsTrue E.works_on_spans }
    requires below { bound < E.base_of component.now }
    requires within { at + length span.old ≤ word_count (length (E.digits component.now)) }
    requires same { length not_null.now.bits ≡ length (E.digits component.now) }
    requires rows { (p : ℕ) → p < 64 * length span.old → bit_of span.old p ≡ true →
        slice_index_or not_null.now.bits (64 * at + p) false ≡ true }
    requires some { HasRow (bit_of span.old) (64 * length span.old) }
    ensures len { length span.new ≡ length span.old }
    ensures digit { AndsExtreme extreme bound (bit_of span.old) (bit_of span.new)
        (λ p. slice_index (E.digits component.now) (64 * at + p)) (64 * length span.old) result }
{
    // The proof takes from this call that each digit is below the base, and so is the extreme.
    let _base = component.base();
    let digit = extreme_digit(component, extreme, bound, at, span)?;
    component.eq_span(digit, at, span);
    and_assign(not_null, at, span);
    Some(digit)
}
