//! The least or the greatest number of some rows of a span, by binary places from the most significant down; and
//! whether a number can still improve the best one so far (`cannot_improve`).
//!
//! The search leaves a span as soon as none of its rows can improve the best number so far. The test is one
//! product and one comparison, on the number and not on its digits, so a tie needs no state. This search is this
//! project's own.

ghost use Rattle.std.specs.Prelude.{◌≡◌, ℕ, List, ◌+◌, ◌-◌, ◌*◌, ◌/◌, ◌<◌, ◌≤◌, ◌^◌, false, if◌then◌else◌, length, slice_index, IsTrue, IsFalse};
ghost use Rattle.bsi_digits.specs.Digits.{max_size};
ghost use Rattle.bsi_bits.specs.BitList.{max_words, word_count};
ghost use Rattle.bsi_bits.specs.BitLists.{bits_at};
ghost use Rattle.bsi_bits.specs.Packed.{bit_of};
ghost use Rattle.bsi_bits.specs.SetRows.{HasRow};
ghost use Rattle.bsi_kernels.specs.Extremes.{is_no_worse, best_is_no_worse, improves, IsImprovement, clear_is_better, best_place};
ghost use Rattle.bsi_kernels.specs.Places.{has_place, max_places, IsEncoded};
ghost use Rattle.bsi_kernels.specs.Spans.{max_lanes};

use crate::registers::{REGISTER_WORDS, and_maybe_not, span_at};
use bsi_bits::lanes::is_clear;
use bsi_bits::{Bits, know_fits};
use bsi_digits::Extreme;
use std::simd::Simd;

/// Returns true only if no number improves the best one so far whose quotient by `weight` is `number` or worse. If it
/// returns false at weight 1, `number` improves the best number so far.
pub fn cannot_improve(extreme: Extreme, best: Option<u64>, number: u64, weight: u64) -> bool
    requires small { number * weight + weight ≤ max_size }
    requires some { 1 ≤ weight }
    ensures no_worse { IsTrue result → (x : ℕ) → is_no_worse extreme number (x / weight) →
        best_is_no_worse extreme best x }
    ensures improves { IsFalse result → weight ≡ 1 → improves extreme number best }
{
    match (extreme, best) {
        (_, None) => false,
        (Extreme::Least, Some(least)) => least <= number * weight,
        (Extreme::Greatest, Some(greatest)) => number * weight + (weight - 1) <= greatest,
    }
}

/// Returns the extreme of the numbers of some rows of a span, or none if none improves the best number so far. The
/// span's words stand for the rows from row `64 * at` on. `places` has a vector for each binary place of the numbers,
/// the least first.
pub fn improve_by_places<const N: usize>(
    places: &[Bits],
    rows: Simd<u64, N>,
    extreme: Extreme,
    at: usize,
    best: Option<u64>,
) -> Option<u64>
    requires lanes { (1 ≤ N) × (N ≤ max_lanes) }
    requires some { 1 ≤ length places.now }
    requires few { length places.now ≤ max_places }
    requires within { (k : ℕ) → k < length places.now →
        at + N ≤ word_count (length (bits_at places.now k)) }
    ensures { (numbers : List ℕ) → IsEncoded has_place places.now numbers →
        ((k : ℕ) → slice_index numbers k < 2 ^ length places.now) →
        IsImprovement extreme (bit_of rows.entry) (λ p. slice_index numbers (64 * at + p)) (64 * N) best
        result }
{
    let mut narrowed = rows;
    if !has_row(narrowed) {
        return None;
    }
    let mut number = 0;
    'places: for place in (0..places.len()).rev() {
        let digits = span_at::<N>(&places[place], at);
        let first = and_maybe_not(narrowed, digits, is_least(extreme));
        let is_met = has_row(first);
        narrowed = either(is_met, first, narrowed);
        number = number * 2 + place_of(extreme, is_met);
        if cannot_improve(extreme, best, number, 1 << place) {
            return None;
        }
    }
    Some(number)
}

/// Returns the extreme of the numbers of the rows that a span of words has, or none if none improves the best number so
/// far. The words stand for the rows from row `64 * at` on. `places` has a vector for each binary place of the
/// numbers, the least first.
pub fn extreme_by_places(
    places: &[Bits],
    extreme: Extreme,
    best: Option<u64>,
    at: usize,
    span: &[u64],
) -> Option<u64>
    requires some { 1 ≤ length places.now }
    requires few { length places.now ≤ max_places }
    requires small { at + length span.now ≤ max_words }
    requires within { (k : ℕ) → k < length places.now →
        at + length span.now ≤ word_count (length (bits_at places.now k)) }
    ensures { (numbers : List ℕ) → IsEncoded has_place places.now numbers →
        ((k : ℕ) → slice_index numbers k < 2 ^ length places.now) →
        IsImprovement extreme (bit_of span.now) (λ p. slice_index numbers (64 * at + p))
        (64 * length span.now) best result }
{
    let whole = span.len() / REGISTER_WORDS * REGISTER_WORDS;
    let first = improve_from::<REGISTER_WORDS>(places, extreme, best, at, 0, span);
    improve_from::<1>(places, extreme, first.or(best), at, whole, span).or(first)
}

/// Does so with the words from word `from` on, as far as whole spans of `N` words go.
fn improve_from<const N: usize>(
    places: &[Bits],
    extreme: Extreme,
    best: Option<u64>,
    start: usize,
    from: usize,
    words: &[u64],
) -> Option<u64>
    requires lanes { (1 ≤ N) × (N ≤ max_lanes) }
    requires some { 1 ≤ length places.now }
    requires few { length places.now ≤ max_places }
    requires begins { from ≤ length words.now }
    requires small { start + length words.now ≤ max_words }
    requires within { (k : ℕ) → k < length places.now →
        start + length words.now ≤ word_count (length (bits_at places.now k)) }
    ensures { (numbers : List ℕ) → IsEncoded has_place places.now numbers →
        ((k : ℕ) → slice_index numbers k < 2 ^ length places.now) →
        IsImprovement extreme (λ p. bit_of words.now (64 * from + p))
        (λ p. slice_index numbers (64 * (start + from) + p))
        (64 * (N * ((length words.now - from) / N))) best result }
{
    let mut better = None;
    'spans: for k in 0..(words.len() - from) / N {
        let at = from + N * k;
        let rows = Simd::<u64, N>::from_slice(&words[at..]);
        better = improve_by_places::<N>(places, rows, extreme, start + at, better.or(best)).or(
            better,
        );
    }
    better
}

/// Returns whether a row of a span is set.
fn has_row<const N: usize>(span: Simd<u64, N>) -> bool
    ensures some { IsTrue result → HasRow (bit_of span.entry) (64 * N) }
    ensures none { IsFalse result → (p : ℕ) → bit_of span.entry p ≡ false }
{
    let words = span.as_array();
    know_fits(words);
    !is_clear(words)
}

// Each choice that follows is a function: a proof loses what an `if` or a `match` decides where the arms join.

/// Returns whether the least number is sought, for which a clear binary place is better.
fn is_least(extreme: Extreme) -> bool
    ensures { result ≡ clear_is_better extreme }
{
    match extreme {
        Extreme::Least => true,
        Extreme::Greatest => false,
    }
}

/// Returns the best binary place among some rows. `is_met` tells whether one of them has the better place.
fn place_of(extreme: Extreme, is_met: bool) -> u64
    ensures { result ≡ best_place extreme is_met }
{
    match extreme {
        Extreme::Least => u64::from(!is_met),
        Extreme::Greatest => u64::from(is_met),
    }
}

/// Returns the first span if `is_first`, and the second span otherwise.
fn either<const N: usize>(is_first: bool, first: Simd<u64, N>, second: Simd<u64, N>) -> Simd<u64, N>
    ensures { result ≡ (if is_first then first.entry else second.entry) }
{
    if is_first { first } else { second }
}
