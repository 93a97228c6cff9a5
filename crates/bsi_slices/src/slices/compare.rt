//! Comparisons of the numbers in slices with a constant, span by span and from the least significant slice up.
//!
//! There is one state. It starts at 0; where the constant has a 1 it is narrowed to the slice, where it has a 0 the
//! slice is added. After the last slice it says whether the number is above the constant. The published algorithm
//! (O'Neil and Quass 1997) goes from the most significant slice down with two or three states, and needs one more
//! operation a slice; this form is this project's own. A span is 16 words, so the state fits eight registers of two
//! words over all slices, and each slice is read once.
//!
//! These are functions over the two fields of a column, so that their clauses and proofs speak of these and not of a
//! column.

ghost use Rattle.std.specs.Prelude.{◌≡◌, ℕ, ◌+◌, ◌*◌, ◌-◌, ◌/◌, ◌<◌, ◌≤◌, ◌^◌, ◌==◌, ◌&&◌, if◌then◌else◌, length, map, nat_lt, slice_index, slice_index_or, false, IfOk, bit_and, bit_or};
ghost use Rattle.std.specs.Int.{bit_not, w64};
ghost use Rattle.std.specs.Simd.Lanes.{zip2};
ghost use Rattle.bsi_kernels.specs.Places.{max_places};
ghost use Rattle.bsi_bits.specs.BitList.{max_words, word_count};
ghost use Rattle.bsi_bits.specs.BitLists.{bits_at};
ghost use Rattle.bsi_bits.specs.Packed.{bit_of, end_of_u64};
ghost use Rattle.bsi_slices.specs.Spans.{max_lanes, IsIntersected, AndsRows};
ghost use Rattle.bsi_slices.specs.Decisions.{passes};
ghost use Rattle.bsi_digits.specs.Comparisons.{selects};
ghost use Rattle.bsi_slices.specs.Slices.{entries_in, number, IsSliced};

use crate::decision::{Decision, Relation, Test, decide};
use crate::not_null::NotNull;
use crate::{NoMemory, Op};
use bsi_bits::Bits;
use bsi_kernels::registers::{REGISTER_WORDS, and_maybe_not, span_at, words_of};
use std::alloc::Global;
use std::simd::Simd;

/// Returns for each row whether it is a number that satisfies the comparison `op` with `constant`. It reads no slice if
/// the answer is already known.
pub fn select(
    alloc: Global,
    slices: &[Bits],
    not_null: &Bits,
    op: Op,
    constant: u64,
) -> Result<Bits, NoMemory>
    requires { IsSliced not_null.now.bits slices.now }
    ensures { IfOk result (λ b. b.bits
        ≡ map (selects op constant) (entries_in not_null.now.bits slices.now)) }
{
    match decide(op, constant, 1 << slices.len()) {
        Decision::Nothing => Bits::filled(alloc, not_null.len(), false),
        Decision::Everything => not_null.copy(),
        Decision::Tested(test) => {
            let mut words = not_null.copy()?.into_words();
            and_test(slices, test, 0, &mut words);
            Ok(Bits::from_words(words, not_null.len()))
        }
    }
}

/// Keeps in a span of words the rows whose number satisfies the comparison `op` with `constant`. The first word stands
/// for the 64 rows from row `64 * at` on. It reads no slice if the answer is already known.
pub fn and_compare(
    slices: &[Bits],
    not_null: &NotNull,
    op: Op,
    constant: u64,
    at: usize,
    span: &mut [u64],
)
    requires sliced { IsSliced not_null.now.bits slices.now }
    requires within { at + length span.old ≤ word_count (length not_null.now.bits) }
    ensures { AndsRows (selects op constant) (entries_in not_null.now.bits slices.now) at span.old
        span.new }
{
    match decide(op, constant, 1 << slices.len()) {
        Decision::Nothing => span.fill(0),
        Decision::Everything => not_null.and_assign(at, span),
        Decision::Tested(test) => {
            not_null.and_assign(at, span);
            and_test(slices, test, at, span);
        }
    }
}

/// Keeps in `words` the rows whose numbers pass the test. The first word stands for the 64 rows from row `64 * start`
/// on. It works on whole spans first, and on single words after them.
fn and_test(slices: &[Bits], test: Test, start: usize, words: &mut [u64])
    requires few { length slices.now ≤ max_places }
    requires below { test.constant < 2 ^ length slices.now }
    requires small { start + length words.old ≤ max_words }
    requires long { (i : ℕ) → i < length slices.now →
        start + length words.old ≤ word_count (length (bits_at slices.now i)) }
    ensures { IsIntersected (λ r. passes test (number slices.now (64 * start + r))) 0 (length words.old)
        words.old words.new }
{
    let whole = words.len() / REGISTER_WORDS * REGISTER_WORDS;
    and_test_spans::<REGISTER_WORDS>(slices, test, start, 0, words);
    and_test_spans::<1>(slices, test, start, whole, words);
}

/// Keeps the rows whose numbers pass the test in the words from word `from` on, as far as whole spans of `N` words go.
fn and_test_spans<const N: usize>(
    slices: &[Bits],
    test: Test,
    start: usize,
    from: usize,
    words: &mut [u64],
)
    requires spans { (1 ≤ N) × (N ≤ max_lanes) }
    requires few { length slices.now ≤ max_places }
    requires below { test.constant < 2 ^ length slices.now }
    requires within { from ≤ length words.old }
    requires small { start + length words.old ≤ max_words }
    requires long { (i : ℕ) → i < length slices.now →
        start + length words.old ≤ word_count (length (bits_at slices.now i)) }
    ensures { IsIntersected (λ r. passes test (number slices.now (64 * start + r))) from
        (from + N * ((length words.old - from) / N)) words.old words.new }
{
    let spans = (words.len() - from) / N;
    'span: for k in 0..spans {
        let at = from + N * k;
        let span = Simd::<u64, N>::from_slice(&words[at..]);
        tested_span(slices, test, start + at, span).copy_to_slice(&mut words[at..]);
    }
}

/// Keeps in a span the rows whose numbers pass the test. The rows at most the constant are those not above it.
fn tested_span<const N: usize>(
    slices: &[Bits],
    test: Test,
    at: usize,
    span: Simd<u64, N>,
) -> Simd<u64, N>
    requires spans { (1 ≤ N) × (N ≤ max_lanes) }
    requires few { length slices.now ≤ max_places }
    requires below { test.constant < 2 ^ length slices.now }
    requires long { (i : ℕ) → i < length slices.now →
        at + N ≤ word_count (length (bits_at slices.now i)) }
    ensures long { length result ≡ N }
    ensures bits { (p : ℕ) → p < 64 * N → bit_of result p
        ≡ (bit_of span.entry p && passes test (number slices.now (64 * at + p))) }
{
    match test.relation {
        Relation::Equal => and_maybe_not(
            span,
            equal_span(slices, test.constant, at),
            !test.expected,
        ),
        Relation::AtMost => and_maybe_not(
            span,
            above_span(slices, test.constant, at),
            test.expected,
        ),
    }
}

/// Returns for the rows of a span whether their numbers are above the constant. It goes through the binary places from
/// the least significant up. At a place that is 1 in the constant, a row stays above only if its slice is 1 too. At a
/// place that is 0 in the constant, each row whose slice is 1 is above.
fn above_span<const N: usize>(slices: &[Bits], constant: u64, at: usize) -> Simd<u64, N>
    requires spans { (1 ≤ N) × (N ≤ max_lanes) }
    requires few { length slices.now ≤ max_places }
    requires below { constant < 2 ^ length slices.now }
    requires long { (i : ℕ) → i < length slices.now →
        at + N ≤ word_count (length (bits_at slices.now i)) }
    ensures long { length result ≡ N }
    ensures fits { (k : ℕ) → slice_index result k < end_of_u64 }
    ensures bits { (p : ℕ) → p < 64 * N →
        bit_of result p ≡ nat_lt constant (number slices.now (64 * at + p)) }
{
    let mut above = Simd::<u64, N>::splat(0);
    'slices: for (place, slice) in slices.iter().enumerate() {
        let words = words_of(slice);
        let digits = Simd::<u64, N>::from_slice(&words[at..]);
        above = step_above(above, digits, constant >> place & 1 == 1);
    }
    above
}

/// Returns for the rows of a span whether their numbers equal the constant.
fn equal_span<const N: usize>(slices: &[Bits], constant: u64, at: usize) -> Simd<u64, N>
    requires spans { (1 ≤ N) × (N ≤ max_lanes) }
    requires few { length slices.now ≤ max_places }
    requires below { constant < 2 ^ length slices.now }
    requires long { (i : ℕ) → i < length slices.now →
        at + N ≤ word_count (length (bits_at slices.now i)) }
    ensures long { length result ≡ N }
    ensures fits { (k : ℕ) → slice_index result k < end_of_u64 }
    ensures bits { (p : ℕ) → p < 64 * N →
        bit_of result p ≡ (constant == number slices.now (64 * at + p)) }
{
    let mut equal = Simd::<u64, N>::splat(u64::MAX);
    'slices: for (place, slice) in slices.iter().enumerate() {
        let words = words_of(slice);
        let digits = Simd::<u64, N>::from_slice(&words[at..]);
        equal = and_maybe_not(equal, digits, constant >> place & 1 == 0);
    }
    equal
}

/// Returns which rows are above the constant once one more binary place is compared: `digits` is the slice of that
/// place at these rows, and `is_one` tells whether the place is 1 in the constant.
fn step_above<const N: usize>(
    above: Simd<u64, N>,
    digits: Simd<u64, N>,
    is_one: bool,
) -> Simd<u64, N>
    ensures { result ≡ (if is_one then zip2 bit_and above.entry digits.entry else zip2 bit_or
        above.entry digits.entry) }
{
    if is_one {
        above & digits
    } else {
        above | digits
    }
}
