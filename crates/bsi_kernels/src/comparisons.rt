//! Comparisons of the numbers of rows with a constant, by binary places from the least significant up.
//!
//! There is one state, which stays in registers over all places of 16 words: whether the places so far are at most those
//! of the constant. Each place is read once.

ghost use Rattle.std.specs.Prelude.{◌≡◌, ℕ, List, ◌+◌, ◌-◌, ◌*◌, ◌/◌, ◌^◌, ◌<◌, ◌≤◌, if◌then◌else◌, length, map, slice_index, bit_and, bit_or};
ghost use Rattle.std.specs.Int.{bit_not, w64};
ghost use Rattle.std.specs.Simd.Lanes.{zip2};
ghost use Rattle.bsi_bits.specs.BitList.{max_words, word_count};
ghost use Rattle.bsi_bits.specs.BitLists.{bits_at};
ghost use Rattle.bsi_bits.specs.Packed.{bit_of};
ghost use Rattle.bsi_kernels.specs.Places.{at_most_step, has_place, max_places, IsEncoded};
ghost use Rattle.bsi_kernels.specs.Spans.{max_lanes, IsWrittenWithin};

use crate::registers::{REGISTER_WORDS, span_at};
use bsi_bits::{Bits, MAX_LEN};
use std::simd::Simd;

/// Sets in a span of words the rows whose number is below `constant`, and clears those whose number is above. The words
/// stand for the rows from `64 * at` on. `places` has a vector for each binary place of the numbers, the least first. It
/// goes over the span once.
pub fn order_by_places(places: &[Bits], constant: u64, at: usize, span: &mut [u64])
    requires few { length places.now ≤ max_places }
    requires below { constant < 2 ^ length places.now }
    requires within { (k : ℕ) → k < length places.now →
        at + length span.old ≤ word_count (length (bits_at places.now k)) }
    ensures len { length span.new ≡ length span.old }
    ensures bits { (numbers : List ℕ) → IsEncoded has_place places.now numbers →
        ((k : ℕ) → slice_index numbers k < 2 ^ length places.now) →
        (p : ℕ) → p < 64 * length span.old → 64 * at + p < length numbers →
        bit_of span.new p ≡ at_most_step (bit_of span.old p)
        (slice_index numbers (64 * at + p)) constant }
{
    let Some(lowest) = places.first() else {
        return;
    };
    // The proof takes from this that there are at most 2^32 rows, so at most 2^26 words.
    prove!(lowest.len() <= MAX_LEN);
    let whole = span.len() / REGISTER_WORDS * REGISTER_WORDS;
    order_spans::<REGISTER_WORDS>(places, constant, at, 0, span);
    order_spans::<1>(places, constant, at, whole, span);
}

/// Does so with the words from word `from` on, of which the first stands for the rows from `64 * (start + from)` on, as
/// far as whole spans of `N` words go.
fn order_spans<const N: usize>(
    places: &[Bits],
    constant: u64,
    start: usize,
    from: usize,
    words: &mut [u64],
)
    requires lanes { (1 ≤ N) × (N ≤ max_lanes) }
    requires few { length places.now ≤ max_places }
    requires below { constant < 2 ^ length places.now }
    requires begins { from ≤ length words.old }
    requires small { start + length words.old ≤ max_words }
    requires within { (k : ℕ) → k < length places.now →
        start + length words.old ≤ word_count (length (bits_at places.now k)) }
    ensures len { length words.new ≡ length words.old }
    ensures bits { (numbers : List ℕ) → IsEncoded has_place places.now numbers →
        ((k : ℕ) → slice_index numbers k < 2 ^ length places.now) →
        IsWrittenWithin (λ r. at_most_step (bit_of words.old r)
        (slice_index numbers (64 * start + r)) constant)
        from (from + N * ((length words.old - from) / N)) words.old words.new }
{
    'spans: for k in 0..(words.len() - from) / N {
        let at = from + N * k;
        let rows = Simd::<u64, N>::from_slice(&words[at..]);
        order_span(places, constant, start + at, rows).copy_to_slice(&mut words[at..]);
    }
}

/// Does so with the rows of a span.
fn order_span<const N: usize>(
    places: &[Bits],
    constant: u64,
    at: usize,
    rows: Simd<u64, N>,
) -> Simd<u64, N>
    requires lanes { (1 ≤ N) × (N ≤ max_lanes) }
    requires few { length places.now ≤ max_places }
    requires below { constant < 2 ^ length places.now }
    requires within { (k : ℕ) → k < length places.now →
        at + N ≤ word_count (length (bits_at places.now k)) }
    ensures long { length result ≡ N }
    ensures bits { (numbers : List ℕ) → IsEncoded has_place places.now numbers →
        ((k : ℕ) → slice_index numbers k < 2 ^ length places.now) →
        (p : ℕ) → p < 64 * N → bit_of result p ≡ at_most_step (bit_of rows.entry p)
        (slice_index numbers (64 * at + p)) constant }
{
    let mut low = rows;
    'places: for (i, place) in places.iter().enumerate() {
        let digits = span_at::<N>(place, at);
        low = with_place(low, digits, constant >> i & 1 == 1);
    }
    low
}

/// Returns which rows are at most the constant once one more binary place is compared: `digits` has that place of these
/// rows, and `is_one` tells whether it is 1 in the constant.
fn with_place<const N: usize>(low: Simd<u64, N>, digits: Simd<u64, N>, is_one: bool) -> Simd<u64, N>
    ensures { result ≡ (if is_one then zip2 bit_or low.entry (map (bit_not w64) digits.entry) else
        zip2 bit_and low.entry (map (bit_not w64) digits.entry)) }
{
    if is_one { low | !digits } else { low & !digits }
}
