//! The sum of the numbers at the rows of a selection, by counts in the bit vectors of their binary places.
//!
//! It goes by spans of the selection, so that its words come from memory once for all the vectors that are counted
//! within it. A cache line without a selected row is passed over in all of them. The first span is one line, and each
//! is twice as long as the one before it, as long as no line is passed over.

ghost use Rattle.std.specs.Prelude.{◌≡◌, ℕ, List, ◌+◌, ◌^◌, ◌<◌, ◌≤◌, IsTrue, length, slice_index, sum};
ghost use Rattle.std.specs.List.{items_where_true};
ghost use Rattle.bsi_bits.specs.BitList.{in_words, max_len, max_words, sum_end, word_count};
ghost use Rattle.bsi_bits.specs.BitLists.{bits_at};
ghost use Rattle.bsi_kernels.specs.Places.{has_place, max_places, IsEncoded};

use crate::spans::MAX_SPAN_WORDS;
use bsi_bits::lanes::{LINE_WORDS, is_clear};
use bsi_bits::{Bits, MAX_LEN};

/// Returns the sum of the numbers at the rows of a selection. `places` has a vector for each of their binary places,
/// the least first.
pub fn sum_by_places(places: &[Bits], selection: &Bits) -> u128
    requires few { length places.now ≤ max_places }
    requires same { (k : ℕ) → k < length places.now →
        length (bits_at places.now k) ≡ length selection.now.bits }
    ensures { (numbers : List ℕ) → IsEncoded has_place places.now numbers →
        ((k : ℕ) → slice_index numbers k < 2 ^ length places.now) →
        length numbers ≡ length selection.now.bits →
        result ≡ sum (items_where_true selection.now.bits numbers) }
{
    // The proof takes from this that there are at most 2^32 rows.
    prove!(selection.len() <= MAX_LEN);
    let words = selection.words();
    let mut sum = 0;
    let (mut at, mut most) = (0, LINE_WORDS);
    'spans: while at < words.len() {
        let span = span_from(words, at, most);
        sum += sum_in(places, selection, span.start, span.end);
        at = span.end;
        most = next_most(span);
    }
    sum
}

/// Words of a selection: where they begin, and where they end.
#[derive(Clone, Copy)]
struct Span {
    start: usize,
    end: usize,
}

/// Returns the span that begins with the first line from word `at` on that has a row. It has up to `most` words if that
/// is the line at `at`, or else a line. It is empty if no line has a row.
fn span_from(words: &[u64], at: usize, most: usize) -> Span
    requires at { at ≤ length words.now }
    requires most { (1 ≤ most) × (most ≤ MAX_SPAN_WORDS) }
    requires few { length words.now ≤ max_words }
    ensures forward { (at ≤ result.start) × (result.start ≤ result.end) }
    ensures within { result.end ≤ length words.now }
    ensures more { at < length words.now → at < result.end }
    ensures clear { (k : ℕ) → at ≤ k → k < result.start → slice_index words.now k ≡ 0 }
{
    let mut start = at;
    'lines: while start < words.len() && is_line_clear(words, start) {
        start = words.len().min(start + LINE_WORDS);
    }
    let long = if start == at { most } else { LINE_WORDS };
    Span {
        start,
        end: words.len().min(start + long),
    }
}

/// Returns the most words of the span after this one, if it begins at once.
fn next_most(span: Span) -> usize
    requires { (span.start ≤ span.end) × (span.end ≤ max_words) }
    ensures { (1 ≤ result) × (result ≤ MAX_SPAN_WORDS) }
{
    let twice = 2 * (span.end - span.start);
    twice.max(LINE_WORDS).min(MAX_SPAN_WORDS)
}

/// Returns whether the line of words from `at` on has no row.
fn is_line_clear(words: &[u64], at: usize) -> bool
    requires within { at ≤ length words.now }
    requires few { length words.now ≤ max_words }
    ensures { IsTrue result →
        (k : ℕ) → at ≤ k → k < at + LINE_WORDS → slice_index words.now k ≡ 0 }
{
    is_clear(&words[at..words.len().min(at + LINE_WORDS)])
}

/// Returns the sum of the numbers at the selected rows in the words from `start` on and before `end`: for each binary
/// place, the number of these rows that have it set, times two to the power of the place (O'Neil and Quass 1997).
fn sum_in(places: &[Bits], selection: &Bits, start: usize, end: usize) -> u128
    requires few { length places.now ≤ max_places }
    requires few_rows { length selection.now.bits ≤ max_len }
    requires same { (k : ℕ) → k < length places.now →
        length (bits_at places.now k) ≡ length selection.now.bits }
    requires forward { start ≤ end }
    requires within { end ≤ word_count (length selection.now.bits) }
    ensures sum { (numbers : List ℕ) → IsEncoded has_place places.now numbers →
        ((k : ℕ) → slice_index numbers k < 2 ^ length places.now) →
        result ≡ sum (items_where_true
        (in_words start end selection.now.bits) (in_words start end numbers)) }
    ensures few { result ≤ sum_end }
{
    let mut sum = 0u128;
    'places: for (k, place) in places.iter().enumerate() {
        sum += u128::from(selection.count_and_in(place, start, end)) << k;
    }
    sum
}
