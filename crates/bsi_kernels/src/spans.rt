//! Boolean operations on a span, some words with a bit for each row, by the words of a bitmap for the same rows; and
//! tests whether a row of the span is in the bitmap, or is not.
//!
//! Each step passes over the span once. A caller takes a span through all the bitmaps that it needs, so these are read
//! side by side.

ghost use Rattle.std.specs.Prelude.{◌≡◌, ℕ, ◌+◌, ◌*◌, ◌<◌, ◌≤◌, ◌&&◌, ◌||◌, not, false, length, slice_index_or, IsTrue, IsFalse};
ghost use Rattle.bsi_bits.specs.BitList.{word_count};
ghost use Rattle.bsi_bits.specs.Packed.{bit_of};
ghost use Rattle.bsi_bits.specs.SetRows.{HasRow};

use bsi_bits::{Bits, know_fits, lanes};

/// The most words of a span that is gone over with several bitmaps. They take 8 KiB, so they stay in the first cache
/// between one bitmap and the next.
pub const MAX_SPAN_WORDS: usize = 1024;

/// Keeps in the span the rows that the bitmap has.
pub fn and_assign(bitmap: &Bits, at: usize, span: &mut [u64])
    requires { at + length span.old ≤ word_count (length bitmap.now.bits) }
    ensures len { length span.new ≡ length span.old }
    ensures bits { (p : ℕ) → p < 64 * length span.old →
        bit_of span.new p ≡ (bit_of span.old p
        && slice_index_or bitmap.now.bits (64 * at + p) false) }
{
    let words = bitmap.words();
    lanes::and(span, &words[at..at + span.len()]);
}

/// Writes in the span the rows that the bitmap has.
pub fn assign(bitmap: &Bits, at: usize, span: &mut [u64])
    requires { at + length span.old ≤ word_count (length bitmap.now.bits) }
    ensures len { length span.new ≡ length span.old }
    ensures bits { (p : ℕ) → p < 64 * length span.old →
        bit_of span.new p ≡ slice_index_or bitmap.now.bits (64 * at + p) false }
{
    let words = bitmap.words();
    span.copy_from_slice(&words[at..at + span.len()]);
}

/// Clears in the span the rows that the bitmap has.
pub fn and_not_assign(bitmap: &Bits, at: usize, span: &mut [u64])
    requires { at + length span.old ≤ word_count (length bitmap.now.bits) }
    ensures len { length span.new ≡ length span.old }
    ensures bits { (p : ℕ) → p < 64 * length span.old →
        bit_of span.new p ≡ (bit_of span.old p
        && not (slice_index_or bitmap.now.bits (64 * at + p) false)) }
{
    let words = bitmap.words();
    know_fits(words);
    lanes::and_not(span, &words[at..at + span.len()]);
}

/// Sets in the span the rows that the bitmap has.
pub fn or_assign(bitmap: &Bits, at: usize, span: &mut [u64])
    requires { at + length span.old ≤ word_count (length bitmap.now.bits) }
    ensures len { length span.new ≡ length span.old }
    ensures bits { (p : ℕ) → p < 64 * length span.old →
        bit_of span.new p ≡ (bit_of span.old p
        || slice_index_or bitmap.now.bits (64 * at + p) false) }
{
    let words = bitmap.words();
    lanes::or(span, &words[at..at + span.len()]);
}

/// Keeps in the span the rows that `mask` has, and then sets those that `added` has, in one pass.
pub fn and_or_assign(mask: &Bits, added: &Bits, at: usize, span: &mut [u64])
    requires mask { at + length span.old ≤ word_count (length mask.now.bits) }
    requires added { at + length span.old ≤ word_count (length added.now.bits) }
    ensures len { length span.new ≡ length span.old }
    ensures bits { (p : ℕ) → p < 64 * length span.old → bit_of span.new p
        ≡ (bit_of span.old p && slice_index_or mask.now.bits (64 * at + p) false
        || slice_index_or added.now.bits (64 * at + p) false) }
{
    let (first, second) = (mask.words(), added.words());
    let end = at + span.len();
    lanes::and_or(span, &first[at..end], &second[at..end]);
}

/// Keeps in the span the rows that `mask` has and `dropped` does not have, in one pass.
pub fn and_and_not_assign(mask: &Bits, dropped: &Bits, at: usize, span: &mut [u64])
    requires mask { at + length span.old ≤ word_count (length mask.now.bits) }
    requires dropped { at + length span.old ≤ word_count (length dropped.now.bits) }
    ensures len { length span.new ≡ length span.old }
    ensures bits { (p : ℕ) → p < 64 * length span.old → bit_of span.new p
        ≡ (bit_of span.old p && slice_index_or mask.now.bits (64 * at + p) false
        && not (slice_index_or dropped.now.bits (64 * at + p) false)) }
{
    let (first, second) = (mask.words(), dropped.words());
    know_fits(second);
    let end = at + span.len();
    lanes::and_and_not(span, &first[at..end], &second[at..end]);
}

/// Inverts the bit of each row of the span.
pub fn flip(span: &mut [u64])
    ensures len { length span.new ≡ length span.old }
    ensures bits { (p : ℕ) → p < 64 * length span.old →
        bit_of span.new p ≡ not (bit_of span.old p) }
{
    know_fits(span);
    lanes::not(span);
}

/// Sets in the span the rows that the bitmap does not have.
pub fn or_not_assign(bitmap: &Bits, at: usize, span: &mut [u64])
    requires { at + length span.old ≤ word_count (length bitmap.now.bits) }
    ensures len { length span.new ≡ length span.old }
    ensures bits { (p : ℕ) → p < 64 * length span.old →
        bit_of span.new p ≡ (bit_of span.old p
        || not (slice_index_or bitmap.now.bits (64 * at + p) false)) }
{
    let words = bitmap.words();
    know_fits(words);
    lanes::or_not(span, &words[at..at + span.len()]);
}

/// Returns whether the span has a row that the bitmap has.
pub fn intersects(bitmap: &Bits, at: usize, span: &[u64]) -> bool
    requires { at + length span.now ≤ word_count (length bitmap.now.bits) }
    ensures some { IsTrue result →
        HasRow (λ p. bit_of span.now p
        && slice_index_or bitmap.now.bits (64 * at + p) false) (64 * length span.now) }
    ensures none { IsFalse result → (p : ℕ) → p < 64 * length span.now →
        (bit_of span.now p && slice_index_or bitmap.now.bits (64 * at + p) false) ≡ false }
{
    let words = bitmap.words();
    let others = &words[at..at + span.len()];
    know_fits(span);
    let mut seen = 0;
    'words: for (i, word) in span.iter().enumerate() {
        seen |= *word & others[i];
    }
    seen != 0
}

/// Returns whether the span has a row that the bitmap does not have.
pub fn has_bit_outside(bitmap: &Bits, at: usize, span: &[u64]) -> bool
    requires { at + length span.now ≤ word_count (length bitmap.now.bits) }
    ensures some { IsTrue result →
        HasRow (λ p. bit_of span.now p
        && not (slice_index_or bitmap.now.bits (64 * at + p) false)) (64 * length span.now) }
    ensures none { IsFalse result → (p : ℕ) → p < 64 * length span.now →
        (bit_of span.now p && not (slice_index_or bitmap.now.bits (64 * at + p) false)) ≡ false }
{
    let words = bitmap.words();
    let others = &words[at..at + span.len()];
    know_fits(span);
    know_fits(words);
    let mut seen = 0;
    'words: for (i, word) in span.iter().enumerate() {
        seen |= *word & !others[i];
    }
    seen != 0
}
