//! Loads words of a bitmap into SIMD registers, for kernels that read several bitmaps side by side.

ghost use Rattle.std.specs.Prelude.{◌≡◌, ℕ, ◌+◌, ◌*◌, ◌<◌, ◌≤◌, if◌then◌else◌, length, map, slice_index, slice_index_or, false, bit_and};
ghost use Rattle.std.specs.Int.{bit_not, w64};
ghost use Rattle.std.specs.Simd.Lanes.{zip2};
ghost use Rattle.bsi_bits.specs.BitList.{max_words, word_count};
ghost use Rattle.bsi_bits.specs.Packed.{bit_of, end_of_u64};

use bsi_bits::{Bits, MAX_LEN, know_fits};
use std::simd::Simd;

/// The number of words that go through all vectors at once. They fill eight registers of two words.
pub const REGISTER_WORDS: usize = 16;

/// Returns the words of a vector, at most 2^26 of them.
pub fn words_of(bits: &Bits) -> &[u64]
    ensures few { length result.now ≡ word_count (length bits.now.bits) }
    ensures small { length result.now ≤ max_words }
    ensures places { (i : ℕ) → bit_of result.now i ≡ slice_index_or bits.now.bits i false }
    ensures fits { (k : ℕ) → slice_index result.now k < end_of_u64 }
{
    // The proof takes from this that there are at most 2^32 bits, so at most 2^26 words.
    prove!(bits.len() <= MAX_LEN);
    let words = bits.words();
    know_fits(words);
    words
}

/// Returns some words of a vector, from word `at` on.
pub fn span_at<const N: usize>(bits: &Bits, at: usize) -> Simd<u64, N>
    requires { at + N ≤ word_count (length bits.now.bits) }
    ensures long { length result ≡ N }
    ensures fits { (k : ℕ) → slice_index result k < end_of_u64 }
    ensures places { (p : ℕ) → p < 64 * N →
        bit_of result p ≡ slice_index_or bits.now.bits (64 * at + p) false }
{
    Simd::<u64, N>::from_slice(&words_of(bits)[at..])
}

/// Returns the bits of `first` that are set in `other` or, if negated, those that are not.
pub fn and_maybe_not<const N: usize>(
    first: Simd<u64, N>,
    other: Simd<u64, N>,
    negated: bool,
) -> Simd<u64, N>
    ensures { result ≡ (if negated then zip2 bit_and first.entry (map (bit_not w64) other.entry) else
        zip2 bit_and first.entry other.entry) }
{
    if negated {
        first & !other
    } else {
        first & other
    }
}
