//! Turns up to 64 digits into words: bit `k` of word `j` says whether digit `k` is `j` (`one_hot_digits`) or below `j`
//! (`mark_below`). Behind those words are words of the digits' binary places.
//!
//! Digits below a base from 4 to 64 are turned into the words of their binary places first, which are scattered over
//! those of the digits. Under another base each digit is marked. Bases 2 and 3 store no places. From base 65 on the
//! words of the places are made of those of the digits: the union of their upper half is the word of the greatest
//! place, and their lower half, each word united with one of the upper half, marks the digits but for that place.

ghost use Rattle.std.specs.Prelude.{◌≡◌, ℕ, List, [], ◌∷◌, ◌+◌, ◌-◌, ◌*◌, ◌^◌, ◌<◌, ◌≤◌, ◌==◌, bit_or, length, slice_index};
ghost use Rattle.std.specs.Int.{bit_at};
ghost use Rattle.bsi_bits.specs.BitList.{max_block};
ghost use Rattle.bsi_kernels.specs.Places.{max_digit_places, then_places, IsCount};
ghost use Rattle.bsi_kernels.specs.Marks.{decoded, union_of, AreDigitMarks};

use bsi_bits::{MAX_BLOCK, know_fits};
use bsi_digits::MAX_BASE;
use std::simd::prelude::*;

/// The most binary places of digits whose words are scattered: those of the digits below 64.
const SCATTER_PLACES: usize = 6;

/// The most words of a block whose digits are scattered, those of a base of 64: one for each digit and one for each
/// binary place. An array of so few is cleared sooner.
pub const MAX_SCATTER_WORDS: usize = 64 + SCATTER_PLACES;

/// The most words of a block, those of the greatest base: one for each digit and one for each of its ten binary places.
pub const MAX_MARK_WORDS: usize = MAX_BASE as usize + 10;

/// The most binary places of digits that are folded in a short array, which is cleared sooner.
const SHORT_PLACES: usize = 7;

/// Sets in word `j`, of words that are 0, the bit of each digit that is `j`. For each digit it looks at one word.
fn mark(block: &[u32], words: &mut [u64])
    requires few { length block.now ≤ max_block }
    requires clear { (j : ℕ) → slice_index words.old j ≡ 0 }
    requires below { (k : ℕ) → k < length block.now → slice_index block.now k < length words.old }
    ensures long { length words.new ≡ length words.old }
    ensures marks { AreDigitMarks (λ j v. v == j) block.now words.new }
{
    'digits: for (k, digit) in block.iter().enumerate() {
        words[*digit as usize] |= 1 << k;
    }
}

/// Unites each of the first `half` words with the one `half` places behind it. Returns the union of the latter words.
fn fold(words: &mut [u64], half: usize) -> u64
    requires { 2 * half ≤ length words.old }
    ensures long { length words.new ≡ length words.old }
    ensures folded { (j : ℕ) → j < half →
        slice_index words.new j
        ≡ bit_or (slice_index words.old j) (slice_index words.old (half + j)) }
    ensures upper { result ≡ union_of words.old half half }
{
    let mut upper = 0;
    'words: for j in 0..half {
        let word = words[half + j];
        upper |= word;
        words[j] |= word;
    }
    upper
}

/// Writes behind the first `base` words, which mark digits below the base, those of their binary places. `folded` is
/// scratch: it has at least two to the power of the number of places, all 0 before.
fn mark_places(words: &mut [u64], base: usize, folded: &mut [u64])
    requires within { base ≤ length words.old }
    requires enough { base ≤ 2 ^ (length words.old - base) }
    requires few { length words.old ≤ base + max_digit_places }
    requires ample { 2 ^ (length words.old - base) ≤ length folded.old }
    requires clear { (j : ℕ) → slice_index folded.old j ≡ 0 }
    ensures long { length words.new ≡ length words.old }
    ensures marks { (block : List ℕ) → length block ≤ max_block →
        ((k : ℕ) → k < length block → slice_index block k < base) →
        AreDigitMarks (λ j v. v == j) block words.old →
        AreDigitMarks (then_places base (λ j v. v == j)) block words.new }
{
    folded[..base].copy_from_slice(&words[..base]);
    'places: for place in (0..words.len() - base).rev() {
        words[base + place] = fold(folded, 1 << place);
    }
}

/// Writes the words of a block of digits below a base, as `one_hot_digits` does, by marking each digit.
fn mark_each(block: &[u32], base: usize, words: &mut [u64])
    requires few { length block.now ≤ max_block }
    requires clear { (j : ℕ) → slice_index words.old j ≡ 0 }
    requires count { IsCount base base (length words.old) }
    requires below { (k : ℕ) → k < length block.now → slice_index block.now k < base }
    ensures long { length words.new ≡ length words.old }
    ensures marks { AreDigitMarks (then_places base (λ j v. v == j)) block.now words.new }
{
    mark(block, words);
    let places = words.len() - base;
    if places > SHORT_PLACES {
        let mut folded = [0; MAX_BASE as usize];
        mark_places(words, base, &mut folded);
    } else if places > 0 {
        let mut folded = [0; 1 << SHORT_PLACES];
        mark_places(words, base, &mut folded);
    }
}

/// Returns the words of the six binary places of 64 digits, the least place first.
fn place_words(block: &[u32]) -> [u64; SCATTER_PLACES]
    requires whole { length block.now ≡ max_block }
    requires below { (k : ℕ) → k < length block.now → slice_index block.now k < 2 ^ SCATTER_PLACES }
    ensures { (p k : ℕ) → p < SCATTER_PLACES → k < max_block →
        bit_at (slice_index result p) k ≡ bit_at (slice_index block.now k) p }
{
    let digits = u32x64::from_slice(block).cast::<u8>();
    let mut words = [0; SCATTER_PLACES];
    'places: for p in 0..SCATTER_PLACES {
        let place = u8x64::splat(1 << p);
        words[p] = (digits & place).simd_eq(place).to_bitmask();
    }
    words
}

/// Returns the word of a binary place for 1, and that of the digits without it for 0.
fn place_or_rest(place: u64, bit: usize) -> u64
    requires { bit < 2 }
    ensures { (k : ℕ) → k < max_block → (bit_at result k == 1) ≡ (bit_at place k == bit) }
{
    if bit == 1 { place } else { !place }
}

/// Returns for each number below 8 the word of the digits that have this number in three binary places.
fn decode_places(first: u64, second: u64, third: u64) -> [u64; 8]
    ensures { (j k : ℕ) → j < 8 → k < max_block → (bit_at (slice_index result j) k == 1)
        ≡ (decoded (first ∷ second ∷ third ∷ []) k == j) }
{
    let mut words = [0; 8];
    'words: for j in 0..8 {
        words[j] = place_or_rest(first, j % 2)
            & place_or_rest(second, j / 2 % 2)
            & place_or_rest(third, j / 4);
    }
    words
}

/// Writes in each word, by those of six binary places, the bits of the digits that are its number.
fn scatter_places(places: &[u64; SCATTER_PLACES], words: &mut [u64])
    requires few { length words.old ≤ 2 ^ SCATTER_PLACES }
    ensures long { length words.new ≡ length words.old }
    ensures decoded { (j k : ℕ) → j < length words.new → k < max_block →
        (bit_at (slice_index words.new j) k == 1) ≡ (decoded places.now k == j) }
{
    let low = decode_places(places[0], places[1], places[2]);
    let high = decode_places(places[3], places[4], places[5]);
    let whole = words.len() / 8;
    let eight = u64x8::from_array(low);
    'eights: for h in 0..whole {
        (eight & u64x8::splat(high[h])).copy_to_slice(&mut words[8 * h..]);
    }
    'rest: for j in 8 * whole..words.len() {
        words[j] = low[j % 8] & high[j / 8];
    }
}

/// Writes the words of 64 digits below a base that has at most six binary places: one for each digit below it, and then
/// one for each place for which there is a word left.
// Without this the compiler calls it, since it has two callers, and a block takes about a tenth longer.
#[inline(always)]
fn scatter_digits(block: &[u32], base: usize, words: &mut [u64])
    requires whole { length block.now ≡ max_block }
    requires within { base ≤ length words.old }
    requires enough { base ≤ 2 ^ (length words.old - base) }
    requires few { length words.old ≤ base + SCATTER_PLACES }
    requires below { (k : ℕ) → k < length block.now → slice_index block.now k < base }
    ensures long { length words.new ≡ length words.old }
    ensures marks { AreDigitMarks (then_places base (λ j v. v == j)) block.now words.new }
{
    let places = place_words(block);
    scatter_places(&places, &mut words[..base]);
    let count = words.len() - base;
    words[base..].copy_from_slice(&places[..count]);
    know_fits(words);
}

/// Writes the words of fewer than 64 digits, as `scatter_digits` does. It takes 0 for each digit that is missing, and
/// clears its bit.
fn scatter_few(block: &[u32], base: usize, words: &mut [u64])
    requires some { 0 < length block.now }
    requires short { length block.now < max_block }
    requires within { base ≤ length words.old }
    requires enough { base ≤ 2 ^ (length words.old - base) }
    requires few { length words.old ≤ base + SCATTER_PLACES }
    requires below { (k : ℕ) → k < length block.now → slice_index block.now k < base }
    ensures long { length words.new ≡ length words.old }
    ensures marks { AreDigitMarks (then_places base (λ j v. v == j)) block.now words.new }
{
    let mut digits = [0; MAX_BLOCK];
    digits[..block.len()].copy_from_slice(block);
    scatter_digits(&digits, base, words);
    words[0] &= (1 << block.len()) - 1;
}

/// Writes the words of a block of digits below a base, which are 0 before: one for each digit below it, and then one for
/// each binary place for which there is a word left.
pub fn one_hot_digits(block: &[u32], base: usize, words: &mut [u64])
    requires few { length block.now ≤ max_block }
    requires clear { (j : ℕ) → slice_index words.old j ≡ 0 }
    requires count { IsCount base base (length words.old) }
    requires below { (k : ℕ) → k < length block.now → slice_index block.now k < base }
    ensures long { length words.new ≡ length words.old }
    ensures marks { AreDigitMarks (then_places base (λ j v. v == j)) block.now words.new }
{
    if block.is_empty() {
        return;
    }
    let places = words.len() - base;
    if places == 0 || places > SCATTER_PLACES {
        mark_each(block, base, words);
    } else if block.len() == MAX_BLOCK {
        scatter_digits(block, base, words);
    } else {
        scatter_few(block, base, words);
    }
}

/// Replaces each of the first `count` words by the union of the words before it. Where word `j` marks the digits `j`, it
/// then marks those below `j`.
pub fn mark_below(words: &mut [u64], count: usize)
    requires { count ≤ length words.old }
    ensures long { length words.new ≡ length words.old }
    ensures unions { (j : ℕ) → j < count → slice_index words.new j ≡ union_of words.old 0 j }
    ensures rest { (j : ℕ) → count ≤ j → slice_index words.new j ≡ slice_index words.old j }
{
    let mut union = 0;
    'words: for word in words[..count].iter_mut() {
        let own = *word;
        *word = union;
        union |= own;
    }
}
