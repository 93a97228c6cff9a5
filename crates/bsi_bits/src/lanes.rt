//! Kernels over lists of words: Boolean operations in place and population counts, four words at a time.
//!
//! The lists of one call have the same length. No kernel allocates memory, and each passes over its words once.
//!
//! A kernel takes its operation as a parameter, of a private trait that gives it on single words and on four side by
//! side. A count of one list reads its four quarters side by side: four read streams use more memory bandwidth than one.
//! A count of pairs takes blocks of 64, of which 32 go by carry-save adders (`adders`).
//! A count goes by parts whose ones 64 bits hold, since the type of a list allows more words; no memory has them, so
//! there is one part.

ghost use Rattle.std.specs.Prelude.{◌≡◌, ◌*◌, ◌^◌, ◌≤◌, ◌<◌, ◌↔◌, ℕ, IsTrue, slice_index, length, map, sum_by, bit_and, bit_or, bit_xor, count_ones};
ghost use Rattle.std.specs.Int.{bit_not, w64};
ghost use Rattle.std.specs.Simd.Lanes.{zip2};

use adders::{BLOCK, count_blocks};
use operations::{AndNotWords, AndWords, Operation, OrNotWords, OrWords, XorWords};
use std::simd::u64x4;

mod adders;
mod operations;

/// The number of words in a cache line.
pub const LINE_WORDS: usize = 8;

/// The number of words that a kernel takes at a time.
const LANES: usize = 4;

/// The most words whose ones are counted in 64 bits. No memory holds more, so a count has a single such part.
const MAX_COUNTED: usize = 1 << 57;

/// Writes the operation's word for each pair of words into `a`.
fn combine<O: Operation>(a: &mut [u64], b: &[u64])
    requires { length a.old ≡ length b.now }
    ensures { a.new ≡ zip2 O.word_of a.old b.now }
{
    let whole = a.len() / LANES;
    'fours: for k in 0..whole {
        let other = u64x4::from_slice(&b[LANES * k..]);
        let combined = O::words(u64x4::from_slice(&a[LANES * k..]), other);
        combined.copy_to_slice(&mut a[LANES * k..]);
    }
    'rest: for i in LANES * whole..a.len() {
        a[i] = O::word(a[i], b[i]);
    }
}

/// Writes into `a` the second operation's word for the first one's word and a word of `c`, in one pass.
fn combine_twice<O: Operation, P: Operation>(a: &mut [u64], b: &[u64], c: &[u64])
    requires first { length a.old ≡ length b.now }
    requires second { length a.old ≡ length c.now }
    ensures { a.new ≡ zip2 P.word_of (zip2 O.word_of a.old b.now) c.now }
{
    let whole = a.len() / LANES;
    'fours: for k in 0..whole {
        let (other, last) = (
            u64x4::from_slice(&b[LANES * k..]),
            u64x4::from_slice(&c[LANES * k..]),
        );
        let first = O::words(u64x4::from_slice(&a[LANES * k..]), other);
        let second = P::words(first, last);
        second.copy_to_slice(&mut a[LANES * k..]);
    }
    'rest: for i in LANES * whole..a.len() {
        a[i] = P::word(O::word(a[i], b[i]), c[i]);
    }
}

/// Returns the number of ones in four words.
fn ones_in(words: u64x4) -> u64
    ensures ones { result ≡ sum_by count_ones words }
    ensures few { result ≤ 64 * LANES }
{
    let [a, b, c, d] = words.to_array();
    (a.count_ones() + b.count_ones() + c.count_ones() + d.count_ones()) as u64
}

/// Counts the ones in the operation's words for each pair of words, four pairs at a time. There are few enough pairs that
/// 64 bits hold the count.
fn count_by_fours<O: Operation>(a: &[u64], b: &[u64]) -> u64
    requires same { length a.now ≡ length b.now }
    requires few { length a.now ≤ MAX_COUNTED }
    ensures ones { result ≡ sum_by count_ones (zip2 O.word_of a.now b.now) }
    ensures few { result ≤ 64 * length a.now }
{
    let whole = a.len() / LANES;
    let mut ones = 0u64;
    'fours: for k in 0..whole {
        let second = u64x4::from_slice(&b[LANES * k..]);
        let words = O::words(u64x4::from_slice(&a[LANES * k..]), second);
        ones += ones_in(words);
    }
    'rest: for i in LANES * whole..a.len() {
        ones += O::word(a[i], b[i]).count_ones() as u64;
    }
    ones
}

/// Counts the ones in the operation's words for each pair of words, block by block. There are few enough pairs that 64
/// bits hold the count.
fn count_few_combined<O: Operation>(a: &[u64], b: &[u64]) -> u64
    requires same { length a.now ≡ length b.now }
    requires few { length a.now ≤ MAX_COUNTED }
    ensures ones { result ≡ sum_by count_ones (zip2 O.word_of a.now b.now) }
    ensures few { result ≤ 64 * length a.now }
{
    if a.len() < BLOCK {
        return count_by_fours::<O>(a, b);
    }
    let blocks = a.len() / BLOCK;
    let whole = BLOCK * blocks;
    count_blocks::<O>(a, b, blocks) + count_by_fours::<O>(&a[whole..], &b[whole..])
}

/// Counts the ones in the operation's words for each pair of words.
fn count_combined<O: Operation>(a: &[u64], b: &[u64]) -> u128
    requires { length a.now ≡ length b.now }
    ensures ones { result ≡ sum_by count_ones (zip2 O.word_of a.now b.now) }
    ensures few { result ≤ 64 * length a.now }
{
    let mut ones = 0;
    let mut at = 0;
    'chunks: while at < a.len() {
        let end = at + MAX_COUNTED.min(a.len() - at);
        ones += count_few_combined::<O>(&a[at..end], &b[at..end]) as u128;
        at = end;
    }
    ones
}

/// Keeps in `a` the bits that are set in `b` too.
pub fn and(a: &mut [u64], b: &[u64])
    requires { length a.old ≡ length b.now }
    ensures { a.new ≡ zip2 bit_and a.old b.now }
{
    combine::<AndWords>(a, b)
}

/// Sets in `a` the bits that are set in `b`.
pub fn or(a: &mut [u64], b: &[u64])
    requires { length a.old ≡ length b.now }
    ensures { a.new ≡ zip2 bit_or a.old b.now }
{
    combine::<OrWords>(a, b)
}

/// Inverts in `a` the bits that are set in `b`.
pub fn xor(a: &mut [u64], b: &[u64])
    requires { length a.old ≡ length b.now }
    ensures { a.new ≡ zip2 bit_xor a.old b.now }
{
    combine::<XorWords>(a, b)
}

/// Clears in `a` the bits that are set in `b`: `a AND NOT b`.
pub fn and_not(a: &mut [u64], b: &[u64])
    requires { length a.old ≡ length b.now }
    ensures { a.new ≡ zip2 (λ x y. bit_and x (bit_not w64 y)) a.old b.now }
{
    combine::<AndNotWords>(a, b)
}

/// Sets in `a` the bits that are not set in `b`: `a OR NOT b`.
pub fn or_not(a: &mut [u64], b: &[u64])
    requires { length a.old ≡ length b.now }
    ensures { a.new ≡ zip2 (λ x y. bit_or x (bit_not w64 y)) a.old b.now }
{
    combine::<OrNotWords>(a, b)
}

/// Keeps in `a` the bits that are set in `b` too, and then sets those of `c`, in one pass: `a AND b OR c`.
pub fn and_or(a: &mut [u64], b: &[u64], c: &[u64])
    requires first { length a.old ≡ length b.now }
    requires second { length a.old ≡ length c.now }
    ensures { a.new ≡ zip2 bit_or (zip2 bit_and a.old b.now) c.now }
{
    combine_twice::<AndWords, OrWords>(a, b, c)
}

/// Keeps in `a` the bits that are set in `b` too and clear in `c`, in one pass: `a AND b AND NOT c`.
pub fn and_and_not(a: &mut [u64], b: &[u64], c: &[u64])
    requires first { length a.old ≡ length b.now }
    requires second { length a.old ≡ length c.now }
    ensures { a.new ≡ zip2 (λ x y. bit_and x (bit_not w64 y)) (zip2 bit_and a.old b.now) c.now }
{
    combine_twice::<AndWords, AndNotWords>(a, b, c)
}

/// Inverts each bit of `a`.
pub fn not(a: &mut [u64])
    ensures { a.new ≡ map (bit_not w64) a.old }
{
    let whole = a.len() / LANES;
    'fours: for k in 0..whole {
        let inverted = !u64x4::from_slice(&a[LANES * k..]);
        inverted.copy_to_slice(&mut a[LANES * k..]);
    }
    'rest: for i in LANES * whole..a.len() {
        a[i] = !a[i];
    }
}

/// Counts the ones in few enough words that 64 bits hold the count.
fn count_few(a: &[u64]) -> u64
    requires { length a.now ≤ MAX_COUNTED }
    ensures ones { result ≡ sum_by count_ones a.now }
    ensures few { result ≤ 64 * length a.now }
{
    let quarter = a.len() / LANES;
    let mut ones = 0u64;
    'fours: for k in 0..quarter {
        let words = [a[k], a[quarter + k], a[2 * quarter + k], a[3 * quarter + k]];
        ones += ones_in(u64x4::from_array(words));
    }
    'rest: for i in LANES * quarter..a.len() {
        ones += a[i].count_ones() as u64;
    }
    ones
}

/// Counts the ones in `a`, at most 64 per word.
pub fn count(a: &[u64]) -> u128
    ensures ones { result ≡ sum_by count_ones a.now }
    ensures few { result ≤ 64 * length a.now }
{
    let mut ones = 0;
    let mut at = 0;
    'chunks: while at < a.len() {
        let end = at + MAX_COUNTED.min(a.len() - at);
        ones += count_few(&a[at..end]) as u128;
        at = end;
    }
    ones
}

/// Counts the bits that are set in both `a` and `b`, at most 64 per word.
pub fn count_and(a: &[u64], b: &[u64]) -> u128
    requires { length a.now ≡ length b.now }
    ensures ones { result ≡ sum_by count_ones (zip2 bit_and a.now b.now) }
    ensures few { result ≤ 64 * length a.now }
{
    count_combined::<AndWords>(a, b)
}

/// Counts the bits that are set in `a` and clear in `b`, at most 64 per word.
pub fn count_and_not(a: &[u64], b: &[u64]) -> u128
    requires { length a.now ≡ length b.now }
    ensures ones { result ≡ sum_by count_ones
        (zip2 (λ x y. bit_and x (bit_not w64 y)) a.now b.now) }
    ensures few { result ≤ 64 * length a.now }
{
    count_combined::<AndNotWords>(a, b)
}

/// Returns whether no bit of the words is set.
pub fn is_clear(words: &[u64]) -> bool
    ensures { IsTrue result ↔ ((k : ℕ) → slice_index words.now k ≡ 0) }
{
    let mut seen = 0;
    'words: for word in words {
        seen |= *word;
    }
    seen == 0
}
