//! Counts of ones by carry-save adders (Harley and Seal), beside words that are counted one by one.
//!
//! Three vectors of words add up, bit by bit, to one of sums and one of carries, which stand for twice as much. So of eight
//! vectors the adders leave a single one to be counted, and keep the rest for the next eight. They take as long as counts
//! of single words do, but by other units of a processor, so half of a block's words go each way.

ghost use Rattle.std.specs.Prelude.{◌≡◌, ◌+◌, ◌*◌, ◌≤◌, length, sum_by, take, count_ones};
ghost use Rattle.std.specs.Simd.Lanes.{chunk, zip2};
ghost use Rattle.bsi_bits.specs.Adders.{added_ones};

use crate::lanes::operations::Operation;
use crate::lanes::{LANES, MAX_COUNTED, ones_in};
use std::simd::u64x4;

/// The number of words that a block's adders take.
const ADDED: usize = 8 * LANES;

/// The number of words in a block.
pub(crate) const BLOCK: usize = 2 * ADDED;

/// Three vectors of words added, bit by bit.
#[derive(Clone, Copy)]
struct Added {
    sums: u64x4,
    carries: u64x4,
}

/// How often each bit was set, in binary: the vectors of the three least places. Eights are counted as they come.
#[derive(Clone, Copy)]
struct Adders {
    ones: u64x4,
    twos: u64x4,
    fours: u64x4,
}

/// Adds three vectors, bit by bit.
fn add(a: u64x4, b: u64x4, c: u64x4) -> Added
    ensures added { sum_by count_ones result.sums + 2 * sum_by count_ones result.carries
        ≡ sum_by count_ones a + sum_by count_ones b + sum_by count_ones c }
    ensures few { sum_by count_ones b + sum_by count_ones c ≤ 64 * (2 * LANES) }
{
    let sums = a ^ b;
    Added {
        sums: sums ^ c,
        carries: a & b | sums & c,
    }
}

impl Adders {
    /// Adds the operation's words for the eight pairs of words from `at` on. Returns the carries, which are twos.
    fn add_two<O: Operation>(&mut self, a: &[u64], b: &[u64], at: usize) -> u64x4
        requires same { length a.now ≡ length b.now }
        requires within { at + 2 * LANES ≤ length a.now }
        ensures added { added_ones self.new.ones self.new.twos self.new.fours + 2 * sum_by count_ones result
            ≡ added_ones self.old.ones self.old.twos self.old.fours
            + sum_by count_ones (chunk at (2 * LANES) (zip2 O.word_of a.now b.now)) }
        ensures few { sum_by count_ones (chunk at (2 * LANES) (zip2 O.word_of a.now b.now))
            ≤ 64 * (2 * LANES) }
    {
        let next = at + LANES;
        let first = O::words(u64x4::from_slice(&a[at..]), u64x4::from_slice(&b[at..]));
        let second = O::words(u64x4::from_slice(&a[next..]), u64x4::from_slice(&b[next..]));
        let added = add(self.ones, first, second);
        self.ones = added.sums;
        added.carries
    }

    /// Adds the operation's words for the 16 pairs of words from `at` on. Returns the carries, which are fours.
    fn add_four<O: Operation>(&mut self, a: &[u64], b: &[u64], at: usize) -> u64x4
        requires same { length a.now ≡ length b.now }
        requires within { at + 4 * LANES ≤ length a.now }
        ensures added { added_ones self.new.ones self.new.twos self.new.fours + 4 * sum_by count_ones result
            ≡ added_ones self.old.ones self.old.twos self.old.fours
            + sum_by count_ones (chunk at (4 * LANES) (zip2 O.word_of a.now b.now)) }
        ensures few { sum_by count_ones (chunk at (4 * LANES) (zip2 O.word_of a.now b.now))
            ≤ 64 * (4 * LANES) }
    {
        let first = self.add_two::<O>(a, b, at);
        let second = self.add_two::<O>(a, b, at + 2 * LANES);
        let added = add(self.twos, first, second);
        self.twos = added.sums;
        added.carries
    }

    /// Adds the operation's words for the 32 pairs of words from `at` on. Returns the carries, which are eights.
    fn add_eight<O: Operation>(&mut self, a: &[u64], b: &[u64], at: usize) -> u64x4
        requires same { length a.now ≡ length b.now }
        requires within { at + ADDED ≤ length a.now }
        ensures added { added_ones self.new.ones self.new.twos self.new.fours + 8 * sum_by count_ones result
            ≡ added_ones self.old.ones self.old.twos self.old.fours
            + sum_by count_ones (chunk at ADDED (zip2 O.word_of a.now b.now)) }
        ensures few { sum_by count_ones (chunk at ADDED (zip2 O.word_of a.now b.now)) ≤ 64 * ADDED }
    {
        let first = self.add_four::<O>(a, b, at);
        let second = self.add_four::<O>(a, b, at + 4 * LANES);
        let added = add(self.fours, first, second);
        self.fours = added.sums;
        added.carries
    }
}

/// Counts the ones in the operation's words for the 32 pairs of words from `at` on, word by word.
fn count_singly<O: Operation>(a: &[u64], b: &[u64], at: usize) -> u64
    requires same { length a.now ≡ length b.now }
    requires within { at + ADDED ≤ length a.now }
    ensures ones { result ≡ sum_by count_ones (chunk at ADDED (zip2 O.word_of a.now b.now)) }
    ensures few { result ≤ 64 * ADDED }
{
    let mut ones = 0u64;
    'words: for k in 0..ADDED {
        ones += O::word(a[at + k], b[at + k]).count_ones() as u64;
    }
    ones
}

/// Counts the ones in the operation's words for the pairs of words of so many blocks.
// Within its caller it would keep the counts of a few words from being taken into the loops that ask for them.
#[inline(never)]
pub(crate) fn count_blocks<O: Operation>(a: &[u64], b: &[u64], count: usize) -> u64
    requires same { length a.now ≡ length b.now }
    requires few { length a.now ≤ MAX_COUNTED }
    requires within { BLOCK * count ≤ length a.now }
    ensures ones { result ≡ sum_by count_ones (take (BLOCK * count) (zip2 O.word_of a.now b.now)) }
    ensures few { result ≤ 64 * (BLOCK * count) }
{
    let none = u64x4::splat(0);
    let mut adders = Adders {
        ones: none,
        twos: none,
        fours: none,
    };
    let (mut eights, mut singles) = (0u64, 0u64);
    'chunks: for k in 0..count {
        singles += count_singly::<O>(a, b, BLOCK * k + ADDED);
        eights += ones_in(adders.add_eight::<O>(a, b, BLOCK * k));
    }
    let added = 4 * ones_in(adders.fours) + 2 * ones_in(adders.twos) + ones_in(adders.ones);
    singles + 8 * eights + added
}
