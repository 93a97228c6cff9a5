//! The digit, in a range encoded component, of the selected row of a given rank (from 0, in rising order).
//!
//! A sample of the rows tells near which digit it is likely to be, and the search by halves is over after two counts
//! where that is right. This search is this project's own.

ghost use Rattle.std.specs.Prelude.{◌≡◌, ◌+◌, ◌-◌, ◌≤◌, ◌<◌, ◌&&◌, length, count_by, nat_eq, IfSome};
ghost use Rattle.std.specs.Simd.Lanes.{zip2};
ghost use Rattle.bsi_bits.specs.BitList.{max_len, word_count};
ghost use Rattle.bsi_components.specs.Component.{IsRankedDigit};
ghost use Rattle.bsi_components.specs.Ranks.{IsBetween};

use crate::range::RangeComponent;
use crate::ranked_digit::RankedDigit;
use bsi_bits::{Bits, MAX_LEN};

/// The number of spans in a sample, which lie evenly among all.
const SAMPLE_SPANS: usize = 16;

/// The number of words in such a span.
const SAMPLE_SPAN_WORDS: usize = 64;

/// The least number of words that are sampled, since fewer are counted as soon.
const MIN_SAMPLED_WORDS: usize = 1 << 13;

/// The least rank in the sample that tells a digit: a few rows tell little.
const MIN_SAMPLED_RANK: u64 = 128;

/// The digits among which that of a rank is, and how many selected rows have a digit below them.
#[derive(Clone, Copy)]
struct DigitRange {
    low: u32,
    high: u32,
    below: u64,
}

impl RangeComponent {
    /// Returns the digit of the row of rank `rank` among the rows of a selection, and its rank among those of its
    /// digit.
    pub(crate) fn find_rank(&self, rank: u64, selection: &Bits) -> RankedDigit
        requires same { length self.now.digits ≡ length selection.now.bits }
        requires there { rank < count_by (λ b. b) selection.now.bits }
        ensures digit { result.digit < self.now.base }
        ensures ranked { IsRankedDigit rank selection.now.bits self.now.digits result }
    {
        // The proof takes from this that a rank is below 2^32.
        prove!(selection.len() <= MAX_LEN);
        let mut between = DigitRange {
            low: 0,
            high: self.top(),
            below: 0,
        };
        if let Some(digit) = self.likely_digit(rank, selection) {
            between = self.narrowed(between, digit, rank, selection);
            between = self.narrowed(between, digit.max(1) - 1, rank, selection);
            between = self.narrowed(between, digit + 1, rank, selection);
        }
        'digits: while between.low < between.high {
            let middle = between.low + (between.high - between.low) / 2;
            between = self.narrowed(between, middle, rank, selection);
        }
        RankedDigit {
            digit: between.low,
            rank: rank - between.below,
        }
    }

    /// Clears in a set of rows those whose digit is not `d`.
    pub(crate) fn and_digit(&self, d: u32, rows: &mut Bits)
        requires below { d < self.now.base }
        requires same { length self.now.digits ≡ length rows.old.bits }
        ensures { rows.new.bits ≡ zip2 (λ f v. f && nat_eq v d) rows.old.bits self.now.digits }
    {
        if d == self.top() {
            rows.and_not_with(self.bitmap(d - 1));
        } else if d > 0 {
            rows.and_with(self.bitmap(d));
            rows.and_not_with(self.bitmap(d - 1));
        } else {
            rows.and_with(self.bitmap(0));
        }
    }

    /// Counts the selected rows of a digit of at most `d`, and returns the digits that are left. It counts nothing if
    /// that tells nothing new.
    fn narrowed(&self, between: DigitRange, d: u32, rank: u64, selection: &Bits) -> DigitRange
        requires same { length self.now.digits ≡ length selection.now.bits }
        requires holds { IsBetween self.now.base rank selection.now.bits self.now.digits
            between.low between.high between.below }
        ensures holds { IsBetween self.now.base rank selection.now.bits self.now.digits
            result.low result.high result.below }
        ensures fewer { between.low ≤ d → d < between.high →
            result.high - result.low < between.high - between.low }
    {
        if d < between.low || d >= between.high {
            return between;
        }
        let upto = selection.count_and(self.bitmap(d));
        if rank < upto {
            DigitRange { high: d, ..between }
        } else {
            DigitRange {
                low: d + 1,
                below: upto,
                ..between
            }
        }
    }

    /// Returns the digit that the row of a rank would have if all rows were as those of a sample, or none if there are
    /// few words or the rank in the sample is small.
    fn likely_digit(&self, rank: u64, selection: &Bits) -> Option<u32>
        requires same { length self.now.digits ≡ length selection.now.bits }
        requires few { rank ≤ max_len }
        ensures { IfSome result (λ d. d < self.now.base) }
    {
        let words = selection.words().len();
        if words < MIN_SAMPLED_WORDS {
            return None;
        }
        let rank_there = rank * (SAMPLE_SPANS * SAMPLE_SPAN_WORDS) as u64 / words as u64;
        if rank_there < MIN_SAMPLED_RANK {
            return None;
        }
        let (mut low, mut high) = (0, self.top());
        'digits: while low < high {
            let middle = low + (high - low) / 2;
            if rank_there < self.count_sampled(middle, selection) {
                high = middle;
            } else {
                low = middle + 1;
            }
        }
        Some(low)
    }

    /// Returns how many selected rows of the sample have a digit of at most `d`.
    fn count_sampled(&self, d: u32, selection: &Bits) -> u64
        requires below { d + 1 < self.now.base }
        requires same { length self.now.digits ≡ length selection.now.bits }
        requires long { MIN_SAMPLED_WORDS ≤ word_count (length selection.now.bits) }
    {
        let stride = selection.words().len() / SAMPLE_SPANS;
        let mut count = 0u64;
        for k in 0..SAMPLE_SPANS {
            let start = stride * k;
            let rows = selection.count_and_in(self.bitmap(d), start, start + SAMPLE_SPAN_WORDS);
            // The sum is at most 2^16. It saturates so that no proof has to say so.
            count = count.saturating_add(rows);
        }
        count
    }
}
