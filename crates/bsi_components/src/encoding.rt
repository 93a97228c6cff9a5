//! The trait of a component (`Encoding`): a list of digits below a base that grows, and is compared, summed and ranked.

ghost use Rattle.std.specs.Prelude.{◌≡◌, ◌≢◌, ◌↔◌, ℕ, ◌+◌, ◌*◌, ◌≤◌, ◌<◌, ◌==◌, ◌&&◌, Bool, true, List, [], ◌∷◌, ◌++◌, length, map, sum, count_by, slice_index, nat_lt, nat_le, IfOk, OnOk, OnErr, IsOk, IsTrue, IsFalse};
ghost use Rattle.std.specs.List.{items_where_true};
ghost use Rattle.bsi_bits.specs.BitList.{max_block, max_len, word_count};
ghost use Rattle.bsi_bits.specs.Packed.{bit_of};
ghost use Rattle.bsi_bits.specs.SetRows.{HasRow};
ghost use Rattle.bsi_digits.specs.Digits.{IsBase};
ghost use Rattle.bsi_kernels.specs.Ranks.{IsRankedRows};
ghost use Rattle.bsi_components.specs.Component.{count_where};
ghost use Rattle.bsi_kernels.specs.Places.{at_most_step};
ghost use Rattle.bsi_components.specs.ExtremeDigits.{AnswersLeast, AnswersGreatest};

use crate::NoMemory;
use bsi_bits::{Bits, MAX_LEN};
use bsi_kernels::RankedRows;
use std::alloc::Global;

/// A component: the digits of one place of a column's numbers, a row each, kept as bitmaps.
pub trait Encoding: Drop {
    /// The base.
    ghost base_of: { Self → ℕ };

    /// The digits, each below the base, in order of the rows.
    ghost digits: { Self → List ℕ };

    /// How many more digits there is room for: to append these takes no memory.
    ghost room_of: { Self → ℕ };

    /// Whether the calls on spans do what they say. An encoding without them works on whole vectors alone.
    ghost works_on_spans: { Bool };

    /// Returns whether the calls on spans do what they say. An encoding that works on whole vectors alone returns
    /// `false`: its calls on spans may do anything.
    fn on_spans() -> bool
        ensures { result ≡ works_on_spans };

    /// Makes an empty component of a base from 2 to 1,024.
    fn make(alloc: Global, base: u32) -> Result<Self, NoMemory>
        requires { IsBase base }
        ensures { IfOk result (λ c. (digits c ≡ []) × (base_of c ≡ base)) };

    /// Returns the base, from 2 to 1,024.
    fn base(&self) -> u32
        ensures base { result ≡ base_of self.now }
        ensures within { IsBase result }
        ensures below { (k : ℕ) → slice_index (digits self.now) k < base_of self.now };

    /// Returns the number of rows, at most 2^32.
    fn len(&self) -> u64
        ensures len { result ≡ length (digits self.now) }
        ensures within { result ≤ max_len };

    /// Returns whether there is no row.
    fn is_empty(&self) -> bool
        ensures { IsTrue result ↔ (digits self.now ≡ []) }
    {
        self.len() == 0
    }

    /// Returns how many more digits there is room for: to append these takes no memory.
    fn room(&self) -> u64
        ensures room { result ≡ room_of self.now }
        ensures within { length (digits self.now) + result ≤ max_len };

    /// Makes room for `more` further digits. Whatever the result, the digits stay and there is no less room than
    /// before. If it is refused, the room is as it was. It takes memory only if there is not enough room already.
    fn reserve(&mut self, more: u64) -> Result<(), NoMemory>
        requires { length (digits self.old) + more ≤ max_len }
        ensures digits { digits self.new ≡ digits self.old }
        ensures base { base_of self.new ≡ base_of self.old }
        ensures ok { OnOk result (more ≤ room_of self.new) }
        ensures no_less { room_of self.old ≤ room_of self.new }
        ensures err { OnErr result (room_of self.new ≡ room_of self.old) }
        ensures refused { OnErr result (room_of self.new < more) }
        ensures succeeds { more ≤ room_of self.old → IsOk result };

    /// Removes all digits. It takes no memory and keeps the room.
    fn clear(&mut self)
        ensures digits { digits self.new ≡ [] }
        ensures base { base_of self.new ≡ base_of self.old }
        ensures room { length (digits self.old) + room_of self.old ≤ room_of self.new };

    /// Appends a digit, into room that is already there.
    fn push_reserved(&mut self, digit: u32)
        requires room { 0 < room_of self.old }
        requires below { digit < base_of self.old }
        ensures digits { digits self.new ≡ digits self.old ++ digit ∷ [] }
        ensures base { base_of self.new ≡ base_of self.old }
        ensures room { room_of self.old ≤ room_of self.new + 1 };

    /// Appends a block of at most 64 digits, into room that is already there. The provided body appends each in turn.
    fn push_block_reserved(&mut self, block: &[u32])
        requires few { length block.now ≤ max_block }
        requires room { length block.now ≤ room_of self.old }
        requires below { (k : ℕ) → k < length block.now →
            slice_index block.now k < base_of self.old }
        ensures digits { digits self.new ≡ digits self.old ++ block.now }
        ensures base { base_of self.new ≡ base_of self.old }
        ensures room { room_of self.old ≤ room_of self.new + length block.now }
    {
        'digits: for digit in block {
            self.push_reserved(*digit);
        }
    }

    /// Appends all digits of another component of the same base, in their order, into room that is already there.
    fn push_all_reserved(&mut self, other: &Self)
        requires base { base_of other.now ≡ base_of self.old }
        requires room { length (digits other.now) ≤ room_of self.old }
        ensures digits { digits self.new ≡ digits self.old ++ digits other.now }
        ensures base { base_of self.new ≡ base_of self.old }
        ensures room { room_of self.new + length (digits other.now) ≡ room_of self.old };

    /// Returns whether there is room for one more digit: to append it takes no memory.
    fn has_room(&self) -> bool
        ensures { result ≡ nat_lt 0 (room_of self.now) }
    {
        self.room() > 0
    }

    /// Makes room for one further digit, as `reserve` does for many.
    fn reserve_one(&mut self) -> Result<(), NoMemory>
        requires { length (digits self.old) < max_len }
        ensures digits { digits self.new ≡ digits self.old }
        ensures base { base_of self.new ≡ base_of self.old }
        ensures ok { OnOk result (0 < room_of self.new) }
        ensures no_less { room_of self.old ≤ room_of self.new }
        ensures err { OnErr result (room_of self.new ≡ room_of self.old) }
        ensures succeeds { 0 < room_of self.old → IsOk result }
    {
        self.reserve(1)
    }

    /// Writes for each row whether its digit is `d`.
    fn eq_into(&self, d: u32, out: &mut Bits)
        requires below { d < base_of self.now }
        requires same { length (digits self.now) ≡ length out.old.bits }
        ensures bits { out.new.bits ≡ map (λ v. v == d) (digits self.now) }
        ensures room { out.new.room ≡ out.old.room };

    /// Writes for each row whether its digit is at most `d`.
    fn le_into(&self, d: u32, out: &mut Bits)
        requires below { d < base_of self.now }
        requires same { length (digits self.now) ≡ length out.old.bits }
        ensures bits { out.new.bits ≡ map (λ v. nat_le v d) (digits self.now) }
        ensures room { out.new.room ≡ out.old.room };

    /// Returns the sum of the digits of the rows of a selection.
    fn digit_sum(&self, selection: &Bits) -> u128
        requires { length (digits self.now) ≡ length selection.now.bits }
        ensures { result ≡ sum (items_where_true selection.now.bits (digits self.now)) };

    /// Returns how many rows of a selection have a digit of at most `d`. `scratch` is a vector of as many bits, and
    /// its bits are unspecified afterwards.
    fn count_le(&self, d: u32, selection: &Bits, scratch: &mut Bits) -> u64
        requires below { d < base_of self.now }
        requires same { length (digits self.now) ≡ length selection.now.bits }
        requires scratch { length (digits self.now) ≡ length scratch.old.bits }
        ensures count { result ≡ count_where (λ v. nat_le v d) selection.now.bits (digits self.now) }
        ensures scratch { length scratch.new.bits ≡ length scratch.old.bits }
    {
        self.le_into(d, scratch);
        selection.count_and(scratch)
    }

    /// Finds the digit of the row of rank `rank`, from 0, among the rows of a selection in order of their digits, and
    /// returns the rows that have this digit. The provided body halves the range of possible digits by one `count_le`
    /// after the other, and takes memory for a vector of as many bits.
    fn rows_of_rank(&self, rank: u64, selection: Bits) -> Result<RankedRows, NoMemory>
        requires same { length (digits self.now) ≡ length selection.bits }
        requires there { rank < count_by (λ b. b) selection.bits }
        ensures digit { IfOk result (λ ranked. ranked.number < base_of self.now) }
        ensures ranked { IfOk result (λ ranked. IsRankedRows rank selection.bits (digits self.now)
            ranked.number ranked.rank ranked.rows.bits) }
    {
        let mut scratch = selection.copy()?;
        let (mut low, mut high) = (0, self.base() - 1);
        let mut below = 0;
        'digits: while low < high {
            let middle = low + (high - low) / 2;
            let upto = self.count_le(middle, &selection, &mut scratch);
            if rank < upto {
                high = middle;
            } else {
                below = upto;
                low = middle + 1;
            }
        }
        self.eq_into(low, &mut scratch);
        let mut rows = selection;
        rows.and_with(&scratch);
        Ok(RankedRows {
            number: u64::from(low),
            rank: rank - below,
            rows,
        })
    }

    /// Makes a second component of the same digits.
    fn copy(&self) -> Result<Self, NoMemory>
        ensures { IfOk result (λ c. (digits c ≡ digits self.now)
            × (base_of c ≡ base_of self.now)) };

    /// Clears in a span of words the rows whose digit is not `d`. The words stand for the rows from `64 * at` on.
    fn eq_span(&self, d: u32, at: usize, span: &mut [u64])
        requires below { d < base_of self.now }
        requires within { at + length span.old ≤ word_count (length (digits self.now)) }
        ensures { IsTrue works_on_spans → (p : ℕ) → p < 64 * length span.old →
            64 * at + p < length (digits self.now) →
            bit_of span.new p ≡ (bit_of span.old p
            && (slice_index (digits self.now) (64 * at + p) == d)) };

    /// Sets in a span of words the rows whose digit is below `d`, and clears those whose digit is above. The words
    /// stand for the rows from `64 * at` on. Where a bit said whether a row's digits of the lower places are at most
    /// those of a constant, it says so of the digits up to this one afterwards.
    fn le_span(&self, d: u32, at: usize, span: &mut [u64])
        requires below { d < base_of self.now }
        requires within { at + length span.old ≤ word_count (length (digits self.now)) }
        ensures { IsTrue works_on_spans → (p : ℕ) → p < 64 * length span.old →
            64 * at + p < length (digits self.now) →
            bit_of span.new p ≡ at_most_step (bit_of span.old p)
            (slice_index (digits self.now) (64 * at + p)) d };

    /// Writes into a span of words whether the digit of each row is `d`. The words stand for the rows from `64 * at`
    /// on. The provided body fills the span with ones and calls `eq_span`.
    fn eq_span_into(&self, d: u32, at: usize, span: &mut [u64])
        requires below { d < base_of self.now }
        requires within { at + length span.old ≤ word_count (length (digits self.now)) }
        ensures { IsTrue works_on_spans → (p : ℕ) → p < 64 * length span.old →
            64 * at + p < length (digits self.now) →
            bit_of span.new p ≡ (slice_index (digits self.now) (64 * at + p) == d) }
    {
        span.fill(u64::MAX);
        self.eq_span(d, at, span);
    }

    /// Writes into a span of words whether the digit of each row is at most `d`. The words stand for the rows from
    /// `64 * at` on. The provided body fills the span with ones and calls `le_span`.
    fn le_span_into(&self, d: u32, at: usize, span: &mut [u64])
        requires below { d < base_of self.now }
        requires within { at + length span.old ≤ word_count (length (digits self.now)) }
        ensures { IsTrue works_on_spans → (p : ℕ) → p < 64 * length span.old →
            64 * at + p < length (digits self.now) →
            bit_of span.new p ≡ nat_le (slice_index (digits self.now) (64 * at + p)) d }
    {
        span.fill(u64::MAX);
        self.le_span(d, at, span);
    }

    /// Returns whether a row of a span of words has the digit `d`. The words stand for the rows from `64 * at` on, and
    /// have no row past the last one. The provided body calls `eq_span` for one word after the other.
    fn has_digit(&self, d: u32, at: usize, span: &[u64]) -> bool
        requires below { d < base_of self.now }
        requires within { at + length span.now ≤ word_count (length (digits self.now)) }
        requires rows { (p : ℕ) → p < 64 * length span.now → bit_of span.now p ≡ true →
            64 * at + p < length (digits self.now) }
        ensures some { IsTrue works_on_spans → IsTrue result →
            HasRow (λ p. bit_of span.now p
            && (slice_index (digits self.now) (64 * at + p) == d)) (64 * length span.now) }
        ensures none { IsTrue works_on_spans → IsFalse result → (p : ℕ) →
            p < 64 * length span.now → bit_of span.now p ≡ true →
            slice_index (digits self.now) (64 * at + p) ≢ d }
    {
        // The proof takes from this that there are at most 2^32 rows, so at most 2^26 words.
        prove!(self.len() <= MAX_LEN);
        'words: for (k, word) in span.iter().enumerate() {
            let mut matched = [*word];
            self.eq_span(d, at + k, &mut matched);
            // What `eq_span` leaves past the last row is open.
            if matched[0] & word != 0 {
                return true;
            }
        }
        false
    }

    /// Returns the least digit of the rows that a span of words has, or none if each is above `bound`. The words stand
    /// for the rows from `64 * at` on, and have no row past the last one. The provided body goes up from digit 0.
    fn least_in_span(&self, bound: u32, at: usize, span: &[u64]) -> Option<u32>
        requires below { bound < base_of self.now }
        requires within { at + length span.now ≤ word_count (length (digits self.now)) }
        requires rows { (p : ℕ) → p < 64 * length span.now → bit_of span.now p ≡ true →
            64 * at + p < length (digits self.now) }
        requires some { HasRow (bit_of span.now) (64 * length span.now) }
        ensures { IsTrue works_on_spans → AnswersLeast bound (bit_of span.now)
            (λ p. slice_index (digits self.now) (64 * at + p)) (64 * length span.now) result }
    {
        'digits: for digit in 0..=bound {
            if self.has_digit(digit, at, span) {
                return Some(digit);
            }
        }
        None
    }

    /// Returns the greatest digit of the rows that a span of words has, or none if each is below `bound`. The words
    /// stand for the rows from `64 * at` on, and have no row past the last one. The provided body goes down from the
    /// greatest digit.
    fn greatest_in_span(&self, bound: u32, at: usize, span: &[u64]) -> Option<u32>
        requires below { bound < base_of self.now }
        requires within { at + length span.now ≤ word_count (length (digits self.now)) }
        requires rows { (p : ℕ) → p < 64 * length span.now → bit_of span.now p ≡ true →
            64 * at + p < length (digits self.now) }
        requires some { HasRow (bit_of span.now) (64 * length span.now) }
        ensures { IsTrue works_on_spans → AnswersGreatest bound (bit_of span.now)
            (λ p. slice_index (digits self.now) (64 * at + p)) (64 * length span.now) result }
    {
        'digits: for digit in (bound..self.base()).rev() {
            if self.has_digit(digit, at, span) {
                return Some(digit);
            }
        }
        None
    }
}
