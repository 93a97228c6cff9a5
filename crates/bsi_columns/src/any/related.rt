//! Compares two columns of any forms row by row, by the binary places of their numbers.
//!
//! Where the places that are stored can be compared as they are, they are. Else each column gives the places of its
//! numbers, block by block.

ghost use Rattle.std.specs.Prelude.{◌≡◌, ℕ, ◌+◌, ◌*◌, ◌<◌, ◌≤◌, ◌^◌, ◌&&◌, is_some, None, length, slice_index_or, IsFalse, IsTrue};
ghost use Rattle.bsi_bits.specs.BitList.{word_count};
ghost use Rattle.bsi_bits.specs.Packed.{bit_of};
ghost use Rattle.bsi_columns.specs.AnyColumns.{any_entries};
ghost use Rattle.bsi_columns.specs.Extremes.{number_at};
ghost use Rattle.bsi_columns.specs.NumberPlaces.{IsNumberAt};
ghost use Rattle.bsi_digits.specs.Digits.{max_size};
ghost use Rattle.bsi_slices.specs.Related.{AndsComparedRows};

use super::AnyColumn;
use crate::decomposed::and_expected;
use crate::number_places::{
    MAX_PLACES, REGISTER_BLOCK_WORDS, add_each, places_of, relate_numbers, slice_places,
};
use crate::{Column, ColumnComparison};
use bsi_bits::MAX_LEN;
use bsi_bits::lanes::is_clear;
use bsi_kernels::spans::and_assign;
use bsi_slices::PairRelation;

impl AnyColumn {
    /// Keeps in a span of words the rows whose number here compares, as `comparison` says, with that of another column
    /// of as many rows. What is added to a number is at most 2^63. The first word stands for the 64 rows from row
    /// `64 * at` on. A row that is null in one of the two is not kept, nor a bit past the last row. It takes no memory.
    /// Binary places are compared: those that are stored where both columns are of slices, or under the same bases with
    /// the same added to both numbers. Else they are those of the numbers, which take a few additions of places for
    /// each digit.
    pub fn and_compare_columns(
        &self,
        comparison: ColumnComparison,
        other: &AnyColumn,
        at: usize,
        span: &mut [u64],
    )
        requires more { (comparison.left_addend ≤ max_size) × (comparison.right_addend ≤ max_size) }
        requires within { at + length span.old ≤ word_count (length (any_entries self.now)) }
        requires same { length (any_entries other.now) ≡ length (any_entries self.now) }
        ensures { AndsComparedRows comparison (any_entries self.now) (any_entries other.now) at
            span.old span.new }
    {
        if !self.and_compare_alike(comparison, other, at, span) {
            self.and_compare_blocks(comparison, other, at, span);
        }
    }

    /// Keeps those rows, and returns true, if both columns go by binary places that can be compared as they are: those of
    /// two columns of slices or, where the same is added to both numbers, of two under the same bases. If not it returns
    /// false.
    fn and_compare_alike(
        &self,
        comparison: ColumnComparison,
        other: &AnyColumn,
        at: usize,
        span: &mut [u64],
    ) -> bool
        requires more { (comparison.left_addend ≤ max_size) × (comparison.right_addend ≤ max_size) }
        requires within { at + length span.old ≤ word_count (length (any_entries self.now)) }
        requires same { length (any_entries other.now) ≡ length (any_entries self.now) }
        ensures rows { IsTrue result → AndsComparedRows comparison (any_entries self.now)
            (any_entries other.now) at span.old span.new }
        ensures unchanged { IsFalse result → span.new ≡ span.old }
    {
        match (self, other) {
            (AnyColumn::Slices(own), AnyColumn::Slices(others))
                if comparison.left_addend.max(comparison.right_addend) < 1 << 63 => {
                own.and_compare_columns(comparison, others, at, span);
                true
            }
            (AnyColumn::Equality(own), AnyColumn::Equality(others)) => {
                own.and_compare_columns(comparison, others, at, span)
            }
            (AnyColumn::Equality(own), AnyColumn::Range(others)) => {
                own.and_compare_columns(comparison, others, at, span)
            }
            (AnyColumn::Range(own), AnyColumn::Equality(others)) => {
                own.and_compare_columns(comparison, others, at, span)
            }
            (AnyColumn::Range(own), AnyColumn::Range(others)) => {
                own.and_compare_columns(comparison, others, at, span)
            }
            _ => false,
        }
    }

    /// Keeps those rows, block by block.
    fn and_compare_blocks(
        &self,
        comparison: ColumnComparison,
        other: &AnyColumn,
        at: usize,
        span: &mut [u64],
    )
        requires more { (comparison.left_addend ≤ max_size) × (comparison.right_addend ≤ max_size) }
        requires within { at + length span.old ≤ word_count (length (any_entries self.now)) }
        requires same { length (any_entries other.now) ≡ length (any_entries self.now) }
        ensures { AndsComparedRows comparison (any_entries self.now) (any_entries other.now) at
            span.old span.new }
    {
        // The proof takes from this that there are at most 2^32 rows, so at most 2^26 words.
        prove!(self.len() <= MAX_LEN);
        let most = self.size() - 1 + comparison.left_addend;
        let others_most = other.size() - 1 + comparison.right_addend;
        let count = places_of(most.max(others_most));
        let mut buffer = [[0; REGISTER_BLOCK_WORDS]; 3 * MAX_PLACES];
        let len = span.len();
        'blocks: for k in 0..len.div_ceil(REGISTER_BLOCK_WORDS) {
            let from = REGISTER_BLOCK_WORDS * k;
            let block = &mut span[from..len.min(from + REGISTER_BLOCK_WORDS)];
            let places = &mut buffer[..3 * count];
            self.and_compare_block(comparison, other, at + from, count, places, block);
        }
    }

    /// Keeps those rows in a block, with room for so many binary places of both columns and as many of an addition. The
    /// numbers, with what is added to them, are below two to the power of `count`. A block without a row takes a look at
    /// its words alone.
    fn and_compare_block(
        &self,
        comparison: ColumnComparison,
        other: &AnyColumn,
        at: usize,
        count: usize,
        places: &mut [[u64; REGISTER_BLOCK_WORDS]],
        words: &mut [u64],
    )
        requires block { length words.old ≤ REGISTER_BLOCK_WORDS }
        requires few { count ≤ MAX_PLACES }
        requires room { length places.old ≡ 3 * count }
        requires enough { (r : ℕ) →
            number_at (any_entries self.now) r + comparison.left_addend < 2 ^ count }
        requires others_enough { (r : ℕ) →
            number_at (any_entries other.now) r + comparison.right_addend < 2 ^ count }
        requires within { at + length words.old ≤ word_count (length (any_entries self.now)) }
        requires same { length (any_entries other.now) ≡ length (any_entries self.now) }
        ensures long { length words.new ≡ length words.old }
        ensures rows { AndsComparedRows comparison (any_entries self.now) (any_entries other.now) at
            words.old words.new }
    {
        if is_clear(words) {
            return;
        }
        let (own, rest) = places.split_at_mut(count);
        let (others, above) = rest.split_at_mut(count);
        self.sums_into(comparison.left_addend, at, words.len(), above, own);
        other.sums_into(comparison.right_addend, at, words.len(), above, others);
        let (relation, expected) = PairRelation::of(comparison.op);
        let mut state = [0; REGISTER_BLOCK_WORDS];
        relate_numbers(relation, own, others, &mut state);
        self.and_numbers(at, words);
        other.and_numbers(at, words);
        and_expected(&state[..words.len()], expected, words);
    }

    /// Writes the binary places of the numbers of a block of so many words, to each of which the same is added. The first
    /// word stands for the 64 rows from row `64 * at` on. A null row counts as 0. Of a sum that does not fit, the places
    /// that there are. `above` is room for as many places.
    fn sums_into(
        &self,
        more: u64,
        at: usize,
        words: usize,
        above: &mut [[u64; REGISTER_BLOCK_WORDS]],
        places: &mut [[u64; REGISTER_BLOCK_WORDS]],
    )
        requires block { words ≤ REGISTER_BLOCK_WORDS }
        requires few { length places.old ≤ MAX_PLACES }
        requires room { length above.old ≡ length places.old }
        requires within { at + words ≤ word_count (length (any_entries self.now)) }
        ensures long { length places.new ≡ length places.old }
        ensures sums { (p : ℕ) → p < 64 * words → 64 * at + p < length (any_entries self.now) →
            IsNumberAt places.new p (number_at (any_entries self.now) (64 * at + p) + more) }
    {
        match self {
            AnyColumn::Slices(column) => slice_places(column, at, words, places),
            AnyColumn::Equality(column) => column.places_into(at, words, above, places),
            AnyColumn::Range(column) => column.places_into(at, words, above, places),
        }
        add_each(more, places);
    }

    /// Keeps in a span the rows that have a number.
    fn and_numbers(&self, at: usize, span: &mut [u64])
        requires { at + length span.old ≤ word_count (length (any_entries self.now)) }
        ensures long { length span.new ≡ length span.old }
        ensures bits { (p : ℕ) → p < 64 * length span.old → bit_of span.new p
            ≡ (bit_of span.old p
            && is_some (slice_index_or (any_entries self.now) (64 * at + p) None)) }
    {
        and_assign(self.not_null(), at, span);
    }
}
