//! Compares two columns of the same bases row by row, block by block and from the least significant component up,
//! each by the binary places of its digits.
//!
//! Where two digits differ they decide over those below, so one state goes up through the components, and no number
//! is put together.

ghost use Rattle.std.specs.Prelude.{◌≡◌, ◌↔◌, ℕ, ◌+◌, ◌*◌, ◌<◌, ◌≤◌, ◌&&◌, is_some, None, length, slice_index, slice_index_or, IsFalse, IsTrue};
ghost use Rattle.bsi_bits.specs.BitList.{word_count};
ghost use Rattle.bsi_bits.specs.Packed.{bit_of};
ghost use Rattle.bsi_columns.specs.Extremes.{number_at};
ghost use Rattle.bsi_columns.specs.PairRelations.{relation_step};
ghost use Rattle.bsi_slices.specs.Related.{AndsComparedRows};
ghost use Rattle.bsi_slices.specs.PairRelations.{relation_holds};

use super::compare::and_expected;
use crate::decomposed::Decomposed;
use crate::{BinaryPlaces, Column, ColumnComparison};
use bsi_bits::MAX_LEN;
use bsi_components::place_count;
use bsi_slices::PairRelation;

/// The most words of a block. Those of the state and of a place of both columns take 12 KiB, so they stay in the first
/// cache.
const L1_BLOCK_WORDS: usize = 512;

impl<E: BinaryPlaces> Decomposed<E> {
    /// Keeps in a span of words the rows whose number here compares, as `comparison` says, with that of another column
    /// of as many rows, and returns true, if the two have the same bases and the same is added to both numbers. If not
    /// it returns false. The first word stands for the 64 rows from row `64 * at` on. A row that is null in one of the
    /// two is not kept, nor a bit past the last row. It takes no memory.
    pub fn and_compare_columns<F: BinaryPlaces>(
        &self,
        comparison: ColumnComparison,
        other: &Decomposed<F>,
        at: usize,
        span: &mut [u64],
    ) -> bool
        requires within { at + length span.old ≤ word_count (length self.now.entries) }
        requires same { length other.now.entries ≡ length self.now.entries }
        ensures compares { IsTrue result ↔
            ((comparison.left_addend ≡ comparison.right_addend) × (self.now.bases ≡ other.now.bases)) }
        ensures rows { IsTrue result → AndsComparedRows comparison self.now.entries other.now.entries
            at span.old span.new }
        ensures unchanged { IsFalse result → span.new ≡ span.old }
    {
        if comparison.left_addend != comparison.right_addend || !self.bases.is_same(&other.bases) {
            return false;
        }
        // The proof takes from this that there are at most 2^32 rows, so at most 2^26 words.
        prove!(self.len() <= MAX_LEN);
        let len = span.len();
        'blocks: for k in 0..len.div_ceil(L1_BLOCK_WORDS) {
            let from = L1_BLOCK_WORDS * k;
            let block = &mut span[from..len.min(from + L1_BLOCK_WORDS)];
            self.and_compare_block(comparison, other, at + from, block);
        }
        true
    }

    /// Keeps those rows in a block.
    fn and_compare_block<F: BinaryPlaces>(
        &self,
        comparison: ColumnComparison,
        other: &Decomposed<F>,
        at: usize,
        words: &mut [u64],
    )
        requires block { length words.old ≤ L1_BLOCK_WORDS }
        requires bases { other.now.bases ≡ self.now.bases }
        requires more { comparison.left_addend ≡ comparison.right_addend }
        requires within { at + length words.old ≤ word_count (length self.now.entries) }
        requires same { length other.now.entries ≡ length self.now.entries }
        ensures long { length words.new ≡ length words.old }
        ensures rows { AndsComparedRows comparison self.now.entries other.now.entries at words.old
            words.new }
    {
        let (relation, expected) = PairRelation::of(comparison.op);
        let mut buffer = [0; L1_BLOCK_WORDS];
        let state = &mut buffer[..words.len()];
        self.relate_rows(relation, other, at, state);
        self.and_numbers(at, words);
        other.and_numbers(at, words);
        and_expected(state, expected, words);
    }

    /// Keeps in a span the rows that have a number.
    fn and_numbers(&self, at: usize, span: &mut [u64])
        requires { at + length span.old ≤ word_count (length self.now.entries) }
        ensures long { length span.new ≡ length span.old }
        ensures bits { (p : ℕ) → p < 64 * length span.old → bit_of span.new p
            ≡ (bit_of span.old p && is_some (slice_index_or self.now.entries (64 * at + p) None)) }
    {
        self.not_null.and_assign(at, span);
    }

    /// Writes for the rows of a block whether their number is in the relation to that in the other column. A null row
    /// counts as 0.
    fn relate_rows<F: BinaryPlaces>(
        &self,
        relation: PairRelation,
        other: &Decomposed<F>,
        at: usize,
        state: &mut [u64],
    )
        requires block { length state.old ≤ L1_BLOCK_WORDS }
        requires bases { other.now.bases ≡ self.now.bases }
        requires within { at + length state.old ≤ word_count (length self.now.entries) }
        requires same { length other.now.entries ≡ length self.now.entries }
        ensures long { length state.new ≡ length state.old }
        ensures bits { (p : ℕ) → p < 64 * length state.old →
            64 * at + p < length self.now.entries → bit_of state.new p
            ≡ relation_holds relation (number_at self.now.entries (64 * at + p))
            (number_at other.now.entries (64 * at + p)) }
    {
        let bases = self.bases();
        // The proof takes from this that the numbers of the other column are below the product of the bases too.
        prove!(other.bases().len() == bases.len());
        relation.begin(state);
        'components: for i in 0..bases.len() {
            step_digits(relation, self.component(i), other.component(i), at, state);
        }
    }
}

/// Compares the digits of two components in the state of the numbers of the components below.
fn step_digits<E: BinaryPlaces, F: BinaryPlaces>(
    relation: PairRelation,
    first: &E,
    second: &F,
    at: usize,
    state: &mut [u64],
)
    requires block { length state.old ≤ L1_BLOCK_WORDS }
    requires base { F.base_of second.now ≡ E.base_of first.now }
    requires within { at + length state.old ≤ word_count (length (E.digits first.now)) }
    requires same { length (F.digits second.now) ≡ length (E.digits first.now) }
    ensures long { length state.new ≡ length state.old }
    ensures bits { (p : ℕ) → p < 64 * length state.old →
        64 * at + p < length (E.digits first.now) → bit_of state.new p
        ≡ relation_step relation (bit_of state.old p)
        (slice_index (E.digits first.now) (64 * at + p))
        (slice_index (F.digits second.now) (64 * at + p)) }
{
    // The proof takes from this that the digits of the second component are below the base too.
    prove!(second.base() == first.base());
    let (mut digits, mut other) = ([0; L1_BLOCK_WORDS], [0; L1_BLOCK_WORDS]);
    let digits = &mut digits[..state.len()];
    let other = &mut other[..state.len()];
    'places: for k in 0..place_count(first.base()) {
        first.place_span(k, at, digits);
        second.place_span(k, at, other);
        relation.step(digits, other, state);
    }
}
