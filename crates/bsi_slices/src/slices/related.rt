//! Compares two columns of slices row by row, block by block and from the least significant slices up.
//!
//! A number is stored less its column's offset, so one of the two has an addend, which is added with a carry
//! (Rinfret, O'Neil and O'Neil 2001 add slices so).

ghost use Rattle.std.specs.Prelude.{◌≡◌, ℕ, ◌+◌, ◌*◌, ◌-◌, ◌/◌, ◌<◌, ◌≤◌, ◌^◌, ◌&&◌, length, slice_index_or, false};
ghost use Rattle.bsi_kernels.specs.Places.{max_places};
ghost use Rattle.bsi_bits.specs.BitList.{max_words, word_count};
ghost use Rattle.bsi_bits.specs.BitLists.{bits_at};
ghost use Rattle.bsi_bits.specs.Packed.{bit_of};
ghost use Rattle.bsi_digits.specs.Digits.{max_size};
ghost use Rattle.bsi_digits.specs.Comparisons.{compares};
ghost use Rattle.bsi_slices.specs.Related.{compares_numbers};
ghost use Rattle.bsi_slices.specs.Slices.{number};
ghost use Rattle.bsi_slices.specs.Spans.{IsIntersected};
ghost use Rattle.bsi_slices.specs.PairRelations.{relation_holds};

use crate::Op;
use crate::pair_relation::{PairRelation, add_place};
use bsi_bits::{Bits, know_fits, lanes};
use bsi_kernels::registers::words_of;

/// The most words of a block. Those of both columns, the state and the sums take 20 KiB, so they stay in the first cache.
const L1_BLOCK_WORDS: usize = 512;

/// A comparison of two numbers, and what is added to each of them before, at most 2^63.
#[derive(Clone, Copy)]
pub struct ColumnComparison {
    /// What is added to the first number.
    pub left_addend: u64,
    /// The comparison.
    pub op: Op,
    /// What is added to the second number.
    pub right_addend: u64,
}

/// Keeps in a span of words the rows whose numbers in two lists of slices compare as `comparison` says. The first word
/// stands for the 64 rows from row `64 * start` on.
pub(super) fn and_compare_columns(
    slices: &[Bits],
    comparison: ColumnComparison,
    others: &[Bits],
    start: usize,
    words: &mut [u64],
)
    requires few { (length slices.now ≤ max_places) × (length others.now ≤ max_places) }
    requires more { (comparison.left_addend < max_size) × (comparison.right_addend < max_size) }
    requires small { start + length words.old ≤ max_words }
    requires long { (i : ℕ) → i < length slices.now →
        start + length words.old ≤ word_count (length (bits_at slices.now i)) }
    requires others_long { (i : ℕ) → i < length others.now →
        start + length words.old ≤ word_count (length (bits_at others.now i)) }
    ensures { IsIntersected (λ r. compares_numbers comparison (number slices.now (64 * start + r))
        (number others.now (64 * start + r))) 0 (length words.old) words.old words.new }
{
    let len = words.len();
    'blocks: for k in 0..len.div_ceil(L1_BLOCK_WORDS) {
        let from = L1_BLOCK_WORDS * k;
        let block = &mut words[from..len.min(from + L1_BLOCK_WORDS)];
        and_compare_block(slices, comparison, others, start + from, block);
    }
}

/// Keeps those rows in a block. What is added to both numbers need not be, so one of them has an addend at most.
fn and_compare_block(
    slices: &[Bits],
    comparison: ColumnComparison,
    others: &[Bits],
    at: usize,
    words: &mut [u64],
)
    requires block { length words.old ≤ L1_BLOCK_WORDS }
    requires few { (length slices.now ≤ max_places) × (length others.now ≤ max_places) }
    requires more { (comparison.left_addend < max_size) × (comparison.right_addend < max_size) }
    requires long { (i : ℕ) → i < length slices.now →
        at + length words.old ≤ word_count (length (bits_at slices.now i)) }
    requires others_long { (i : ℕ) → i < length others.now →
        at + length words.old ≤ word_count (length (bits_at others.now i)) }
    ensures long { length words.new ≡ length words.old }
    ensures bits { (p : ℕ) → p < 64 * length words.old → bit_of words.new p
        ≡ (bit_of words.old p && compares_numbers comparison (number slices.now (64 * at + p))
        (number others.now (64 * at + p))) }
{
    let ColumnComparison {
        left_addend,
        op,
        right_addend,
    } = comparison;
    if left_addend < right_addend {
        and_compare_sums(
            others,
            right_addend - left_addend,
            mirror_op(op),
            slices,
            at,
            words,
        );
    } else {
        and_compare_sums(slices, left_addend - right_addend, op, others, at, words);
    }
}

/// Returns the comparison that says the same of two numbers once they change places.
fn mirror_op(op: Op) -> Op
    ensures { (x y : ℕ) → compares result y x ≡ compares op x y }
{
    match op {
        Op::Eq | Op::Ne => op,
        Op::Lt => Op::Gt,
        Op::Le => Op::Ge,
        Op::Gt => Op::Lt,
        Op::Ge => Op::Le,
    }
}

/// Keeps in a block the rows whose number in the first slices, and so much more, compares so with that in the second.
fn and_compare_sums(
    slices: &[Bits],
    more: u64,
    op: Op,
    others: &[Bits],
    at: usize,
    words: &mut [u64],
)
    requires block { length words.old ≤ L1_BLOCK_WORDS }
    requires few { (length slices.now ≤ max_places) × (length others.now ≤ max_places) }
    requires more { more < max_size }
    requires long { (i : ℕ) → i < length slices.now →
        at + length words.old ≤ word_count (length (bits_at slices.now i)) }
    requires others_long { (i : ℕ) → i < length others.now →
        at + length words.old ≤ word_count (length (bits_at others.now i)) }
    ensures long { length words.new ≡ length words.old }
    ensures bits { (p : ℕ) → p < 64 * length words.old → bit_of words.new p
        ≡ (bit_of words.old p && compares op (number slices.now (64 * at + p) + more)
        (number others.now (64 * at + p))) }
{
    let (relation, expected) = PairRelation::of(op);
    let mut buffer = no_rows();
    let state = &mut buffer[..words.len()];
    relate_rows(relation, slices, more, others, at, state);
    if expected {
        lanes::and(words, state);
    } else {
        know_fits(state);
        lanes::and_not(words, state);
    }
}

/// Writes for the rows of a block whether the sum of their number in the first slices and of the addend is in the
/// relation to that in the second.
fn relate_rows(
    relation: PairRelation,
    slices: &[Bits],
    more: u64,
    others: &[Bits],
    at: usize,
    state: &mut [u64],
)
    requires block { length state.old ≤ L1_BLOCK_WORDS }
    requires few { (length slices.now ≤ max_places) × (length others.now ≤ max_places) }
    requires more { more < max_size }
    requires long { (i : ℕ) → i < length slices.now →
        at + length state.old ≤ word_count (length (bits_at slices.now i)) }
    requires others_long { (i : ℕ) → i < length others.now →
        at + length state.old ≤ word_count (length (bits_at others.now i)) }
    ensures long { length state.new ≡ length state.old }
    ensures bits { (p : ℕ) → p < 64 * length state.old → bit_of state.new p
        ≡ relation_holds relation (number slices.now (64 * at + p) + more) (number others.now (64 * at + p)) }
{
    if more == 0 {
        relate_numbers(relation, slices, others, at, state);
    } else {
        relate_sums(relation, slices, more, others, at, state);
    }
}

/// Writes for the rows of a block whether their numbers are in the relation.
fn relate_numbers(
    relation: PairRelation,
    slices: &[Bits],
    others: &[Bits],
    at: usize,
    state: &mut [u64],
)
    requires block { length state.old ≤ L1_BLOCK_WORDS }
    requires few { (length slices.now ≤ max_places) × (length others.now ≤ max_places) }
    requires long { (i : ℕ) → i < length slices.now →
        at + length state.old ≤ word_count (length (bits_at slices.now i)) }
    requires others_long { (i : ℕ) → i < length others.now →
        at + length state.old ≤ word_count (length (bits_at others.now i)) }
    ensures long { length state.new ≡ length state.old }
    ensures bits { (p : ℕ) → p < 64 * length state.old → bit_of state.new p
        ≡ relation_holds relation (number slices.now (64 * at + p)) (number others.now (64 * at + p)) }
{
    let zeros = no_rows();
    let zeros = &zeros[..state.len()];
    relation.begin(state);
    'places: for place in 0..slices.len().max(others.len()) {
        let digits = digits_of(slices, place, at, zeros);
        let other = digits_of(others, place, at, zeros);
        relation.step(digits, other, state);
    }
}

/// Writes for the rows of a block whether the sums of a number and of the addend are in the relation.
fn relate_sums(
    relation: PairRelation,
    slices: &[Bits],
    more: u64,
    others: &[Bits],
    at: usize,
    state: &mut [u64],
)
    requires block { length state.old ≤ L1_BLOCK_WORDS }
    requires few { (length slices.now ≤ max_places) × (length others.now ≤ max_places) }
    requires more { more < max_size }
    requires long { (i : ℕ) → i < length slices.now →
        at + length state.old ≤ word_count (length (bits_at slices.now i)) }
    requires others_long { (i : ℕ) → i < length others.now →
        at + length state.old ≤ word_count (length (bits_at others.now i)) }
    ensures long { length state.new ≡ length state.old }
    ensures bits { (p : ℕ) → p < 64 * length state.old → bit_of state.new p
        ≡ relation_holds relation (number slices.now (64 * at + p) + more) (number others.now (64 * at + p)) }
{
    let (zeros, mut carry, mut sum) = (no_rows(), no_rows(), no_rows());
    let zeros = &zeros[..state.len()];
    let (carry, sum) = (&mut carry[..state.len()], &mut sum[..state.len()]);
    relation.begin(state);
    'places: for place in 0..places_of(slices.len(), more, others.len()) {
        let digits = digits_of(slices, place, at, zeros);
        let other = digits_of(others, place, at, zeros);
        add_place(digits, more >> place & 1 == 1, carry, sum);
        relation.step(sum, other, state);
    }
}

/// Returns the words of a block without a row.
fn no_rows() -> [u64; L1_BLOCK_WORDS]
    ensures long { length result ≡ L1_BLOCK_WORDS }
    ensures bits { (p : ℕ) → bit_of result p ≡ false }
{
    [0; L1_BLOCK_WORDS]
}

/// Returns so many binary places that the sums and the other numbers are below two to their power.
fn places_of(slices: usize, more: u64, others: usize) -> usize
    requires few { (slices ≤ max_places) × (others ≤ max_places) }
    requires more { more < max_size }
    ensures few { result ≤ 64 }
    ensures all { (slices ≤ result) × (others ≤ result) }
    ensures sums { 2 ^ slices + more ≤ 2 ^ result }
{
    let addend = (u64::BITS - more.leading_zeros()) as usize;
    slices.max(others).max(addend) + 1
}

/// Returns a binary place of the numbers of a block's rows, which is 0 where there is no slice for it. There are as many
/// zeros as words of the block.
fn digits_of<'a>(slices: &'a [Bits], place: usize, at: usize, zeros: &'a [u64]) -> &'a [u64]
    requires long { (i : ℕ) → i < length slices.now →
        at + length zeros.now ≤ word_count (length (bits_at slices.now i)) }
    requires zeros { (p : ℕ) → bit_of zeros.now p ≡ false }
    ensures long { length result.now ≡ length zeros.now }
    ensures bits { (p : ℕ) → p < 64 * length zeros.now →
        bit_of result.now p ≡ slice_index_or (bits_at slices.now place) (64 * at + p) false }
{
    if place >= slices.len() {
        return zeros;
    }
    let words = words_of(&slices[place]);
    &words[at..at + zeros.len()]
}
