//! The numbers of a block of rows by their binary places, for each place words with a bit for each row: how they are
//! read from slices, added and compared.
//!
//! An addition goes over the places from the least on, with a carry for each row (Rinfret, O'Neil and O'Neil 2001).

ghost use Rattle.std.specs.Prelude.{◌≡◌, ℕ, ◌+◌, ◌*◌, ◌<◌, ◌≤◌, ◌^◌, ◌&&◌, ◌||◌, length, if◌then◌else◌};
ghost use Rattle.bsi_bits.specs.BitList.{differ, word_count};
ghost use Rattle.bsi_columns.specs.Extremes.{number_at};
ghost use Rattle.bsi_bits.specs.Packed.{bit_of};
ghost use Rattle.bsi_slices.specs.PairRelations.{relation_holds};
ghost use Rattle.bsi_kernels.specs.Places.{has_place};
ghost use Rattle.bsi_columns.specs.NumberPlaces.{IsNumberAt};

use bsi_kernels::spans::assign;
use bsi_slices::{PairRelation, Slices};
use std::simd::Simd;

/// The words of a block. At most 64 places of both columns and as many of an addition take 24 KiB, so they stay in the
/// first cache.
pub(crate) const REGISTER_BLOCK_WORDS: usize = 16;

/// The most binary places of a number and of what is added to it.
pub(crate) const MAX_PLACES: usize = 64;

/// Returns so many binary places that a number is below two to their power.
pub(crate) fn places_of(number: u64) -> usize
    ensures few { result ≤ MAX_PLACES }
    ensures enough { number < 2 ^ result }
{
    (u64::BITS - number.leading_zeros()) as usize
}

/// Writes the binary places of the numbers of a block of so many words of a column of slices. The first word stands for
/// the 64 rows from row `64 * at` on. A null row counts as 0.
pub(crate) fn slice_places(
    column: &Slices,
    at: usize,
    words: usize,
    places: &mut [[u64; REGISTER_BLOCK_WORDS]],
)
    requires block { words ≤ REGISTER_BLOCK_WORDS }
    requires within { at + words ≤ word_count (length column.now.entries) }
    ensures long { length places.new ≡ length places.old }
    ensures numbers { (p : ℕ) → p < 64 * words → 64 * at + p < length column.now.entries →
        IsNumberAt places.new p (number_at column.now.entries (64 * at + p)) }
{
    'places: for k in 0..places.len() {
        slice_place(column, k, at, words, &mut places[k]);
    }
}

/// Writes a binary place of those numbers.
fn slice_place(
    column: &Slices,
    k: usize,
    at: usize,
    words: usize,
    place: &mut [u64; REGISTER_BLOCK_WORDS],
)
    requires block { words ≤ REGISTER_BLOCK_WORDS }
    requires within { at + words ≤ word_count (length column.now.entries) }
    ensures { (p : ℕ) → p < 64 * words → 64 * at + p < length column.now.entries →
        bit_of place.new p ≡ has_place k (number_at column.now.entries (64 * at + p)) }
{
    let width = column.width() as usize;
    if k < width {
        assign(column.slice(k as u32), at, &mut place[..words]);
    } else {
        place.fill(0);
    }
}

/// Writes for each row of a block whether its two numbers are in the relation.
pub(crate) fn relate_numbers(
    relation: PairRelation,
    first: &[[u64; REGISTER_BLOCK_WORDS]],
    second: &[[u64; REGISTER_BLOCK_WORDS]],
    state: &mut [u64; REGISTER_BLOCK_WORDS],
)
    requires same { length second.now ≡ length first.now }
    ensures { (p x y : ℕ) → p < 64 * REGISTER_BLOCK_WORDS → x < 2 ^ length first.now →
        y < 2 ^ length first.now → IsNumberAt first.now p x → IsNumberAt second.now p y →
        bit_of state.new p ≡ relation_holds relation x y }
{
    relation.begin(state);
    'places: for k in 0..first.len() {
        relation.step(&first[k], &second[k], state);
    }
}

/// Adds the same number to each of a block. Of a sum that does not fit, the places that there are.
pub(crate) fn add_each(number: u64, sums: &mut [[u64; REGISTER_BLOCK_WORDS]])
    requires few { length sums.old ≤ MAX_PLACES }
    ensures long { length sums.new ≡ length sums.old }
    ensures sums { (p x : ℕ) → p < 64 * REGISTER_BLOCK_WORDS → IsNumberAt sums.old p x →
        IsNumberAt sums.new p (x + number) }
{
    if number == 0 {
        return;
    }
    let mut carry = Simd::<u64, REGISTER_BLOCK_WORDS>::splat(0);
    'places: for k in 0..sums.len() {
        let word = if number >> k & 1 == 1 { u64::MAX } else { 0 };
        carry = add_place(&[word; REGISTER_BLOCK_WORDS], carry, &mut sums[k]);
    }
}

/// Adds to each number of a block so many times that of another block. Of a sum that does not fit, the places that there
/// are.
pub(crate) fn add_times(
    more: &[[u64; REGISTER_BLOCK_WORDS]],
    times: u32,
    sums: &mut [[u64; REGISTER_BLOCK_WORDS]],
)
    requires same { length more.now ≡ length sums.old }
    ensures long { length sums.new ≡ length sums.old }
    ensures sums { (p x y : ℕ) → p < 64 * REGISTER_BLOCK_WORDS → IsNumberAt more.now p x →
        IsNumberAt sums.old p y → IsNumberAt sums.new p (y + x * times) }
{
    'places: for k in 0..32 {
        if times >> k & 1 == 1 {
            add_raised(more, k, sums);
        }
    }
}

/// Adds to each number of a block that of another block times two to the power of `by`.
fn add_raised(
    more: &[[u64; REGISTER_BLOCK_WORDS]],
    by: usize,
    sums: &mut [[u64; REGISTER_BLOCK_WORDS]],
)
    requires same { length more.now ≡ length sums.old }
    ensures long { length sums.new ≡ length sums.old }
    ensures sums { (p x y : ℕ) → p < 64 * REGISTER_BLOCK_WORDS → IsNumberAt more.now p x →
        IsNumberAt sums.old p y → IsNumberAt sums.new p (y + x * 2 ^ by) }
{
    let mut carry = Simd::<u64, REGISTER_BLOCK_WORDS>::splat(0);
    'places: for k in by..sums.len() {
        carry = add_place(&more[k - by], carry, &mut sums[k]);
    }
}

/// Adds a binary place of numbers and the carry into it, and returns the carry out of it.
fn add_place(
    more: &[u64; REGISTER_BLOCK_WORDS],
    carry: Simd<u64, REGISTER_BLOCK_WORDS>,
    sum: &mut [u64; REGISTER_BLOCK_WORDS],
) -> Simd<u64, REGISTER_BLOCK_WORDS>
    ensures sum { (p : ℕ) → p < 64 * REGISTER_BLOCK_WORDS → bit_of sum.new p
        ≡ differ (differ (bit_of sum.old p) (bit_of carry p)) (bit_of more.now p) }
    ensures carry { (p : ℕ) → p < 64 * REGISTER_BLOCK_WORDS → bit_of result p
        ≡ (if bit_of more.now p then bit_of sum.old p || bit_of carry p
        else bit_of sum.old p && bit_of carry p) }
{
    // As lanes: the compiler takes a loop over so few words one by one.
    let (digits, other) = (Simd::from_array(*sum), Simd::from_array(*more));
    *sum = (digits ^ carry ^ other).to_array();
    digits & carry | (digits | carry) & other
}
