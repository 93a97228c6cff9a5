//! The numbers of some rows, read at once by the binary places of their digits: as numbers, or place by place.

ghost use Rattle.std.specs.Prelude.{◌≡◌, ℕ, ◌+◌, ◌*◌, ◌<◌, ◌≤◌, length, slice_index};
ghost use Rattle.bsi_bits.specs.BitList.{max_block, word_count};
ghost use Rattle.bsi_bits.specs.Packed.{bit_of, end_of_u64};
ghost use Rattle.bsi_columns.specs.Extremes.{number_at};
ghost use Rattle.bsi_columns.specs.NumberPlaces.{IsNumberAt};
ghost use Rattle.bsi_slices.specs.Blocks.{AreNumbersFrom};
ghost use Rattle.bsi_kernels.specs.Places.{has_place};

use crate::BinaryPlaces;
use crate::decomposed::Decomposed;
use crate::number_places::{REGISTER_BLOCK_WORDS, add_times};
use bsi_bits::MAX_BLOCK;
use bsi_components::place_count;
use bsi_slices::transposing::transpose;

impl<E: BinaryPlaces> Decomposed<E> {
    /// Writes the numbers of the 64 rows from row `64 * at` on, and 0 for a null. What it writes past the last row is
    /// unspecified. It takes no memory.
    pub fn numbers_into(&self, at: usize, numbers: &mut [u64; MAX_BLOCK])
        requires { at < word_count (length self.now.entries) }
        ensures long { length numbers.new ≡ max_block }
        ensures numbers { AreNumbersFrom self.now.entries (64 * at) numbers.new }
    {
        numbers.fill(0);
        let mut digits = [0; MAX_BLOCK];
        let bases = self.bases();
        'components: for i in (0..bases.len()).rev() {
            digits_into(self.component(i), at, &mut digits);
            push_digit(u64::from(bases.base(i)), &digits, numbers);
        }
    }

    /// Writes the binary places of the numbers of a block of so many words. The first word stands for the 64 rows from
    /// row `64 * at` on. A null row counts as 0. Of a number that does not fit, the places that there are. `above` is room
    /// for as many places.
    pub(crate) fn places_into(
        &self,
        at: usize,
        words: usize,
        above: &mut [[u64; REGISTER_BLOCK_WORDS]],
        places: &mut [[u64; REGISTER_BLOCK_WORDS]],
    )
        requires block { words ≤ REGISTER_BLOCK_WORDS }
        requires room { length above.old ≡ length places.old }
        requires within { at + words ≤ word_count (length self.now.entries) }
        ensures long { length places.new ≡ length places.old }
        ensures numbers { (p : ℕ) → p < 64 * words → 64 * at + p < length self.now.entries →
            IsNumberAt places.new p (number_at self.now.entries (64 * at + p)) }
    {
        let bases = self.bases();
        let top = bases.len() - 1;
        digit_places(self.component(top), at, words, places);
        'components: for i in (0..top).rev() {
            above.copy_from_slice(places);
            digit_places(self.component(i), at, words, places);
            add_times(above, bases.base(i), places);
        }
    }
}

/// Writes the binary places of the digits of a block of so many words.
fn digit_places<E: BinaryPlaces>(
    component: &E,
    at: usize,
    words: usize,
    places: &mut [[u64; REGISTER_BLOCK_WORDS]],
)
    requires block { words ≤ REGISTER_BLOCK_WORDS }
    requires within { at + words ≤ word_count (length (E.digits component.now)) }
    ensures long { length places.new ≡ length places.old }
    ensures digits { (p : ℕ) → p < 64 * words → 64 * at + p < length (E.digits component.now) →
        IsNumberAt places.new p (slice_index (E.digits component.now) (64 * at + p)) }
{
    'places: for k in 0..places.len() {
        digit_place(component, k, at, words, &mut places[k]);
    }
}

/// Writes a binary place of those digits.
fn digit_place<E: BinaryPlaces>(
    component: &E,
    k: usize,
    at: usize,
    words: usize,
    place: &mut [u64; REGISTER_BLOCK_WORDS],
)
    requires block { words ≤ REGISTER_BLOCK_WORDS }
    requires within { at + words ≤ word_count (length (E.digits component.now)) }
    ensures { (p : ℕ) → p < 64 * words → 64 * at + p < length (E.digits component.now) →
        bit_of place.new p ≡ has_place k (slice_index (E.digits component.now) (64 * at + p)) }
{
    if k < place_count(component.base()) {
        component.place_span(k, at, &mut place[..words]);
    } else {
        place.fill(0);
    }
}

/// Writes the digits of the 64 rows from row `64 * at` on. What it writes past the last row is unspecified.
fn digits_into<E: BinaryPlaces>(component: &E, at: usize, digits: &mut [u64; MAX_BLOCK])
    requires { at < word_count (length (E.digits component.now)) }
    ensures long { length digits.new ≡ max_block }
    ensures digits { (r : ℕ) → r < max_block → 64 * at + r < length (E.digits component.now) →
        slice_index digits.new r ≡ slice_index (E.digits component.now) (64 * at + r) }
{
    digits.fill(0);
    'places: for k in 0..place_count(component.base()) {
        digits[k] = component.place_word(k, at);
    }
    transpose(digits);
}

/// Appends to each number a digit under a base, the least significant one so far. A number past 64 bits, which no row
/// has, is cut.
fn push_digit(base: u64, digits: &[u64; MAX_BLOCK], numbers: &mut [u64; MAX_BLOCK])
    ensures long { length numbers.new ≡ max_block }
    ensures numbers { (r : ℕ) → r < max_block →
        slice_index numbers.old r * base + slice_index digits.now r < end_of_u64 →
        slice_index numbers.new r
        ≡ slice_index numbers.old r * base + slice_index digits.now r }
{
    'rows: for r in 0..MAX_BLOCK {
        numbers[r] = numbers[r].wrapping_mul(base).wrapping_add(digits[r]);
    }
}
