//! The numbers of 64 rows, turned into words, one for each binary place, and back.

ghost use Rattle.std.specs.Prelude.{◌≡◌, ℕ, ◌+◌, ◌-◌, ◌*◌, ◌/◌, ◌%◌, ◌<◌, ◌≤◌, length, slice_index};
ghost use Rattle.std.specs.Int.{bit_at};
ghost use Rattle.bsi_bits.specs.BitList.{max_block, word_count};
ghost use Rattle.bsi_bits.specs.BitLists.{bits_at};
ghost use Rattle.bsi_bits.specs.Packed.{end_of_u64};
ghost use Rattle.bsi_kernels.specs.Places.{max_places};
ghost use Rattle.bsi_slices.specs.Exchanges.{across, IsLow};
ghost use Rattle.bsi_slices.specs.Slices.{number};

use bsi_bits::{Bits, MAX_BLOCK, know_fits};

/// Exchanges the rows and the places of 64 words: place `k` of word `r` becomes place `r` of word `k`. The number of a
/// row and that of a place have six binary places each, and each step exchanges those of one weight (Warren 2002).
pub fn transpose(words: &mut [u64; MAX_BLOCK])
    ensures long { length words.new ≡ max_block }
    ensures fits { (k : ℕ) → slice_index words.new k < end_of_u64 }
    ensures transposed { (k r : ℕ) → k < max_block → r < max_block →
        bit_at (slice_index words.new k) r ≡ bit_at (slice_index words.old r) k }
{
    exchange(words, 32, 0x0000_0000_ffff_ffff);
    exchange(words, 16, 0x0000_ffff_0000_ffff);
    exchange(words, 8, 0x00ff_00ff_00ff_00ff);
    exchange(words, 4, 0x0f0f_0f0f_0f0f_0f0f);
    exchange(words, 2, 0x3333_3333_3333_3333);
    exchange(words, 1, 0x5555_5555_5555_5555);
    know_fits(words);
}

/// Exchanges the binary place of weight `s` of the row number with that of the place number. `low` has those places set
/// whose own number has a 0 there.
fn exchange(words: &mut [u64; MAX_BLOCK], s: usize, low: u64)
    requires weight { (1 ≤ s) × (s ≤ 32) × (2 * s * (32 / s) ≡ max_block) }
    requires low { IsLow s low }
    ensures long { length words.new ≡ max_block }
    ensures exchanged { (k r : ℕ) → k < max_block → r < max_block →
        bit_at (slice_index words.new k) r
        ≡ bit_at (slice_index words.old (across s k r)) (across s r k) }
{
    'runs: for p in 0..32 / s {
        exchange_run(words, 2 * s * p, s, low);
    }
}

/// Exchanges that place, as `exchange` does, for the `s` rows from `from` on, whose number has a 0 there, and for the
/// `s` rows after them, whose number has a 1 there.
fn exchange_run(words: &mut [u64; MAX_BLOCK], from: usize, s: usize, low: u64)
    requires within { (1 ≤ s) × (from + 2 * s ≤ max_block) }
    requires low { IsLow s low }
    ensures long { length words.new ≡ max_block }
    ensures first { (q r : ℕ) → q < s → r < max_block →
        bit_at (slice_index words.new (from + q)) r
        ≡ bit_at (slice_index words.old (from + q + s * (r / s % 2))) (r - s * (r / s % 2)) }
    ensures second { (q r : ℕ) → q < s → r < max_block →
        bit_at (slice_index words.new (from + s + q)) r
        ≡ bit_at (slice_index words.old (from + q + s * (r / s % 2))) (r - s * (r / s % 2) + s) }
    ensures before { (k : ℕ) → k < from → slice_index words.new k ≡ slice_index words.old k }
    ensures after { (k : ℕ) → from + 2 * s ≤ k →
        slice_index words.new k ≡ slice_index words.old k }
{
    'rows: for k in from..from + s {
        let (first, second) = (words[k], words[k + s]);
        let differing = (first >> s ^ second) & low;
        words[k] = first ^ differing << s;
        words[k + s] = second ^ differing;
    }
}

/// Writes the numbers of the 64 rows from row `64 * at` on. `places` has a vector for each binary place of the numbers,
/// the least first.
pub fn numbers_by_places(places: &[Bits], at: usize, numbers: &mut [u64; MAX_BLOCK])
    requires few { length places.now ≤ max_places }
    requires within { (k : ℕ) → k < length places.now →
        at < word_count (length (bits_at places.now k)) }
    ensures long { length numbers.new ≡ max_block }
    ensures numbers { (r : ℕ) → r < max_block →
        slice_index numbers.new r ≡ number places.now (64 * at + r) }
{
    numbers.fill(0);
    'places: for (k, place) in places.iter().enumerate() {
        numbers[k] = place.words()[at];
    }
    transpose(numbers);
}
