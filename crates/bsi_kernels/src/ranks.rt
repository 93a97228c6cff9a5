//! Finds the number of the row of a given rank in a selection, and all rows of this number (`rows_of_rank`), by binary
//! places from the most significant down.
//!
//! A step narrows the rows by the place of the step before, and at once counts those that are clear in its own. Where few
//! words have a row, it goes over these alone. Otherwise it passes over cache lines that have no row any more, and reads
//! nothing else there.

ghost use Rattle.std.specs.Prelude.{◌≡◌, ℕ, List, ◌+◌, ◌*◌, ◌^◌, ◌≤◌, ◌<◌, ◌&&◌, false, if◌then◌else◌, length, not, slice_index, sum_by, count_by, count_ones, IfSome};
ghost use Rattle.std.specs.Simd.Lanes.{zip2};
ghost use Rattle.bsi_bits.specs.BitList.{max_words, without};
ghost use Rattle.bsi_bits.specs.BitLists.{bits_at};
ghost use Rattle.bsi_bits.specs.Packed.{bits_of, IsPacked};
ghost use Rattle.bsi_kernels.specs.Listing.{AreListed};
ghost use Rattle.bsi_kernels.specs.Places.{has_place, max_places, IsEncoded};
ghost use Rattle.bsi_kernels.specs.Ranks.{narrowed_word, IsRankedRows};

use bsi_bits::lanes::{LINE_WORDS, is_clear};
use bsi_bits::{Bits, MAX_LEN, know_fits};
use listing::{Listed, list_words};
use std::simd::u64x8;

mod listing;

/// The rows that have the number of a rank, that number, and the rank of its row among them.
#[derive(Drop)]
pub struct RankedRows {
    /// The number.
    pub number: u64,
    /// The rank among the rows of this number, from 0.
    pub rank: u64,
    /// The rows.
    pub rows: Bits,
}

/// Finds the number of the row of rank `rank`, from 0, among the rows of a selection in order of their numbers, and
/// returns the rows that have this number. `places` has a vector for each binary place of the numbers, the least first.
pub fn rows_of_rank(places: &[Bits], rank: u64, selection: Bits) -> RankedRows
    requires some { 0 < length places.now }
    requires few { length places.now ≤ max_places }
    requires same { (k : ℕ) → k < length places.now →
        length (bits_at places.now k) ≡ length selection.bits }
    requires there { rank < count_by (λ b. b) selection.bits }
    ensures ranked { (numbers : List ℕ) → IsEncoded has_place places.now numbers →
        ((k : ℕ) → slice_index numbers k < 2 ^ length places.now) →
        length numbers ≡ length selection.bits →
        IsRankedRows rank selection.bits numbers result.number result.rank result.rows.bits }
    ensures below { result.number < 2 ^ length places.now }
{
    let len = selection.len();
    let mut last = places.len() - 1;
    let mut choice = choose(rank, count_clear(&selection, &places[last]));
    let mut number = 0;
    let mut rows = selection.into_words();
    let listed = list_words(&rows, rank);
    'places: while last > 0 {
        let clear = narrow(
            &mut rows,
            &listed,
            &places[last],
            choice.is_set,
            &places[last - 1],
        );
        number = number * 2 + u64::from(choice.is_set);
        choice = choose(choice.rank, clear);
        last -= 1;
    }
    // No place is next, so the count is of no use.
    narrow(&mut rows, &listed, &places[0], choice.is_set, &places[0]);
    RankedRows {
        number: number * 2 + u64::from(choice.is_set),
        rank: choice.rank,
        rows: Bits::from_words(rows, len),
    }
}

/// A binary place of the row of a rank, and the rank among the rows that have that place.
#[derive(Clone, Copy)]
struct Choice {
    is_set: bool,
    rank: u64,
}

/// Chooses the binary place of the row of a rank. The rank counts from 0 among rows of which `clear` have the place
/// clear, and these come first.
fn choose(rank: u64, clear: u64) -> Choice
    ensures rank { rank ≡ (if result.is_set then clear else 0) + result.rank }
    ensures clear { result.is_set ≡ false → result.rank < clear }
{
    if rank < clear {
        Choice {
            is_set: false,
            rank,
        }
    } else {
        Choice {
            is_set: true,
            rank: rank - clear,
        }
    }
}

/// Returns how many rows of a selection have a binary place clear.
fn count_clear(selection: &Bits, place: &Bits) -> u64
    requires { length selection.now.bits ≡ length place.now.bits }
    ensures { result ≡ count_by (λ b. b) (zip2 without selection.now.bits place.now.bits) }
{
    // The proof takes from this that there are at most 2^32 rows.
    prove!(selection.len() <= MAX_LEN);
    let (words, others) = (selection.words(), place.words());
    know_fits(words);
    know_fits(others);
    count_words(words, others)
}

/// Counts in words as `count_clear` does. It passes over lines that have no row.
fn count_words(words: &[u64], others: &[u64]) -> u64
    requires few { length words.now ≤ max_words }
    requires same { length others.now ≡ length words.now }
    ensures { result ≡ sum_by count_ones (zip2 (narrowed_word false) words.now others.now) }
{
    let whole = words.len() / LINE_WORDS;
    let mut clear = 0u64;
    'lines: for k in 0..whole {
        let at = LINE_WORDS * k;
        let rows = u64x8::from_slice(&words[at..]);
        if is_clear(rows.as_array()) {
            continue;
        }
        clear += ones_in(words_without(rows, u64x8::from_slice(&others[at..])));
    }
    'words: for i in LINE_WORDS * whole..words.len() {
        clear += u64::from((words[i] & !others[i]).count_ones());
    }
    clear
}

/// Keeps those of the chosen rows that have a binary place set or, unless `is_set`, those that have it clear. Returns
/// how many of them have the next place clear.
fn narrow(
    chosen: &mut [u64],
    listed: &Option<Listed>,
    place: &Bits,
    is_set: bool,
    next: &Bits,
) -> u64
    requires packed { IsPacked (length place.now.bits) chosen.old }
    requires listed { IfSome listed.now (λ l.
        AreListed (length chosen.old) l.indices l.count chosen.old) }
    requires same { length next.now.bits ≡ length place.now.bits }
    ensures packed { IsPacked (length place.now.bits) chosen.new }
    ensures listed { IfSome listed.now (λ l.
        AreListed (length chosen.new) l.indices l.count chosen.new) }
    ensures chosen { bits_of (length place.now.bits) chosen.new
        ≡ zip2 (λ f b. f && (if is_set then b else not b))
        (bits_of (length place.now.bits) chosen.old) place.now.bits }
    ensures clear { result ≡ count_by (λ b. b)
        (zip2 without (bits_of (length place.now.bits) chosen.new) next.now.bits) }
{
    let (words, others) = (place.words(), next.words());
    know_fits(words);
    know_fits(others);
    narrow_words(chosen, listed, words, is_set, others)
}

/// Narrows words as `narrow` does: those that are listed, or all.
fn narrow_words(
    chosen: &mut [u64],
    listed: &Option<Listed>,
    words: &[u64],
    is_set: bool,
    next: &[u64],
) -> u64
    requires few { length chosen.old ≤ max_words }
    requires same { length words.now ≡ length chosen.old }
    requires same_next { length next.now ≡ length chosen.old }
    requires listed { IfSome listed.now (λ l.
        AreListed (length chosen.old) l.indices l.count chosen.old) }
    ensures chosen { chosen.new ≡ zip2 (narrowed_word is_set) chosen.old words.now }
    ensures clear { result ≡ sum_by count_ones (zip2 (narrowed_word false) chosen.new next.now) }
    ensures listed { IfSome listed.now (λ l.
        AreListed (length chosen.new) l.indices l.count chosen.new) }
{
    match listed {
        Some(listed) => narrow_listed(chosen, listed, words, is_set, next),
        None => narrow_all(chosen, words, is_set, next),
    }
}

/// Narrows the words that are listed. The others have no chosen row.
fn narrow_listed(
    chosen: &mut [u64],
    listed: &Listed,
    words: &[u64],
    is_set: bool,
    next: &[u64],
) -> u64
    requires few { length chosen.old ≤ max_words }
    requires same { length words.now ≡ length chosen.old }
    requires same_next { length next.now ≡ length chosen.old }
    requires listed { AreListed (length chosen.old) listed.now.indices listed.now.count chosen.old }
    ensures chosen { chosen.new ≡ zip2 (narrowed_word is_set) chosen.old words.now }
    ensures clear { result ≡ sum_by count_ones (zip2 (narrowed_word false) chosen.new next.now) }
{
    let mut clear = 0u64;
    'listed: for i in 0..listed.count {
        let at = listed.indices[i] as usize;
        let narrowed = narrow_word(chosen[at], words[at], is_set);
        chosen[at] = narrowed;
        clear += u64::from((narrowed & !next[at]).count_ones());
    }
    clear
}

/// Narrows all words. It passes over lines that have no chosen row any more.
fn narrow_all(chosen: &mut [u64], words: &[u64], is_set: bool, next: &[u64]) -> u64
    requires few { length chosen.old ≤ max_words }
    requires same { length words.now ≡ length chosen.old }
    requires same_next { length next.now ≡ length chosen.old }
    ensures chosen { chosen.new ≡ zip2 (narrowed_word is_set) chosen.old words.now }
    ensures clear { result ≡ sum_by count_ones (zip2 (narrowed_word false) chosen.new next.now) }
{
    let whole = chosen.len() / LINE_WORDS;
    let mut clear = 0u64;
    'lines: for k in 0..whole {
        let at = LINE_WORDS * k;
        let rows = u64x8::from_slice(&chosen[at..]);
        if is_clear(rows.as_array()) {
            continue;
        }
        let narrowed = narrow_line(rows, u64x8::from_slice(&words[at..]), is_set);
        narrowed.copy_to_slice(&mut chosen[at..]);
        clear += ones_in(words_without(narrowed, u64x8::from_slice(&next[at..])));
    }
    'words: for i in LINE_WORDS * whole..chosen.len() {
        let narrowed = narrow_word(chosen[i], words[i], is_set);
        chosen[i] = narrowed;
        clear += u64::from((narrowed & !next[i]).count_ones());
    }
    clear
}

/// Returns those rows of a word that are set in another one or, unless `is_set`, those that are clear there.
fn narrow_word(word: u64, other: u64, is_set: bool) -> u64
    ensures { result ≡ narrowed_word is_set word other }
{
    if is_set { word & other } else { word & !other }
}

/// Returns the rows of a line that are set in another one or, unless `is_set`, those that are clear there.
fn narrow_line(words: u64x8, others: u64x8, is_set: bool) -> u64x8
    ensures { result ≡ zip2 (narrowed_word is_set) words others }
{
    if is_set {
        return words & others;
    }
    words_without(words, others)
}

/// Returns the rows of a line that are clear in another one. Three proofs take from its clause what each word keeps.
fn words_without(words: u64x8, others: u64x8) -> u64x8
    ensures { result ≡ zip2 (narrowed_word false) words others }
{
    words & !others
}

/// Returns the number of ones in a line. It counts each word by one instruction.
fn ones_in(words: u64x8) -> u64
    ensures ones { result ≡ sum_by count_ones words }
    ensures few { result ≤ 64 * LINE_WORDS }
{
    let [a, b, c, d, e, f, g, h] = words.to_array();
    let first = a.count_ones() + b.count_ones() + c.count_ones() + d.count_ones();
    let last = e.count_ones() + f.count_ones() + g.count_ones() + h.count_ones();
    (first + last) as u64
}
