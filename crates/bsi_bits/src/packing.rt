//! Appends bits and words to packed words, and clears the bits past the last one.

ghost use Rattle.std.specs.Prelude.{◌≡◌, ℕ, List, Bool, true, ◌+◌, ◌*◌, ◌%◌, ◌^◌, ◌≤◌, ◌<◌, [], ◌∷◌, ◌++◌, length, slice_index, vec_len, vec_capacity};
ghost use Rattle.bsi_bits.specs.BitList.{max_block, max_len, word_count};
ghost use Rattle.bsi_bits.specs.Packed.{bits_of, end_of_u64, IsPacked};

/// Clears the places past the first `n` bits.
pub fn trim(words: &mut Vec<u64>, n: u64)
    requires within { n ≤ max_len }
    requires few { length words.old.items ≡ word_count n }
    ensures packed { IsPacked n words.new.items }
    ensures bits { bits_of n words.new.items ≡ bits_of n words.old.items }
    ensures len { vec_len words.new ≡ vec_len words.old }
    ensures capacity { vec_capacity words.new ≡ vec_capacity words.old }
{
    let used = n % 64;
    if used != 0 {
        let last = (n / 64) as usize;
        words[last] &= (1 << used) - 1;
    }
}

/// Appends a bit to `n` packed bits.
pub fn push_bit(words: &mut Vec<u64>, n: u64, bit: bool)
    requires below { n < max_len }
    requires packed { IsPacked n words.old.items }
    requires room { n % 64 ≡ 0 → vec_len words.old < vec_capacity words.old }
    ensures packed { IsPacked (n + 1) words.new.items }
    ensures bits { bits_of (n + 1) words.new.items ≡ bits_of n words.old.items ++ bit ∷ [] }
    ensures capacity { vec_capacity words.new ≡ vec_capacity words.old }
{
    let place = n % 64;
    if place == 0 {
        words.push_reserved(bit as u64);
    } else {
        let last = (n / 64) as usize;
        words[last] |= (bit as u64) << place;
    }
}

/// Sets the last of `n` packed bits.
pub fn set_last(words: &mut Vec<u64>, n: u64)
    requires some { 0 < n }
    requires packed { IsPacked n words.old.items }
    ensures packed { IsPacked n words.new.items }
    ensures bits { (front : List Bool) (bit : Bool) → bits_of n words.old.items ≡ front ++ bit ∷ [] →
        bits_of n words.new.items ≡ front ++ true ∷ [] }
    ensures capacity { vec_capacity words.new ≡ vec_capacity words.old }
{
    let place = n - 1;
    words[(place / 64) as usize] |= 1 << (place % 64);
}

/// Appends the first `count` binary places of a word to `n` packed bits, least significant first. They end in the last
/// word, or in one after it.
pub fn push_word(words: &mut Vec<u64>, n: u64, word: u64, count: u64)
    requires within { n + count ≤ max_len }
    requires few { count ≤ max_block }
    requires clear { word < 2 ^ count }
    requires packed { IsPacked n words.old.items }
    requires room { n + count ≤ 64 * vec_capacity words.old }
    ensures packed { IsPacked (n + count) words.new.items }
    ensures bits { bits_of (n + count) words.new.items
        ≡ bits_of n words.old.items ++ bits_of count (word ∷ []) }
    ensures capacity { vec_capacity words.new ≡ vec_capacity words.old }
{
    let place = n % 64;
    if place == 0 {
        if count > 0 {
            words.push_reserved(word);
        }
        return;
    }
    let last = (n / 64) as usize;
    words[last] |= word << place;
    if place + count > 64 {
        words.push_reserved(word >> (64 - place));
    }
}

/// Appends the `count` packed bits of `more` to `n` packed bits. Where a word begins after the `n` bits, it copies the
/// words at once. Else it carries the upper places of each word on to the next.
pub fn push_all(words: &mut Vec<u64>, n: u64, more: &[u64], count: u64)
    requires within { n + count ≤ max_len }
    requires packed { IsPacked n words.old.items }
    requires more_packed { IsPacked count more.now }
    requires room { n + count ≤ 64 * vec_capacity words.old }
    ensures packed { IsPacked (n + count) words.new.items }
    ensures bits { bits_of (n + count) words.new.items
        ≡ bits_of n words.old.items ++ bits_of count more.now }
    ensures capacity { vec_capacity words.old ≤ vec_capacity words.new }
{
    let place = n % 64;
    if place == 0 {
        // There is room, so no memory is asked for.
        words.extend_from_slice(more).unwrap();
        return;
    }
    let mut carried = words.pop().unwrap();
    'words: for word in more {
        words.push_reserved(carried | *word << place);
        carried = *word >> (64 - place);
    }
    if words.len() < (n + count).div_ceil(64) as usize {
        words.push_reserved(carried);
    }
}

/// Does nothing when the program runs. Its clause tells a proof that each word is below 2^64, which the words behind a
/// shared reference do not tell by themselves; it is public for the proofs of the crates above.
#[doc(hidden)]
pub fn know_fits(words: &[u64])
    ensures { (k : ℕ) → slice_index words.now k < end_of_u64 }
{}
