//! The not-null bitmap of a column, which says which rows have a number, and whether any row is null (`NotNull`).
//!
//! The flag for nulls is set by the first null, and cleared with all rows, since a single row is never removed.

ghost use Rattle.std.specs.Prelude.{◌≡◌, ◌↔◌, ℕ, ◌+◌, ◌*◌, ◌^◌, ◌≤◌, ◌<◌, ◌&&◌, [], ◌∷◌, ◌++◌, length, false, slice_index_or, IsTrue, IfOk, IsOk, OnOk, OnErr};
ghost use Rattle.std.specs.Int.{bit_at};
ghost use Rattle.bsi_bits.specs.BitList.{max_block, max_len, word_count};
ghost use Rattle.bsi_bits.specs.Packed.{bit_of, bits_of};

use crate::NoMemory;
use bsi_bits::Bits;
use bsi_kernels::spans;
use std::alloc::Global;
use std::marker::Model;

/// The bitmap of the rows that have a number.
#[derive(Drop)]
pub struct NotNull {
    bits: Bits,
    // This is false only if no row is null.
    has_null: bool,
}

// Clauses see the bits and for how many more there is room.
impl Model for NotNull {
    ghost use Rattle.bsi_bits.specs.BitList.{BitList};
    ghost use Rattle.bsi_slices.specs.NotNull.{IsNullFlag};

    ghost Value = { BitList };

    ghost view = { λ n. n.bits };

    ghost invariant = { λ n. IsNullFlag n.has_null n.bits.bits };
}

impl NotNull {
    /// Makes an empty bitmap. It takes no memory until it grows.
    pub fn new(alloc: Global) -> NotNull
        ensures { result.bits ≡ [] }
    {
        NotNull {
            bits: Bits::new(alloc),
            has_null: false,
        }
    }

    /// Makes the bitmap of these bits. It takes no memory.
    pub fn from_bits(bits: Bits) -> NotNull
        ensures { result ≡ bits }
    {
        let has_null = bits.count() < bits.len();
        NotNull { bits, has_null }
    }

    /// Returns the bits, one for each row.
    pub fn bits(&self) -> &Bits
        ensures { result.now ≡ self.now }
    {
        &self.bits
    }

    /// Returns the number of rows, at most 2^32. At that length there is no room for one more.
    pub fn len(&self) -> u64
        ensures len { result ≡ length self.now.bits }
        ensures within { result ≤ max_len }
        ensures full { length self.now.bits + self.now.room ≤ max_len }
    {
        self.bits.len()
    }

    /// Returns whether there is no row.
    pub fn is_empty(&self) -> bool
        ensures { IsTrue result ↔ (self.now.bits ≡ []) }
    {
        self.bits.is_empty()
    }

    /// Returns how many more rows there is room for: to append these takes no memory. There are never more than 2^32 in
    /// all.
    pub fn room(&self) -> u64
        ensures room { result ≡ self.now.room }
        ensures within { length self.now.bits + result ≤ max_len }
    {
        self.bits.room()
    }

    /// Makes room for `more` further rows, as `Bits::reserve` does for bits.
    pub fn reserve(&mut self, more: u64) -> Result<(), NoMemory>
        requires { length self.old.bits + more ≤ max_len }
        ensures bits { self.new.bits ≡ self.old.bits }
        ensures ok { OnOk result (more ≤ self.new.room) }
        ensures no_less { self.old.room ≤ self.new.room }
        ensures err { OnErr result (self.new ≡ self.old) }
        ensures succeeds { more ≤ self.old.room → IsOk result }
    {
        self.bits.reserve(more)
    }

    /// Removes all rows. It takes no memory and keeps the room.
    pub fn clear(&mut self)
        ensures bits { self.new.bits ≡ [] }
        ensures room { length self.old.bits + self.old.room ≤ self.new.room }
    {
        self.bits.clear();
        self.has_null = false;
    }

    /// Appends a row, which has a number or not, into room that is already there.
    pub fn push_reserved(&mut self, is_number: bool)
        requires { 0 < self.old.room }
        ensures bits { self.new.bits ≡ self.old.bits ++ is_number ∷ [] }
        ensures room { self.new.room + 1 ≡ self.old.room }
    {
        self.bits.push_reserved(is_number);
        if !is_number {
            self.has_null = true;
        }
    }

    /// Appends a row for each of the first `count` binary places of a word, the least one first, into room that is
    /// already there. The other places are 0.
    pub fn push_word_reserved(&mut self, word: u64, count: u64)
        requires room { count ≤ self.old.room }
        requires few { count ≤ max_block }
        requires clear { word < 2 ^ count }
        ensures bits { self.new.bits ≡ self.old.bits ++ bits_of count (word ∷ []) }
        ensures room { self.new.room + count ≡ self.old.room }
    {
        self.bits.push_word_reserved(word, count);
        if !begins_with_ones(word, count) {
            self.has_null = true;
        }
    }

    /// Appends all rows of another bitmap, in their order, into room that is already there.
    pub fn push_all_reserved(&mut self, other: &NotNull)
        requires { length other.now.bits ≤ self.old.room }
        ensures bits { self.new.bits ≡ self.old.bits ++ other.now.bits }
        ensures room { self.old.room ≤ self.new.room + length other.now.bits }
    {
        self.bits.push_all_reserved(&other.bits);
        self.has_null |= other.has_null;
    }

    /// Makes a second bitmap of the same rows.
    pub fn copy(&self) -> Result<NotNull, NoMemory>
        ensures { IfOk result (λ n. n.bits ≡ self.now.bits) }
    {
        Ok(NotNull {
            bits: self.bits.copy()?,
            has_null: self.has_null,
        })
    }

    /// Keeps in a span of words the rows that have a number. The first word stands for the 64 rows from row `64 * at`
    /// on. It clears bits past the last row. If no row is null, it reads one word alone, that of the last bits.
    pub fn and_assign(&self, at: usize, span: &mut [u64])
        requires { at + length span.old ≤ word_count (length self.now.bits) }
        ensures len { length span.new ≡ length span.old }
        ensures bits { (p : ℕ) → p < 64 * length span.old →
            bit_of span.new p ≡ (bit_of span.old p
            && slice_index_or self.now.bits (64 * at + p) false) }
    {
        if self.has_null {
            spans::and_assign(&self.bits, at, span);
        } else if !span.is_empty() {
            let words = self.bits.words();
            let last = span.len() - 1;
            span[last] &= words[at + last];
        }
    }
}

/// Returns true only if the first `count` binary places of a word are all 1.
fn begins_with_ones(word: u64, count: u64) -> bool
    requires { count ≤ max_block }
    ensures { IsTrue result → (i : ℕ) → i < count → bit_at word i ≡ 1 }
{
    word.trailing_ones() as u64 >= count
}
