//! Bit vectors of one length that grow together (`Bitmaps`), as those of a column do: one test for room serves all.

ghost use Rattle.std.specs.Prelude.{◌≡◌, ◌≢◌, ◌↔◌, ◌==◌, ℕ, ◌+◌, ◌%◌, ◌^◌, ◌≤◌, ◌<◌, Bool, List, false, true, [], ◌∷◌, ◌++◌, ◌-◌, length, min, slice_index, IfOk, IsOk, IsTrue, OnErr, OnOk};
ghost use Rattle.std.specs.Int.{bit_at};
ghost use Rattle.bsi_bits.specs.BitList.{max_block, max_len};
ghost use Rattle.bsi_bits.specs.BitLists.{bits_at, room_at, AreSame};
ghost use Rattle.bsi_bits.specs.Packed.{bits_of};

use crate::NoMemory;
use crate::bits::{Bits, MAX_LEN, room_to_make};
use std::alloc::Global;
use std::marker::Model;

/// Vectors of one length that grow together: a single test tells whether there is room, and if there is none, all grow
/// at once.
#[derive(Drop)]
pub struct Bitmaps {
    vectors: Vec<Bits>,
    // No vector has less.
    room: u64,
}

// Clauses see the vectors, and for how many more bits each has room.
impl Model for Bitmaps {
    ghost use Rattle.bsi_bits.specs.BitLists.{AreEven, BitLists};

    ghost Value = { BitLists };

    ghost view = { λ b. record { vectors = b.vectors.items; room = b.room } };

    ghost invariant = { λ b. AreEven b.vectors.items b.room };
}

impl Bitmaps {
    /// Makes `count` empty vectors, at least one.
    pub fn new(alloc: Global, count: usize) -> Result<Bitmaps, NoMemory>
        requires { 1 ≤ count }
        ensures count { IfOk result (λ made. length made.vectors ≡ count) }
        ensures empty { IfOk result (λ made. (j : ℕ) → bits_at made.vectors j ≡ []) }
    {
        let vectors = empty_each(alloc, count)?;
        Ok(Bitmaps { vectors, room: 0 })
    }

    /// Makes a list of these vectors, at least one and all of one length. It takes no memory.
    pub fn from_vectors(vectors: Vec<Bits>) -> Bitmaps
        requires some { 0 < length vectors.items }
        requires even { (j : ℕ) → j < length vectors.items →
            length (bits_at vectors.items j) ≡ length (bits_at vectors.items 0) }
        ensures { result.vectors ≡ vectors.items }
    {
        // The proof takes from this that there are at most 2^32 bits.
        prove!(vectors[0].len() <= MAX_LEN);
        Bitmaps { vectors, room: 0 }
    }

    /// Makes a second list of vectors with the same bits.
    pub fn copy(&self) -> Result<Bitmaps, NoMemory>
        ensures same { IfOk result (λ made. AreSame self.now.vectors made.vectors) }
    {
        let vectors = copy_each(&self.vectors)?;
        Ok(Bitmaps { vectors, room: 0 })
    }

    /// Lends the vectors.
    pub fn as_slice(&self) -> &[Bits]
        ensures vectors { result.now ≡ self.now.vectors }
        ensures some { 0 < length result.now }
        ensures even { (j : ℕ) → j < length result.now →
            length (bits_at result.now j) ≡ length (bits_at result.now 0) }
    {
        &self.vectors
    }

    /// Returns how many bits each vector has, at most 2^32.
    pub fn len(&self) -> u64
        ensures len { (j : ℕ) → j < length self.now.vectors →
            length (bits_at self.now.vectors j) ≡ result }
        ensures first { result ≡ length (bits_at self.now.vectors 0) }
        ensures within { result ≤ max_len }
    {
        self.vectors[0].len()
    }

    /// Returns whether the vectors have no bit.
    pub fn is_empty(&self) -> bool
        ensures { IsTrue result ↔ (bits_at self.now.vectors 0 ≡ []) }
    {
        self.vectors[0].is_empty()
    }

    /// Returns how many more bits can be appended to each vector without allocating memory.
    pub fn room(&self) -> u64
        ensures room { result ≡ self.now.room }
        ensures within { length (bits_at self.now.vectors 0) + result ≤ max_len }
    {
        self.room
    }

    /// Lends the allocator, of which no contract speaks.
    pub fn allocator(&self) -> &Global {
        self.vectors.allocator()
    }

    /// Makes room for `more` further bits in each vector. Whatever the result, the bits stay and there is no less room
    /// than before. It takes memory only if there is not enough room already; if that is granted, there is then room for
    /// at least twice the bits, within 2^32.
    pub fn reserve(&mut self, more: u64) -> Result<(), NoMemory>
        requires { length (bits_at self.old.vectors 0) + more ≤ max_len }
        ensures same { AreSame self.old.vectors self.new.vectors }
        ensures ok { OnOk result (more ≤ self.new.room) }
        ensures doubles { OnOk result (self.old.room < more →
            min (length (bits_at self.old.vectors 0)) (max_len - length (bits_at self.old.vectors 0))
            ≤ self.new.room) }
        ensures no_less { self.old.room ≤ self.new.room }
        ensures err { OnErr result (self.new.room ≡ self.old.room) }
        ensures refused { OnErr result (self.new.room < more) }
        ensures succeeds { more ≤ self.old.room → IsOk result }
    {
        if more <= self.room {
            return Ok(());
        }
        let growth = room_to_make(self.len(), more);
        reserve_each(&mut self.vectors, growth)?;
        self.room = growth;
        Ok(())
    }

    /// Removes all bits of each vector. It takes no memory and keeps the room.
    pub fn clear(&mut self)
        ensures count { length self.new.vectors ≡ length self.old.vectors }
        ensures empty { (j : ℕ) → bits_at self.new.vectors j ≡ [] }
        ensures room { length (bits_at self.old.vectors 0) + self.old.room ≤ self.new.room }
    {
        let room = self.len() + self.room;
        clear_each(&mut self.vectors);
        self.room = room;
    }

    /// Appends to each vector the binary place of the number that has the vector's place, into room that is already
    /// there. Unless a word begins, it writes the ones alone.
    pub fn push_places(&mut self, number: u64)
        requires room { 0 < self.old.room }
        requires below { number < 2 ^ length self.old.vectors }
        ensures count { length self.new.vectors ≡ length self.old.vectors }
        ensures bits { (j : ℕ) → j < length self.old.vectors →
            bits_at self.new.vectors j
            ≡ bits_at self.old.vectors j ++ (bit_at number j == 1) ∷ [] }
        ensures room { self.new.room + 1 ≡ self.old.room }
    {
        self.push_zeros();
        self.raise_ones(number);
    }

    /// Appends a 0 to each vector, into room that is already there. Unless a word begins, it writes no word.
    pub fn push_zeros(&mut self)
        requires room { 0 < self.old.room }
        ensures count { length self.new.vectors ≡ length self.old.vectors }
        ensures bits { (j : ℕ) → j < length self.old.vectors →
            bits_at self.new.vectors j ≡ bits_at self.old.vectors j ++ false ∷ [] }
        ensures room { self.new.room + 1 ≡ self.old.room }
    {
        if self.len() % 64 == 0 {
            self.begin_word();
        } else {
            self.lengthen();
        }
    }

    /// Appends a 0 to each vector, in a further word if the last one is full.
    fn begin_word(&mut self)
        requires room { 0 < self.old.room }
        ensures count { length self.new.vectors ≡ length self.old.vectors }
        ensures bits { (j : ℕ) → j < length self.old.vectors →
            bits_at self.new.vectors j ≡ bits_at self.old.vectors j ++ false ∷ [] }
        ensures room { self.new.room + 1 ≡ self.old.room }
    {
        'vectors: for vector in self.vectors.iter_mut() {
            vector.push_reserved(false);
        }
        self.room -= 1;
    }

    /// Appends a 0 to each vector, in the last word.
    fn lengthen(&mut self)
        requires room { 0 < self.old.room }
        requires partial { length (bits_at self.old.vectors 0) % 64 ≢ 0 }
        ensures count { length self.new.vectors ≡ length self.old.vectors }
        ensures bits { (j : ℕ) → j < length self.old.vectors →
            bits_at self.new.vectors j ≡ bits_at self.old.vectors j ++ false ∷ [] }
        ensures room { self.new.room + 1 ≡ self.old.room }
    {
        'vectors: for vector in self.vectors.iter_mut() {
            vector.lengthen();
        }
        self.room -= 1;
    }

    /// Sets the last bit, which is 0, of each vector from place `from` on and below `to`.
    pub fn raise_last(&mut self, from: usize, to: usize)
        requires some { 0 < length (bits_at self.old.vectors 0) }
        requires within { (from ≤ to) × (to ≤ length self.old.vectors) }
        ensures count { length self.new.vectors ≡ length self.old.vectors }
        ensures lengths { (j : ℕ) →
            length (bits_at self.new.vectors j) ≡ length (bits_at self.old.vectors j) }
        ensures raised { (j : ℕ) (front : List Bool) → from ≤ j → j < to →
            bits_at self.old.vectors j ≡ front ++ false ∷ [] →
            bits_at self.new.vectors j ≡ front ++ true ∷ [] }
        ensures before { (j : ℕ) → j < from →
            bits_at self.new.vectors j ≡ bits_at self.old.vectors j }
        ensures after { (j : ℕ) → to ≤ j →
            bits_at self.new.vectors j ≡ bits_at self.old.vectors j }
        ensures room { self.new.room ≡ self.old.room }
    {
        'vectors: for j in from..to {
            self.vectors[j].raise_last();
        }
    }

    /// Sets the last bit, which is 0, of each vector whose place is a binary place of the number that is 1.
    fn raise_ones(&mut self, number: u64)
        requires some { (j : ℕ) → j < length self.old.vectors →
            0 < length (bits_at self.old.vectors j) }
        requires below { number < 2 ^ length self.old.vectors }
        ensures count { length self.new.vectors ≡ length self.old.vectors }
        ensures raised { (j : ℕ) (front : List Bool) → j < length self.old.vectors →
            bits_at self.old.vectors j ≡ front ++ false ∷ [] →
            bits_at self.new.vectors j ≡ front ++ (bit_at number j == 1) ∷ [] }
        ensures room { self.new.room ≡ self.old.room }
    {
        let mut left = number;
        'ones: while left != 0 {
            let place = left.trailing_zeros() as usize;
            self.raise_last(place, place + 1);
            left &= left - 1;
        }
    }

    /// Appends the first `count` binary places of its word to each vector, least significant first, into room that is
    /// already there. The other places of the word are 0.
    pub fn push_words(&mut self, words: &[u64], count: u64)
        requires long { length words.now ≡ length self.old.vectors }
        requires room { count ≤ self.old.room }
        requires few { count ≤ max_block }
        requires clear { (j : ℕ) → slice_index words.now j < 2 ^ count }
        ensures count { length self.new.vectors ≡ length self.old.vectors }
        ensures bits { (j : ℕ) → j < length self.old.vectors →
            bits_at self.new.vectors j
            ≡ bits_at self.old.vectors j ++ bits_of count (slice_index words.now j ∷ []) }
        ensures room { self.new.room + count ≡ self.old.room }
    {
        'vectors: for (j, word) in words.iter().enumerate() {
            self.vectors[j].push_word_reserved(*word, count);
        }
        self.room -= count;
    }

    /// Appends to each vector all bits of the other list's vector at its place, in their order, into room that is
    /// already there.
    pub fn push_all_reserved(&mut self, other: &Bitmaps)
        requires long { length other.now.vectors ≡ length self.old.vectors }
        requires room { length (bits_at other.now.vectors 0) ≤ self.old.room }
        ensures count { length self.new.vectors ≡ length self.old.vectors }
        ensures bits { (j : ℕ) → j < length self.old.vectors →
            bits_at self.new.vectors j
            ≡ bits_at self.old.vectors j ++ bits_at other.now.vectors j }
        ensures room { self.new.room + length (bits_at other.now.vectors 0) ≡ self.old.room }
    {
        'vectors: for (j, vector) in other.vectors.iter().enumerate() {
            self.vectors[j].push_all_reserved(vector);
        }
        self.room -= other.len();
    }
}

/// Makes `count` empty vectors.
fn empty_each(alloc: Global, count: usize) -> Result<Vec<Bits>, NoMemory>
    ensures count { IfOk result (λ made. length made.items ≡ count) }
    ensures empty { IfOk result (λ made. (j : ℕ) → bits_at made.items j ≡ []) }
{
    let mut made = Vec::with_capacity(alloc, count)?;
    'vectors: for _ in 0..count {
        made.push_reserved(Bits::new(alloc));
    }
    Ok(made)
}

/// Makes room for `more` further bits in each vector. Whatever the result, the bits stay and no vector has less room
/// than before.
fn reserve_each(vectors: &mut [Bits], more: u64) -> Result<(), NoMemory>
    requires { (j : ℕ) → j < length vectors.old → length (bits_at vectors.old j) + more ≤ max_len }
    ensures same { AreSame vectors.old vectors.new }
    ensures no_less { (j : ℕ) → room_at vectors.old j ≤ room_at vectors.new j }
    ensures ok { OnOk result ((j : ℕ) → j < length vectors.old → more ≤ room_at vectors.new j) }
{
    'vectors: for vector in vectors.iter_mut() {
        vector.reserve(more)?;
    }
    Ok(())
}

/// Removes all bits of each vector, and keeps its room.
fn clear_each(vectors: &mut [Bits])
    ensures count { length vectors.new ≡ length vectors.old }
    ensures empty { (j : ℕ) → bits_at vectors.new j ≡ [] }
    ensures room { (j : ℕ) → j < length vectors.old →
        length (bits_at vectors.old j) + room_at vectors.old j ≤ room_at vectors.new j }
{
    'vectors: for vector in vectors.iter_mut() {
        vector.clear();
    }
}

/// Makes a second list of vectors with the same bits.
fn copy_each(vectors: &Vec<Bits>) -> Result<Vec<Bits>, NoMemory>
    ensures { IfOk result (λ made. AreSame vectors.now.items made.items) }
{
    let mut made = Vec::with_capacity(*vectors.allocator(), vectors.len())?;
    'vectors: for vector in vectors {
        made.push_reserved(vector.copy()?);
    }
    Ok(made)
}
