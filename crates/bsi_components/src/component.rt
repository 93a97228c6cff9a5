//! A component of bitmaps: a bitmap for each digit that has one, and from base 4 on the digits in binary, a bit vector
//! for each place, behind them.

ghost use Rattle.std.specs.Prelude.{◌≡◌, ℕ, ◌+◌, ◌-◌, ◌^◌, ◌<◌, ◌≤◌, ◌++◌, length, map, slice_index};
ghost use Rattle.bsi_bits.specs.BitList.{max_block};
ghost use Rattle.bsi_bits.specs.BitLists.{bits_at};
ghost use Rattle.bsi_digits.specs.Digits.{IsBase};
ghost use Rattle.bsi_kernels.specs.Places.{has_place, max_digit_places, IsCount, IsEncoded};
ghost use Rattle.bsi_components.specs.Bitmaps.{stored_places};
ghost use Rattle.bsi_components.specs.Encodings.{shows};

use crate::marking::Marking;
use bsi_bits::{Bitmaps, Bits};
use bsi_kernels::marks::{MAX_MARK_WORDS, MAX_SCATTER_WORDS};
use std::marker::{Model, PhantomData};

mod binary_places;
mod encoding;

/// A component of a base from 2 to 1,024, encoded by bitmaps.
#[derive(Drop)]
pub struct Component<M: Marking> {
    base: u32,
    bitmaps: Bitmaps,
    marking: PhantomData<M>,
}

// Clauses see the base, the digits and for how many more there is room.
impl<M: Marking> Model for Component<M> {
    ghost use Rattle.bsi_components.specs.Component.{Component};
    ghost use Rattle.bsi_components.specs.Encodings.{digits_in, IsMarked};

    ghost Value = { Component };

    ghost view = { λ c. record {
      base = c.base;
      digits = digits_in M.first M.marks c.base c.bitmaps.vectors;
      room = c.bitmaps.room;
    } };

    ghost invariant = { λ c. IsMarked M.first M.marks c.base c.bitmaps.vectors
        (digits_in M.first M.marks c.base c.bitmaps.vectors) };
}

/// Appends a block of digits below a base to the vectors. There is a word for each vector, and one for each digit before
/// the first that has a bitmap, all 0.
fn push_marked<M: Marking>(bitmaps: &mut Bitmaps, base: u32, block: &[u32], words: &mut [u64])
    requires long { length words.old ≡ M.first base + length bitmaps.old.vectors }
    requires clear { (j : ℕ) → slice_index words.old j ≡ 0 }
    requires base { IsBase base }
    requires places { IsCount base (base - M.first base) (length bitmaps.old.vectors) }
    requires few { length block.now ≤ max_block }
    requires room { length block.now ≤ bitmaps.old.room }
    requires below { (k : ℕ) → k < length block.now → slice_index block.now k < base }
    ensures count { length bitmaps.new.vectors ≡ length bitmaps.old.vectors }
    ensures bits { (j : ℕ) → j < length bitmaps.old.vectors →
        bits_at bitmaps.new.vectors j
        ≡ bits_at bitmaps.old.vectors j ++ map (shows M.first M.marks base j) block.now }
    ensures room { bitmaps.new.room + length block.now ≡ bitmaps.old.room }
{
    M::mark_block(block, base, words);
    let first = M::first_stored(base) as usize;
    bitmaps.push_words(&words[first..], block.len() as u64);
}

/// Appends a block of digits below a base to the vectors.
fn push_block<M: Marking>(bitmaps: &mut Bitmaps, base: u32, block: &[u32])
    requires base { IsBase base }
    requires places { IsCount base (base - M.first base) (length bitmaps.old.vectors) }
    requires few { length block.now ≤ max_block }
    requires room { length block.now ≤ bitmaps.old.room }
    requires below { (k : ℕ) → k < length block.now → slice_index block.now k < base }
    ensures count { length bitmaps.new.vectors ≡ length bitmaps.old.vectors }
    ensures bits { (j : ℕ) → j < length bitmaps.old.vectors →
        bits_at bitmaps.new.vectors j
        ≡ bits_at bitmaps.old.vectors j ++ map (shows M.first M.marks base j) block.now }
    ensures room { bitmaps.new.room + length block.now ≡ bitmaps.old.room }
{
    let count = M::first_stored(base) as usize + bitmaps.as_slice().len();
    if count <= MAX_SCATTER_WORDS {
        let mut words = [0; MAX_SCATTER_WORDS];
        push_marked::<M>(bitmaps, base, block, &mut words[..count]);
    } else {
        let mut words = [0; MAX_MARK_WORDS];
        push_marked::<M>(bitmaps, base, block, &mut words[..count]);
    }
}

impl<M: Marking> Component<M> {
    /// Returns the base.
    pub(crate) fn own_base(&self) -> u32
        ensures base { result ≡ self.now.base }
        ensures within { IsBase result }
        ensures below { (k : ℕ) → slice_index self.now.digits k < result }
    {
        self.base
    }

    /// Returns the bitmap of a digit, as it is stored.
    pub(crate) fn bitmap_of(&self, d: u32) -> &Bits
        requires stored { M.first self.now.base ≤ d }
        requires below { d < self.now.base }
        ensures { result.now.bits ≡ map (M.marks d) self.now.digits }
    {
        &self.bitmaps.as_slice()[(d - M::first_stored(self.base)) as usize]
    }

    /// Lends the bit vectors of the binary places of the digits, the least first, if any are stored.
    pub(crate) fn places(&self) -> &[Bits]
        ensures places { IsEncoded has_place result.now self.now.digits }
        ensures many { length result.now ≡ stored_places self.now.base }
        ensures few { length result.now ≤ max_digit_places }
        ensures enough { 0 < length result.now → self.now.base ≤ 2 ^ length result.now }
        ensures below { 0 < length result.now → (k : ℕ) →
            slice_index self.now.digits k < 2 ^ length result.now }
        ensures digits { (k : ℕ) → slice_index self.now.digits k < self.now.base }
    {
        &self.bitmaps.as_slice()[(self.base - M::first_stored(self.base)) as usize..]
    }
}
