//! Boolean operations on `Bits` in place, and counts of the bits that are set.
//!
//! Each call passes over its words once and allocates no memory. No operation in place changes the room for more bits.

ghost use Rattle.std.specs.Prelude.{◌≡◌, ◌≤◌, ◌&&◌, ◌||◌, not, length, map, count_by};
ghost use Rattle.std.specs.Simd.Lanes.{zip2};
ghost use Rattle.bsi_bits.specs.BitList.{differ, in_words, without, word_count};

use crate::bits::{Bits, MAX_LEN};
use crate::lanes;
use crate::packing::{know_fits, trim};

impl Bits {
    /// Keeps the bits that are set in `other` too.
    pub fn and_with(&mut self, other: &Bits)
        requires { length self.old.bits ≡ length other.now.bits }
        ensures bits { self.new.bits ≡ zip2 ◌&&◌ self.old.bits other.now.bits }
        ensures room { self.new.room ≡ self.old.room }
    {
        lanes::and(&mut self.words, &other.words);
    }

    /// Sets the bits that are set in `other`.
    pub fn or_with(&mut self, other: &Bits)
        requires { length self.old.bits ≡ length other.now.bits }
        ensures bits { self.new.bits ≡ zip2 ◌||◌ self.old.bits other.now.bits }
        ensures room { self.new.room ≡ self.old.room }
    {
        lanes::or(&mut self.words, &other.words);
    }

    /// Inverts the bits that are set in `other`.
    pub fn xor_with(&mut self, other: &Bits)
        requires { length self.old.bits ≡ length other.now.bits }
        ensures bits { self.new.bits ≡ zip2 differ self.old.bits other.now.bits }
        ensures room { self.new.room ≡ self.old.room }
    {
        lanes::xor(&mut self.words, &other.words);
    }

    /// Clears the bits that are set in `other`: `self AND NOT other`.
    pub fn and_not_with(&mut self, other: &Bits)
        requires { length self.old.bits ≡ length other.now.bits }
        ensures bits { self.new.bits ≡ zip2 without self.old.bits other.now.bits }
        ensures room { self.new.room ≡ self.old.room }
    {
        know_fits(&other.words);
        lanes::and_not(&mut self.words, &other.words);
    }

    /// Overwrites the bits with those of `other`.
    pub fn copy_from(&mut self, other: &Bits)
        requires { length self.old.bits ≡ length other.now.bits }
        ensures bits { self.new.bits ≡ other.now.bits }
        ensures room { self.new.room ≡ self.old.room }
    {
        self.words.copy_from_slice(&other.words);
    }

    /// Inverts each bit.
    pub fn flip(&mut self)
        ensures bits { self.new.bits ≡ map not self.old.bits }
        ensures room { self.new.room ≡ self.old.room }
    {
        know_fits(&self.words);
        lanes::not(&mut self.words);
        trim(&mut self.words, self.len);
    }

    /// Returns how many bits are set.
    pub fn count(&self) -> u64
        ensures { result ≡ count_by (λ b. b) self.now.bits }
    {
        know_fits(&self.words);
        lanes::count(&self.words) as u64
    }

    /// Returns how many bits are set both here and in `other`.
    pub fn count_and(&self, other: &Bits) -> u64
        requires { length self.now.bits ≡ length other.now.bits }
        ensures { result ≡ count_by (λ b. b) (zip2 ◌&&◌ self.now.bits other.now.bits) }
    {
        know_fits(&self.words);
        know_fits(&other.words);
        lanes::count_and(&self.words, &other.words) as u64
    }

    /// Returns how many bits are set here and clear in `other`.
    pub fn count_and_not(&self, other: &Bits) -> u64
        requires { length self.now.bits ≡ length other.now.bits }
        ensures { result ≡ count_by (λ b. b) (zip2 without self.now.bits other.now.bits) }
    {
        know_fits(&self.words);
        know_fits(&other.words);
        lanes::count_and_not(&self.words, &other.words) as u64
    }

    /// Returns how many bits are set both here and in `other`, of those in the words from `start` on and before `end`.
    pub fn count_and_in(&self, other: &Bits, start: usize, end: usize) -> u64
        requires same { length self.now.bits ≡ length other.now.bits }
        requires forward { start ≤ end }
        requires within { end ≤ word_count (length self.now.bits) }
        ensures { result ≡ count_by (λ b. b)
            (zip2 ◌&&◌ (in_words start end self.now.bits) (in_words start end other.now.bits)) }
    {
        // The proof takes from this that there are at most 2^32 bits.
        prove!(self.len() <= MAX_LEN);
        let words = &self.words()[start..end];
        let others = &other.words()[start..end];
        know_fits(words);
        know_fits(others);
        lanes::count_and(words, others) as u64
    }

    /// Returns how many bits are set here and clear in `other`, of those in the words from `start` on and before `end`.
    pub fn count_and_not_in(&self, other: &Bits, start: usize, end: usize) -> u64
        requires same { length self.now.bits ≡ length other.now.bits }
        requires forward { start ≤ end }
        requires within { end ≤ word_count (length self.now.bits) }
        ensures { result ≡ count_by (λ b. b)
            (zip2 without (in_words start end self.now.bits) (in_words start end other.now.bits)) }
    {
        // The proof takes from this that there are at most 2^32 bits.
        prove!(self.len() <= MAX_LEN);
        let words = &self.words()[start..end];
        let others = &other.words()[start..end];
        know_fits(words);
        know_fits(others);
        lanes::count_and_not(words, others) as u64
    }
}
