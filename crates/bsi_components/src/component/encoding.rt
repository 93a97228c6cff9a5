//! Implements the trait `Encoding` for `Component`, by `Reads` or by the binary places that are stored.

ghost use Rattle.std.specs.Prelude.{◌≡◌, ℕ, ◌<◌, true, slice_index};
ghost use Rattle.bsi_digits.specs.Digits.{IsBase};

use crate::NoMemory;
use crate::component::{Component, push_block};
use crate::encoding::Encoding;
use crate::places::{push_digit, stored_places};
use crate::reads::Reads;
use bsi_bits::{Bitmaps, Bits};
use bsi_kernels::{RankedRows, sum_by_places};
use std::alloc::Global;
use std::marker::PhantomData;

impl<M: Reads> Encoding for Component<M> {
    ghost base_of = { λ c. c.base };

    ghost digits = { λ c. c.digits };

    ghost room_of = { λ c. c.room };

    ghost works_on_spans = { true };

    fn on_spans() -> bool {
        true
    }

    fn make(alloc: Global, base: u32) -> Result<Self, NoMemory> {
        let own = (base - M::first_stored(base)) as usize;
        let bitmaps = Bitmaps::new(alloc, own + stored_places(base))?;
        Ok(Component {
            base,
            bitmaps,
            marking: PhantomData,
        })
    }

    fn base(&self) -> u32
        ensures base { result ≡ self.now.base }
        ensures within { IsBase result }
        ensures below { (k : ℕ) → slice_index self.now.digits k < result }
    {
        self.base
    }

    fn len(&self) -> u64 {
        self.bitmaps.len()
    }

    fn room(&self) -> u64 {
        self.bitmaps.room()
    }

    fn reserve(&mut self, more: u64) -> Result<(), NoMemory> {
        self.bitmaps.reserve(more)
    }

    fn clear(&mut self) {
        self.bitmaps.clear();
    }

    fn push_reserved(&mut self, digit: u32) {
        let own = (self.base - M::first_stored(self.base)) as usize;
        let (from, to) = M::marked_range(self.base, digit);
        push_digit(&mut self.bitmaps, own, from, to, digit);
    }

    fn push_block_reserved(&mut self, block: &[u32]) {
        push_block::<M>(&mut self.bitmaps, self.base, block);
    }

    fn push_all_reserved(&mut self, other: &Self) {
        self.bitmaps.push_all_reserved(&other.bitmaps);
    }

    fn eq_into(&self, d: u32, out: &mut Bits) {
        M::eq_into(self, d, out);
    }

    fn le_into(&self, d: u32, out: &mut Bits) {
        M::le_into(self, d, out);
    }

    fn digit_sum(&self, selection: &Bits) -> u128 {
        let places = self.places();
        if places.is_empty() {
            M::sum_by_bitmaps(self, selection)
        } else {
            sum_by_places(places, selection)
        }
    }

    // It writes no vector.
    fn count_le(&self, d: u32, selection: &Bits, _scratch: &mut Bits) -> u64 {
        M::count_le(self, d, selection)
    }

    fn rows_of_rank(&self, rank: u64, selection: Bits) -> Result<RankedRows, NoMemory> {
        Ok(M::rows_of_rank(self, rank, selection))
    }

    fn copy(&self) -> Result<Self, NoMemory> {
        let bitmaps = self.bitmaps.copy()?;
        Ok(Component {
            base: self.base,
            bitmaps,
            marking: PhantomData,
        })
    }

    fn eq_span(&self, d: u32, at: usize, span: &mut [u64]) {
        M::eq_span(self, d, at, span);
    }

    fn eq_span_into(&self, d: u32, at: usize, span: &mut [u64]) {
        M::eq_span_into(self, d, at, span);
    }

    fn le_span(&self, d: u32, at: usize, span: &mut [u64]) {
        M::le_span(self, d, at, span);
    }

    fn le_span_into(&self, d: u32, at: usize, span: &mut [u64]) {
        M::le_span_into(self, d, at, span);
    }

    fn least_in_span(&self, bound: u32, at: usize, span: &[u64]) -> Option<u32> {
        M::least_in_span(self, bound, at, span)
    }

    fn greatest_in_span(&self, bound: u32, at: usize, span: &[u64]) -> Option<u32> {
        M::greatest_in_span(self, bound, at, span)
    }
}
