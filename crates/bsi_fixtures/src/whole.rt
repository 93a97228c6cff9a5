//! A component without calls on spans (`WholeVectors`). It counts the calls that write a whole vector, and the sums.

ghost use Rattle.std.specs.Prelude.{false};

use crate::NoMemory;
use bsi_bits::Bits;
use bsi_columns::Encoding;
use std::alloc::Global;
use std::cell::Cell;

/// A component of another encoding, without that encoding's calls on spans.
#[derive(Drop)]
pub struct WholeVectors<E: Encoding> {
    inner: E,
    calls: Cell<u32>,
    sums: Cell<u32>,
}

impl<E: Encoding> WholeVectors<E> {
    /// Returns how many calls wrote a whole vector so far. No contract says it: the count stands in a cell, which a
    /// call on a shared component changes, and no clause sees what a cell holds.
    pub fn calls(&self) -> u32 {
        self.calls.get()
    }

    /// Returns how many sums of digits were asked for so far. No contract says it either.
    pub fn sums(&self) -> u32 {
        self.sums.get()
    }

    /// Counts a call.
    fn count(&self) {
        self.calls.set(self.calls.get().saturating_add(1));
    }
}

impl<E: Encoding> Encoding for WholeVectors<E> {
    ghost base_of = { λ c. E.base_of c.inner };

    ghost digits = { λ c. E.digits c.inner };

    ghost room_of = { λ c. E.room_of c.inner };

    ghost works_on_spans = { false };

    fn on_spans() -> bool {
        false
    }

    fn make(alloc: Global, base: u32) -> Result<Self, NoMemory> {
        let inner = E::make(alloc, base)?;
        Ok(WholeVectors {
            inner,
            calls: Cell::new(0),
            sums: Cell::new(0),
        })
    }

    fn base(&self) -> u32 {
        self.inner.base()
    }

    fn len(&self) -> u64 {
        self.inner.len()
    }

    fn room(&self) -> u64 {
        self.inner.room()
    }

    fn reserve(&mut self, more: u64) -> Result<(), NoMemory> {
        self.inner.reserve(more)
    }

    fn clear(&mut self) {
        self.inner.clear();
    }

    fn push_reserved(&mut self, digit: u32) {
        self.inner.push_reserved(digit);
    }

    fn push_all_reserved(&mut self, other: &Self) {
        self.inner.push_all_reserved(&other.inner);
    }

    fn eq_into(&self, d: u32, out: &mut Bits) {
        self.count();
        self.inner.eq_into(d, out);
    }

    fn le_into(&self, d: u32, out: &mut Bits) {
        self.count();
        self.inner.le_into(d, out);
    }

    fn eq_span(&self, _d: u32, _at: usize, _span: &mut [u64]) {}

    fn le_span(&self, _d: u32, _at: usize, _span: &mut [u64]) {}

    fn digit_sum(&self, selection: &Bits) -> u128 {
        self.sums.set(self.sums.get().saturating_add(1));
        self.inner.digit_sum(selection)
    }

    fn copy(&self) -> Result<Self, NoMemory> {
        let inner = self.inner.copy()?;
        Ok(WholeVectors {
            inner,
            calls: Cell::new(0),
            sums: Cell::new(0),
        })
    }
}
