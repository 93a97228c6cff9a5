//! The trait `BinaryPlaces`: a component gives the binary places of its digits, and is made of all of them.

ghost use Rattle.std.specs.Prelude.{◌≡◌, ℕ, ◌+◌, ◌*◌, ◌<◌, ◌≤◌, ◌==◌, length, map, slice_index, IfNone, IfOk, IfSome, OnSome};
ghost use Rattle.std.specs.Int.{bit_at};
ghost use Rattle.bsi_bits.specs.BitList.{max_block, word_count};
ghost use Rattle.bsi_bits.specs.Packed.{bit_of};
ghost use Rattle.bsi_digits.specs.Digits.{IsBase};
ghost use Rattle.bsi_kernels.specs.Places.{has_place};
ghost use Rattle.bsi_components.specs.PlaceNumbers.{numbers_in, place_count, AreLevel, HasNumberPastBase};

use crate::{Encoding, NoMemory};
use bsi_bits::Bits;

/// An encoding that tells the binary places of its digits, and is made of them.
pub trait BinaryPlaces: Encoding {
    /// Writes for each row whether binary place `k` of its digit is 1.
    fn place_into(&self, k: usize, out: &mut Bits)
        requires within { k < place_count (Self.base_of self.now) }
        requires same { length (Self.digits self.now) ≡ length out.old.bits }
        ensures { out.new.bits ≡ map (has_place k) (Self.digits self.now) };

    /// Returns for the 64 rows from row `64 * at` on whether binary place `k` of their digit is 1, row `64 * at + r` in bit
    /// `r`. A bit past the last row is unspecified.
    fn place_word(&self, k: usize, at: usize) -> u64
        requires within { k < place_count (Self.base_of self.now) }
        requires there { at < word_count (length (Self.digits self.now)) }
        ensures { (r : ℕ) → r < max_block → 64 * at + r < length (Self.digits self.now) →
            (bit_at result r == 1) ≡ has_place k (slice_index (Self.digits self.now) (64 * at + r)) };

    /// Writes into a span of words whether binary place `k` of the digit of each row is 1. The words stand for the rows
    /// from `64 * at` on. A bit past the last row is unspecified.
    fn place_span(&self, k: usize, at: usize, span: &mut [u64])
        requires place { k < place_count (Self.base_of self.now) }
        requires within { at + length span.old ≤ word_count (length (Self.digits self.now)) }
        ensures { (p : ℕ) → p < 64 * length span.old →
            64 * at + p < length (Self.digits self.now) →
            bit_of span.new p ≡ has_place k (slice_index (Self.digits self.now) (64 * at + p)) };

    /// Makes the component of the digits whose binary places these are, the least first, or none if a digit is not
    /// below the base.
    fn from_places(base: u32, places: Vec<Bits>) -> Result<Option<Self>, NoMemory>
        requires base { IsBase base }
        requires count { length places.items ≡ place_count base }
        requires level { AreLevel places.items }
        ensures made { IfOk result (λ made. IfSome made (λ c. (Self.base_of c ≡ base)
            × (Self.digits c ≡ numbers_in places.items))) }
        ensures below { IfOk result (λ made. OnSome made ((k : ℕ) →
            slice_index (numbers_in places.items) k < base)) }
        ensures none { IfOk result (λ made. IfNone made (HasNumberPastBase base (numbers_in places.items))) };
}
