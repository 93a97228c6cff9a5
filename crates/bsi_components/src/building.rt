//! Makes the bitmaps of a component from the binary places of its digits (`make_bitmaps`).
//!
//! Each bitmap is made by one pass over the places, as a comparison with its digit. A digit that is not below the base
//! is refused first.

ghost use Rattle.std.specs.Prelude.{◌≡◌, ℕ, ◌+◌, ◌-◌, ◌*◌, ◌^◌, ◌<◌, ◌≤◌, ◌==◌, ◌&&◌, ◌||◌, ◌++◌, if◌then◌else◌, length, map, nat_le, nat_lt, true, slice_index, vec_capacity, IfOk, IsTrue, IsFalse};
ghost use Rattle.std.specs.Simd.Lanes.{zip2};
ghost use Rattle.bsi_bits.specs.BitList.{without};
ghost use Rattle.bsi_bits.specs.BitLists.{bits_at};
ghost use Rattle.bsi_digits.specs.Digits.{IsBase};
ghost use Rattle.bsi_kernels.specs.Places.{has_place, max_digit_places, min_base_with_places};
ghost use Rattle.bsi_components.specs.PlaceNumbers.{numbers_in, place_count, AreLevel, HasNumberPastBase};

use crate::NoMemory;
use crate::marking::Marking;
use bsi_bits::Bits;
use std::alloc::Global;

/// Compares one more place, from the least up, for the rows whose number is above a constant. `is_one` tells whether
/// the place is 1 in the constant.
fn step_above(rows: &mut Bits, place: &Bits, is_one: bool)
    requires { length rows.old.bits ≡ length place.now.bits }
    ensures { rows.new.bits ≡ (if is_one then zip2 ◌&&◌ rows.old.bits place.now.bits else zip2 ◌||◌
        rows.old.bits place.now.bits) }
{
    if is_one {
        rows.and_with(place);
    } else {
        rows.or_with(place);
    }
}

/// Compares one more place for the rows whose number is a constant.
fn step_equal(rows: &mut Bits, place: &Bits, is_one: bool)
    requires { length rows.old.bits ≡ length place.now.bits }
    ensures { rows.new.bits ≡ (if is_one then zip2 ◌&&◌ rows.old.bits place.now.bits else zip2
        without rows.old.bits place.now.bits) }
{
    if is_one {
        rows.and_with(place);
    } else {
        rows.and_not_with(place);
    }
}

/// Returns for each row whether its number is above `d`.
pub(crate) fn rows_above(alloc: Global, places: &[Bits], d: u32) -> Result<Bits, NoMemory>
    requires level { AreLevel places.now }
    requires few { length places.now ≤ max_digit_places }
    requires below { d < 2 ^ length places.now }
    ensures { IfOk result (λ rows. rows.bits ≡ map (nat_lt d) (numbers_in places.now)) }
{
    let mut rows = Bits::filled(alloc, places[0].len(), false)?;
    'places: for (k, place) in places.iter().enumerate() {
        step_above(&mut rows, place, d >> k & 1 == 1);
    }
    Ok(rows)
}

/// Returns for each row whether its number is `d`.
pub(crate) fn rows_equal(alloc: Global, places: &[Bits], d: u32) -> Result<Bits, NoMemory>
    requires level { AreLevel places.now }
    requires few { length places.now ≤ max_digit_places }
    requires below { d < 2 ^ length places.now }
    ensures { IfOk result (λ rows. rows.bits ≡ map (λ v. v == d) (numbers_in places.now)) }
{
    let mut rows = Bits::filled(alloc, places[0].len(), true)?;
    'places: for (k, place) in places.iter().enumerate() {
        step_equal(&mut rows, place, d >> k & 1 == 1);
    }
    Ok(rows)
}

/// Returns whether each row has a number below the base.
pub(crate) fn are_below(alloc: Global, places: &[Bits], base: u32) -> Result<bool, NoMemory>
    requires base { IsBase base }
    requires level { AreLevel places.now }
    requires few { length places.now ≤ max_digit_places }
    requires enough { base ≤ 2 ^ length places.now }
    ensures all { IfOk result (λ all. IsTrue all →
        (k : ℕ) → slice_index (numbers_in places.now) k < base) }
    ensures past { IfOk result (λ all. IsFalse all → HasNumberPastBase base (numbers_in places.now)) }
{
    let past = rows_above(alloc, places, base - 1)?;
    Ok(past.count() == 0)
}

/// Makes the bitmaps of an encoding, with room for `more` further ones.
pub(crate) fn make_bitmaps<M: Marking>(
    alloc: Global,
    places: &[Bits],
    base: u32,
    more: usize,
) -> Result<Vec<Bits>, NoMemory>
    requires base { IsBase base }
    requires level { AreLevel places.now }
    requires few { length places.now ≤ max_digit_places }
    requires enough { base ≤ 2 ^ length places.now }
    requires little { more ≤ max_digit_places }
    ensures count { IfOk result (λ made. length made.items ≡ base - M.first base) }
    ensures room { IfOk result (λ made. vec_capacity made ≡ base - M.first base + more) }
    ensures bits { IfOk result (λ made. (j : ℕ) → j < base - M.first base →
        bits_at made.items j ≡ map (M.marks (M.first base + j)) (numbers_in places.now)) }
{
    let count = base - M::first_stored(base);
    let mut made = Vec::with_capacity(alloc, count as usize + more)?;
    'digits: for j in 0..count {
        made.push_reserved(M::make_bitmap(alloc, places, base, j)?);
    }
    Ok(made)
}

/// Appends the places to the bitmaps if any are stored, into room that is already there.
pub(crate) fn with_places(mut made: Vec<Bits>, mut places: Vec<Bits>, stored: usize) -> Vec<Bits>
    requires room { length made.items + stored ≤ vec_capacity made }
    requires all { 0 < stored → stored ≡ length places.items }
    ensures { result.items ≡ (if nat_lt 0 stored then made.items ++ places.items else made.items) }
{
    if stored > 0 {
        // There is room, so no memory is asked for.
        made.append(&mut places).unwrap();
    }
    made
}

/// Tells the digit that a binary place stands for under a base without stored places: the bitmap of digit 1 or 2 is
/// that of place 0 or 1.
pub(crate) fn digit_of_place(base: u32, k: usize) -> u32
    requires base { IsBase base }
    requires few { base < min_base_with_places }
    requires within { k < place_count base }
    ensures digit { result ≡ k + 1 }
    ensures below { result < base }
    ensures same { (v : ℕ) → v < base → (v == result) ≡ has_place k v }
{
    k as u32 + 1
}
