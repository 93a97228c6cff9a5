//! Which binary places of its digits a component stores, and how a row's bits are appended.
//!
//! Their vectors stand behind the bitmaps in one list, so that one growth and one append serve both kinds. A sum counts
//! them, which are fewer than the bitmaps.

ghost use Rattle.std.specs.Prelude.{◌≡◌, ℕ, ◌+◌, ◌-◌, ◌<◌, ◌≤◌, ◌^◌, ◌&&◌, Bool, List, false, [], ◌∷◌, ◌++◌, length, nat_le, nat_lt};
ghost use Rattle.bsi_bits.specs.BitLists.{bits_at};
ghost use Rattle.bsi_digits.specs.Digits.{IsBase};
ghost use Rattle.bsi_kernels.specs.Places.{has_place, max_digit_places, min_base_with_places, then_places};
ghost use Rattle.bsi_components.specs.Bitmaps.{stored_places};
ghost use Rattle.bsi_components.specs.PlaceNumbers.{place_count};

use bsi_bits::Bitmaps;

/// The least base for which binary places are stored. Below it the bitmaps of an encoding are as few, and tell the sum.
const MIN_BASE_WITH_PLACES: u32 = 4;

/// Returns how many binary places the digits below a base take.
pub fn place_count(base: u32) -> usize
    requires { IsBase base }
    ensures count { result ≡ place_count base }
    ensures few { (1 ≤ result) × (result ≤ max_digit_places) }
    ensures enough { base ≤ 2 ^ result }
{
    (u32::BITS - (base - 1).leading_zeros()) as usize
}

/// Returns how many binary places of its digits a component of a base stores: all, or none.
pub fn stored_places(base: u32) -> usize
    requires { IsBase base }
    ensures count { result ≡ stored_places base }
    ensures few { result ≤ max_digit_places }
    ensures enough { 0 < result → base ≤ 2 ^ result }
    ensures some { min_base_with_places ≤ base → 0 < result }
{
    if base < MIN_BASE_WITH_PLACES {
        0
    } else {
        place_count(base)
    }
}

/// Appends the bits of a digit, into room that is already there: of the first `own` vectors those from index `from` on
/// and below `to` get a 1, and the vectors after them the digit's binary places. It writes the ones alone.
pub(crate) fn push_digit(bitmaps: &mut Bitmaps, own: usize, from: usize, to: usize, digit: u32)
    requires room { 0 < bitmaps.old.room }
    requires ones { (from ≤ to) × (to ≤ own) }
    requires within { (0 < own) × (own ≤ length bitmaps.old.vectors)
        × (length bitmaps.old.vectors ≤ own + max_digit_places) }
    ensures count { length bitmaps.new.vectors ≡ length bitmaps.old.vectors }
    ensures bits { (holds : ℕ → ℕ → Bool) →
        ((i : ℕ) → i < own → holds i digit ≡ (nat_le from i && nat_lt i to)) →
        (j : ℕ) → j < length bitmaps.old.vectors →
        bits_at bitmaps.new.vectors j
        ≡ bits_at bitmaps.old.vectors j ++ then_places own holds j digit ∷ [] }
    ensures room { bitmaps.new.room + 1 ≡ bitmaps.old.room }
{
    bitmaps.push_zeros();
    bitmaps.raise_last(from, to);
    raise_places(bitmaps, own, digit);
}

/// Sets, after the first `own` vectors, the last bit of each binary place of a digit that is 1.
fn raise_places(bitmaps: &mut Bitmaps, own: usize, digit: u32)
    requires some { 0 < length (bits_at bitmaps.old.vectors 0) }
    requires within { length bitmaps.old.vectors ≤ own + max_digit_places }
    ensures count { length bitmaps.new.vectors ≡ length bitmaps.old.vectors }
    ensures own { (j : ℕ) → j < own →
        bits_at bitmaps.new.vectors j ≡ bits_at bitmaps.old.vectors j }
    ensures places { (j : ℕ) (front : List Bool) → own ≤ j → j < length bitmaps.old.vectors →
        bits_at bitmaps.old.vectors j ≡ front ++ false ∷ [] →
        bits_at bitmaps.new.vectors j ≡ front ++ has_place (j - own) digit ∷ [] }
    ensures room { bitmaps.new.room ≡ bitmaps.old.room }
{
    // How many places are stored. It saturates, so no clause has to say that there are `own` vectors.
    let count = bitmaps.as_slice().len().saturating_sub(own);
    let mut left = digit;
    'ones: while left != 0 {
        let place = left.trailing_zeros() as usize;
        left &= left - 1;
        if place < count {
            bitmaps.raise_last(own + place, own + place + 1);
        }
    }
}
