//! Makes columns from bitmaps, as a file stores them: the not-null bitmap, and then a bitmap for each binary place.

ghost use Rattle.std.specs.Prelude.{◌≡◌, ◌≢◌, ℕ, ◌+◌, ◌*◌, ◌<◌, ◌≤◌, ◌^◌, List, length, map, take, drop, IfNone, IfOk, IfSome, OnOk};
ghost use Rattle.bsi_bits.specs.BitLists.{bits_at};
ghost use Rattle.bsi_digits.specs.Digits.{max_bases, product, IsBaseList};
ghost use Rattle.bsi_kernels.specs.Places.{max_digit_places, max_places};
ghost use Rattle.bsi_columns.specs.ComponentPlaces.{component_bitmaps};
ghost use Rattle.bsi_columns.specs.Decomposed.{AreDigitsBelow};
ghost use Rattle.bsi_columns.specs.StoredBitmaps.{bits_each, bitmaps_by, places_under, slice_places, HaveNoEntriesBelow};

use crate::{BinaryPlaces, Decomposed, NoMemory, Slices};
use bsi_bits::Bits;
use bsi_components::place_count;
use bsi_digits::Bases;
use bsi_kernels::nulls::are_clear_at_nulls;
use std::mem::replace;

/// Returns how many binary places the digits under these bases take, at most 630.
pub fn count_places(bases: &Bases) -> usize
    ensures count { result ≡ length (places_under bases.now) }
    ensures few { result ≤ max_digit_places * max_bases }
{
    let mut count = 0;
    'bases: for i in 0..bases.len() {
        count += place_count(bases.base(i));
    }
    count
}

/// Makes the column of slices that has these bitmaps, the not-null bitmap first, or none if no column has them. It
/// takes no memory.
pub fn slices_from_bitmaps(width: u32, mut bitmaps: Vec<Bits>) -> Option<Slices>
    requires width { (1 ≤ width) × (width ≤ max_places) }
    requires count { length bitmaps.items ≡ 1 + width }
    requires even { (j : ℕ) → j < length bitmaps.items →
        length (bits_at bitmaps.items j) ≡ length (bits_at bitmaps.items 0) }
    ensures width { IfSome result (λ column. column.width ≡ width) }
    ensures bitmaps { IfSome result (λ column.
        bitmaps_by (slice_places width) column.entries ≡ bits_each bitmaps.items) }
    ensures none { IfNone result
        (HaveNoEntriesBelow (slice_places width) (2 ^ width) (bits_each bitmaps.items)) }
{
    let not_null = bitmaps.remove(0);
    Slices::from_places(bitmaps, not_null)
}

impl<E: BinaryPlaces> Decomposed<E> {
    /// Makes the column under these bases that has these bitmaps, the not-null bitmap first, or none if no column has
    /// them.
    pub fn from_bitmaps(
        bases: Bases,
        mut bitmaps: Vec<Bits>,
    ) -> Result<Option<Decomposed<E>>, NoMemory>
        requires count { length bitmaps.items ≡ 1 + length (places_under bases) }
        requires even { (j : ℕ) → j < length bitmaps.items →
            length (bits_at bitmaps.items j) ≡ length (bits_at bitmaps.items 0) }
        ensures bases { IfOk result (λ made. IfSome made (λ column. column.bases ≡ bases)) }
        ensures bitmaps { IfOk result (λ made. IfSome made (λ column.
            bitmaps_by (places_under bases) column.entries ≡ bits_each bitmaps.items)) }
        ensures none { IfOk result (λ made. IfNone made
            (HaveNoEntriesBelow (places_under bases) (product bases) (bits_each bitmaps.items))) }
    {
        let not_null = bitmaps.remove(0);
        if !are_clear_at_nulls(&bitmaps, &not_null) {
            return Ok(None);
        }
        let Some(components) = components_from(&bases, bitmaps)? else {
            return Ok(None);
        };
        Ok(Some(Decomposed::from_components(bases, components, not_null)))
    }
}

/// Makes the component of each base of the binary places of its digits, or none if a digit is not below its base.
fn components_from<E: BinaryPlaces>(
    bases: &Bases,
    mut places: Vec<Bits>,
) -> Result<Option<Vec<E>>, NoMemory>
    requires count { length places.items ≡ length (places_under bases.now) }
    requires even { (j : ℕ) → j < length places.items →
        length (bits_at places.items j) ≡ length (bits_at places.items 0) }
    ensures bases { IfOk result (λ made. IfSome made (λ cs. map E.base_of cs.items ≡ bases.now)) }
    ensures below { IfOk result (λ made. IfSome made (λ cs.
        AreDigitsBelow bases.now (length (bits_at places.items 0)) (map E.digits cs.items))) }
    ensures bitmaps { IfOk result (λ made. IfSome made (λ cs.
        component_bitmaps bases.now (map E.digits cs.items) ≡ bits_each places.items)) }
    ensures valid { OnOk result (IsBaseList bases.now) }
    ensures none { IfOk result (λ made. IfNone made ((ds : List (List ℕ)) →
        AreDigitsBelow bases.now (length (bits_at places.items 0)) ds →
        component_bitmaps bases.now ds ≢ bits_each places.items)) }
{
    let mut components = Vec::with_capacity(*places.allocator(), bases.len() as usize)?;
    'components: for i in 0..bases.len() {
        let base = bases.base(i);
        let own = split_off_first(&mut places, place_count(base))?;
        let Some(component) = E::from_places(base, own)? else {
            return Ok(None);
        };
        components.push_reserved(component);
    }
    Ok(Some(components))
}

/// Splits the first `count` bitmaps off a list.
fn split_off_first(bitmaps: &mut Vec<Bits>, count: usize) -> Result<Vec<Bits>, NoMemory>
    requires { count ≤ length bitmaps.old.items }
    ensures first { IfOk result (λ first. first.items ≡ take count bitmaps.old.items) }
    ensures remaining { OnOk result (bitmaps.new.items ≡ drop count bitmaps.old.items) }
{
    let rest = bitmaps.split_off(count)?;
    Ok(replace(bitmaps, rest))
}
