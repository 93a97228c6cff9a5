//! Tests of components of both encodings on digits that were worked out by hand, called through the trait `Encoding`.

ghost use Rattle.std.specs.Prelude.{◌≤◌};
ghost use Rattle.bsi_digits.specs.Digits.{IsBase};

use crate::bits::filled;
use bsi_bits::{Bits, MAX_LEN};
use bsi_components::{Encoding, EqualityComponent, NoMemory, RangeComponent};
use std::alloc::Global;

fn is_set(bits: &Bits, place: u64) -> bool {
    place < bits.len() && bits.get(place)
}

// Whether the vector has these bits and no others.
fn has_bits(bits: &Bits, expected: &[bool]) -> bool {
    bits.len() == expected.len() as u64
        && expected
            .iter()
            .enumerate()
            .all(|(place, bit)| is_set(bits, place as u64) == *bit)
}

fn make<E: Encoding>(alloc: Global, base: u32) -> Result<E, NoMemory>
    requires { IsBase base }
{
    match E::make(alloc, base) {
        Err(_) => E::make(alloc, base),
        made => made,
    }
}

fn copied<E: Encoding>(component: &E) -> Result<E, NoMemory> {
    match component.copy() {
        Err(_) => component.copy(),
        made => made,
    }
}

fn eq<E: Encoding>(component: &E, d: u32, out: &mut Bits) -> bool {
    if d >= component.base() || component.len() != out.len() {
        return false;
    }
    component.eq_into(d, out);
    true
}

fn le<E: Encoding>(component: &E, d: u32, out: &mut Bits) -> bool {
    if d >= component.base() || component.len() != out.len() {
        return false;
    }
    component.le_into(d, out);
    true
}

fn digit_sum<E: Encoding>(component: &E, selection: &Bits) -> Option<u128> {
    if component.len() == selection.len() {
        Some(component.digit_sum(selection))
    } else {
        None
    }
}

// Appends a digit. A refused growth leaves the component, and the same call is made again.
fn push<E: Encoding>(component: &mut E, digit: u32) -> Result<(), NoMemory> {
    if component.len() >= MAX_LEN || digit >= component.base() {
        return Ok(());
    }
    if component.reserve_one().is_err() {
        component.reserve_one()?;
    }
    if component.has_room() {
        component.push_reserved(digit);
    }
    Ok(())
}

// A component of these digits.
fn component_of<E: Encoding>(alloc: Global, base: u32, digits: &[u32]) -> Result<E, NoMemory>
    requires { IsBase base }
{
    let mut component = make::<E>(alloc, base)?;
    for digit in digits {
        push(&mut component, *digit)?;
    }
    Ok(component)
}

// Whether just these rows have the digit.
fn eq_is<E: Encoding>(component: &E, d: u32, out: &mut Bits, expected: &[bool]) -> bool {
    eq(component, d, out) && has_bits(out, expected)
}

// Whether just these rows have a digit up to this one.
fn le_is<E: Encoding>(component: &E, d: u32, out: &mut Bits, expected: &[bool]) -> bool {
    le(component, d, out) && has_bits(out, expected)
}

// Whether the digits 0, 2 and 1 are selected and summed as they should be.
fn shows_three_digits<E: Encoding>(alloc: Global) -> Result<bool, NoMemory> {
    let component = component_of::<E>(alloc, 3, &[0, 2, 1])?;
    let mut out = filled(alloc, 3, false)?;
    Ok(
        eq_is(&component, 2, &mut out, &[false, true, false])
            && le_is(&component, 1, &mut out, &[true, false, true])
            && le_is(&component, 2, &mut out, &[true, true, true])
            && digit_sum(&component, &out) == Some(3),
    )
}

// Whether the digits 1, 0 and 1 under base 2 are selected and summed as they should be.
fn shows_base_two<E: Encoding>(alloc: Global) -> Result<bool, NoMemory> {
    let component = component_of::<E>(alloc, 2, &[1, 0, 1])?;
    let mut out = filled(alloc, 3, true)?;
    Ok(
        digit_sum(&component, &out) == Some(2)
            && eq_is(&component, 0, &mut out, &[false, true, false])
            && le_is(&component, 0, &mut out, &[false, true, false]),
    )
}

fn shows_digits<E: Encoding>(alloc: Global) -> Result<bool, NoMemory> {
    Ok(shows_three_digits::<E>(alloc)? && shows_base_two::<E>(alloc)?)
}

fn both_show_digits(alloc: Global) -> Result<bool, NoMemory> {
    Ok(shows_digits::<EqualityComponent>(alloc)? && shows_digits::<RangeComponent>(alloc)?)
}

#[test]
fn two_encodings(rt: HostRuntime) {
    assert!(rt; matches!(both_show_digits(rt.alloc()), Ok(true)));
}

// Whether a copy gets a digit more, and the component does not.
fn is_apart<E: Encoding>(alloc: Global) -> Result<bool, NoMemory> {
    let component = component_of::<E>(alloc, 3, &[1, 0])?;
    let mut copy = copied(&component)?;
    push(&mut copy, 1)?;
    let mut longer = filled(alloc, 3, false)?;
    let shown = eq_is(&copy, 1, &mut longer, &[true, false, true]);
    Ok(shown && copy.base() == 3 && component.len() == 2)
}

fn both_are_apart(alloc: Global) -> Result<bool, NoMemory> {
    Ok(is_apart::<EqualityComponent>(alloc)? && is_apart::<RangeComponent>(alloc)?)
}

#[test]
fn copies_are_apart(rt: HostRuntime) {
    assert!(rt; matches!(both_are_apart(rt.alloc()), Ok(true)));
}

fn equality_shows(component: &EqualityComponent, j: u32, expected: &[bool]) -> bool {
    j < component.base()
        && (component.base() != 2 || j == 1)
        && has_bits(component.bitmap(j), expected)
}

// Whether the bitmap of digit 1, of a component of these digits, is this.
fn equality_stores(
    alloc: Global,
    base: u32,
    digits: &[u32],
    expected: &[bool],
) -> Result<bool, NoMemory>
    requires { IsBase base }
{
    let component = component_of::<EqualityComponent>(alloc, base, digits)?;
    Ok(equality_shows(&component, 1, expected))
}

fn range_stores(alloc: Global, digits: &[u32], expected: &[bool]) -> Result<bool, NoMemory> {
    let component = component_of::<RangeComponent>(alloc, 3, digits)?;
    Ok(component.base() > 1 && has_bits(component.bitmap(0), expected))
}

fn bitmaps_are_stored(alloc: Global) -> Result<bool, NoMemory> {
    Ok(
        equality_stores(alloc, 5, &[1, 0, 0], &[true, false, false])?
            && equality_stores(alloc, 2, &[1, 0, 1], &[true, false, true])?
            && range_stores(alloc, &[0, 0, 2], &[true, true, false])?,
    )
}

#[test]
fn stored_bits(rt: HostRuntime) {
    assert!(rt; matches!(bitmaps_are_stored(rt.alloc()), Ok(true)));
}
