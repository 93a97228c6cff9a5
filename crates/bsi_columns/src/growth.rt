//! Components that grow together: each gets its digits of the numbers that are appended.

ghost use Rattle.std.specs.Prelude.{◌≡◌, ℕ, ◌+◌, ◌/◌, ◌%◌, ◌^◌, ◌≤◌, ◌<◌, [], ◌∷◌, ◌++◌, All, length, map, slice_index, slice_index_or, OnOk};
ghost use Rattle.bsi_bits.specs.BitList.{max_block, max_len};
ghost use Rattle.bsi_digits.specs.Digits.{digit_of, product, weight};
ghost use Rattle.bsi_columns.specs.Decomposed.{AreQuotients};

use crate::{Encoding, NoMemory};
use bsi_bits::MAX_BLOCK;
use bsi_digits::{Bases, DigitStep};

/// Makes room for `more` further digits in each component. Whatever the result, the digits stay and no component has
/// less room than before.
pub(crate) fn reserve_each<E: Encoding>(components: &mut Vec<E>, more: u64) -> Result<(), NoMemory>
    requires { All (λ c. length (E.digits c) + more ≤ max_len) components.old.items }
    ensures digits { map E.digits components.new.items ≡ map E.digits components.old.items }
    ensures bases { map E.base_of components.new.items ≡ map E.base_of components.old.items }
    ensures no_less { (i : ℕ) →
        slice_index (map E.room_of components.old.items) i
        ≤ slice_index (map E.room_of components.new.items) i }
    ensures ok { OnOk result ((i : ℕ) → i < length components.old.items →
        more ≤ slice_index (map E.room_of components.new.items) i) }
{
    for component in components.iter_mut() {
        component.reserve(more)?;
    }
    Ok(())
}

/// Removes all digits of each component, and keeps its room.
pub(crate) fn clear_each<E: Encoding>(components: &mut Vec<E>)
    ensures digits { (i : ℕ) → i < length components.old.items →
        slice_index_or (map E.digits components.new.items) i [] ≡ [] }
    ensures bases { map E.base_of components.new.items ≡ map E.base_of components.old.items }
    ensures room { (i : ℕ) → i < length components.old.items →
        length (slice_index_or (map E.digits components.old.items) i [])
        + slice_index (map E.room_of components.old.items) i
        ≤ slice_index (map E.room_of components.new.items) i }
{
    for component in components.iter_mut() {
        component.clear();
    }
}

/// Appends to each component its digit of a number, into room that is already there.
pub(crate) fn push_digits<E: Encoding>(components: &mut Vec<E>, bases: &Bases, number: u64)
    requires bases { map E.base_of components.old.items ≡ bases.now }
    requires room { (i : ℕ) → i < length components.old.items →
        0 < slice_index (map E.room_of components.old.items) i }
    requires below { number < product bases.now }
    ensures digits { (i : ℕ) → i < length bases.now →
        slice_index_or (map E.digits components.new.items) i []
        ≡ slice_index_or (map E.digits components.old.items) i []
        ++ digit_of bases.now number i ∷ [] }
    ensures bases { map E.base_of components.new.items ≡ bases.now }
    ensures room { (i : ℕ) →
        slice_index (map E.room_of components.old.items) i
        ≤ slice_index (map E.room_of components.new.items) i + 1 }
{
    // What is left of the number above the digits that were appended.
    let mut rest = number;
    for i in 0..bases.len() {
        let DigitStep { digit, above } = bases.next_digit(number, i, rest);
        components[i as usize].push_reserved(digit);
        rest = above;
    }
}

/// Appends to each component its digits of a block of at most 64 numbers, into room that is already there.
pub(crate) fn push_blocks<E: Encoding>(components: &mut Vec<E>, bases: &Bases, numbers: &[u64])
    requires bases { map E.base_of components.old.items ≡ bases.now }
    requires few { length numbers.now ≤ max_block }
    requires room { (i : ℕ) → i < length components.old.items →
        length numbers.now ≤ slice_index (map E.room_of components.old.items) i }
    requires below { (r : ℕ) → r < length numbers.now →
        slice_index numbers.now r < product bases.now }
    ensures digits { (i : ℕ) → i < length bases.now →
        slice_index_or (map E.digits components.new.items) i []
        ≡ slice_index_or (map E.digits components.old.items) i []
        ++ map (λ n. digit_of bases.now n i) numbers.now }
    ensures bases { map E.base_of components.new.items ≡ bases.now }
    ensures room { (i : ℕ) →
        slice_index (map E.room_of components.old.items) i
        ≤ slice_index (map E.room_of components.new.items) i + length numbers.now }
{
    // Of each number what is left above the digits that were appended.
    let mut quotients = [0; MAX_BLOCK];
    quotients[..numbers.len()].copy_from_slice(numbers);
    for i in 0..bases.len() {
        let component = &mut components[i as usize];
        push_block(component, bases, i, numbers, &mut quotients);
    }
}

/// Appends to each component all digits of the component at its place in another list, in their order, into room that
/// is already there.
pub(crate) fn push_all_digits<E: Encoding>(components: &mut Vec<E>, others: &[E])
    requires bases { map E.base_of others.now ≡ map E.base_of components.old.items }
    requires room { (i : ℕ) → i < length components.old.items →
        length (slice_index_or (map E.digits others.now) i [])
        ≤ slice_index (map E.room_of components.old.items) i }
    ensures digits { (i : ℕ) → i < length components.old.items →
        slice_index_or (map E.digits components.new.items) i []
        ≡ slice_index_or (map E.digits components.old.items) i []
        ++ slice_index_or (map E.digits others.now) i [] }
    ensures bases { map E.base_of components.new.items ≡ map E.base_of components.old.items }
    ensures room { (i : ℕ) →
        slice_index (map E.room_of components.old.items) i
        ≤ slice_index (map E.room_of components.new.items) i
        + length (slice_index_or (map E.digits others.now) i []) }
{
    for (i, other) in others.iter().enumerate() {
        components[i].push_all_reserved(other);
    }
}

/// Appends to a component its digits of a block of at most 64 numbers, into room that is already there. The
/// quotients are those of the numbers by the weight of that component, and become those by the weight of the next one.
fn push_block<E: Encoding>(
    component: &mut E,
    bases: &Bases,
    i: u32,
    numbers: &[u64],
    quotients: &mut [u64; MAX_BLOCK],
)
    requires within { i < length bases.now }
    requires base { E.base_of component.old ≡ slice_index bases.now i }
    requires few { length numbers.now ≤ max_block }
    requires room { length numbers.now ≤ E.room_of component.old }
    requires below { (r : ℕ) → r < length numbers.now →
        slice_index numbers.now r < product bases.now }
    requires quotients { AreQuotients numbers.now (weight bases.now i) quotients.old }
    ensures digits { E.digits component.new
        ≡ E.digits component.old ++ map (λ n. digit_of bases.now n i) numbers.now }
    ensures base { E.base_of component.new ≡ E.base_of component.old }
    ensures room { E.room_of component.old ≤ E.room_of component.new + length numbers.now }
    ensures quotients { AreQuotients numbers.now (weight bases.now (i + 1)) quotients.new }
{
    let mut digits = [0; MAX_BLOCK];
    write_digits(bases, i, numbers, quotients, &mut digits[..numbers.len()]);
    component.push_block_reserved(&digits[..numbers.len()]);
}

/// Writes for each number its digit of component `i`. The quotients are as `push_block` has them.
fn write_digits(
    bases: &Bases,
    i: u32,
    numbers: &[u64],
    quotients: &mut [u64; MAX_BLOCK],
    digits: &mut [u32],
)
    requires within { i < length bases.now }
    requires few { length numbers.now ≤ max_block }
    requires same { length digits.old ≡ length numbers.now }
    requires below { (r : ℕ) → r < length numbers.now →
        slice_index numbers.now r < product bases.now }
    requires quotients { AreQuotients numbers.now (weight bases.now i) quotients.old }
    ensures digits { digits.new ≡ map (λ n. digit_of bases.now n i) numbers.now }
    ensures below { (r : ℕ) → r < length numbers.now →
        slice_index digits.new r < slice_index bases.now i }
    ensures quotients { AreQuotients numbers.now (weight bases.now (i + 1)) quotients.new }
{
    let base = bases.base(i);
    let places = base.trailing_zeros();
    // A digit under a power of two takes no multiplication. This is not `is_power_of_two`, since the kit has no lemma
    // from that to a power.
    if base == 1 << places {
        split_quotients(places, quotients, digits);
        return;
    }
    for (r, number) in numbers.iter().enumerate() {
        let DigitStep { digit, above } = bases.next_digit(*number, i, quotients[r]);
        digits[r] = digit;
        quotients[r] = above;
    }
}

/// Writes for each digit the lowest binary places of its quotient, and leaves the quotient what is above them.
fn split_quotients(places: u32, quotients: &mut [u64; MAX_BLOCK], digits: &mut [u32])
    requires few { length digits.old ≤ max_block }
    requires places { places < 32 }
    ensures long { length digits.new ≡ length digits.old }
    ensures digits { (r : ℕ) → r < length digits.old →
        slice_index digits.new r ≡ slice_index quotients.old r % 2 ^ places }
    ensures quotients { (r : ℕ) → r < length digits.old →
        slice_index quotients.new r ≡ slice_index quotients.old r / 2 ^ places }
{
    let lowest = (1 << places) - 1;
    for r in 0..digits.len() {
        digits[r] = (quotients[r] & lowest) as u32;
        quotients[r] >>= places;
    }
}
