//! Tests of bit vectors (`Bits`) on worked bits: growth, flips, counts and words. Each tolerates one refused
//! allocation, and then makes the same call again.
ghost use Rattle.std.specs.Prelude.{◌≤◌};
ghost use Rattle.bsi_bits.specs.BitList.{max_len};

use bsi_bits::{Bits, MAX_LEN, NoMemory};
use std::alloc::Global;

pub(crate) fn filled(alloc: Global, n: u64, bit: bool) -> Result<Bits, NoMemory>
    requires { n ≤ max_len }
{
    match Bits::filled(alloc, n, bit) {
        Err(_) => Bits::filled(alloc, n, bit),
        made => made,
    }
}

fn copied(bits: &Bits) -> Result<Bits, NoMemory> {
    match bits.copy() {
        Err(_) => bits.copy(),
        made => made,
    }
}

// Appends a bit. A refused growth changes nothing, and the same call is made again.
fn push(bits: &mut Bits, bit: bool) -> Result<bool, NoMemory> {
    if bits.len() == MAX_LEN {
        return Ok(false);
    }
    let before = (bits.len(), bits.count());
    let mut stayed = true;
    if bits.reserve_one().is_err() {
        stayed = (bits.len(), bits.count()) == before && !bits.has_room();
        bits.reserve_one()?;
    }
    if bits.has_room() {
        bits.push_reserved(bit);
    }
    Ok(stayed)
}

fn is_multiple(i: u64, step: u64) -> bool {
    step != 0 && i % step == 0
}

// The places below `n` that are divisible by `step`.
fn multiples(alloc: Global, n: u64, step: u64) -> Result<Bits, NoMemory> {
    let mut bits = Bits::new(alloc);
    for i in 0..n {
        push(&mut bits, is_multiple(i, step))?;
    }
    Ok(bits)
}

fn count_and(a: &Bits, b: &Bits) -> Option<u64> {
    if a.len() == b.len() {
        Some(a.count_and(b))
    } else {
        None
    }
}

fn count_and_not(a: &Bits, b: &Bits) -> Option<u64> {
    if a.len() == b.len() {
        Some(a.count_and_not(b))
    } else {
        None
    }
}

// Whether of flipped ones none is set, and none in the bits before too, and all once they are flipped again.
fn flip_to_none(bits: &Bits) -> Result<bool, NoMemory> {
    let mut flipped = copied(bits)?;
    flipped.flip();
    let none = flipped.count() == 0 && count_and(bits, &flipped) == Some(0);
    flipped.flip();
    Ok(none && flipped.count() == bits.len())
}

/// So many bits, on either side of the ends of words and lanes.
const EDGES: [u64; 4] = [64, 65, 256, 257];

// Whether ones flip to none and back, and grow by one.
fn flip_and_grow(alloc: Global, n: u64) -> Result<bool, NoMemory> {
    let mut bits = filled(alloc, n.min(MAX_LEN - 1), true)?;
    let flipped = flip_to_none(&bits)?;
    let stayed = push(&mut bits, true)?;
    Ok(flipped && stayed && bits.len().saturating_sub(1) == n && bits.count() == bits.len())
}

fn all_flip_and_grow(alloc: Global) -> Result<bool, NoMemory> {
    let mut right = true;
    for &n in &EDGES {
        right &= flip_and_grow(alloc, n)?;
    }
    Ok(right)
}

#[test]
fn filled_vectors_flip_and_grow(rt: HostRuntime) {
    assert!(rt; matches!(all_flip_and_grow(rt.alloc()), Ok(true)));
}

// Whether so many of the places below `n` divide by 3, by 3 and 2, and by 3 and not 2.
fn counts_are(alloc: Global, n: u64, expected: [u64; 3]) -> Result<bool, NoMemory> {
    let a = multiples(alloc, n, 3)?;
    let b = multiples(alloc, n, 2)?;
    let both = count_and(&a, &b) == Some(expected[1]);
    let first_alone = count_and_not(&a, &b) == Some(expected[2]);
    Ok(a.count() == expected[0] && both && first_alone)
}

/// So many places, on either side of the ends of words and lanes, and the counts of those below.
const COUNTS: [(u64, [u64; 3]); 11] = [
    (0, [0, 0, 0]),
    (63, [21, 11, 10]),
    (64, [22, 11, 11]),
    (65, [22, 11, 11]),
    (127, [43, 22, 21]),
    (192, [64, 32, 32]),
    (255, [85, 43, 42]),
    (256, [86, 43, 43]),
    (257, [86, 43, 43]),
    (320, [107, 54, 53]),
    (513, [171, 86, 85]),
];

fn counts_are_exact(alloc: Global) -> Result<bool, NoMemory> {
    let mut exact = true;
    for &(places, expected) in &COUNTS {
        exact &= counts_are(alloc, places, expected)?;
    }
    Ok(exact)
}

#[test]
fn counts_of_multiples(rt: HostRuntime) {
    assert!(rt; matches!(counts_are_exact(rt.alloc()), Ok(true)));
}

// How many bits are set in the first alone, of those in the second and the third word of 200.
fn count_in_some_words(a: &Bits, b: &Bits) -> Option<u64> {
    if a.len() == 200 && b.len() == 200 {
        Some(a.count_and_not_in(b, 1, 3))
    } else {
        None
    }
}

// How many bits are then set in just one of both.
fn count_xor(a: &mut Bits, b: &Bits) -> Option<u64> {
    if a.len() != b.len() {
        return None;
    }
    a.xor_with(b);
    Some(a.count())
}

fn counts_of_200_are_exact(alloc: Global) -> Result<bool, NoMemory> {
    let mut threes = multiples(alloc, 200, 3)?;
    let twos = multiples(alloc, 200, 2)?;
    let some = count_in_some_words(&threes, &twos);
    Ok(some == Some(21) && count_xor(&mut threes, &twos) == Some(99))
}

#[test]
fn counts_within_some_words_and_in_one_alone(rt: HostRuntime) {
    assert!(rt; matches!(counts_of_200_are_exact(rt.alloc()), Ok(true)));
}

fn stores_its_words(alloc: Global) -> Result<bool, NoMemory> {
    let bits = filled(alloc, 65, true)?;
    Ok(bits.words() == [18446744073709551615, 1].as_slice())
}

#[test]
fn stored_bits(rt: HostRuntime) {
    assert!(rt; matches!(stores_its_words(rt.alloc()), Ok(true)));
}
