//! Reads fields as numbers, values and entries of rows, offsets, numbers of feeders and lists of bases.
//!
//! A `u64` holds whatever fewer than twenty digits spell, so each takes one test. Only the last digits of very great
//! numbers take the checked multiplication.
//!
//! What a field of a row passes through is inlined by force: a second caller, in another crate, keeps the compiler from
//! inlining it, and a field then costs twice as much.

ghost use Rattle.std.specs.Prelude.{◌≡◌, ◌<◌, ◌≤◌, ◌+ℤ◌, ◌≤ℤ◌, length, option_map, pos, IfOk, IfSome};
ghost use Rattle.bsi_digits.specs.Digits.{max_end};
ghost use Rattle.bsi_syntax.specs.Numbers.{bases_of, entry_in, feeder_of, max_digits, number_between, spelled_integer, offset_of, signed_of, spelled_number, u32_of, value_in};

use crate::NoMemory;
use bsi_schema::{Limits, to_i64};
use std::alloc::Global;

/// The most digits of a number: those of the greatest `u64`.
const MAX_DIGITS: usize = 20;

/// The greatest number after which every further digit still gives a `u64`.
const MAX_BEFORE_DIGIT: u64 = (u64::MAX - 9) / 10;

/// Reads a number of one to twenty digits, with leading zeros or without, whose value is a `u64`. It allocates no
/// memory.
#[inline(always)]
pub fn read_number(text: &[u8]) -> Option<u64>
    ensures { result ≡ spelled_number text.now }
{
    if text.is_empty() || text.len() > MAX_DIGITS {
        return None;
    }
    if text.len() < MAX_DIGITS {
        return read_short(text);
    }
    read_long(text)
}

/// Reads a number of fewer digits than the greatest `u64` has. A `u64` holds it, whatever its digits are.
fn read_short(text: &[u8]) -> Option<u64>
    requires { (0 < length text.now) × (length text.now < max_digits) }
    ensures { result ≡ spelled_number text.now }
{
    let mut value = 0u64;
    'digits: for byte in text {
        if !byte.is_ascii_digit() {
            return None;
        }
        value = value * 10 + u64::from(*byte - b'0');
    }
    Some(value)
}

/// Reads a number of at most as many digits as the greatest `u64` has.
fn read_long(text: &[u8]) -> Option<u64>
    requires { (0 < length text.now) × (length text.now ≤ max_digits) }
    ensures { result ≡ spelled_number text.now }
{
    let mut value = 0u64;
    'digits: for byte in text {
        if !byte.is_ascii_digit() {
            return None;
        }
        let digit = u64::from(*byte - b'0');
        if value <= MAX_BEFORE_DIGIT {
            value = value * 10 + digit;
            continue;
        }
        value = value.checked_mul(10)?.checked_add(digit)?;
    }
    Some(value)
}

/// Reads a number with one minus sign before it, or with none. It allocates no memory.
pub fn read_signed(text: &[u8]) -> Option<i128>
    ensures { result ≡ signed_of text.now }
{
    match text {
        [b'-', digits @ ..] => {
            let number = read_number(digits)?;
            Some(-i128::from(number))
        }
        _ => read_unsigned(text),
    }
}

/// Reads a number without a sign.
#[inline(always)]
fn read_unsigned(text: &[u8]) -> Option<i128>
    ensures { result ≡ option_map pos (spelled_number text.now) }
{
    let number = read_number(text)?;
    Some(i128::from(number))
}

/// Reads a number. It accepts a minus sign only where numbers are signed.
#[inline(always)]
pub(crate) fn read_whole_number(signed: bool, text: &[u8]) -> Option<i128>
    ensures { result ≡ spelled_integer signed text.now }
{
    if signed {
        return read_signed(text);
    }
    read_unsigned(text)
}

/// Reads a value of a row: no byte at all is a null, anything else is to be a number, with a minus sign only where
/// numbers are signed. `None` stands for a text that is not a value. It allocates no memory.
#[inline(always)]
pub fn read_value(signed: bool, text: &[u8]) -> Option<Option<i128>>
    ensures { result ≡ value_in signed text.now }
{
    if text.is_empty() {
        return Some(None);
    }
    let number = read_whole_number(signed, text)?;
    Some(Some(number))
}

/// Reads a value of a row as an entry of a column. `None` stands for a text that is not a value, and for a number that
/// the column does not accept. It allocates no memory.
#[inline(always)]
pub fn read_entry(signed: bool, limits: Limits, text: &[u8]) -> Option<Option<i64>>
    requires { (limits.least +ℤ pos limits.size) ≤ℤ pos max_end }
    ensures { result ≡ entry_in signed limits text.now }
{
    let value = read_value(signed, text)?;
    if !limits.accepts(value) {
        return None;
    }
    Some(to_i64(value))
}

/// Reads the number of a feeder. A number that no `u32` holds becomes the greatest `u32`, which is no feeder either.
pub(crate) fn read_feeder(text: &[u8]) -> Option<u32>
    ensures { result ≡ feeder_of text.now }
{
    let number = read_number(text)?;
    Some(number.min(u64::from(u32::MAX)) as u32)
}

/// Reads a number from `least` to `most`.
pub(crate) fn read_between(least: u64, most: u64, text: &[u8]) -> Option<u64>
    ensures value { result ≡ number_between least most text.now }
    ensures within { IfSome result (λ n. (least ≤ n) × (n ≤ most)) }
{
    read_number(text).filter(|n| *n >= least && *n <= most)
}

/// Reads a number of 32 bits.
fn read_u32(text: &[u8]) -> Option<u32>
    ensures { result ≡ u32_of text.now }
{
    u32::try_from(read_number(text)?).ok()
}

/// Reads the offset of a column, its least number: a whole number of 64 bits.
pub(crate) fn read_offset(text: &[u8]) -> Option<i64>
    ensures { result ≡ offset_of text.now }
{
    i64::try_from(read_signed(text)?).ok()
}

/// Reads a list of bases: numbers of 32 bits, with one space between any two.
pub(crate) fn read_bases(alloc: Global, text: &[u8]) -> Result<Option<Vec<u32>>, NoMemory>
    ensures { IfOk result (λ read. option_map (λ v. v.items) read ≡ bases_of text.now) }
{
    let mut bases = Vec::new(alloc);
    'bases: for word in text.split(|byte| *byte == b' ') {
        let Some(base) = read_u32(word) else {
            return Ok(None);
        };
        bases.push(base)?;
    }
    Ok(Some(bases))
}
