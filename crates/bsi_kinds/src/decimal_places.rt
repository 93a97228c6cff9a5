//! Counts the decimal places that a text takes (`count_places`), and tests whether it spells a decimal.

ghost use Rattle.std.specs.Prelude.{◌≡◌, ◌^◌, ◌<◌, is_some, neg_ℤ, pos, ◌≤ℤ◌};
ghost use Rattle.bsi_kinds.specs.Decimals.{decimal_of};
ghost use Rattle.bsi_kinds.specs.DecimalPlaces.{moved_places, places_written};

use crate::decimal::{read_exponent, scan, split_at_byte, split_at_exponent, split_sign};

/// Returns whether a text spells a decimal, of any length. It allocates no memory.
pub fn spells_decimal(point: u8, text: &[u8]) -> bool
    ensures { result ≡ is_some (decimal_of point text.now) }
{
    let (_, digits) = split_sign(text);
    scan(point, 0, digits).is_some()
}

/// Counts the digits that stand behind the point of a decimal, once its exponent has moved the point: 2 of 12.50, 5 of
/// 1e-05, none of 2.5e3. It does not look whether the text spells a decimal, and allocates no memory.
pub fn count_places(point: u8, text: &[u8]) -> usize
    ensures { result ≡ places_written point text.now }
{
    let (mantissa, behind) = split_at_exponent(text);
    let (_, fraction) = split_at_byte(point, mantissa);
    move_places(fraction.len(), read_exponent(behind).unwrap_or(0))
}

/// Moves the point of so many places by an exponent.
fn move_places(places: usize, exponent: i32) -> usize
    requires places { places < 2 ^ 63 }
    requires exponent { neg_ℤ (pos 9999) ≤ℤ exponent }
    ensures { result ≡ moved_places places exponent }
{
    let moved = exponent.unsigned_abs() as usize;
    if exponent < 0 {
        places + moved
    } else {
        places.saturating_sub(moved)
    }
}
