//! Tests whether a field may be a code instead of a number: a zero before another digit, as in 007 (`is_code`).

ghost use Rattle.std.specs.Prelude.{◌≡◌};
ghost use Rattle.bsi_inference.specs.Codes.{begins_padded, is_code};

/// Returns whether a field begins with a zero and another digit, behind a minus sign or not, as 007 does: it may be a code,
/// which a number would cut short.
pub(crate) fn is_code(field: &[u8]) -> bool
    ensures { result ≡ is_code field.now }
{
    match field {
        [b'-', digits @ ..] => begins_padded(digits),
        digits => begins_padded(digits),
    }
}

/// Returns whether digits begin with a zero and another digit.
fn begins_padded(digits: &[u8]) -> bool
    ensures { result ≡ begins_padded digits.now }
{
    match digits {
        [b'0', next, ..] => next.is_ascii_digit(),
        _ => false,
    }
}
