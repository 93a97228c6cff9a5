//! The titles of the fields of a header (`titles_of`), compared without memory.

ghost use Rattle.std.specs.Prelude.{◌≡◌, ◌<◌, count_by, decimal, length};
ghost use Rattle.std.specs.Str.{bytes_eq};
ghost use Rattle.csv.specs.Records.{fields_of};
ghost use Rattle.bsi_input.specs.RowFiles.{field_index};
ghost use Rattle.bsi_logical.specs.HeaderTitles.{number_in, number_mark, titles_of};
ghost use Rattle.bsi_logical.specs.Logical.{title_at};

use bsi_syntax::field;
use csv::ByteRecord;
use itoa::Buffer;

/// Returns how many fields of a header have this title.
pub(crate) fn count_titled(header: &ByteRecord, title: &[u8]) -> usize
    ensures { result ≡ count_by (λ other. bytes_eq other title.now)
        (titles_of (fields_of header.now)) }
{
    let mut count = 0;
    'fields: for index in 0..header.len() {
        if has_title(header, index, title) {
            count += 1;
        }
    }
    count
}

/// Returns how many fields of a header come before the first one that has this title.
pub(crate) fn title_index(header: &ByteRecord, title: &[u8]) -> usize
    ensures { result ≡ field_index (titles_of (fields_of header.now)) title.now }
{
    'fields: for index in 0..header.len() {
        if has_title(header, index, title) {
            return index;
        }
    }
    header.len()
}

/// Returns whether a field of a header has this title.
fn has_title(header: &ByteRecord, index: usize, title: &[u8]) -> bool
    requires { index < length (fields_of header.now) }
    ensures { result ≡ bytes_eq (title_at (titles_of (fields_of header.now)) index) title.now }
{
    match title.strip_prefix(field(header, index)) {
        Some(rest) => is_mark(number_in(header, index), rest),
        None => false,
    }
}

/// Returns which of the fields that are the same a field of a header is, from 1.
fn number_in(header: &ByteRecord, index: usize) -> usize
    requires { index < length (fields_of header.now) }
    ensures { result ≡ number_in (fields_of header.now) index }
{
    // A header has no more fields than 64 bits count.
    let _ = header.len();
    let text = field(header, index);
    let mut number = 1;
    'fields: for other in 0..index {
        if field(header, other) == text {
            number += 1;
        }
    }
    number
}

/// Returns whether these bytes stand behind a field of this number in its title.
fn is_mark(number: usize, rest: &[u8]) -> bool
    ensures { result ≡ bytes_eq (number_mark number) rest.now }
{
    if number == 1 {
        return rest.is_empty();
    }
    match rest.split_first() {
        Some((first, digits)) => *first == b'_' && is_number(number, digits),
        None => false,
    }
}

/// Returns whether bytes are the digits of a number.
fn is_number(number: usize, bytes: &[u8]) -> bool
    ensures { result ≡ bytes_eq (decimal number) bytes.now }
{
    let mut digits = Buffer::new();
    digits.format(number).as_bytes() == bytes
}
