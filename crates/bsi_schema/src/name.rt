//! Tests whether a text may be the name of a column (`is_name`), or is a word of predicates (`is_word`).

ghost use Rattle.std.specs.Prelude.{◌≡◌};
ghost use Rattle.std.specs.List.{list_all};
ghost use Rattle.bsi_schema.specs.Names.{begins_lower, is_name, is_name_byte, is_word};

/// The most bytes of a name.
const MAX_NAME_BYTES: usize = 32;

/// Returns whether the text is a name. A name has at most 32 bytes: first a lower-case letter, then lower-case letters,
/// digits or `_`. The words that predicates are written with are no names.
pub fn is_name(text: &[u8]) -> bool
    ensures { result ≡ is_name text.now }
{
    begins_lower(text) && text.len() <= MAX_NAME_BYTES && has_name_bytes(text) && !is_word(text)
}

/// Returns whether the first byte is a lower-case letter.
fn begins_lower(text: &[u8]) -> bool
    ensures { result ≡ begins_lower text.now }
{
    match text {
        [] => false,
        [first, ..] => first.is_ascii_lowercase(),
    }
}

/// Returns whether each byte may stand in a name.
fn has_name_bytes(text: &[u8]) -> bool
    ensures { result ≡ list_all is_name_byte text.now }
{
    text.iter().all(|byte| is_name_byte(*byte))
}

/// Returns whether the byte is a lower-case letter, a digit or `_`.
fn is_name_byte(byte: u8) -> bool
    ensures { result ≡ is_name_byte byte }
{
    byte.is_ascii_lowercase() || byte.is_ascii_digit() || byte == b'_'
}

/// Returns whether the text is one of the words that predicates are written with.
pub fn is_word(text: &[u8]) -> bool
    ensures { result ≡ is_word text.now }
{
    text == b"all".as_slice()
        || text == b"null".as_slice()
        || text == b"and".as_slice()
        || text == b"or".as_slice()
        || text == b"not".as_slice()
}
