//! The names of columns (`make_name`), made of their titles by bytes that a name may have.

ghost use Rattle.std.specs.Prelude.{◌<◌, length, IfErr};
ghost use Rattle.bsi_survey.specs.Made.{IsLateRefusal};

use crate::NoMemory;
use crate::numbering::number_title;
use crate::schema_refusal::SchemaRefusal;
use bsi_logical::Refusal;
use bsi_schema::{Schema, is_word};
use std::alloc::Global;

/// The most numbers that are tried behind a name. As there are at most 64 columns, fewer are taken.
const MAX_TRIES: usize = 256;

/// The most bytes of a name that has a number behind it, without `_` and the number.
const MAX_STEM_BYTES: usize = 28;

/// Makes the name of column `c`, behind those that a schema has. It is the title with small letters for capitals, digits
/// and `_`, and one `_` for other bytes between these; `c_` stands in front, if that begins with no letter or is a word of
/// predicates. It is cut to 28 bytes, and `_2`, `_3` and so on stand behind, if a column has the name or another one has it
/// as its title. A title that has no such bytes, as the empty one, makes `column`.
pub(crate) fn make_name(
    alloc: Global,
    schema: &Schema,
    titles: &[Vec<u8>],
    c: usize,
) -> Result<String, SchemaRefusal>
    requires { c < length titles.now }
    ensures { IfErr result IsLateRefusal }
{
    let stem = make_stem(alloc, titles[c].as_slice())?;
    'numbers: for number in 1..MAX_TRIES {
        let name = number_title(alloc, stem.as_slice(), number)?;
        if schema.find(name.as_slice()).is_none()
            && !is_title_of_other(titles, c, name.as_slice())
        {
            return Ok(to_string(alloc, name.as_slice())?);
        }
    }
    // There are fewer names and titles, so the loop has returned.
    Err(SchemaRefusal::Undeclared(Refusal::NameTaken))
}

/// Makes the part of a name that stands before a number.
fn make_stem(alloc: Global, title: &[u8]) -> Result<Vec<u8>, NoMemory> {
    let bytes = keep_name_bytes(alloc, title)?;
    if bytes.is_empty() {
        return Vec::from_slice(alloc, b"column");
    }
    let begins_lower = bytes
        .first()
        .is_some_and(|first| first.is_ascii_lowercase());
    let mut stem = Vec::new(alloc);
    if !begins_lower || is_word(bytes.as_slice()) {
        stem.extend_from_slice(b"c_")?;
    }
    stem.extend_from_slice(bytes.as_slice())?;
    stem.truncate(MAX_STEM_BYTES);
    Ok(stem)
}

/// Makes a text of the bytes that a name may have, with one `_` for others between them.
fn keep_name_bytes(alloc: Global, title: &[u8]) -> Result<Vec<u8>, NoMemory> {
    let mut bytes = Vec::new(alloc);
    let mut other = false;
    'bytes: for byte in title {
        if !byte.is_ascii_alphanumeric() && *byte != b'_' {
            other = true;
            continue;
        }
        if other && !bytes.is_empty() {
            bytes.push(b'_')?;
        }
        other = false;
        bytes.push(byte.to_ascii_lowercase())?;
    }
    Ok(bytes)
}

/// Returns whether another column than `c` has this title.
fn is_title_of_other(titles: &[Vec<u8>], c: usize, name: &[u8]) -> bool {
    titles
        .iter()
        .enumerate()
        .any(|(other, title)| other != c && title.as_slice() == name)
}

/// Makes a string of ASCII bytes.
fn to_string(alloc: Global, bytes: &[u8]) -> Result<String, NoMemory> {
    let mut text = String::new(alloc);
    'bytes: for byte in bytes {
        text.push(char::from(*byte))?;
    }
    Ok(text)
}
