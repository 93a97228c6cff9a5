//! Null words, fields that stand for no value as the empty field does: the usual ones, and whether a field is in a list
//! of them.

ghost use Rattle.std.specs.Prelude.{◌≡◌, map, IfOk};
ghost use Rattle.std.specs.List.{list_any};
ghost use Rattle.std.specs.Str.{bytes_eq};
ghost use Rattle.bsi_inference.specs.Nulls.{usual_words};

use crate::NoMemory;
use std::alloc::Global;

/// The usual null words.
const USUAL_WORDS: [&str; 9] = [
    "NA", "N/A", "n/a", "null", "NULL", "NaN", "nan", "None", "-",
];

/// Makes a list of the usual null words: NA, N/A, n/a, null, NULL, NaN, nan, None and a minus sign.
pub fn usual_null_words(alloc: Global) -> Result<Vec<Vec<u8>>, NoMemory>
    ensures { IfOk result (λ words. map (λ w. w.items) words.items ≡ usual_words) }
{
    let mut words = Vec::with_capacity(alloc, USUAL_WORDS.len())?;
    'words: for word in USUAL_WORDS {
        words.push(Vec::from_slice(alloc, word.as_bytes())?)?;
    }
    Ok(words)
}

/// Returns whether a field is one of these words.
pub(crate) fn is_null_word(words: &[Vec<u8>], field: &[u8]) -> bool
    ensures { result ≡ list_any (λ word. bytes_eq word.items field.now) words.now }
{
    words.iter().any(|word| word.as_slice() == field)
}
