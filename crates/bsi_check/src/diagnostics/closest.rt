//! Finds the column, or the text, whose letters are most like those of a misspelled word.

ghost use Rattle.std.specs.Prelude.{◌<◌, length, IfOk, IfSome};

use crate::NoMemory;
use crate::diagnostics::labels::label;
use crate::diagnostics::quoting::quote_field;
use crate::explains::Explains;
use bsi_kinds::Dictionary;
use std::alloc::Global;
use strsim::osa_distance;

/// The most edits between a word and what it may mean.
const MAX_EDITS: usize = 2;

/// The most texts that a word is compared with.
const MAX_COMPARED: usize = 1000;

/// Returns the column whose label is closest to a text, if one is close.
pub(crate) fn closest_column<F: Explains>(
    alloc: Global,
    format: &F,
    text: &str,
) -> Result<Option<u32>, NoMemory>
    ensures { IfOk result (λ found. IfSome found (λ c. c < length (F.format format.now).schema.columns)) }
{
    let mut best = None;
    let mut least = MAX_EDITS + 1;
    let schema = format.row_schema();
    'columns: for c in 0..schema.columns() {
        let edits = osa_distance(alloc, label(format, c), text)?;
        if edits < least && edits < text.len() {
            least = edits;
            best = Some(c);
        }
    }
    Ok(best.filter(|c| *c < schema.columns()))
}

/// Returns the text that a field is no column, with the column that it may mean.
pub(crate) fn unknown_column<F: Explains>(
    alloc: Global,
    format: &F,
    field: &[u8],
) -> Result<String, NoMemory> {
    let word = quote_field(alloc, field)?;
    match closest_column(alloc, format, word.as_str())? {
        Some(c) => {
            let name = label(format, c);
            format!(in alloc; "unknown column '{word}', did you mean '{name}'?")
        }
        None => format!(in alloc; "unknown column '{word}'"),
    }
}

/// Returns what is shown of the text of a dictionary that is closest to a word, if one is close. It looks at none if
/// there are more than 1,000 texts.
pub(crate) fn closest_text(
    alloc: Global,
    texts: &Dictionary,
    word: &str,
) -> Result<Option<String>, NoMemory> {
    let mut best = None;
    let mut least = MAX_EDITS + 1;
    if texts.len() > MAX_COMPARED {
        return Ok(None);
    }
    'texts: for number in 0..texts.len() {
        let text = quote_field(alloc, texts.text(number))?;
        let edits = osa_distance(alloc, text.as_str(), word)?;
        if edits < least && edits < word.len() {
            least = edits;
            best = Some(text);
        }
    }
    Ok(best)
}
