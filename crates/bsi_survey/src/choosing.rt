//! Chooses the columns that are surveyed, by their titles (`choose`).

ghost use Rattle.std.specs.Prelude.{◌≡◌, ◌↔◌, length, map, IfOk, IsTrue};
ghost use Rattle.std.specs.List.{list_any};
ghost use Rattle.std.specs.Str.{bytes_eq};
ghost use Rattle.bsi_survey.specs.Choices.{chosen_fields, chosen_indexes, is_wanted, wanted_titles};

use crate::NoMemory;
use crate::choice::Choice;
use std::alloc::Global;

/// Chooses the columns of these titles among those of a header, or all if none are said.
pub(crate) fn choose(
    alloc: Global,
    titles: &[Vec<u8>],
    wanted: &Option<Vec<Vec<u8>>>,
) -> Result<Choice, NoMemory>
    ensures many { IfOk result (λ choice. choice.many ≡ length titles.now) }
    ensures indexes { IfOk result (λ choice. choice.indexes.items
        ≡ chosen_indexes (wanted_titles wanted.now) 0 (map (λ title. title.items) titles.now)) }
{
    let mut indexes = Vec::new(alloc);
    'titles: for index in 0..titles.len() {
        if is_wanted(wanted, titles[index].as_slice()) {
            indexes.push(index)?;
        }
    }
    Ok(Choice {
        many: titles.len(),
        indexes,
    })
}

/// Returns whether a column of this title is chosen.
fn is_wanted(wanted: &Option<Vec<Vec<u8>>>, title: &[u8]) -> bool
    ensures { result ≡ is_wanted (wanted_titles wanted.now) title.now }
{
    match wanted {
        Some(titles) => has_text(titles, title),
        None => true,
    }
}

/// Returns whether a text is one of these.
fn has_text(texts: &[Vec<u8>], text: &[u8]) -> bool
    ensures { result ≡ list_any (λ each. bytes_eq each.items text.now) texts.now }
{
    texts.iter().any(|each| each.as_slice() == text)
}

/// Makes a list of the titles of the columns, among those of the header.
pub(crate) fn choose_titles(
    alloc: Global,
    titles: &[Vec<u8>],
    choice: &Choice,
) -> Result<Vec<Vec<u8>>, NoMemory>
    requires { choice.now.many ≡ length titles.now }
    ensures { IfOk result (λ chosen. map (λ title. title.items) chosen.items
        ≡ chosen_fields choice.now (map (λ title. title.items) titles.now)) }
{
    let mut chosen = Vec::new(alloc);
    'indexes: for index in &choice.indexes {
        let title = Vec::from_slice(alloc, titles[*index].as_slice())?;
        chosen.push(title)?;
    }
    Ok(chosen)
}

/// Returns whether two surveys are of the same columns of a header.
pub(crate) fn is_same_choice(choice: &Choice, other: &Choice) -> bool
    ensures { IsTrue result ↔ (other.now.indexes.items ≡ choice.now.indexes.items) }
{
    choice.indexes.as_slice() == other.indexes.as_slice()
}

/// Returns the first title that is said and that no column of a header has.
pub(crate) fn find_missing(
    alloc: Global,
    titles: &[Vec<u8>],
    wanted: &Option<Vec<Vec<u8>>>,
) -> Result<Option<Vec<u8>>, NoMemory> {
    let Some(wanted) = wanted else {
        return Ok(None);
    };
    'wanted: for title in wanted {
        if !has_text(titles, title.as_slice()) {
            return Ok(Some(Vec::from_slice(alloc, title.as_slice())?));
        }
    }
    Ok(None)
}
