//! Answers a query over groups by two columns, and writes each group as a C struct (`FlatPair`) of two entries
//! (`FlatEntry`).

ghost use Rattle.std.specs.Prelude.{◌≡◌, ◌≤◌, drop, length, map, take, OnErr, OnOk};
ghost use Rattle.std.specs.List.{AllZip};
ghost use Rattle.bsi_ffi.specs.Groups.{IsFlat};
ghost use Rattle.bsi_ffi.specs.Pairs.{IsFlatPair, IsGroupedByTwo, IsFlatEntry};

use crate::answers::FlatAnswer;
use crate::groups::flat_answer;
use crate::open_index::OpenIndex;
use crate::refusal::Refusal;
use crate::selection::read_query;
use bsi_aggregates::{GroupError, Groups, group_by};
use bsi_table::Answer;
use std::alloc::Global;

/// A row's entry in a column, or the number of a rank.
#[repr(C)]
#[derive(Clone, Copy, Debug, PartialEq, Eq)]
pub struct FlatEntry {
    /// Whether there is a number.
    pub present: bool,
    /// The number.
    pub number: i64,
}

/// A group of rows: those that have the same two entries in two columns.
#[repr(C)]
#[derive(Clone, Copy, Debug, PartialEq, Eq)]
pub struct FlatPair {
    /// The entry in each of the columns.
    pub entries: [FlatEntry; 2],
    /// The answer over these rows. Rows are counted alone.
    pub answer: FlatAnswer,
}

/// Puts the rows that the query of the fields selects in groups by their entries in the columns of these names, and
/// writes the query's answer over each.
pub(crate) fn reply_pairs(
    alloc: Global,
    opened: &OpenIndex,
    fields: &[&[u8]],
    first: &[u8],
    second: &[u8],
    pairs: &mut [FlatPair],
    count: &mut usize,
) -> Result<(), Refusal>
    ensures grouped { IsGroupedByTwo opened.now (map (λ f. f.now) fields.now) first.now second.now
        pairs.new count.new result }
    ensures count_unchanged { OnErr result (count.new ≡ count.old) }
    ensures pairs_unchanged { OnErr result (pairs.new ≡ pairs.old) }
    ensures rest_unchanged { OnOk result (drop count.new pairs.new ≡ drop count.new pairs.old) }
{
    let index = opened.index();
    let Some(query) = read_query(alloc, index.schema(), fields)? else {
        return Err(Refusal::BadQuery);
    };
    let Some(one) = index.schema().find(first) else {
        return Err(Refusal::BadQuery);
    };
    let Some(other) = index.schema().find(second) else {
        return Err(Refusal::BadQuery);
    };
    match group_by(alloc, index, &query, &[one, other], pairs.len()) {
        Ok(made) => {
            write_pairs(&made, pairs);
            *count = made.len();
            Ok(())
        }
        Err(GroupError::TooMany) => Err(Refusal::BufferTooSmall),
        Err(GroupError::NoMemory) => Err(Refusal::NoMemory),
        // By the proof this never is, since the columns of a query that was read are there, and so are those of names.
        Err(GroupError::BadColumn(_)) => Err(Refusal::BadQuery),
    }
}

/// Writes groups by two columns, for which the buffer is large enough.
fn write_pairs(made: &Groups, pairs: &mut [FlatPair])
    requires columns { made.now.columns ≡ 2 }
    requires fits { length made.now.groups ≤ length pairs.old }
    ensures made { AllZip IsFlatPair made.now.groups (take (length made.now.groups) pairs.new) }
    ensures long { length pairs.new ≡ length pairs.old }
    ensures rest_unchanged { drop (length made.now.groups) pairs.new
        ≡ drop (length made.now.groups) pairs.old }
{
    'pairs: for at in 0..made.len() {
        let group = made.get(at);
        pairs[at] = flat_pair([group.entries[0], group.entries[1]], group.answer);
    }
}

/// Returns a group of these entries as C has it.
fn flat_pair(entries: [Option<i64>; 2], answer: &Answer) -> FlatPair
    ensures entries { AllZip IsFlatEntry entries result.entries }
    ensures answer { IsFlat answer.now result.answer }
{
    FlatPair {
        entries: flat_entries(entries),
        answer: flat_answer(answer),
    }
}

/// Returns two entries as C has them.
fn flat_entries(entries: [Option<i64>; 2]) -> [FlatEntry; 2]
    ensures { AllZip IsFlatEntry entries result }
{
    let [first, second] = entries;
    [flat_entry(first), flat_entry(second)]
}

/// Returns an entry as C has it.
pub(crate) fn flat_entry(entry: Option<i64>) -> FlatEntry
    ensures { IsFlatEntry entry result }
{
    match entry {
        Some(number) => FlatEntry {
            present: true,
            number,
        },
        None => FlatEntry {
            present: false,
            number: 0,
        },
    }
}
