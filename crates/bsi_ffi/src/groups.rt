//! Answers a query over groups by one column, and writes each group as a C struct (`FlatGroup`).

ghost use Rattle.std.specs.Prelude.{◌≡◌, ◌≤◌, drop, length, map, take, OnErr, OnOk};
ghost use Rattle.std.specs.List.{AllZip};
ghost use Rattle.bsi_ffi.specs.Groups.{IsFlat, IsFlatGroup, IsGroupEntry, IsGrouped};

use crate::answers::{FlatAnswer, Origin, write};
use crate::open_index::OpenIndex;
use crate::refusal::Refusal;
use crate::selection::read_query;
use bsi_aggregates::{GroupError, Groups, group_by};
use bsi_table::Answer;
use std::alloc::Global;

/// An answer before it is written.
const UNWRITTEN: FlatAnswer = FlatAnswer {
    kind: 0,
    present: false,
    value: 0,
    count: 0,
    low: 0,
    high: 0,
};

/// A group of rows: those that have the same entry in a column.
#[repr(C)]
#[derive(Clone, Copy, Debug, PartialEq, Eq)]
pub struct FlatGroup {
    /// Whether the rows have a number there; else they are null.
    pub present: bool,
    /// The number.
    pub entry: i64,
    /// The answer over these rows. Rows are counted alone.
    pub answer: FlatAnswer,
}

/// Puts the rows that the query of the fields selects in groups by their entry in the column of this name, and writes
/// the query's answer over each.
pub(crate) fn reply_groups(
    alloc: Global,
    opened: &OpenIndex,
    fields: &[&[u8]],
    name: &[u8],
    groups: &mut [FlatGroup],
    count: &mut usize,
) -> Result<(), Refusal>
    ensures grouped { IsGrouped opened.now (map (λ f. f.now) fields.now) name.now groups.new count.new
        result }
    ensures count_unchanged { OnErr result (count.new ≡ count.old) }
    ensures groups_unchanged { OnErr result (groups.new ≡ groups.old) }
    ensures rest_unchanged { OnOk result (drop count.new groups.new ≡ drop count.new groups.old) }
{
    let index = opened.index();
    let Some(query) = read_query(alloc, index.schema(), fields)? else {
        return Err(Refusal::BadQuery);
    };
    let Some(by) = index.schema().find(name) else {
        return Err(Refusal::BadQuery);
    };
    match group_by(alloc, index, &query, &[by], groups.len()) {
        Ok(made) => {
            write_groups(&made, groups);
            *count = made.len();
            Ok(())
        }
        Err(GroupError::TooMany) => Err(Refusal::BufferTooSmall),
        Err(GroupError::NoMemory) => Err(Refusal::NoMemory),
        // By the proof this never is, since the columns of a query that was read are there, and so is that of a name.
        Err(GroupError::BadColumn(_)) => Err(Refusal::BadQuery),
    }
}

/// Writes groups by one column, for which the buffer is large enough.
fn write_groups(made: &Groups, groups: &mut [FlatGroup])
    requires column { made.now.columns ≡ 1 }
    requires fits { length made.now.groups ≤ length groups.old }
    ensures made { AllZip IsFlatGroup made.now.groups (take (length made.now.groups) groups.new) }
    ensures long { length groups.new ≡ length groups.old }
    ensures rest_unchanged { drop (length made.now.groups) groups.new
        ≡ drop (length made.now.groups) groups.old }
{
    'groups: for at in 0..made.len() {
        let group = made.get(at);
        groups[at] = flat_group(group.entries[0], group.answer);
    }
}

/// Returns a group of this entry as C has it.
fn flat_group(entry: Option<i64>, answer: &Answer) -> FlatGroup
    ensures entry { IsGroupEntry entry result }
    ensures answer { IsFlat answer.now result.answer }
{
    let answer = flat_answer(answer);
    match entry {
        Some(entry) => FlatGroup {
            present: true,
            entry,
            answer,
        },
        None => FlatGroup {
            present: false,
            entry: 0,
            answer,
        },
    }
}

/// Returns an answer over a group as C has it.
pub(crate) fn flat_answer(reply: &Answer) -> FlatAnswer
    ensures { IsFlat reply.now result }
{
    let mut answer = UNWRITTEN;
    let mut no_origins: [Origin; 0] = [];
    // Where rows have no origin, their count is written.
    let _ = write(reply, &mut answer, &mut no_origins);
    answer
}
