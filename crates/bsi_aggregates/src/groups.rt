//! The groups that rows were put in (`Groups`): the entries of all, one group after the other, and the answer of each.

ghost use Rattle.std.specs.Prelude.{◌≡◌, ◌↔◌, ◌<◌, ◌+◌, ◌++◌, ◌∷◌, [], Some, length, map, slice_get, IfOk, IsTrue};
ghost use Rattle.bsi_aggregates.specs.Groups.{as_group, with_first_entry};

use crate::column_groups::ColumnGroup;
use bsi_table::{Answer, NoMemory};
use std::alloc::Global;
use std::marker::Model;

/// Groups of rows, in order: the entries of each in the columns by which the rows are grouped, and the total over its rows.
#[derive(Drop)]
pub struct Groups {
    columns: usize,
    // The entries of each group are one after the other.
    entries: Vec<Option<i64>>,
    answers: Vec<Answer>,
}

/// The rows that have the same entries in the columns by which they are grouped.
#[derive(Clone, Copy, Debug)]
pub struct Group<'a> {
    /// The number that the rows have in each column, or none if they are null there.
    pub entries: &'a [Option<i64>],
    /// The total over these rows.
    pub answer: &'a Answer,
}

// Clauses see the groups as a list.
impl Model for Groups {
    ghost use Rattle.std.specs.Prelude.{◌≡◌, ◌*◌, length};
    ghost use Rattle.bsi_aggregates.specs.Groups.{grouped, GroupList};

    ghost Value = { GroupList };

    ghost view = { λ g. record { columns = g.columns; groups = grouped g.columns g.entries.items g.answers.items } };

    ghost invariant = { λ g. length g.entries.items ≡ g.columns * length g.answers.items };
}

impl Groups {
    /// Makes the list of no group, by so many columns. It allocates no memory until it grows.
    pub(crate) fn new(alloc: Global, columns: usize) -> Groups
        ensures columns { result.columns ≡ columns }
        ensures groups { result.groups ≡ [] }
    {
        Groups {
            columns,
            entries: Vec::new(alloc),
            answers: Vec::new(alloc),
        }
    }

    /// Returns the number of groups.
    pub fn len(&self) -> usize
        ensures { result ≡ length self.now.groups }
    {
        self.answers.len()
    }

    /// Returns whether there is no group.
    pub fn is_empty(&self) -> bool
        ensures { IsTrue result ↔ (self.now.groups ≡ []) }
    {
        self.len() == 0
    }

    /// Lends group `k`.
    pub fn get(&self, k: usize) -> Group<'_>
        requires { k < length self.now.groups }
        ensures group { slice_get self.now.groups k
            ≡ Some (record { entries = result.entries.now; answer = result.answer.now }) }
        ensures columns { length result.entries.now ≡ self.now.columns }
    {
        let start = self.columns * k;
        Group {
            entries: &self.entries[start..start + self.columns],
            answer: &self.answers[k],
        }
    }

    /// Makes the list of one group, of all rows, by no column.
    pub(crate) fn of_all(alloc: Global, answer: Answer) -> Result<Groups, NoMemory>
        ensures columns { IfOk result (λ groups. groups.columns ≡ 0) }
        ensures groups { IfOk result (λ groups. groups.groups
            ≡ record { entries = []; answer = answer } ∷ []) }
    {
        let mut answers = Vec::new(alloc);
        answers.push(answer)?;
        Ok(Groups {
            columns: 0,
            entries: Vec::new(alloc),
            answers,
        })
    }

    /// Appends a group of this entry in the first column, and these in the others.
    pub(crate) fn with(
        self,
        first: Option<i64>,
        others: &[Option<i64>],
        answer: Answer,
    ) -> Result<Groups, NoMemory>
        requires { length others.now + 1 ≡ self.columns }
        ensures columns { IfOk result (λ groups. groups.columns ≡ self.columns) }
        ensures groups { IfOk result (λ groups. groups.groups
            ≡ self.groups ++ record { entries = first ∷ others.now; answer = answer } ∷ []) }
    {
        let Groups {
            columns,
            mut entries,
            mut answers,
        } = self;
        entries.push(first)?;
        entries.extend_from_slice(others)?;
        answers.push(answer)?;
        Ok(Groups {
            columns,
            entries,
            answers,
        })
    }

    /// Appends groups, each with this entry in the column before theirs.
    pub(crate) fn with_inner(self, first: Option<i64>, others: Groups) -> Result<Groups, NoMemory>
        requires { others.columns + 1 ≡ self.columns }
        ensures columns { IfOk result (λ groups. groups.columns ≡ self.columns) }
        ensures groups { IfOk result (λ groups. groups.groups
            ≡ self.groups ++ map (with_first_entry first) others.groups) }
    {
        let Groups {
            columns,
            entries,
            answers,
        } = others;
        let mut groups = self;
        let mut start = 0;
        'groups: for answer in answers {
            groups = groups.with(first, &entries[start..start + columns], answer)?;
            start += columns;
        }
        Ok(groups)
    }
}

/// Makes the list of groups by one column.
pub(crate) fn into_groups(alloc: Global, made: Vec<ColumnGroup>) -> Result<Groups, NoMemory>
    ensures columns { IfOk result (λ groups. groups.columns ≡ 1) }
    ensures groups { IfOk result (λ groups. groups.groups ≡ map as_group made.items) }
{
    let mut groups = Groups::new(alloc, 1);
    'groups: for group in made {
        groups = groups.with(group.entry, &[], group.answer)?;
    }
    Ok(groups)
}
