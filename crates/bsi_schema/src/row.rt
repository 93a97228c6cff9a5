//! A row (`Row`): an entry, a whole number or a null, for each column.

ghost use Rattle.std.specs.Prelude.{◌≡◌, IfOk};

use crate::NoMemory;
use std::marker::Model;

/// A list of entries, each a whole number or a null. A contract sees that list.
#[derive(Debug, Drop)]
pub struct Row {
    values: Vec<Option<i128>>,
}

impl Model for Row {
    ghost use Rattle.std.specs.Prelude.{List, Option, ℤ};

    ghost Value = { List (Option ℤ) };

    ghost view = { λ r. r.values.items };
}

// Two rows are equal where they have the same entries.
impl PartialEq for Row {
    ghost use Rattle.std.specs.Cmp.Lexicographic.{pointwise};
    ghost use Rattle.std.specs.Cmp.Rules.{comparing};
    ghost use Rattle.std.specs.Option.{option_eq};
    ghost use Rattle.std.specs.Ordering.{int_eq};

    ghost eq = { pointwise (option_eq int_eq) };

    ghost laws = { Prim.search comparing };

    fn eq(&self, other: &Row) -> bool {
        self.values == other.values
    }
}

impl Eq for Row {
    ghost use Rattle.std.specs.Cmp.Rules.{comparing};

    ghost laws = { Prim.search comparing };
}

impl Row {
    /// Makes a row of these entries.
    pub fn new(values: Vec<Option<i128>>) -> Row
        ensures { result ≡ values.items }
    {
        Row { values }
    }

    /// Lends the entries.
    pub fn values(&self) -> &[Option<i128>]
        ensures { result.now ≡ self.now }
    {
        &self.values
    }

    /// Consumes the row and returns its list of entries, so that it can be filled again.
    pub fn into_values(self) -> Vec<Option<i128>>
        ensures { result.items ≡ self }
    {
        let Row { values } = self;
        values
    }

    /// Makes a second row of the same entries.
    pub fn copy(&self) -> Result<Row, NoMemory>
        ensures { IfOk result (λ r. r ≡ self.now) }
    {
        Ok(Row {
            values: self.values.clone()?,
        })
    }
}
