//! A logical schema: the columns of an index with their titles and kinds, and how row files are written.

ghost use Rattle.std.specs.Prelude.{◌≡◌, ◌<◌, length, map, position, IfSome};
ghost use Rattle.std.specs.Str.{bytes_eq};
ghost use Rattle.bsi_kinds.specs.Kinds.{IsKind};
ghost use Rattle.bsi_logical.specs.Logical.{column_called, kind_of, nothing_said, title_of, IsLogical};

mod comparing;
mod declaring;
mod making;
mod values;

use crate::dialect::Dialect;
use bsi_kinds::Kind;
use bsi_rows::{MAX_ROWS, Schema};
use std::alloc::Global;
use std::marker::Model;

/// A schema of kinds: columns of whole numbers and the most rows, as an index has them; the title of each column, as
/// the header of a row file has it, and its kind; and how row files are written. A column is called by its title, or by
/// its name, and no two are called the same.
#[derive(Drop)]
pub struct LogicalSchema {
    schema: Schema,
    limit: u64,
    titles: Vec<Vec<u8>>,
    kinds: Vec<Kind>,
    dialect: Dialect,
    nulls: Vec<Vec<u8>>,
}

impl Model for LogicalSchema {
    ghost use Rattle.std.specs.Prelude.{map};
    ghost use Rattle.bsi_logical.specs.Logical.{IsLogical, Logical};

    ghost Value = { Logical };

    ghost view = { λ s. record {
      schema = s.schema;
      limit = s.limit;
      titles = map (λ t. t.items) s.titles.items;
      kinds = s.kinds.items;
      dialect = s.dialect;
      nulls = map (λ w. w.items) s.nulls.items;
    } };

    ghost invariant = { λ s. IsLogical (record {
      schema = s.schema;
      limit = s.limit;
      titles = map (λ t. t.items) s.titles.items;
      kinds = s.kinds.items;
      dialect = s.dialect;
      nulls = map (λ w. w.items) s.nulls.items;
    }) };
}

impl LogicalSchema {
    /// Makes a schema of no columns, for the usual dialect. It allocates no memory.
    pub fn new(alloc: Global) -> LogicalSchema
        ensures { result ≡ nothing_said }
    {
        LogicalSchema {
            schema: Schema::new(alloc),
            limit: MAX_ROWS,
            titles: Vec::new(alloc),
            kinds: Vec::new(alloc),
            dialect: Dialect::usual(),
            nulls: Vec::new(alloc),
        }
    }

    /// Lends the columns of whole numbers.
    pub fn schema(&self) -> &Schema
        ensures schema { result.now ≡ self.now.schema }
        ensures logical { IsLogical self.now }
    {
        &self.schema
    }

    /// Returns the most rows of the index.
    pub fn limit(&self) -> u64
        ensures { result ≡ self.now.limit }
    {
        self.limit
    }

    /// Returns the bytes that row files have between fields and in decimals.
    pub fn dialect(&self) -> Dialect
        ensures { result ≡ self.now.dialect }
    {
        self.dialect
    }

    /// Lends the null words, in the order in which they were declared.
    pub fn nulls(&self) -> &[Vec<u8>]
        ensures { map (λ word. word.items) result.now ≡ self.now.nulls }
    {
        &self.nulls
    }

    /// Returns the title of column `c`.
    pub fn title(&self, c: u32) -> &[u8]
        requires { c < length self.now.schema.columns }
        ensures { result.now ≡ title_of self.now c }
    {
        self.titles[c as usize].as_slice()
    }

    /// Returns the kind of column `c`.
    pub fn kind(&self, c: u32) -> &Kind
        requires { c < length self.now.schema.columns }
        ensures kind { result.now ≡ kind_of self.now c }
        ensures valid { IsKind result.now }
    {
        &self.kinds[c as usize]
    }

    /// Returns the column that has this title or, if none has it, this name. It allocates no memory.
    pub fn find(&self, name: &[u8]) -> Option<u32>
        ensures { result ≡ column_called self.now name.now }
    {
        match find_title(&self.titles, name) {
            Some(c) => Some(c as u32),
            None => self.schema.find(name),
        }
    }
}

/// Returns the index of a title among these, or none if it is none of them.
fn find_title(titles: &[Vec<u8>], name: &[u8]) -> Option<usize>
    ensures index { result ≡ position (λ title. bytes_eq name.now title.items) titles.now }
    ensures within { IfSome result (λ c. c < length titles.now) }
{
    titles.iter().position(|title| name == title.as_slice())
}
