//! The index behind a handle, the text that declared its columns and its limit, and its text of kinds (`OpenIndex`).

ghost use Rattle.std.specs.Prelude.{◌≡◌, ◌≤◌, [], None, IfErr, OnErr, drop, length, option_map, OnOk};
ghost use Rattle.bsi_input.specs.SchemaTexts.{IsSchemaText};
ghost use Rattle.bsi_storage.specs.Saved.{max_kinds};
ghost use Rattle.bsi_ffi.specs.Calls.{with_table, AppendsColumns, IsDescribed, IsReservingRows, SetsKinds, TellsKinds};
ghost use Rattle.bsi_ffi.specs.Kinds.{SaysKinds};
ghost use Rattle.bsi_table.specs.Index.{table_of};

use crate::blocks::append_columns;
use crate::columns::ColumnInput;
use crate::kinds_text::read_kinds;
use crate::refusal::Refusal;
use crate::serialization::copy_out;
use bsi_logical::LogicalSchema;
use bsi_table::Index;
use std::alloc::Global;
use std::marker::Model;

/// An index, the text that declared its columns and its limit, and what its numbers stand for, by a text of kinds.
#[derive(Drop)]
pub struct OpenIndex {
    text: Vec<u8>,
    index: Index,
    /// No bytes if the numbers are whole numbers.
    kinds: Vec<u8>,
    /// What the text of kinds says.
    logical: Option<LogicalSchema>,
}

// Clauses see the bytes of the texts, what the index shows, and what the text of kinds says.
impl Model for OpenIndex {
    ghost use Rattle.std.specs.Prelude.{◌≤◌, length};
    ghost use Rattle.bsi_input.specs.SchemaTexts.{IsSchemaText};
    ghost use Rattle.bsi_storage.specs.Saved.{max_kinds};
    ghost use Rattle.bsi_ffi.specs.Kinds.{SaysKinds};
    ghost use Rattle.bsi_ffi.specs.OpenIndex.{OpenIndex};
    ghost use Rattle.bsi_table.specs.Index.{table_of};

    ghost Value = { OpenIndex };

    ghost view = { λ o. record {
      text = o.text.items;
      table = table_of o.index;
      kinds = o.kinds.items;
      logical = o.logical;
    } };

    ghost invariant = { λ o. IsSchemaText o.text.items o.index.schema o.index.limit
        × SaysKinds o.kinds.items o.index.schema o.logical
        × (length o.kinds.items ≤ max_kinds) };
}

impl OpenIndex {
    /// Puts an index of whole numbers beside the text that declared its columns.
    pub(crate) fn new(alloc: Global, text: Vec<u8>, index: Index) -> OpenIndex
        requires { IsSchemaText text.items index.schema index.limit }
        ensures text { result.text ≡ text.items }
        ensures table { result.table ≡ table_of index }
        ensures kinds { (result.kinds ≡ []) × (result.logical ≡ None) }
    {
        OpenIndex {
            text,
            index,
            kinds: Vec::new(alloc),
            logical: None,
        }
    }

    /// Lends the index.
    pub(crate) fn index(&self) -> &Index
        ensures { table_of result.now ≡ self.now.table }
    {
        &self.index
    }

    /// Lends the text.
    pub(crate) fn text(&self) -> &[u8]
        ensures text { result.now ≡ self.now.text }
        ensures declares { IsSchemaText result.now self.now.table.schema self.now.table.limit }
    {
        &self.text
    }

    /// Lends the text of kinds.
    pub(crate) fn kinds(&self) -> &[u8]
        ensures kinds { result.now ≡ self.now.kinds }
        ensures few { length result.now ≤ max_kinds }
        ensures says { SaysKinds result.now self.now.table.schema self.now.logical }
    {
        &self.kinds
    }

    /// Lends what the text of kinds says.
    pub(crate) fn logical(&self) -> Option<&LogicalSchema>
        ensures { option_map (λ logical. logical.now) result ≡ self.now.logical }
    {
        self.logical.as_ref()
    }

    /// Gives the index this text of kinds in place of its own.
    pub(crate) fn set_kinds(&mut self, alloc: Global, kinds: Vec<u8>) -> Result<(), Refusal>
        ensures { SetsKinds self.old kinds.items self.new result }
    {
        let logical = read_kinds(alloc, &kinds, self.index.schema())?;
        self.kinds = kinds;
        self.logical = logical;
        Ok(())
    }

    /// Writes the text of kinds, if the buffer is large enough, and its length.
    pub(crate) fn tell_kinds(&self, text: &mut [u8], size: &mut usize) -> Result<(), Refusal>
        ensures told { TellsKinds self.now text.new size.new result }
        ensures text_unchanged { OnErr result (text.new ≡ text.old) }
        ensures rest_unchanged { OnOk result (drop size.new text.new ≡ drop size.new text.old) }
        ensures short { IfErr result (λ why. why ≡ Refusal.BufferTooSmall) }
    {
        copy_out(self.kinds(), text, size)
    }

    /// Writes the text, if the buffer is large enough, and its length.
    pub(crate) fn describe(&self, text: &mut [u8], size: &mut usize) -> Result<(), Refusal>
        ensures described { IsDescribed self.now text.new size.new result }
        ensures text_unchanged { OnErr result (text.new ≡ text.old) }
        ensures rest_unchanged { OnOk result (drop size.new text.new ≡ drop size.new text.old) }
        ensures short { IfErr result (λ why. why ≡ Refusal.BufferTooSmall) }
    {
        let from = self.text();
        *size = from.len();
        if text.len() < from.len() {
            return Err(Refusal::BufferTooSmall);
        }
        text[..from.len()].copy_from_slice(from);
        Ok(())
    }

    /// Reserves memory for `rows` more rows.
    pub(crate) fn reserve(&mut self, rows: u64) -> Result<(), Refusal>
        ensures unchanged { self.new ≡ self.old }
        ensures ending { IsReservingRows self.old.table rows result }
    {
        if rows > self.index.limit() - self.index.len() {
            return Err(Refusal::IndexFull);
        }
        self.index.reserve(rows)?;
        Ok(())
    }

    /// Appends the rows of the columns, as `append_columns` does.
    pub(crate) fn append(
        &mut self,
        feeder: u32,
        columns: &[ColumnInput],
        row: &mut u64,
        column: &mut usize,
    ) -> Result<(), Refusal>
        requires { (row.old ≡ 0) × (column.old ≡ 0) }
        ensures text { self.new ≡ with_table self.old self.new.table }
        ensures rows { AppendsColumns self.old.table feeder columns.now row.new column.new
            self.new.table result }
    {
        append_columns(&mut self.index, feeder, columns, row, column)
    }
}
