//! The columns of an index (`Schema`): their names in order of declaration, their forms and offsets.

ghost use Rattle.std.specs.Prelude.{◌≡◌, ◌↔◌, ◌<◌, ◌≤◌, None, true, false, All, length, map, pos, ◌+ℤ◌, ◌≤ℤ◌, IfOk, IfErr, OnOk, OnErr, IsTrue};
ghost use Rattle.std.specs.Result.{result_err};
ghost use Rattle.bsi_digits.specs.Digits.{max_end, max_size};
ghost use Rattle.bsi_schema.specs.Columns.{column_at, fits, form_of, max_columns, named_column, no_columns, position_of, size_in, with_column, AreNamed, IsColumn, IsDeclared, IsForm};
ghost use Rattle.bsi_schema.specs.Limits.{limits_of};
ghost use Rattle.bsi_schema.specs.Names.{is_name};
ghost use Rattle.bsi_schema.specs.Refusals.{column_refusal, name_refusal, signed_refusal, IsFirstOr};

use crate::form::{ColumnSpec, Form, Layout};
use crate::limits::{Limits, accepts_row};
use crate::name::is_name;
use crate::{NoMemory, Row, SchemaError};
use indexmap::IndexMap;
use std::alloc::Global;
use std::marker::Model;
use std::str::from_utf8;

/// The most columns of a schema.
pub const MAX_COLUMNS: u32 = 64;

/// The most that the offset and the size of a column add up to.
const MAX_END: i128 = 1 << 63;

/// A list of at most 64 named columns, in order of declaration.
pub struct Schema {
    columns: IndexMap<String, Layout>,
    // What each column accepts, beside the map, so that a row is tested without it.
    limits: Vec<Limits>,
    signed: bool,
}

// What a derive drops, each crate above would prove anew.
impl Drop for Schema {
    fn drop(self) {
        let Schema {
            columns: _columns,
            limits: _limits,
            signed: _,
        } = self;
    }
}

// Clauses see the list of columns, and whether one was declared with an offset.
impl Model for Schema {
    ghost use Rattle.std.specs.Prelude.{◌≡◌, map};
    ghost use Rattle.bsi_schema.specs.Columns.{named, Declared, IsDeclared, IsSchema};
    ghost use Rattle.bsi_schema.specs.Limits.{limits_of};

    ghost Value = { Declared };

    ghost view = { λ s. record { columns = map named s.columns.entries; signed = s.signed } };

    ghost invariant = { λ s. IsSchema (map named s.columns.entries)
        × (s.limits.items ≡ map limits_of (map named s.columns.entries))
        × IsDeclared (record { columns = map named s.columns.entries; signed = s.signed }) };
}

impl Schema {
    /// Makes a schema of no columns. It allocates no memory until a column is added.
    pub fn new(alloc: Global) -> Schema
        ensures { result ≡ no_columns }
    {
        Schema {
            columns: IndexMap::new(alloc),
            limits: Vec::new(alloc),
            signed: false,
        }
    }

    /// Returns the number of columns, at most 64.
    pub fn columns(&self) -> u32
        ensures columns { result ≡ length self.now.columns }
        ensures within { result ≤ max_columns }
        ensures named { AreNamed self.now.columns }
    {
        self.columns.len() as u32
    }

    /// Returns whether some column was added with an offset.
    pub fn signed(&self) -> bool
        ensures { result ≡ self.now.signed }
    {
        self.signed
    }

    /// Returns the index of the column of this name, or none if there is no such column.
    pub fn position(&self, name: &str) -> Option<u32>
        ensures { result ≡ position_of self.now.columns name.now }
    {
        Some(self.columns.get_index_of(name)? as u32)
    }

    /// Returns the index of the column whose name has these bytes, or none if there is no such column.
    pub fn find(&self, name: &[u8]) -> Option<u32>
        ensures { result ≡ position_of self.now.columns name.now }
    {
        // Reading a field makes the schema's invariant known to the proof.
        let _ = &self.columns;
        match from_utf8(name) {
            Ok(name) => self.position(name),
            Err(_) => None,
        }
    }

    /// Returns the name of column `c`.
    pub fn name(&self, c: u32) -> &str
        requires { c < length self.now.columns }
        ensures { result.now ≡ (column_at self.now.columns c).name }
    {
        let (name, _) = self.columns.get_index(c as usize).unwrap();
        name.as_str()
    }

    /// Returns the form of column `c`.
    pub fn form(&self, c: u32) -> &Form
        requires { c < length self.now.columns }
        ensures form { result.now ≡ (column_at self.now.columns c).form }
        ensures valid { IsForm result.now }
    {
        &self.layout(c).form
    }

    /// Returns how many numbers column `c` tells apart, at most 2^63.
    pub fn size(&self, c: u32) -> u64
        requires { c < length self.now.columns }
        ensures size { result ≡ size_in (column_at self.now.columns c).form }
        ensures within { result ≤ max_size }
    {
        self.form(c).size()
    }

    /// Returns the least number that column `c` accepts.
    pub fn offset(&self, c: u32) -> i64
        requires { c < length self.now.columns }
        ensures offset { result ≡ (column_at self.now.columns c).offset }
        ensures below { (result +ℤ pos (size_in (column_at self.now.columns c).form))
            ≤ℤ pos max_end }
    {
        self.layout(c).offset
    }

    /// Lends the form and the offset of column `c`.
    fn layout(&self, c: u32) -> &Layout
        requires { c < length self.now.columns }
        ensures form { result.now.form ≡ (column_at self.now.columns c).form }
        ensures offset { result.now.offset ≡ (column_at self.now.columns c).offset }
        ensures valid { IsColumn (column_at self.now.columns c) }
    {
        let (_, layout) = self.columns.get_index(c as usize).unwrap();
        layout
    }

    /// Returns whether a row has one entry for each column, each a null or a number that its column accepts.
    pub fn fits(&self, row: &Row) -> bool
        ensures { result ≡ fits self.now.columns row.now }
    {
        accepts_row(&self.limits, row)
    }

    /// Lends the numbers that each column accepts, in order of declaration.
    pub fn limits(&self) -> &[Limits]
        ensures limits { result.now ≡ map limits_of self.now.columns }
        ensures columns { All IsColumn self.now.columns }
        ensures declared { IsDeclared self.now }
    {
        &self.limits
    }

    /// Adds a column of numbers from 0 up, after the others. If it is refused, the column is dropped and the schema
    /// stays.
    pub fn add(&mut self, name: &str, spec: ColumnSpec) -> Result<(), SchemaError>
        ensures added { OnOk result (self.new
            ≡ with_column self.old (named_column name.now (form_of spec) (pos 0)) false) }
        ensures accepted { OnOk result (column_refusal self.old name.now spec ≡ None) }
        ensures refused { IfErr result
            (IsFirstOr SchemaError.NoMemory (column_refusal self.old name.now spec)) }
        ensures unchanged { OnErr result (self.new ≡ self.old) }
    {
        let form = self.check_column(name, spec)?;
        self.push(name, Layout { form, offset: 0 }, false)?;
        Ok(())
    }

    /// Adds a column of numbers from `offset` up, after the others. If it is refused, the column is dropped and the
    /// schema stays.
    pub fn add_signed(
        &mut self,
        name: &str,
        spec: ColumnSpec,
        offset: i64,
    ) -> Result<(), SchemaError>
        ensures added { OnOk result (self.new
            ≡ with_column self.old (named_column name.now (form_of spec) offset) true) }
        ensures accepted { OnOk result (signed_refusal self.old name.now spec offset ≡ None) }
        ensures refused { IfErr result
            (IsFirstOr SchemaError.NoMemory (signed_refusal self.old name.now spec offset)) }
        ensures unchanged { OnErr result (self.new ≡ self.old) }
    {
        let form = self.check_column(name, spec)?;
        if i128::from(offset) + i128::from(form.size()) > MAX_END {
            return Err(SchemaError::BadOffset);
        }
        self.push(name, Layout { form, offset }, true)?;
        Ok(())
    }

    /// Returns the form of a column that may be added under this name, or the refusal of the name or of the form.
    fn check_column(&self, name: &str, spec: ColumnSpec) -> Result<Form, SchemaError>
        ensures refused { result_err result ≡ column_refusal self.now name.now spec }
        ensures free { OnOk result (name_refusal self.now name.now ≡ None) }
        ensures form { IfOk result (λ form. form ≡ form_of spec) }
        ensures valid { IfOk result IsForm }
    {
        self.check_name(name)?;
        Ok(Form::of(spec)?)
    }

    /// Refuses a name that is bad or taken, or a column past the 64th.
    fn check_name(&self, name: &str) -> Result<(), SchemaError>
        ensures { result_err result ≡ name_refusal self.now name.now }
    {
        if !is_name(name.as_bytes()) {
            return Err(SchemaError::BadName);
        }
        if self.position(name).is_some() {
            return Err(SchemaError::NameTaken);
        }
        if self.columns() >= MAX_COLUMNS {
            return Err(SchemaError::TooManyColumns);
        }
        Ok(())
    }

    /// Adds a column after the others, under a name that is not taken.
    fn push(&mut self, name: &str, layout: Layout, signed: bool) -> Result<(), NoMemory>
        requires fresh { position_of self.old.columns name.now ≡ None }
        requires name { IsTrue (is_name name.now) }
        requires few { length self.old.columns < max_columns }
        requires form { IsForm layout.form }
        requires below { (layout.offset +ℤ pos (size_in layout.form)) ≤ℤ pos max_end }
        requires from_zero { signed ≡ false → layout.offset ≡ pos 0 }
        ensures ok { OnOk result (self.new
            ≡ with_column self.old (named_column name.now layout.form layout.offset) signed) }
        ensures err { OnErr result (self.new ≡ self.old) }
    {
        let key = String::from_str(*self.columns.allocator(), name)?;
        let limits = Limits::of(&layout);
        self.limits.reserve(1)?;
        self.columns.insert(key, layout)?;
        self.limits.push_reserved(limits);
        self.signed |= signed;
        Ok(())
    }

    /// Returns whether another schema declares the same columns, in the same order, and offsets where this one does.
    pub fn is_same(&self, other: &Schema) -> bool
        ensures { IsTrue result ↔ (self.now ≡ other.now) }
    {
        if self.signed != other.signed || self.columns() != other.columns() {
            return false;
        }
        'columns: for c in 0..self.columns() {
            if !self.has_column_of(other, c) {
                return false;
            }
        }
        true
    }

    /// Returns whether column `c` is that of another schema.
    fn has_column_of(&self, other: &Schema, c: u32) -> bool
        requires own { c < length self.now.columns }
        requires others { c < length other.now.columns }
        ensures { IsTrue result ↔ (column_at self.now.columns c ≡ column_at other.now.columns c) }
    {
        self.name(c) == other.name(c)
            && self.offset(c) == other.offset(c)
            && self.form(c).is_same(other.form(c))
    }

    /// Makes a second schema of the same columns.
    pub fn copy(&self) -> Result<Schema, NoMemory>
        ensures { IfOk result (λ schema. schema ≡ self.now) }
    {
        Ok(Schema {
            columns: self.columns.clone()?,
            limits: Vec::from_slice(*self.limits.allocator(), &self.limits)?,
            signed: self.signed,
        })
    }
}
