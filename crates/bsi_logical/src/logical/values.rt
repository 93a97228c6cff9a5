//! What the fields of row files, the constants of questions and the numbers of answers mean in a column; and which
//! columns compare with each other, or may be summed.

ghost use Rattle.std.specs.Prelude.{◌≡◌, ◌<◌, ◌↔◌, ℤ, length, true, IfNone, IfSome, IsTrue, MatchOption, None, OnOk, Option};
ghost use Rattle.std.specs.List.{list_any};
ghost use Rattle.std.specs.Str.{bytes_eq};
ghost use Rattle.bsi_kinds.specs.FieldNumbers.{comparison_of};
ghost use Rattle.bsi_kinds.specs.Kinds.{value_at, ComparesValues, IsKind, IsNumber, Writes};
ghost use Rattle.bsi_kinds.specs.Nulls.{is_null_word};
ghost use Rattle.bsi_logical.specs.Entries.{asked_kind, constant_of, is_null, is_summed, is_text, HaveSameValues, IsEntry};
ghost use Rattle.bsi_logical.specs.Logical.{kind_of};
ghost use Rattle.bsi_logical.specs.LogicalRows.{entry_of};

use crate::NoMemory;
use crate::logical::LogicalSchema;
use bsi_kinds::{Comparison, ISO_DATE, Kind, Op, TimeForm};

/// The decimal point of questions.
const POINT: u8 = b'.';

impl LogicalSchema {
    /// Reads a field of column `c`. `Some(None)` is a null: the empty field or, in a column of no text, a null word.
    /// `None` stands for a field that spells no value of the column's kind for which a number stands. It allocates no
    /// memory.
    pub fn read_entry(&self, c: u32, field: &[u8]) -> Option<Option<i64>>
        requires { c < length self.now.schema.columns }
        ensures exact { result ≡ entry_of self.now c field.now }
        ensures some { IfSome result (IsEntry self.now c field.now) }
        ensures number { IfSome result (λ entry. IfSome entry (IsNumber (kind_of self.now c))) }
        ensures none { IfNone result ((entry : Option ℤ) → IsEntry self.now c field.now entry → ⊥) }
    {
        if self.is_null(c, field) {
            return Some(None);
        }
        let point = self.dialect().point;
        let number = self.kind(c).read(point, field)?;
        Some(Some(number))
    }

    /// Returns whether a field of column `c` is a null.
    fn is_null(&self, c: u32, field: &[u8]) -> bool
        requires { c < length self.now.schema.columns }
        ensures { result ≡ is_null self.now c field.now }
    {
        field.is_empty() || (!is_text(self.kind(c)) && self.is_null_word(field))
    }

    /// Returns whether a field is one of the null words.
    pub(super) fn is_null_word(&self, field: &[u8]) -> bool
        ensures { result ≡ is_null_word self.now.nulls field.now }
    {
        has_word(&self.nulls, field)
    }

    /// Brings a comparison of column `c` with a constant of a question down to its numbers, or returns none if the
    /// constant is no value of the column's kind. A question writes decimals with a point and dates as 2026-01-31,
    /// however row files have them. It allocates no memory.
    pub fn compare(&self, c: u32, op: Op, constant: &[u8]) -> Option<Comparison>
        requires { c < length self.now.schema.columns }
        ensures exact { result ≡ comparison_of (asked_kind (kind_of self.now c)) op 46 constant.now }
        ensures some { IfSome result (λ lowered. MatchOption (constant_of (kind_of self.now c) constant.now) ⊥
            (λ value. ComparesValues (kind_of self.now c) op value lowered)) }
        ensures none { IfNone result (constant_of (kind_of self.now c) constant.now ≡ None) }
    {
        compare_asked(self.kind(c), op, constant)
    }

    /// Appends the text of the value that a number of column `c` stands for, or a prefix of it.
    pub fn write(&self, c: u32, number: i64, line: &mut Vec<u8>) -> Result<(), NoMemory>
        requires column { c < length self.now.schema.columns }
        requires number { IsNumber (kind_of self.now c) number }
        ensures { OnOk result (Writes (kind_of self.now c) number line.old.items line.new.items) }
    {
        self.kind(c).write(number, line)
    }

    /// Returns whether the numbers of two columns stand for the same values, so that the columns compare as these. It
    /// allocates no memory.
    pub fn are_alike(&self, first: u32, second: u32) -> bool
        requires first { first < length self.now.schema.columns }
        requires second { second < length self.now.schema.columns }
        ensures alike { IsTrue result ↔ HaveSameValues (kind_of self.now first) (kind_of self.now second) }
        ensures values { result ≡ true → (n : ℤ) →
            value_at (kind_of self.now first) n ≡ value_at (kind_of self.now second) n }
    {
        are_alike(self.kind(first), self.kind(second))
    }

    /// Returns whether the numbers of column `c` may be added up: it is of decimals.
    pub fn is_summed(&self, c: u32) -> bool
        requires { c < length self.now.schema.columns }
        ensures { result ≡ is_summed (kind_of self.now c) }
    {
        matches!(self.kind(c), Kind::Decimal(_) | Kind::Rounded(_))
    }
}

/// Returns whether a field is one of these words.
fn has_word(words: &[Vec<u8>], field: &[u8]) -> bool
    ensures { result ≡ list_any (λ word. bytes_eq word.items field.now) words.now }
{
    words.iter().any(|word| word.as_slice() == field)
}

/// Returns whether the values of a kind are texts.
fn is_text(kind: &Kind) -> bool
    ensures { result ≡ is_text kind.now }
{
    matches!(kind, Kind::Text(_))
}

/// Brings a comparison with a constant of a question down to the numbers of a kind.
fn compare_asked(kind: &Kind, op: Op, constant: &[u8]) -> Option<Comparison>
    requires { IsKind kind.now }
    ensures exact { result ≡ comparison_of (asked_kind kind.now) op 46 constant.now }
    ensures some { IfSome result (λ lowered. MatchOption (constant_of kind.now constant.now) ⊥
        (λ value. ComparesValues kind.now op value lowered)) }
    ensures none { IfNone result (constant_of kind.now constant.now ≡ None) }
{
    match kind {
        Kind::Date(_) => Kind::Date(ISO_DATE).compare(op, POINT, constant),
        Kind::Time(form) => {
            let asked = TimeForm {
                date: ISO_DATE,
                unit: form.unit,
                utc: form.utc,
            };
            Kind::Time(asked).compare(op, POINT, constant)
        }
        _ => kind.compare(op, POINT, constant),
    }
}

/// Returns whether numbers of two kinds stand for the same values.
fn are_alike(first: &Kind, second: &Kind) -> bool
    ensures alike { IsTrue result ↔ HaveSameValues first.now second.now }
    ensures values { result ≡ true → (n : ℤ) → value_at first.now n ≡ value_at second.now n }
{
    match (first, second) {
        (Kind::Decimal(p) | Kind::Rounded(p), Kind::Decimal(q) | Kind::Rounded(q)) => p == q,
        (Kind::Date(_), Kind::Date(_)) | (Kind::Boolean(_), Kind::Boolean(_)) => true,
        (Kind::Time(f), Kind::Time(g)) => f.unit == g.unit && f.utc == g.utc,
        (Kind::Text(a), Kind::Text(b)) => a.is_same(b),
        _ => false,
    }
}
