//! The kind of a column (`Kind`): what its numbers stand for, so how fields and constants are read and numbers written.

ghost use Rattle.std.specs.Prelude.{◌≡◌, ◌↔◌, ℤ, None, IsTrue, OnOk, option_map, MatchOption, IfNone, IfSome};
ghost use Rattle.bsi_kinds.specs.Comparisons.{comparison};
ghost use Rattle.bsi_kinds.specs.FieldNumbers.{comparison_of, field_number};
ghost use Rattle.bsi_kinds.specs.Kinds.{value_of, ComparesValues, IsKind, IsNumber, IsSpelled, Writes};

use crate::NoMemory;
use crate::boolean::{BooleanForm, read_boolean, write_boolean};
use crate::comparison::Comparison;
use crate::date::{DateForm, has_day, read_date, write_date};
use crate::decimal::{compare_decimal, read_decimal};
use crate::decimal_text::write_decimal;
use crate::dictionary::Dictionary;
use crate::rounding::read_rounded;
use crate::time::{TimeForm, compare_time, has_day_of, read_time};
use crate::time_text::write_time;
use bsi_digits::Op;

/// What the numbers of a column stand for. Whole numbers are decimals of no places.
#[derive(Drop)]
pub enum Kind {
    /// Decimals of so many places, at most 18.
    Decimal(u32),
    /// Decimals of so many places, at most 18. A field of more is rounded to them, half to even.
    Rounded(u32),
    /// Dates, which fields write so. Answers have them as 2026-01-31.
    Date(DateForm),
    /// Times, which fields write so. Answers have them as 2026-01-31T10:30:00, with as many digits behind a point as the
    /// unit has places, and Z if they are of UTC.
    Time(TimeForm),
    /// Booleans, written so.
    Boolean(BooleanForm),
    /// These texts.
    Text(Dictionary),
}

impl Kind {
    /// Reads a field as the number that stands for its value, or returns none if no number does. It allocates no memory.
    pub fn read(&self, point: u8, text: &[u8]) -> Option<i64>
        requires { IsKind self.now }
        ensures exact { result ≡ field_number self.now point text.now }
        ensures some { IfSome result (IsSpelled self.now point text.now) }
        ensures number { IfSome result (IsNumber self.now) }
        ensures none { IfNone result ((n : ℤ) → IsSpelled self.now point text.now n → ⊥) }
    {
        match self {
            Kind::Decimal(places) => read_decimal(point, *places, text),
            Kind::Rounded(places) => read_rounded(point, *places, text),
            Kind::Date(form) => read_date(*form, text),
            Kind::Time(form) => read_time(*form, text),
            Kind::Boolean(form) => read_boolean(form, text),
            Kind::Text(texts) => Some(i64::from(texts.find(text)?)),
        }
    }

    /// Brings a comparison with a constant down to the numbers of the column, or returns none if the text spells no value
    /// of the kind. It allocates no memory.
    pub fn compare(&self, op: Op, point: u8, text: &[u8]) -> Option<Comparison>
        requires { IsKind self.now }
        ensures exact { result ≡ comparison_of self.now op point text.now }
        ensures some { IfSome result (λ c. MatchOption (value_of self.now point text.now) ⊥
            (λ constant. ComparesValues self.now op constant c)) }
        ensures none { IfNone result (value_of self.now point text.now ≡ None) }
    {
        match self {
            Kind::Decimal(places) => compare_decimal(op, point, *places, text),
            Kind::Rounded(places) => compare_decimal(op, point, *places, text),
            Kind::Date(form) => compare_number(op, read_date(*form, text)),
            Kind::Time(form) => compare_time(op, *form, text),
            Kind::Boolean(form) => compare_number(op, read_boolean(form, text)),
            Kind::Text(texts) => Some(texts.compare_text(op, text)),
        }
    }

    /// Returns whether another kind is the same: numbers stand for the same values, and fields are written alike.
    pub fn is_same(&self, other: &Kind) -> bool
        ensures { IsTrue result ↔ (self.now ≡ other.now) }
    {
        match (self, other) {
            (Kind::Decimal(own), Kind::Decimal(others)) => own == others,
            (Kind::Rounded(own), Kind::Rounded(others)) => own == others,
            (Kind::Date(own), Kind::Date(others)) => own == others,
            (Kind::Time(own), Kind::Time(others)) => own == others,
            (Kind::Boolean(own), Kind::Boolean(others)) => own.is_same(others),
            (Kind::Text(own), Kind::Text(others)) => own.is_same(others),
            _ => false,
        }
    }

    /// Returns whether a number stands for some value of the kind.
    pub fn has_value(&self, number: i64) -> bool
        ensures { IsTrue result ↔ IsNumber self.now number }
    {
        match self {
            Kind::Decimal(_) => true,
            Kind::Rounded(_) => true,
            Kind::Date(_) => has_day(number),
            Kind::Time(form) => has_day_of(form.unit, number),
            Kind::Boolean(_) => number == 0 || number == 1,
            Kind::Text(texts) => number >= 0 && (number as usize) < texts.len(),
        }
    }

    /// Appends the text of the value that a number stands for, or a prefix of it.
    pub fn write(&self, number: i64, line: &mut Vec<u8>) -> Result<(), NoMemory>
        requires kind { IsKind self.now }
        requires number { IsNumber self.now number }
        ensures { OnOk result (Writes self.now number line.old.items line.new.items) }
    {
        match self {
            Kind::Decimal(places) => write_decimal(*places, i128::from(number), line),
            Kind::Rounded(places) => write_decimal(*places, i128::from(number), line),
            Kind::Date(_) => write_date(number, line),
            Kind::Time(form) => write_time(*form, number, line),
            Kind::Boolean(form) => write_boolean(form, number, line),
            Kind::Text(texts) => line.extend_from_slice(texts.text(number as usize)),
        }
    }
}

/// Returns the comparison with a number, if there is one: that of a constant that is one of the values.
fn compare_number(op: Op, number: Option<i64>) -> Option<Comparison>
    ensures { result ≡ option_map (λ n. comparison op n) number }
{
    let number = i128::from(number?);
    Some(Comparison { op, number })
}
