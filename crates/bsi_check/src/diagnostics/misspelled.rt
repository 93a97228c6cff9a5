//! Why a field spells no value of a kind: what it lacks, or what else it could be.

ghost use Rattle.std.specs.Prelude.{◌≤◌};
ghost use Rattle.bsi_kinds.specs.Kinds.{IsKind};

use crate::NoMemory;
use crate::diagnostics::closest::closest_text;
use crate::diagnostics::quoting::quote_field;
use bsi_kinds::{
    BooleanForm, DateForm, DateOrder, Dictionary, ISO_DATE, Kind, Op, TimeForm, TimeUnit,
    compare_decimal, compare_time, read_date, spells_decimal,
};
use std::alloc::Global;

/// What a constant between two numbers is compared as, if it is to be equal.
const BETWEEN: i128 = 1 << 64;

/// Returns why a field spells no value of a kind, or none if it may spell one that has no number of 64 bits.
pub(crate) fn why_misspelled(
    alloc: Global,
    kind: &Kind,
    point: u8,
    text: &[u8],
) -> Result<Option<String>, NoMemory>
    requires { IsKind kind.now }
{
    match kind {
        Kind::Decimal(places) => why_no_decimal(alloc, *places, point, text),
        Kind::Rounded(_) => why_not_rounded(alloc, point, text),
        Kind::Date(form) => Ok(Some(why_no_date(alloc, *form, text)?)),
        Kind::Time(form) => Ok(Some(why_no_time(alloc, *form, text)?)),
        Kind::Boolean(form) => Ok(Some(why_no_boolean(alloc, form, text)?)),
        Kind::Text(texts) => Ok(Some(why_no_text(alloc, texts, text)?)),
    }
}

/// Returns why the constant of a question is no value of a kind: decimals have a point, dates are as 2026-12-31.
pub(crate) fn why_no_constant(alloc: Global, kind: &Kind, text: &[u8]) -> Result<String, NoMemory> {
    let word = quote_field(alloc, text)?;
    match kind {
        Kind::Decimal(_) | Kind::Rounded(_) => why_other_point(alloc, word.as_str(), b'.', text),
        Kind::Date(_) => why_no_date(alloc, ISO_DATE, text),
        Kind::Time(form) => {
            let asked = TimeForm {
                date: ISO_DATE,
                unit: form.unit,
                utc: form.utc,
            };
            why_no_time(alloc, asked, text)
        }
        Kind::Boolean(form) => why_no_boolean(alloc, form, text),
        Kind::Text(_) => format!(in alloc; "'{word}' is no text"),
    }
}

/// Returns why a field is no decimal of so many places, or none if it is one of more than 64 bits.
fn why_no_decimal(
    alloc: Global,
    places: u32,
    point: u8,
    text: &[u8],
) -> Result<Option<String>, NoMemory>
    requires { places ≤ 18 }
{
    let word = quote_field(alloc, text)?;
    let found = compare_decimal(Op::Eq, point, places, text);
    let why = match found {
        Some(found) if found.number != BETWEEN => return Ok(None),
        _ if places == 0 => format!(in alloc; "'{word}' is no whole number")?,
        Some(_) => {
            let plural = if places == 1 { "" } else { "s" };
            format!(in alloc; "'{word}' has more than {places} place{plural}")?
        }
        None => why_other_point(alloc, word.as_str(), point, text)?,
    };
    Ok(Some(why))
}

/// Returns that a field is no decimal, or none if it is one that is too great to be rounded.
fn why_not_rounded(alloc: Global, point: u8, text: &[u8]) -> Result<Option<String>, NoMemory> {
    if spells_decimal(point, text) {
        return Ok(None);
    }
    let word = quote_field(alloc, text)?;
    Ok(Some(why_other_point(alloc, word.as_str(), point, text)?))
}

/// Returns that a field is no decimal, and which point decimals have if it has the other one.
fn why_other_point(alloc: Global, word: &str, point: u8, text: &[u8]) -> Result<String, NoMemory> {
    let (sign, other) = if point == b',' {
        (",", b'.')
    } else {
        (".", b',')
    };
    if spells_decimal(other, text) {
        return format!(in alloc; "'{word}' is no decimal: the point is '{sign}'");
    }
    format!(in alloc; "'{word}' is no decimal")
}

/// Returns why a field is no date: the calendar has not the day, or the field is not written so.
fn why_no_date(alloc: Global, form: DateForm, text: &[u8]) -> Result<String, NoMemory> {
    let word = quote_field(alloc, text)?;
    if is_written_as(form, text) {
        return format!(in alloc; "'{word}' is no day");
    }
    let example = date_example(alloc, form)?;
    format!(in alloc; "'{word}' is no date as {example}")
}

/// Returns whether a field has the numbers of a date as this form has them, whatever they are: a year of four digits,
/// a month and a day of one or two.
fn is_written_as(form: DateForm, text: &[u8]) -> bool {
    let year = match form.order {
        DateOrder::YearFirst => 0usize,
        DateOrder::DayFirst | DateOrder::MonthFirst => 2,
    };
    let mut count = 0usize;
    'numbers: for number in text.split(|byte| *byte == form.sign) {
        let (least, most) = if count == year { (4, 4) } else { (1, 2) };
        if !is_short_number(least, most, number) {
            return false;
        }
        count = count.saturating_add(1);
    }
    count == 3
}

/// Returns whether a text is of digits, from `least` to `most` of them.
fn is_short_number(least: usize, most: usize, text: &[u8]) -> bool {
    text.len() >= least && text.len() <= most && text.iter().all(|byte| byte.is_ascii_digit())
}

/// Returns the last day of 2026 as this form writes it.
fn date_example(alloc: Global, form: DateForm) -> Result<String, NoMemory> {
    let sign = quote_field(alloc, &[form.sign])?;
    match form.order {
        DateOrder::YearFirst => format!(in alloc; "2026{sign}12{sign}31"),
        DateOrder::DayFirst => format!(in alloc; "31{sign}12{sign}2026"),
        DateOrder::MonthFirst => format!(in alloc; "12{sign}31{sign}2026"),
    }
}

/// Returns why a field is no time of a form.
fn why_no_time(alloc: Global, form: TimeForm, text: &[u8]) -> Result<String, NoMemory> {
    let word = quote_field(alloc, text)?;
    match compare_time(Op::Eq, form, text) {
        Some(found) if found.number == BETWEEN => {
            let unit = unit_word(form.unit);
            format!(in alloc; "'{word}' is between two {unit}")
        }
        Some(_) => format!(in alloc; "'{word}' is past the year 9999"),
        None if is_on_no_day(form.date, text) => format!(in alloc; "'{word}' is on no day"),
        None => {
            let date = date_example(alloc, form.date)?;
            let zone = if form.utc { "Z" } else { "" };
            format!(in alloc; "'{word}' is no time as {date}T10:30:00{zone}")
        }
    }
}

/// Returns whether what precedes the clock of a time is written as a date, of a day that the calendar has not.
fn is_on_no_day(form: DateForm, text: &[u8]) -> bool {
    let end = text
        .iter()
        .position(|byte| *byte == b'T' || *byte == b' ')
        .unwrap_or(text.len());
    let date = text.get(..end).unwrap_or(text);
    is_written_as(form, date) && read_date(form, date).is_none()
}

/// Returns what the units of times are called.
fn unit_word(unit: TimeUnit) -> &'static str {
    match unit {
        TimeUnit::Seconds => "seconds",
        TimeUnit::Milliseconds => "milliseconds",
        TimeUnit::Microseconds => "microseconds",
    }
}

/// Returns that a field is neither word of a boolean.
fn why_no_boolean(alloc: Global, form: &BooleanForm, text: &[u8]) -> Result<String, NoMemory> {
    let word = quote_field(alloc, text)?;
    let yes = quote_field(alloc, form.yes.as_slice())?;
    let no = quote_field(alloc, form.no.as_slice())?;
    format!(in alloc; "'{word}' is neither '{yes}' nor '{no}'")
}

/// Returns that a field is none of so many texts, and the one that it may mean.
fn why_no_text(alloc: Global, texts: &Dictionary, text: &[u8]) -> Result<String, NoMemory> {
    let word = quote_field(alloc, text)?;
    let count = texts.len();
    let plural = if count == 1 { "" } else { "s" };
    match closest_text(alloc, texts, word.as_str())? {
        Some(meant) => {
            format!(in alloc; "'{word}' is none of {count} text{plural}, did you mean '{meant}'?")
        }
        None => format!(in alloc; "'{word}' is none of {count} text{plural}"),
    }
}
