//! Reads the kind of a column from the fields of a record (`read_kind`).

ghost use Rattle.std.specs.Prelude.{◌≡◌, ◌≤◌, [], ◌∷◌, IfOk, IfSome};
ghost use Rattle.bsi_kinds.specs.Kinds.{IsKind};
ghost use Rattle.bsi_syntax.specs.Numbers.{number_between};
ghost use Rattle.bsi_syntax.specs.Reading.{texts};
ghost use Rattle.bsi_logical.specs.Records.{boolean_kind, byte_of, date_form, date_sign_of, kind_in, max_decimal_places, order_of, rounded_kind, short_kind, time_form, unit_of, utc_of};

use crate::NoMemory;
use bsi_kinds::{
    BooleanForm, DateForm, DateOrder, Dictionary, ISO_DATE, Kind, MAX_PLACES, TimeForm, TimeUnit,
};
use bsi_syntax::read_number;
use std::alloc::Global;

/// Reads a kind, or returns none if the fields spell none.
pub(crate) fn read_kind(alloc: Global, words: &[&[u8]]) -> Result<Option<Kind>, NoMemory>
    ensures kind { IfOk result (λ kind. kind ≡ kind_in (texts words.now)) }
    ensures valid { IfOk result (λ kind. IfSome kind IsKind) }
{
    match words {
        [word] => Ok(read_text_kind(alloc, word)),
        [word, places] => Ok(read_decimal_kind(word, places)),
        [word, first, second] => read_short_kind(alloc, word, first, second),
        [word, unit, zone, order, sign] => Ok(read_long_kind(word, unit, zone, order, sign)),
        _ => Ok(None),
    }
}

/// Reads the kind of texts.
fn read_text_kind(alloc: Global, word: &[u8]) -> Option<Kind>
    ensures kind { result ≡ kind_in (word.now ∷ []) }
    ensures valid { IfSome result IsKind }
{
    if word == b"text".as_slice() {
        return Some(Kind::Text(Dictionary::empty(alloc)));
    }
    None
}

/// Reads a kind of decimals.
fn read_decimal_kind(word: &[u8], places: &[u8]) -> Option<Kind>
    ensures kind { result ≡ kind_in (word.now ∷ places.now ∷ []) }
    ensures valid { IfSome result IsKind }
{
    if word == b"decimal".as_slice() {
        let places = read_decimal_places(1, places)?;
        return Some(Kind::Decimal(places));
    }
    None
}

/// Reads a kind of rounded decimals, of dates, of booleans, or of times whose dates are as 2026-01-31.
#[tactic(auto, unfolding(crate::specs::Records::short_kind))]
fn read_short_kind(
    alloc: Global,
    word: &[u8],
    first: &[u8],
    second: &[u8],
) -> Result<Option<Kind>, NoMemory>
    ensures kind { IfOk result (λ kind. kind ≡ short_kind word.now first.now second.now) }
    ensures valid { IfOk result (λ kind. IfSome kind IsKind) }
{
    if word == b"decimal".as_slice() {
        return Ok(read_rounded_kind(first, second));
    }
    if word == b"date".as_slice() {
        return Ok(read_date_form(first, second).map(Kind::Date));
    }
    if word == b"boolean".as_slice() {
        return read_boolean_kind(alloc, first, second);
    }
    if word == b"time".as_slice() {
        return Ok(read_time_form(first, second, Some(ISO_DATE)).map(Kind::Time));
    }
    Ok(None)
}

/// Reads a kind of times whose dates have a form of their own.
fn read_long_kind(word: &[u8], unit: &[u8], zone: &[u8], order: &[u8], sign: &[u8]) -> Option<Kind>
    ensures kind { result
        ≡ kind_in (word.now ∷ unit.now ∷ zone.now ∷ order.now ∷ sign.now ∷ []) }
    ensures valid { IfSome result IsKind }
{
    if word == b"time".as_slice() {
        let date = read_date_form(order, sign);
        return read_time_form(unit, zone, date).map(Kind::Time);
    }
    None
}

/// Reads a kind of decimals that are rounded to so many places.
fn read_rounded_kind(places: &[u8], word: &[u8]) -> Option<Kind>
    ensures kind { result ≡ rounded_kind places.now word.now }
    ensures valid { IfSome result IsKind }
{
    if word == b"rounded".as_slice() {
        let places = read_decimal_places(0, places)?;
        return Some(Kind::Rounded(places));
    }
    None
}

/// Reads how many places decimals have, at least so many.
fn read_decimal_places(least: u64, text: &[u8]) -> Option<u32>
    ensures places { result ≡ number_between least max_decimal_places text.now }
    ensures few { IfSome result (λ places. places ≤ max_decimal_places) }
{
    let places = read_number(text)?;
    if places < least || places > u64::from(MAX_PLACES) {
        return None;
    }
    Some(places as u32)
}

/// Reads how dates are written.
fn read_date_form(order: &[u8], sign: &[u8]) -> Option<DateForm>
    ensures { result ≡ date_form order.now sign.now }
{
    let order = read_order(order)?;
    let sign = read_sign(sign)?;
    Some(DateForm { order, sign })
}

/// Reads the order of the numbers of a date.
fn read_order(word: &[u8]) -> Option<DateOrder>
    ensures { result ≡ order_of word.now }
{
    if word == b"ymd".as_slice() {
        Some(DateOrder::YearFirst)
    } else if word == b"dmy".as_slice() {
        Some(DateOrder::DayFirst)
    } else if word == b"mdy".as_slice() {
        Some(DateOrder::MonthFirst)
    } else {
        None
    }
}

/// Reads the sign between two numbers of a date.
fn read_sign(text: &[u8]) -> Option<u8>
    ensures { result ≡ date_sign_of text.now }
{
    let sign = read_byte(text)?;
    if sign.is_ascii_digit() {
        return None;
    }
    Some(sign)
}

/// Reads the only byte of a field.
pub(crate) fn read_byte(text: &[u8]) -> Option<u8>
    ensures { result ≡ byte_of text.now }
{
    match text {
        [byte] => Some(*byte),
        _ => None,
    }
}

/// Reads how times are written, beside their dates, and what their numbers count.
fn read_time_form(unit: &[u8], zone: &[u8], date: Option<DateForm>) -> Option<TimeForm>
    ensures { result ≡ time_form unit.now zone.now date }
{
    let date = date?;
    let unit = read_unit(unit)?;
    let utc = read_utc(zone)?;
    Some(TimeForm { date, unit, utc })
}

/// Reads what times count.
fn read_unit(word: &[u8]) -> Option<TimeUnit>
    ensures { result ≡ unit_of word.now }
{
    if word == b"s".as_slice() {
        Some(TimeUnit::Seconds)
    } else if word == b"ms".as_slice() {
        Some(TimeUnit::Milliseconds)
    } else if word == b"us".as_slice() {
        Some(TimeUnit::Microseconds)
    } else {
        None
    }
}

/// Reads whether times are of UTC.
fn read_utc(word: &[u8]) -> Option<bool>
    ensures { result ≡ utc_of word.now }
{
    if word == b"utc".as_slice() {
        Some(true)
    } else if word == b"local".as_slice() {
        Some(false)
    } else {
        None
    }
}

/// Makes the kind of booleans of two words, or none if they are the same.
fn read_boolean_kind(alloc: Global, yes: &[u8], no: &[u8]) -> Result<Option<Kind>, NoMemory>
    ensures kind { IfOk result (λ kind. kind ≡ boolean_kind yes.now no.now) }
    ensures valid { IfOk result (λ kind. IfSome kind IsKind) }
{
    if yes == no {
        return Ok(None);
    }
    let no = Vec::from_slice(alloc, no)?;
    let yes = Vec::from_slice(alloc, yes)?;
    Ok(Some(Kind::Boolean(BooleanForm { no, yes })))
}
