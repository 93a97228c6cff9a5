//! Reads dates as days since 1970-01-01, in the order and with the sign of a form (`DateForm`), and writes them.

ghost use Rattle.std.specs.Prelude.{◌≡◌, ◌↔◌, ◌++◌, ℤ, pos, ◌≤ℤ◌, Some, OnOk, IfSome, IsTrue, option_and_then};
ghost use Rattle.jiff_core.specs.Calendar.{IsEpochDay};
ghost use Rattle.jiff_core.specs.Date.{epoch_day};
ghost use Rattle.jiff_core.specs.declared.civil.date.Date.{Date};
ghost use Rattle.bsi_kinds.specs.Dates.{date_number, date_text, day_number, ymd_of, WritesDate};
ghost use Rattle.bsi_kinds.specs.declared.date.DateOrder.TheVariants.{YearFirst};

use crate::NoMemory;
use crate::decimal::{read_short_number, split_at_byte};
use crate::decimal_text::write_last_digits;
use jiff_core::civil::Date;

/// The order in which a date is written.
#[derive(Clone, Copy, Debug, PartialEq, Eq)]
pub enum DateOrder {
    /// Year, month, day: 2026-01-31.
    YearFirst,
    /// Day, month, year: 31.01.2026.
    DayFirst,
    /// Month, day, year: 01/31/2026.
    MonthFirst,
}

/// How dates are written: the order, and the sign between two numbers.
#[derive(Clone, Copy, Debug, PartialEq, Eq)]
pub struct DateForm {
    /// The order of the numbers.
    pub order: DateOrder,
    /// The sign between two of them.
    pub sign: u8,
}

/// Dates as 2026-01-31.
pub const ISO_DATE: DateForm = DateForm {
    order: DateOrder::YearFirst,
    sign: b'-',
};

/// Reads a date as its number of days since 1970-01-01. `None` stands for a text that is not written so, and for a day that
/// the calendar has not. It allocates no memory.
pub fn read_date(form: DateForm, text: &[u8]) -> Option<i64>
    ensures value { result ≡ date_number form text.now }
    ensures within { IfSome result IsEpochDay }
{
    let (first, rest) = split_at_byte(form.sign, text);
    let (second, third) = split_at_byte(form.sign, rest);
    match form.order {
        DateOrder::YearFirst => read_ymd(first, second, third),
        DateOrder::DayFirst => read_ymd(third, second, first),
        DateOrder::MonthFirst => read_ymd(third, first, second),
    }
}

/// Reads a year, a month and a day.
fn read_ymd(year: &[u8], month: &[u8], day: &[u8]) -> Option<i64>
    ensures value { result ≡ option_and_then day_number (ymd_of year.now month.now day.now) }
    ensures within { IfSome result IsEpochDay }
{
    let year = read_short_number(4, 4, year)?;
    let month = read_short_number(1, 2, month)?;
    let day = read_short_number(1, 2, day)?;
    let date = Date::new(year as i16, month as i8, day as i8).ok()?;
    Some(i64::from(date.to_unix_epoch_day()))
}

/// Returns whether the calendar has a day: its years are -9999 to 9999.
pub(crate) fn has_day(day: i64) -> bool
    ensures { IsTrue result ↔ IsEpochDay day }
{
    Date::from_unix_epoch_day(day).is_ok()
}

/// Appends the date of a day, or a prefix of it.
pub fn write_date(day: i64, line: &mut Vec<u8>) -> Result<(), NoMemory>
    requires { IsEpochDay day }
    ensures { OnOk result (WritesDate day line.old.items line.new.items) }
{
    let date = Date::from_unix_epoch_day(day).unwrap();
    write_ymd(date, line)
}

/// Appends a date, or a prefix of it.
pub(crate) fn write_ymd(date: Date, line: &mut Vec<u8>) -> Result<(), NoMemory>
    ensures { OnOk result (line.new.items ≡ line.old.items ++ date_text date) }
{
    if date.year < 0 {
        line.push(b'-')?;
    }
    write_last_digits(4, u64::from(date.year.unsigned_abs()), line)?;
    line.push(b'-')?;
    write_last_digits(2, u64::from(date.month), line)?;
    line.push(b'-')?;
    write_last_digits(2, u64::from(date.day), line)
}

/// States that the text of a date from the year 0 on spells just its day.
pub fn a_date_text_spells_its_day()
    ensures { (d : Date) → pos 0 ≤ℤ d.year →
        date_number (record { order = YearFirst; sign = 45 }) (date_text d) ≡ Some (epoch_day d) }
{}
