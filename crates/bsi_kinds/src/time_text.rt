//! Writes times as text, from the numbers that stand for them (`write_time`).

ghost use Rattle.std.specs.Prelude.{◌≡◌, ℤ, pos, ◌≤ℤ◌, ◌<◌, ◌^◌, ◌++◌, [], List, ℕ, OnOk};
ghost use Rattle.jiff_core.specs.declared.civil.date.Date.{Date};
ghost use Rattle.bsi_kinds.specs.declared.date.DateOrder.TheVariants.{YearFirst};
ghost use Rattle.bsi_kinds.specs.declared.time.TimeForm.{TimeForm};
ghost use Rattle.bsi_kinds.specs.TimeTexts.{clock_text, number_on_day, time_text, WritesTime};
ghost use Rattle.bsi_kinds.specs.Times.{unit_places, IsTimeNumber, SpellsTime};

use crate::NoMemory;
use crate::date::write_ymd;
use crate::decimal_text::{write_last_digits, write_places};
use crate::time::{DAY, TimeForm, TimeUnit};
use jiff_core::civil::{Date, Time};

/// Appends the text of the time that a number stands for, or a prefix of it: 2026-01-31T10:30:00, a point and as many
/// digits as the unit has places, and Z in UTC.
pub fn write_time(form: TimeForm, number: i64, line: &mut Vec<u8>) -> Result<(), NoMemory>
    requires { IsTimeNumber form.unit number }
    ensures { OnOk result (WritesTime form number line.old.items line.new.items) }
{
    let (date, time, subsecond) = split_number(form.unit, number);
    write_moment(form, date, time, subsecond, line)
}

/// Splits a number into a date, a clock, and the units behind its whole seconds.
fn split_number(unit: TimeUnit, number: i64) -> (Date, Time, u64)
    requires { IsTimeNumber unit number }
    ensures number { number_on_day unit result.0 result.1 result.2 ≡ number }
    ensures small { result.2 < 10 ^ unit_places unit }
{
    let second = unit.per_second();
    let seconds = number.div_euclid(second);
    let date = Date::from_unix_epoch_day(seconds.div_euclid(DAY)).unwrap();
    let time = Time::from_second(seconds.rem_euclid(DAY) as u32, 0);
    (date, time, number.rem_euclid(second) as u64)
}

/// Appends a date, a clock, and the units behind its whole seconds, or a prefix of them.
fn write_moment(
    form: TimeForm,
    date: Date,
    time: Time,
    subsecond: u64,
    line: &mut Vec<u8>,
) -> Result<(), NoMemory>
    ensures { OnOk result (line.new.items ≡ line.old.items ++ time_text form date time subsecond) }
{
    write_ymd(date, line)?;
    line.push(b'T')?;
    write_clock(time, line)?;
    write_places(form.unit.places(), subsecond, line)?;
    if form.utc {
        line.push(b'Z')?;
    }
    Ok(())
}

/// Appends hours, minutes and seconds, or a prefix of them.
fn write_clock(time: Time, line: &mut Vec<u8>) -> Result<(), NoMemory>
    ensures { OnOk result (line.new.items ≡ line.old.items ++ clock_text time) }
{
    write_last_digits(2, u64::from(time.hour), line)?;
    line.push(b':')?;
    write_last_digits(2, u64::from(time.minute), line)?;
    line.push(b':')?;
    write_last_digits(2, u64::from(time.second), line)
}

/// States that the text of a time from the year 0 on spells just its number, in the form with the year first and a minus
/// sign between two numbers of the date.
pub fn a_time_text_spells_its_number()
    ensures { (form : TimeForm) → (n : ℤ) → (text : List ℕ) → form.date ≡ record { order = YearFirst; sign = 45 } →
        (written : WritesTime form n [] text) → pos 0 ≤ℤ written.date.year → SpellsTime form text n }
{}
