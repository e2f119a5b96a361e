// Dates in columns: the days of the Gregorian calendar, read and written as eight digits.
#![tactic(auto)]

ghost use Rattle.std.specs.Prelude.{◌≡◌, ◌<◌, length};
ghost use Rattle.base_digits.specs.digits.Columns.{answer_of, entered_in};
ghost use Rattle.value_date.specs.Calendar.{is_leap, days_in, is_date};
ghost use Rattle.value_date.specs.Dates.{number_of, parts_of, dated_of, date_of, date_in};

use base_digits::{digits, filling};
use base_refusal::Unwritten;
use base_value::{Date, Unread, Value};

const WIDTH: usize = 8;

// Whether a year has a 29th of February.
#[tactic(auto, unfolding(crate::specs::Calendar::is_leap))]
fn is_leap(year: u32) -> bool
    ensures { result ≡ is_leap year }
{
    year % 4 == 0 && (year % 100 != 0 || year % 400 == 0)
}

// How many days a month has.
#[tactic(auto, unfolding(crate::specs::Calendar::days_in, crate::specs::Calendar::is_short))]
fn days_in(year: u32, month: u32) -> u32
    ensures { result ≡ days_in year month }
{
    match month {
        2 if is_leap(year) => 29,
        2 => 28,
        4 | 6 | 9 | 11 => 30,
        _ => 31,
    }
}

// Whether the calendar has the day.
#[tactic(auto, unfolding(crate::specs::Calendar::is_date))]
pub fn is_date(d: Date) -> bool
    ensures { result ≡ is_date d }
{
    matches!(d.year, 1..=9999)
        && matches!(d.month, 1..=12)
        && (1..=days_in(d.year, d.month)).contains(&d.day)
}

// The date that a number YYYYMMDD says.
fn judged(n: u64) -> Result<Value, Unread>
    requires { n < 100000000 }
    ensures { result ≡ dated_of (parts_of n) }
{
    let d = Date {
        year: (n / 10000) as u32,
        month: (n / 100 % 100) as u32,
        day: (n % 100) as u32,
    };
    if is_date(d) {
        return Ok(Value::Date(d));
    }
    Err(Unread::OutOfRange)
}

// Reads the date that fills s.
pub fn read_date(s: &[u8]) -> Result<Value, Unread>
    ensures { result ≡ date_of s.now }
{
    if digits::padding(s) == s.len() {
        return Ok(Value::Absent);
    }
    if s.len() != WIDTH {
        return Err(Unread::Malformed);
    }
    let run = digits::read_run(s, 0);
    if run.count != WIDTH {
        return Err(Unread::Malformed);
    }
    judged(run.number)
}

// A date as the number YYYYMMDD.
fn number_of(d: Date) -> u64
    ensures { result ≡ number_of d }
{
    d.year as u64 * 10000 + d.month as u64 * 100 + d.day as u64
}

// Writes a date, or changes nothing where it is none or the columns are not eight.
pub fn write_date(columns: &mut [u8], d: Date) -> Result<(), Unwritten>
    ensures answer { result ≡ answer_of (date_in (length columns.old) d) }
    ensures columns { columns.new ≡ entered_in (date_in (length columns.old) d) columns.old }
{
    if !is_date(d) {
        return Err(Unwritten::OutOfRange);
    }
    if columns.len() != WIDTH {
        return Err(Unwritten::NoRoom);
    }
    filling::fill_digits(columns, number_of(d));
    Ok(())
}
