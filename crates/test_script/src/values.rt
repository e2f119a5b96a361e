// Values: as a script spells them, and as an answer does.
use crate::say;
use base_value::{Columns, Date, Decimal, Unread, Value};
use std::io::Stdout;

// Units and places.
fn decimal_in(s: &[u8]) -> Option<Value> {
    Some(Value::Decimal(Decimal {
        units: crate::signed_in(crate::word(s))?,
        places: crate::count_in(crate::next(s))? as usize,
    }))
}

// A number that fits 32 bits.
fn small_in(s: &[u8]) -> Option<u32> {
    u32::try_from(crate::count_in(s)?).ok()
}

// Year, month and day.
fn date_in(s: &[u8]) -> Option<Value> {
    let rest = crate::next(s);
    Some(Value::Date(Date {
        year: small_in(crate::word(s))?,
        month: small_in(crate::word(rest))?,
        day: small_in(crate::next(rest))?,
    }))
}

// The first and the last column of a text.
fn text_in(s: &[u8]) -> Option<Value> {
    Some(Value::Text(Columns {
        first: crate::count_in(crate::word(s))? as usize,
        last: crate::count_in(crate::next(s))? as usize,
    }))
}

// The value that the words spell.
pub fn value_in(s: &[u8]) -> Option<Value> {
    if s == b"absent".as_slice() {
        return Some(Value::Absent);
    }
    if let Some(whole) = s.strip_prefix(b"whole ") {
        return crate::signed_in(whole).map(Value::Whole);
    }
    if let Some(decimal) = s.strip_prefix(b"decimal ") {
        return decimal_in(decimal);
    }
    if let Some(angle) = s.strip_prefix(b"angle ") {
        return crate::signed_in(angle).map(Value::Angle);
    }
    if let Some(date) = s.strip_prefix(b"date ") {
        return date_in(date);
    }
    text_in(s.strip_prefix(b"text ")?)
}

// Writes a word and a number.
fn say_named(to: Stdout, name: &[u8], z: i64) {
    say::words(to, name);
    say::next(to, z)
}

// Writes units and places.
fn say_decimal(to: Stdout, d: Decimal) {
    say_named(to, b"decimal", d.units);
    say::next(to, d.places)
}

// Writes year, month and day.
fn say_date(to: Stdout, d: Date) {
    say::words(to, b"date");
    say::next(to, d.year);
    say::next(to, d.month);
    say::next(to, d.day)
}

// Writes the first and the last column of a text.
fn say_text(to: Stdout, c: Columns) {
    say::words(to, b"text");
    say::next(to, c.first);
    say::next(to, c.last)
}

// Writes a value.
fn say_value(to: Stdout, v: Value) {
    match v {
        Value::Absent => say::words(to, b"absent"),
        Value::Whole(z) => say_named(to, b"whole", z),
        Value::Decimal(d) => say_decimal(to, d),
        Value::Angle(z) => say_named(to, b"angle", z),
        Value::Date(d) => say_date(to, d),
        Value::Text(c) => say_text(to, c),
    }
}

// Writes a value, and whether it is misplaced.
pub fn say_placed(to: Stdout, v: Value, misplaced: bool) {
    say_value(to, v);
    if misplaced {
        say::words(to, b" misplaced")
    }
}

// Writes what stands in a field, or the number of its refusal.
pub fn say_reading(to: Stdout, r: Result<Value, Unread>, misplaced: bool) {
    match r {
        Ok(v) => say_placed(to, v, misplaced),
        Err(Unread::Malformed) => say::number(to, 9),
        Err(Unread::OutOfRange) => say::number(to, 10),
    }
}
