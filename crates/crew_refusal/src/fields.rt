// What a field asks for, told where its columns are refused with 9, 10 or 11.
use crate::malformed;
use crew_io::page::Page;
use format_layout::names::H00X9;
use format_layout::{Field, Form, Kind, Range, fields};
use std::fmt::Write;

// Whether the field with a number begins in a column.
fn begins_at(layout: usize, number: usize, column: usize) -> bool {
    let found = fields::field_of(layout, number);
    let Some(f) = found else {
        return false;
    };
    f.first == column
}

// The number of the field that begins in a column, 0 where there is none.
fn number_at(layout: usize, column: usize) -> usize {
    (1..=fields::fields_in(layout))
        .find(|n| begins_at(layout, *n, column))
        .unwrap_or(0)
}

// Puts the numbers that a range has.
fn push_range(out: &mut Page<'_>, range: Range) {
    let _ = match range {
        Range::Any => write!(out, " is too large."),
        Range::AtLeast(low) => write!(out, " has to be {low} or more."),
        Range::Between(0, 1) => write!(out, " has to be 0 or 1."),
        Range::Between(low, high) => write!(out, " has to be from {low} to {high}."),
        Range::OneOf(a, b, c) => write!(out, " has to be {a}, {b} or {c}."),
    };
}

// The words for a field of a kind whose value can be out of range.
fn value_of(kind: Kind) -> &'static str {
    match kind {
        Kind::Date => "The date in ",
        Kind::Latitude => "The latitude in ",
        Kind::Longitude => "The longitude in ",
        _ => "The number in ",
    }
}

// 10: what the value has to be.
fn push_outside(out: &mut Page<'_>, f: Field) {
    let Field {
        kind,
        range,
        first,
        last,
        ..
    } = f;
    out.push_all(value_of(kind).as_bytes());
    malformed::push_span(out, b'c', first, last);
    match kind {
        Kind::Date => out.push_all(b" is not in the calendar."),
        Kind::Latitude => {
            out.push_all(b" has to be at most 90 degrees, with minutes and seconds below 60.");
        }
        Kind::Longitude => {
            out.push_all(b" has to be at most 180 degrees, with minutes and seconds below 60.");
        }
        _ => push_range(out, range),
    }
}

// What the second set of a card is.
fn second_of(layout: usize) -> &'static str {
    if layout == H00X9 { "waypoint" } else { "node" }
}

// 11: which columns are blank.
fn push_missing(out: &mut Page<'_>, f: Field, layout: usize) {
    let first = f.first;
    let last = f.last;
    if f.second {
        let _ = write!(out, "The second {} needs its number in ", second_of(layout));
        malformed::push_span(out, b'c', first, last);
        out.push_all(b": something else of it is filled in.");
    } else {
        malformed::push_span(out, b'C', first, last);
        out.push_all(b" may not be blank.");
    }
}

// Puts what is wrong with the field of a layout that begins in a column, by its card's form and the refusal's number.
pub fn push_field(out: &mut Page<'_>, layout: usize, form: Form, number: usize, column: usize) {
    let Some(f) = fields::field_of(layout, number_at(layout, column)) else {
        return;
    };
    match number {
        9 => malformed::push_malformed(out, f, form),
        10 => push_outside(out, f),
        11 => push_missing(out, f, layout),
        _ => {}
    }
}
