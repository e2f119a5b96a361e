// What the columns of a field have to hold, told where they do not (9).
use crew_io::page::Page;
use format_layout::{Field, Form, Kind};
use std::fmt::Write;

// Puts a field's columns, the first letter as it is given.
pub fn push_span(out: &mut Page<'_>, letter: u8, first: usize, last: usize) {
    out.push(letter);
    let _ = if first == last {
        write!(out, "olumn {first}")
    } else {
        write!(out, "olumns {first} to {last}")
    };
}

// Puts that a field's columns do not hold what follows.
fn push_lacks(out: &mut Page<'_>, first: usize, last: usize) {
    push_span(out, b'C', first, last);
    if first == last {
        out.push_all(b" does not hold ");
    } else {
        out.push_all(b" do not hold ");
    }
}

// Puts a whole number, which is a digit where there is one column only.
fn push_whole(out: &mut Page<'_>, first: usize, last: usize) {
    if first == last {
        out.push_all(b"a digit.");
    } else {
        out.push_all(b"a whole number.");
    }
}

// Puts a coordinate: words for an angle, or a number with its letter, which ends before the last column.
fn push_coordinate(
    out: &mut Page<'_>,
    form: Form,
    last: usize,
    angle: &str,
    metres: &str,
    letter: char,
) {
    if !format_layout::is_grid(form) {
        out.push_all(angle.as_bytes());
    } else if 0 < last {
        let end = last - 1;
        let _ = write!(
            out,
            "{metres}: a number that ends in column {end}, and the letter {letter} behind it."
        );
    }
}

// Puts what a field has to hold.
fn push_wanted(out: &mut Page<'_>, kind: Kind, first: usize, last: usize, form: Form) {
    match kind {
        Kind::Text | Kind::Comment => {}
        Kind::Whole => push_whole(out, first, last),
        Kind::Decimal => out.push_all(b"a number."),
        Kind::Date => out.push_all(b"a date of eight digits, YYYYMMDD."),
        Kind::Latitude => {
            let angle = "a latitude dddmmss.sss with N or S.";
            push_coordinate(out, form, last, angle, "a northing", 'N');
        }
        Kind::Longitude => {
            let angle = "a longitude dddmmss.sss with E or W.";
            push_coordinate(out, form, last, angle, "an easting", 'E');
        }
    }
}

// 9 in a text: it does not begin where it has to.
fn push_late(out: &mut Page<'_>, first: usize, last: usize) {
    out.push_all(b"The text in ");
    push_span(out, b'c', first, last);
    let _ = write!(out, " does not begin in column {first}.");
}

// 9: what the columns do not hold.
pub fn push_malformed(out: &mut Page<'_>, f: Field, form: Form) {
    let first = f.first;
    let last = f.last;
    let kind = f.kind;
    if matches!(kind, Kind::Text | Kind::Comment) {
        push_late(out, first, last);
    } else {
        push_lacks(out, first, last);
        push_wanted(out, kind, first, last, form);
    }
}
