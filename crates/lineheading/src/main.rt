// The crew's program for the display: the corrected heading of a compass, by the header on standard input and by its arguments, the
// serial, the raw reading and the direction of the line.

#![tactic(auto)]

mod words;

use base_digits::digits;
use base_refusal::Refusal;
use base_value::{Decimal, Value};
use crew_io::{argument, failure, input};
use value_number::{number, number_entry};

// The longest argument.
const WORD: usize = 32;

// The columns for a heading, more than any has.
const COLUMNS: usize = 24;

// The number that bytes are, if they are one; pointed says whether a point may stand in it.
fn number_in(word: &[u8], pointed: bool) -> Option<Decimal> {
    let Ok(Value::Decimal(d)) = number::read_number(word, pointed) else {
        return None;
    };
    Some(d)
}

// The number that an argument is, if it is one.
fn argument(rt: &HostRuntime, place: usize, pointed: bool) -> Option<Decimal> {
    let mut word = [0u8; WORD];
    let size = argument::word(rt, place, &mut word);
    number_in(&word[..size], pointed)
}

// Writes what stands in columns behind their blanks, and a line end.
fn print(rt: &HostRuntime, columns: &[u8]) {
    let from = digits::padding(columns);
    let number = rt.write_all(&columns[from..]);
    let end = rt.write_all(b"\n");
    if let Err(why) = end.and(number) {
        failure::tell(rt.stderr(), b"lineheading: standard output", why);
    }
}

// Writes a heading with all its places.
fn write(rt: &HostRuntime, heading: Decimal) {
    let mut columns = [0u8; COLUMNS];
    number_entry::write_decimal(&mut columns, heading);
    print(rt, &columns);
}

// Writes a heading, or says why there is none.
fn tell(rt: &HostRuntime, heading: Result<Decimal, Refusal>) {
    match heading {
        Ok(d) => write(rt, d),
        Err(r) => words::tell(rt, r),
    }
}

// Answers for a header.
fn answer(rt: &HostRuntime, header: &[u8]) {
    let Some(raw) = argument(rt, 2, true) else {
        let _ = eprintln!(rt; "lineheading: the raw reading is no number, like 123.45");
        return;
    };
    let Some(direction) = argument(rt, 3, false) else {
        let _ = eprintln!(rt; "lineheading: the direction is no whole number, like 90");
        return;
    };
    let mut serial = [0u8; WORD];
    let size = argument::word(rt, 1, &mut serial);
    tell(
        rt,
        survey_compass::find_heading(header, &serial[..size], raw, direction.units),
    );
}

fn main(rt: HostRuntime) {
    let mut buf = input::room();
    match input::read_all(&mut rt.stdin(), &mut buf) {
        Ok(n) => answer(&rt, &buf[..n]),
        Err(why) => failure::tell(rt.stderr(), b"lineheading: standard input", why),
    }
}
