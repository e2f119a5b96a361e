// The crew's program that converts a header: from standard input to the form that its argument names, on standard output.
#![tactic(auto)]

mod words;

ghost use Rattle.std.specs.Prelude.{◌≤◌, IfOk};

use base_refusal::{Refusal, TOO_MANY, refuse};
use crew_io::{argument, failure, input};

// The forms that can be asked for.
#[derive(Clone, Copy)]
enum Form {
    Disk,
    Cards,
    Ascii,
    Ebcdic,
}

// The most cards and lines of a header; the longest header; the longest file of so many lines.
const LINES: usize = 800;

const HEADER: usize = 64000;

const FILE: usize = 65600;

// A byte more than the longest file is read, to notice a longer one; of cards, one card more than the longest header.
const ROOM: usize = FILE + 1;

const CARDS: usize = HEADER + 80;

// The longest argument.
const WORD: usize = 16;

// The form that an argument names, if it names one.
fn form_of(word: &[u8]) -> Option<Form> {
    match word {
        b"disk" => Some(Form::Disk),
        b"cards" => Some(Form::Cards),
        b"ascii" => Some(Form::Ascii),
        b"ebcdic" => Some(Form::Ebcdic),
        _ => None,
    }
}

// Writes what was converted.
fn write(rt: &HostRuntime, out: &[u8]) {
    if let Err(why) = rt.write_all(out) {
        failure::tell(rt.stderr(), b"lineform: standard output", why);
    }
}

// As much of the input as tells of cards whether there are too many.
fn cards_in(input: &[u8]) -> &[u8] {
    &input[..input.len().min(CARDS)]
}

// A refusal behind the last line that a header may have is told as too many lines: a longer file was not read to its end.
fn within(r: Refusal) -> Refusal {
    if LINES < r.card {
        return refuse(TOO_MANY, 0, 0);
    }
    r
}

// Converts the input, and answers how many bytes that makes.
fn convert(form: Form, input: &[u8], out: &mut [u8; FILE]) -> Result<usize, Refusal>
    ensures { IfOk result (λ n. n ≤ 65600) }
{
    match form {
        Form::Disk => media_diskette::to_diskette(cards_in(input), out),
        Form::Cards => media_diskette::from_diskette(input, &mut out[..HEADER]).map_err(within),
        Form::Ascii => media_ebcdic::to_ascii(input, out),
        Form::Ebcdic => media_ebcdic::to_ebcdic(input, out),
    }
}

// What a refusal counts in a form.
fn counted_in(form: Form) -> &'static str {
    match form {
        Form::Disk => "card ",
        Form::Cards => "line ",
        Form::Ascii | Form::Ebcdic => "",
    }
}

// Writes the input in a form.
fn answer(rt: &HostRuntime, form: Option<Form>, input: &[u8]) {
    let Some(form) = form else {
        let _ = eprintln!(rt; "lineform: usage: lineform disk|cards|ascii|ebcdic");
        return;
    };
    let mut out = [0u8; FILE];
    match convert(form, input, &mut out) {
        Ok(n) => write(rt, &out[..n]),
        Err(r) => words::tell(rt, r, counted_in(form)),
    }
}

fn main(rt: HostRuntime) {
    let mut word = [0u8; WORD];
    let size = argument::word(&rt, 1, &mut word);
    let form = form_of(&word[..size]);
    let mut buf = [0u8; ROOM];
    match input::read_all(&mut rt.stdin(), &mut buf) {
        Ok(n) => answer(&rt, form, &buf[..n]),
        Err(why) => failure::tell(rt.stderr(), b"lineform: standard input", why),
    }
}
