// The listing of a volume: a line for each of its lines.
use base_digits::digits;
use crew_io::page::Page;
use crew_io::{failure, page};
use format_layout::CARD;
use std::fmt::Write;
use value_text::text;

const PAGE: usize = 4096;

// Columns of a directory card, from 0: its line's name, sequence number and two numbers, each with where it ends.
const NAME: usize = 6;

const NAME_END: usize = 22;

const SEQUENCE: usize = 23;

const SEQUENCE_END: usize = 27;

const NUMBERS: usize = 28;

// Where the trailer's numbers begin.
const TRAILER: usize = 6;

// What stands behind blanks.
fn unpadded(s: &[u8]) -> &[u8] {
    &s[digits::padding(s)..]
}

// Puts a number that stands behind blanks, and a blank behind it.
fn push_first(out: &mut Page<'_>, s: &[u8]) {
    let _ = write!(out, "{} ", digits::read_run(unpadded(s), 0).number);
}

// What stands behind the number that stands behind blanks.
fn behind_first(s: &[u8]) -> &[u8] {
    let rest = unpadded(s);
    let read = digits::read_run(rest, 0);
    &rest[read.count..]
}

// Puts a text without its blanks, or a dash where there is none.
fn push_text(out: &mut Page<'_>, s: &[u8]) {
    let text = unpadded(text::stretch(s));
    if text.is_empty() {
        out.push(b'-');
    } else {
        out.push_all(text);
    }
}

// Puts a line's place, its first card and its number of cards.
fn push_numbers(out: &mut Page<'_>, card: &[u8], place: usize) {
    let numbers = card.get(NUMBERS..CARD).unwrap_or(&[]);
    let _ = write!(out, "{place} ");
    push_first(out, numbers);
    push_first(out, behind_first(numbers));
}

// Puts a line's sequence number and its name.
fn push_named(out: &mut Page<'_>, card: &[u8]) {
    push_text(out, card.get(SEQUENCE..SEQUENCE_END).unwrap_or(&[]));
    out.push(b' ');
    push_text(out, card.get(NAME..NAME_END).unwrap_or(&[]));
    out.push(b'\n');
}

// Puts a line.
fn push_line(out: &mut Page<'_>, card: &[u8], place: usize) {
    push_numbers(out, card, place);
    push_named(out, card);
}

// The first directory card, by the trailer of a volume of so many cards.
fn first_entry(volume: &[u8], cards: usize) -> usize {
    let trailer = page::card_in(volume, cards);
    let columns = trailer.get(TRAILER..CARD).unwrap_or(&[]);
    digits::read_run(unpadded(columns), 0).number as usize
}

// Writes the lines of a volume of so many cards, which is accepted.
pub fn write_lines(rt: &HostRuntime, volume: &[u8], cards: usize) {
    let mut bytes = [0u8; PAGE];
    let mut out = page::on(rt.stdout(), &mut bytes);
    let first = first_entry(volume, cards);
    for i in first..cards {
        push_line(&mut out, page::card_in(volume, i), i - first + 1);
    }
    if let Err(why) = out.finish() {
        failure::tell(rt.stderr(), b"linevolume: standard output", why);
    }
}
