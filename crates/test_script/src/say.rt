// The answers, written as they come.

use base_refusal::Refusal;
use std::fmt::Display;
use std::io::Stdout;

// Writes bytes as they are; where that fails, what was written is not the answer that is stored.
pub fn words(to: Stdout, s: &[u8]) {
    let _ = to.write_all(s);
}

// Writes a number.
pub fn number<N: Display + Drop>(to: Stdout, n: N) {
    let _ = to.print(n);
}

// Writes a number behind a blank.
pub fn next<N: Display + Drop>(to: Stdout, n: N) {
    words(to, b" ");
    number(to, n)
}

// Writes a refusal: its number, card and column.
pub fn refused(to: Stdout, r: Refusal) {
    words(to, b"refused");
    next(to, r.number);
    next(to, r.card);
    next(to, r.column)
}

// Ends a line.
pub fn end(to: Stdout) {
    words(to, b"\n")
}

// Writes the answer to what is no command.
pub fn unknown(to: Stdout) {
    words(to, b"?")
}

// The character that stands for a byte between bars.
fn shown(b: u8) -> u8 {
    match b {
        0 => b'[',
        31 => b'{',
        127 => b'}',
        255 => b']',
        _ => b,
    }
}

// Writes columns between bars: a script sets no more than there is room for.
pub fn columns(to: Stdout, s: &[u8]) {
    let mut text = [0u8; 128];
    let size = s.len().min(text.len());
    for (place, b) in text.iter_mut().zip(s) {
        *place = shown(*b);
    }
    words(to, b"|");
    words(to, &text[..size]);
    words(to, b"|")
}
