// The script: its lines, their words, and what numbers and columns stand in them. A test tool: nothing that the crew is
// told rests on it, so its contracts are bounds, and it has no laws and no edits.

#![tactic(auto)]

pub mod headers;
pub mod say;
pub mod values;

ghost use Rattle.std.specs.Prelude.{◌≡◌, ◌≤◌, length};

use format_layout::BLANK;
use std::io::{Read, Stdin, Stdout};

const BAR: u8 = b'|';

// Room for a script.
pub fn room() -> [u8; 262144]
    ensures { 262144 ≡ length result }
{
    [0; 262144]
}

// Reads until the input ends, a read fails or the text is full, and answers how many bytes there are.
pub fn read_full(mut from: Stdin, text: &mut [u8]) -> usize
    ensures { result ≤ length text.new }
{
    let mut done = 0;
    while done < text.len() {
        let more = from.read(&mut text[done..]).unwrap_or(0);
        if more == 0 {
            return done;
        }
        done += more;
    }
    done
}

// The place of the first b, or the length where there is none.
fn place(s: &[u8], b: u8) -> usize
    ensures { result ≤ length s.now }
{
    s.iter().position(|x| *x == b).unwrap_or(s.len())
}

// The first n bytes, or all.
pub fn front(s: &[u8], n: usize) -> &[u8] {
    s.get(..n).unwrap_or(s)
}

// The first word.
pub fn word(s: &[u8]) -> &[u8] {
    front(s, place(s, BLANK))
}

// What stands behind the first word and its blank.
pub fn next(s: &[u8]) -> &[u8] {
    s.get(place(s, BLANK) + 1..).unwrap_or(&[])
}

// Whether a line is empty or a title.
fn is_title(line: &[u8]) -> bool {
    matches!(line.first(), None | Some(b'#'))
}

// Repeats a line, and answers whether it asks for an answer: an empty line and a title do not.
pub fn asks(to: Stdout, line: &[u8]) -> bool {
    say::words(to, line);
    if is_title(line) {
        return false;
    }
    say::words(to, b" = ");
    true
}

// Has every line of a script that asks answered.
fn answer_lines<F: FnMut(&[u8])>(to: Stdout, text: &[u8], mut answer: F)
    requires { F.IsAlwaysCallable answer }
{
    for piece in text.split_inclusive(|b| *b == b'\n') {
        let line = piece.strip_suffix(b"\n").unwrap_or(piece);
        if asks(to, line) {
            answer(line);
        }
        say::end(to);
    }
}

// Reads a script from standard input, and has every line of it that asks answered.
pub fn answer_script<F: FnMut(&[u8])>(from: Stdin, to: Stdout, answer: F)
    requires { F.IsAlwaysCallable answer }
{
    let mut text = room();
    let size = read_full(from, &mut text);
    if size == text.len() {
        return say::words(to, b"the script is too long\n");
    }
    answer_lines(to, &text[..size], answer)
}

// The first letter of a command, 0 where there is none.
pub fn letter(s: &[u8]) -> u8 {
    s.first().copied().unwrap_or(0)
}

// A number with one more digit behind it.
fn grown(n: u64, b: u8) -> Option<u64> {
    let digit = char::from(b).to_digit(10)?;
    n.checked_mul(10)?.checked_add(u64::from(digit))
}

// The number whose digits are s.
pub fn count_in(s: &[u8]) -> Option<u64> {
    if s.is_empty() {
        return None;
    }
    s.iter().try_fold(0, |n, b| grown(n, *b))
}

// The number whose sign and digits are s.
pub fn signed_in(s: &[u8]) -> Option<i64> {
    match s.strip_prefix(b"-") {
        Some(size) => 0i64.checked_sub_unsigned(count_in(size)?),
        None => i64::try_from(count_in(s)?).ok(),
    }
}

// The byte that a character between bars stands for.
fn meant(b: u8) -> u8 {
    match b {
        b'[' => 0,
        b'{' => 31,
        b'}' => 127,
        b']' => 255,
        _ => b,
    }
}

// Sets the columns to what s stands for, and answers how many these are.
fn set_columns(s: &[u8], columns: &mut [u8]) -> Option<usize> {
    let set = columns.get_mut(..s.len())?;
    for (column, b) in set.iter_mut().zip(s) {
        *column = meant(*b);
    }
    Some(s.len())
}

// Sets the columns to what stands between a bar and an end, and answers how many these are.
pub fn columns_to(s: &[u8], end: u8, columns: &mut [u8]) -> Option<usize> {
    let (first, rest) = s.split_first()?;
    let (last, shown) = rest.split_last()?;
    if *first != BAR || *last != end {
        return None;
    }
    set_columns(shown, columns)
}

// Sets the columns to what stands between the bars, and answers how many these are.
pub fn columns_in(s: &[u8], columns: &mut [u8]) -> Option<usize> {
    columns_to(s, BAR, columns)
}

// What stands before the first bar and the blank before it.
pub fn before_bar(s: &[u8]) -> &[u8] {
    front(s, place(s, BAR).saturating_sub(1))
}

// From the first bar on, empty where there is none.
pub fn from_bar(s: &[u8]) -> &[u8] {
    &s[place(s, BAR)..]
}

// The place of the first blank between two bars, past the first two bytes, or the length where there is none.
fn seam(s: &[u8]) -> usize
    ensures { result ≤ length s.now }
{
    (2..s.len())
        .find(|i| s[i - 1..].starts_with(b"| |"))
        .unwrap_or(s.len())
}

// The first of two parts between bars, or all.
pub fn first_part(s: &[u8]) -> &[u8] {
    front(s, seam(s))
}

// The second of two parts between bars, empty where there is none.
pub fn second_part(s: &[u8]) -> &[u8] {
    s.get(seam(s) + 1..).unwrap_or(&[])
}
