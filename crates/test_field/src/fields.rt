// The commands on one field's columns: read, text, write and put.
use base_refusal::Unwritten;
use std::io::Stdout;
use test_script::{say, values};
use value_field::spelling::Spelling;
use value_field::{spelling, writing};

// The spelling that a letter names.
fn kind_of(b: u8) -> Option<Spelling> {
    match b {
        b'A' => Some(Spelling::Text),
        b'C' => Some(Spelling::Comment),
        b'I' => Some(Spelling::Whole),
        b'N' => Some(Spelling::Decimal),
        b'D' => Some(Spelling::Date),
        b'Y' => Some(Spelling::Latitude),
        b'X' => Some(Spelling::Longitude),
        b'y' => Some(Spelling::Northing),
        b'x' => Some(Spelling::Easting),
        _ => None,
    }
}

// The spelling that the first word names.
fn kind_in(args: &[u8]) -> Option<Spelling> {
    match test_script::word(args) {
        [b] => kind_of(*b),
        _ => None,
    }
}

// What came of writing, by the paper's number.
fn number_of(w: Result<(), Unwritten>) -> u64 {
    match w {
        Ok(()) => 0,
        Err(Unwritten::Unprintable) => 4,
        Err(Unwritten::Malformed) => 9,
        Err(Unwritten::OutOfRange) => 10,
        Err(Unwritten::OtherKind) => 12,
        Err(Unwritten::NoRoom) => 14,
    }
}

// Writes what came of writing, and the columns.
fn say_written(to: Stdout, w: Result<(), Unwritten>, columns: &[u8]) {
    say::number(to, number_of(w));
    say::words(to, b" ");
    say::columns(to, columns)
}

// read K |columns|, text K |columns|
fn read(to: Stdout, field: &[u8], k: Spelling, text: bool) {
    if text {
        return say::columns(to, spelling::text_of(field, k));
    }
    values::say_reading(
        to,
        spelling::read(field, k),
        spelling::is_misplaced(field, k),
    )
}

// write K W value
fn write(to: Stdout, offer: &[u8], columns: &mut [u8], k: Spelling) {
    let Some(v) = values::value_in(offer) else {
        return say::unknown(to);
    };
    say_written(to, writing::write(columns, k, v), columns)
}

// put K W |text|
fn put(to: Stdout, offer: &[u8], columns: &mut [u8], k: Spelling) {
    let mut text = [0u8; 128];
    let Some(size) = test_script::columns_in(offer, &mut text) else {
        return say::unknown(to);
    };
    let offered = test_script::front(&text, size);
    say_written(to, writing::write_text(columns, k, offered), columns)
}

// Writes a value or a text into the first w columns.
fn enter(to: Stdout, offer: &[u8], columns: &mut [u8], w: usize, k: Spelling, text: bool) {
    let Some(field) = columns.get_mut(..w) else {
        return say::unknown(to);
    };
    if text {
        return put(to, offer, field, k);
    }
    write(to, offer, field, k)
}

// K and |columns|, or K, W and what is offered
fn on_field(to: Stdout, args: &[u8], k: Spelling, letter: u8) {
    let mut columns = [b'#'; 128];
    let rest = test_script::next(args);
    if letter == b'w' || letter == b'p' {
        let Some(w) = test_script::count_in(test_script::word(rest)) else {
            return say::unknown(to);
        };
        return enter(
            to,
            test_script::next(rest),
            &mut columns,
            w as usize,
            k,
            letter == b'p',
        );
    }
    let Some(w) = test_script::columns_in(rest, &mut columns) else {
        return say::unknown(to);
    };
    read(to, test_script::front(&columns, w), k, letter == b't')
}

// Answers a command.
pub fn answer(to: Stdout, line: &[u8]) {
    let args = test_script::next(line);
    let Some(k) = kind_in(args) else {
        return say::unknown(to);
    };
    on_field(to, args, k, test_script::letter(line))
}
