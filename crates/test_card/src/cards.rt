// The commands on one card: field, text, open, put, write and judge.
use base_refusal::Refusal;
use card_check::Offence;
use card_field::FieldRead;
use card_put::opening;
use format_layout::{CARD, Form};
use std::io::Stdout;
use test_script::{say, values};

// Sets blank columns to a card, |columns| as they are or |columns> with blanks up to the eightieth: its size.
fn card_in(s: &[u8], columns: &mut [u8]) -> Option<usize> {
    match test_script::columns_to(s, b'>', columns) {
        Some(n) => (n <= CARD).then_some(CARD),
        None => test_script::columns_in(s, columns),
    }
}

// Writes what was read.
fn say_read(to: Stdout, r: Result<FieldRead, Refusal>) {
    match r {
        Ok(
            FieldRead {
                value: v,
                misplaced,
            },
        ) => values::say_placed(to, v, misplaced),
        Err(why) => say::refused(to, why),
    }
}

// Writes a blank and a card behind an answer.
fn say_card(to: Stdout, card: &[u8]) {
    say::words(to, b" ");
    say::columns(to, card)
}

// Writes what came of an entry.
fn say_entered(to: Stdout, e: Result<(), Refusal>) {
    match e {
        Ok(()) => say::words(to, b"done"),
        Err(why) => say::refused(to, why),
    }
}

// Writes what came of opening.
fn say_opened(to: Stdout, o: Result<(), Refusal>) {
    match o {
        Ok(()) => say::words(to, b"done"),
        Err(why) => say::refused(to, why),
    }
}

// Writes a card's verdict.
fn say_verdict(to: Stdout, v: Result<(), Offence>) {
    match v {
        Ok(()) => say::words(to, b"fine"),
        Err(Offence { number, column }) => {
            say::words(to, b"offence");
            say::next(to, number as u64);
            say::next(to, column as u64)
        }
    }
}

// The field number and the form that a command begins with.
fn asked_in(args: &[u8]) -> Option<(usize, usize)> {
    let number = test_script::count_in(test_script::word(args))?;
    let form = test_script::count_in(test_script::word(test_script::next(args)))?;
    Some((number as usize, form as usize))
}

// The form that a word names.
fn form_in(s: &[u8]) -> Option<Form> {
    match s {
        [b'0'] => Some(Form::Angles),
        [b'1'] => Some(Form::Grid),
        [b'?'] => Some(Form::Unknown),
        _ => None,
    }
}

// judge FORM card
fn judge(to: Stdout, args: &[u8], card: &[u8]) {
    let Some(form) = form_in(test_script::word(args)) else {
        return say::unknown(to);
    };
    say_verdict(to, card_check::judge_card(card, form))
}

// open |code| card
fn open(to: Stdout, args: &[u8], card: &mut [u8]) {
    let mut code = [0u8; 128];
    let Some(length) = test_script::columns_in(test_script::first_part(args), &mut code) else {
        return say::unknown(to);
    };
    say_opened(to, opening::open(card, test_script::front(&code, length)));
    say_card(to, card)
}

// put N FORM value card
fn put(to: Stdout, offer: &[u8], card: &mut [u8], number: usize, form: usize) {
    let Some(v) = values::value_in(test_script::before_bar(offer)) else {
        return say::unknown(to);
    };
    say_entered(to, card_put::put(card, number, form, v));
    say_card(to, card)
}

// write N FORM |text| card
fn write(to: Stdout, offer: &[u8], card: &mut [u8], number: usize, form: usize) {
    let mut text = [0u8; 128];
    let Some(length) = test_script::columns_in(test_script::first_part(offer), &mut text) else {
        return say::unknown(to);
    };
    let offered = test_script::front(&text, length);
    say_entered(to, card_put::put_text(card, number, form, offered));
    say_card(to, card)
}

// field N FORM card, text N FORM card and the two entries
fn on_field(to: Stdout, letter: u8, args: &[u8], card: &mut [u8]) {
    let Some((number, form)) = asked_in(args) else {
        return say::unknown(to);
    };
    let offer = test_script::next(test_script::next(args));
    match letter {
        b'f' => say_read(to, card_field::read_field(card, number, form)),
        b't' => say::columns(to, card_field::read_text(card, number, form)),
        b'p' => put(to, offer, card, number, form),
        b'w' => write(to, offer, card, number, form),
        _ => say::unknown(to),
    }
}

// Answers a command on the card that the first columns are.
fn on_card(to: Stdout, line: &[u8], columns: &mut [u8], size: usize) {
    let Some(card) = columns.get_mut(..size) else {
        return say::unknown(to);
    };
    let args = test_script::next(line);
    match test_script::letter(line) {
        b'j' => judge(to, args, card),
        b'o' => open(to, args, card),
        letter => on_field(to, letter, args, card),
    }
}

// The card that a command ends with; a code or a text stands before it.
fn card_part(line: &[u8]) -> &[u8] {
    let parts = test_script::from_bar(line);
    match test_script::letter(line) {
        b'o' | b'w' => test_script::second_part(parts),
        _ => parts,
    }
}

// Answers a command.
pub fn answer(to: Stdout, line: &[u8]) {
    let mut columns = [b' '; 128];
    let Some(size) = card_in(card_part(line), &mut columns) else {
        return say::unknown(to);
    };
    on_card(to, line, &mut columns, size)
}
