// A refusal told to people: the card as it stands, a caret under the column, and one sentence for the number.
#![tactic(auto)]

pub mod fields;
pub mod malformed;

use base_refusal::Refusal;
use crew_io::page;
use crew_io::page::Page;
use format_layout::names::{H00X8, H00X9};
use format_layout::{CARDS, Form, label};
use header_check::forms;
use std::fmt::Write;

// The cards H0000 to H0007 that open a header.
const OPENING: usize = 8;

// The first two bytes of a header in EBCDIC, H and 0.
const EBCDIC_H: u8 = 0xc8;

const EBCDIC_0: u8 = 0xf0;

// 2: how long the header is.
fn push_length(out: &mut Page<'_>, header: &[u8]) {
    let size = header.len();
    let unit = if size == 1 { "byte" } else { "bytes" };
    let _ = write!(
        out,
        "The length, {size} {unit}, is not a whole number of cards of 80 columns."
    );
}

// What the usual bytes are that are not printable.
fn name_of(b: u8) -> &'static str {
    match b {
        b'\t' => ", a tab",
        b'\n' => ", a line end",
        b'\r' => ", a carriage return",
        _ => "",
    }
}

// 4: which byte it is, and what helps where it is of a line end.
fn push_unprintable(out: &mut Page<'_>, card: &[u8], column: usize) {
    let byte = byte_in(card, column);
    let name = name_of(byte);
    let _ = write!(
        out,
        "The byte in column {column} is no printable ASCII character: its value is {byte}{name}."
    );
    if byte == b'\n' || byte == b'\r' {
        out.push_all(b" Of a file with line ends, ./lineform cards makes a header.");
    }
}

// The byte in a column, 0 where there is none.
fn byte_in(card: &[u8], column: usize) -> u8 {
    if column == 0 {
        return 0;
    }
    base_lists::byte_at(card, column - 1)
}

// 5: what stands where the code should.
fn push_unknown(out: &mut Page<'_>, card: &[u8]) {
    out.push(b'"');
    out.push_code(card);
    out.push_all(b"\" is no code of a header card.");
}

// Puts what has to stand at a place of the opening block.
fn push_expected(out: &mut Page<'_>, place: usize) {
    if place == 0 {
        return;
    }
    if OPENING < place {
        out.push_all(b"an H00@8 is missing.");
    } else {
        let _ = write!(out, "card {place} has to be H000{}.", place - 1);
    }
}

// Whether a card is an H00@8 or H00@9 with a code number that is not above another.
fn comes_before(card: &[u8], number: usize) -> bool {
    let layout = forms::layout_of(card);
    matches!(layout, H00X8 | H00X9) && header_check::code_number(card) <= number
}

// Behind which of the cards before a place an H00@8 or H00@9 belongs, by its code number: at least behind H0007.
fn place_behind(header: &[u8], number: usize, place: usize) -> usize {
    (OPENING..place)
        .find(|before| !comes_before(page::card_in(header, before + 1), number))
        .unwrap_or(place.max(OPENING))
}

// Puts behind which card an H00@8 or H00@9 belongs.
fn push_behind(out: &mut Page<'_>, header: &[u8], card: &[u8], place: usize) {
    let before = place_behind(header, header_check::code_number(card), place);
    let _ = write!(out, "it has to stand directly behind card {before}, ");
    out.push_code(page::card_in(header, before));
    out.push(b'.');
}

// Puts what is missing before a card that stands behind H0007, or where it has to stand.
fn push_home(out: &mut Page<'_>, header: &[u8], card: &[u8], place: usize) {
    let layout = forms::layout_of(card);
    if layout < OPENING {
        let _ = write!(out, "it stands once, as card {}.", layout + 1);
    } else if layout <= H00X9 {
        push_behind(out, header, card, place);
    } else {
        out.push_all(b"an H00@8 has to stand before it.");
    }
}

// 6: which card has to stand here, or where this one has to stand.
fn push_misplaced(out: &mut Page<'_>, header: &[u8], card: &[u8], place: usize) {
    if card.is_empty() {
        out.push_all(b"The header ends before its opening cards do: ");
        return push_expected(out, place);
    }
    out.push_code(card);
    out.push_all(b" is out of place: ");
    if place <= OPENING {
        push_expected(out, place);
    } else {
        push_home(out, header, card, place);
    }
}

// 7: which column it is, and of which card.
fn push_gap(out: &mut Page<'_>, card: &[u8], column: usize) {
    let _ = write!(out, "Column {column} belongs to no field of ");
    out.push_code(card);
    out.push_all(b" and has to be blank.");
}

// Puts the label of a layout.
fn push_label(out: &mut Page<'_>, layout: usize) {
    for i in 0..label::label_length(layout) {
        out.push(label::label_byte(layout, i));
    }
}

// 8: what the label has to be.
fn push_mislabelled(out: &mut Page<'_>, card: &[u8]) {
    out.push_all(b"The label of ");
    out.push_code(card);
    out.push_all(b" has to be \"");
    push_label(out, forms::layout_of(card));
    out.push_all(b"\", from column 6 on.");
}

// The form of a card's coordinates.
fn form_of(header: &[u8], card: &[u8], layout: usize) -> Form {
    let mut cards = [0u8; CARDS];
    let notes = forms::notes_of(header, &mut cards);
    forms::form_by(&notes, layout, card)
}

// 9, 10 and 11: what the field asks for.
fn push_field(out: &mut Page<'_>, header: &[u8], card: &[u8], number: usize, column: usize) {
    let layout = forms::layout_of(card);
    let form = form_of(header, card, layout);
    fields::push_field(out, layout, form, number, column);
}

// Puts the sentence of a refusal by a program that takes so many cards.
fn push_reason(out: &mut Page<'_>, header: &[u8], refusal: Refusal, most: usize) {
    let Refusal {
        number,
        card: place,
        column,
    } = refusal;
    let card = page::card_in(header, place);
    match number {
        1 => out.push_all(b"The header is empty."),
        2 => push_length(out, header),
        3 => {
            let _ = write!(out, "The header has more than {most} cards.");
        }
        4 => push_unprintable(out, card, column),
        5 => push_unknown(out, card),
        6 => push_misplaced(out, header, card, place),
        7 => push_gap(out, card, column),
        8 => push_mislabelled(out, card),
        _ => push_field(out, header, card, number, column),
    }
}

// Puts what to do with a tape in EBCDIC, if the header looks like one.
fn push_tape(out: &mut Page<'_>, header: &[u8]) {
    if header.starts_with(&[EBCDIC_H, EBCDIC_0]) {
        out.push_all(b"  This looks like a tape in EBCDIC: ./lineform ascii translates it.\n");
    }
}

// Tells why a header is refused by a program that takes so many cards: its card, a caret, and a sentence, each behind
// two blanks.
pub fn tell_refusal(out: &mut Page<'_>, header: &[u8], refusal: Refusal, most: usize) {
    let card = page::card_in(header, refusal.card);
    if !card.is_empty() {
        out.push_card(card, refusal.column);
    }
    out.push_all(b"  ");
    push_reason(out, header, refusal, most);
    out.push(b'\n');
    push_tape(out, header);
}
