// A fault told to people: the card as it stands, a caret under the column, and one sentence in the crew's words.
#![tactic(auto)]

pub mod names;
pub mod places;

use crew_io::page;
use crew_io::page::Page;
use format_layout::fields;
use format_layout::names::H00X8;
use header_check::forms;
use std::fmt::Write;
use tie_rules::keys;
use tie_rules::keys::NO_VESSEL;

// How many places are told one by one where there are many.
const MOST: usize = 10;

// Puts what stands before the place with a number, from 0, of several.
fn push_join(out: &mut Page<'_>, told: usize, times: usize) {
    if told == 0 || times <= told {
        return;
    }
    if times - told == 1 {
        out.push_all(b" and ");
    } else {
        out.push_all(b", ");
    }
}

// Puts a place, behind those that are told already.
fn push_place(out: &mut Page<'_>, header: &[u8], place: usize, told: usize, times: usize) {
    push_join(out, told, times);
    let card = places::card_of(place);
    let column = places::column_of(header, place);
    let _ = write!(out, "on card {card} at column {column}");
}

// How many of some places are told one by one: all, or ten where there are two more at least.
fn told_of(times: usize) -> usize {
    if times <= MOST + 1 {
        return times;
    }
    MOST
}

// Puts the places of a key, all but one, behind those that are told already.
fn push_places(
    out: &mut Page<'_>,
    header: &[u8],
    keys: &[u64],
    key: u64,
    but: usize,
    first: usize,
    times: usize,
) {
    let limit = told_of(times);
    let mut told = first;
    for (place, defined) in keys.iter().enumerate() {
        if *defined == key && place != but && told < limit {
            push_place(out, header, place, told, times);
            told += 1;
        }
    }
}

// Puts how many places are not told.
fn push_rest(out: &mut Page<'_>, times: usize) {
    let limit = told_of(times);
    if limit < times {
        let _ = write!(out, " and in {} more places", times - limit);
    }
}

// Puts the vessel of an entry in brackets, where there is one.
fn push_of_vessel(out: &mut Page<'_>, vessel: u32) {
    if vessel < NO_VESSEL as u32 {
        let _ = write!(out, " (vessel {vessel})");
    }
}

// Puts what is named, and of which vessel the card is that names it.
fn push_named(out: &mut Page<'_>, key: u64, vessel: u32) {
    names::push_thing(out, key);
    names::push_use(out, key);
    push_of_vessel(out, vessel);
}

// Kind 1: what is named, and which card there is none of.
fn push_undefined(out: &mut Page<'_>, key: u64, vessel: u32) {
    push_named(out, key, vessel);
    out.push_all(b", and no ");
    names::push_definers(out, key);
    out.push_all(b" card defines it.");
}

// Kind 2: what is defined, how often, and where else.
fn push_redefined(
    out: &mut Page<'_>,
    header: &[u8],
    keys: &[u64],
    key: u64,
    place: usize,
    vessel: u32,
) {
    let times = places::times(keys, key);
    names::push_thing(out, key);
    let _ = write!(out, " is defined in {times} places: here");
    push_of_vessel(out, vessel);
    push_places(out, header, keys, key, place, 1, times);
    push_rest(out, times);
    out.push(b'.');
}

// Kind 3: what is named, how often it is defined, and where.
fn push_ambiguous(out: &mut Page<'_>, header: &[u8], keys: &[u64], key: u64, vessel: u32) {
    let times = places::times(keys, key);
    push_named(out, key, vessel);
    let _ = write!(out, " and defined in {times} places: ");
    push_places(out, header, keys, key, keys.len(), 0, times);
    push_rest(out, times);
    out.push(b'.');
}

// Kind 4 on a card that states its vessel: the digit in the code, and the one in the column.
fn push_own(out: &mut Page<'_>, card: &[u8], layout: usize, column: usize) {
    out.push_all(b"The code ");
    out.push_code(card);
    let own = keys::vessel_of(card, layout);
    let stated = keys::whole_in(card, column, column).saturating_sub(1);
    let _ = write!(
        out,
        " says vessel {own}, and column {column} says vessel {stated}."
    );
}

// The vessel digit of a card.
fn vessel_on(card: &[u8]) -> u16 {
    keys::vessel_of(card, forms::layout_of(card))
}

// Puts a card's code in brackets, and words behind it.
fn push_in_brackets(out: &mut Page<'_>, card: &[u8], words: &[u8]) {
    out.push_all(b" (");
    out.push_code(card);
    out.push_all(words);
}

// Puts the vessel digit of the card with a number, which defines what is named.
fn push_definition(out: &mut Page<'_>, header: &[u8], number: usize) {
    let card = page::card_in(header, number);
    let vessel = vessel_on(card);
    let _ = write!(
        out,
        " to vessel {vessel} where it is defined, on card {number}"
    );
    push_in_brackets(out, card, b").");
}

// Kind 4 elsewhere: the digit on this card, and the one on the card that defines what is named.
fn push_apart(out: &mut Page<'_>, header: &[u8], keys: &[u64], key: u64, card: &[u8]) {
    let number = places::card_of(places::first_of(keys, key));
    names::push_thing(out, key);
    let _ = write!(out, " belongs to vessel {} here", vessel_on(card));
    push_in_brackets(out, card, b"), and");
    push_definition(out, header, number);
}

// Puts a number that is found; none for 0.
fn push_found(out: &mut Page<'_>, found: usize) {
    if found == 0 {
        out.push_all(b"none.");
    } else {
        let _ = write!(out, "{found}.");
    }
}

// Kind 5 on H00@8: how many waypoints are stated, and how many are found.
fn push_waypoints(out: &mut Page<'_>, keys: &[u64], card: &[u8]) {
    let stated = keys::whole_in(card, 79, 80).saturating_sub(1);
    let vessel = keys::whole_in(card, 30, 30).saturating_sub(1);
    names::push_count(out, stated, "waypoint");
    let _ = write!(
        out,
        " for vessel {vessel}, and the H00@9 cards of vessel {vessel} define "
    );
    push_found(out, places::waypoints_of(keys, vessel));
}

// Kind 5 on H0100: how many variation points are stated, and how many are found.
fn push_points(out: &mut Page<'_>, keys: &[u64], card: &[u8]) {
    let stated = keys::whole_in(card, 16, 19).saturating_sub(1);
    names::push_count(out, stated, "variation point");
    out.push_all(b", and the H0101 cards define ");
    push_found(out, places::points_in(keys));
}

// Kind 5: the count that is stated, and the one that is found.
fn push_miscounted(out: &mut Page<'_>, keys: &[u64], card: &[u8], layout: usize, vessel: u32) {
    out.push_all(b"This card");
    push_of_vessel(out, vessel);
    out.push_all(b" states ");
    if layout == H00X8 {
        push_waypoints(out, keys, card);
    } else {
        push_points(out, keys, card);
    }
}

// The last column of the field that begins in a column, 0 where none does.
fn last_from(layout: usize, column: usize) -> usize {
    (1..=fields::fields_in(layout))
        .map(|n| format_layout::row_of(layout, n))
        .find(|row| fields::first_of(*row) == column)
        .map_or(0, fields::last_of)
}

// Kind 6: the columns of the number, and where it should end.
fn push_misplaced(out: &mut Page<'_>, layout: usize, column: usize, vessel: u32) {
    let last = last_from(layout, column);
    let _ = write!(out, "The number in columns {column} to {last}");
    push_of_vessel(out, vessel);
    let _ = write!(
        out,
        " has blanks behind it. It should end in column {last}."
    );
}

// Puts the sentence of a fault.
fn push_sentence(
    out: &mut Page<'_>,
    header: &[u8],
    keys: &[u64],
    card: usize,
    column: usize,
    kind: u32,
    vessel: u32,
) {
    let text = page::card_in(header, card);
    let layout = forms::layout_of(text);
    let row = places::row_at(layout, column);
    let key = keys::referred_by(text, row);
    match kind {
        1 => push_undefined(out, key, vessel),
        2 => {
            let defined = keys::defined_by(text, row);
            let here = places::place_at(header, card, column);
            push_redefined(out, header, keys, defined, here, vessel);
        }
        3 => push_ambiguous(out, header, keys, key, vessel),
        4 if keys::states_own(row) => push_own(out, text, layout, column),
        4 => push_apart(out, header, keys, key, text),
        5 => push_miscounted(out, keys, text, layout, vessel),
        6 => push_misplaced(out, layout, column, vessel),
        _ => {}
    }
}

// Tells a fault of a header whose keys are noted: its card, a caret, and a sentence, each behind two blanks.
pub fn tell_fault(
    out: &mut Page<'_>,
    header: &[u8],
    keys: &[u64],
    card: u32,
    column: u32,
    kind: u32,
    vessel: u32,
) {
    let place = card as usize;
    let at = column as usize;
    out.push_card(page::card_in(header, place), at);
    out.push_all(b"  ");
    push_sentence(out, header, keys, place, at, kind, vessel);
    out.push(b'\n');
}
