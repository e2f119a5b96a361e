// Where a header defines its keys: five places for each card, with 0 where no key is defined.
ghost use Rattle.std.specs.Prelude.{◌≤◌};

use crew_io::page;
use format_layout::FEW_CARDS;
use header_check::forms;
use tie_rules::packing::{EACH, ROOM};
use tie_rules::{POINTS, SLOTS, WAYPOINTS, keys};

// The card of a place.
pub fn card_of(place: usize) -> usize {
    place / SLOTS + 1
}

// The row of a place in the table of ties.
fn row_of(header: &[u8], place: usize) -> u64 {
    let card = page::card_in(header, card_of(place));
    tie_rules::tie_of(forms::layout_of(card), place % SLOTS + 1)
}

// The column of a place.
pub fn column_of(header: &[u8], place: usize) -> usize {
    keys::column_of(row_of(header, place))
}

// The key that is defined in a place.
fn key_at(header: &[u8], place: usize) -> u64 {
    let card = page::card_in(header, card_of(place));
    keys::defined_by(card, row_of(header, place))
}

// Notes the keys of all places.
pub fn note(header: &[u8], keys: &mut [u64]) {
    for (place, key) in keys.iter_mut().enumerate() {
        *key = key_at(header, place);
    }
}

// Which of its slots a column of a layout is, the last one for any other.
fn slot_of(layout: usize, column: usize) -> usize
    ensures { result ≤ 4 }
{
    (1..SLOTS)
        .position(|slot| keys::column_of(tie_rules::tie_of(layout, slot)) == column)
        .unwrap_or(SLOTS - 1)
}

// The row of a column of a layout; that of its last slot for any other column.
pub fn row_at(layout: usize, column: usize) -> u64 {
    tie_rules::tie_of(layout, slot_of(layout, column) + 1)
}

// The place of a card's column; 0 where there is no such card.
pub fn place_at(header: &[u8], card: usize, column: usize) -> usize {
    if !(1..=FEW_CARDS).contains(&card) {
        return 0;
    }
    let layout = forms::layout_of(page::card_in(header, card));
    (card - 1) * SLOTS + slot_of(layout, column)
}

// How many keys lie from one to another.
fn count_from(keys: &[u64], low: u64, high: u64) -> usize {
    keys.iter()
        .filter(|key| (low..=high).contains(*key))
        .count()
}

// How often a key is defined.
pub fn times(keys: &[u64], key: u64) -> usize {
    count_from(keys, key, key)
}

// How many waypoints of a vessel are defined.
pub fn waypoints_of(keys: &[u64], vessel: u64) -> usize {
    if 9 < vessel {
        return 0;
    }
    let from = WAYPOINTS * ROOM + vessel * EACH;
    count_from(keys, from, from + (EACH - 1))
}

// How many variation points are defined.
pub fn points_in(keys: &[u64]) -> usize {
    count_from(keys, POINTS * ROOM, POINTS * ROOM + (ROOM - 1))
}

// The first place of a key, or how many places there are.
pub fn first_of(keys: &[u64], key: u64) -> usize {
    keys.iter()
        .position(|defined| *defined == key)
        .unwrap_or(keys.len())
}
