// The keys on one card: what its columns define and what they refer to, each key as one number, by the rows of the table of ties.
ghost use Rattle.std.specs.Prelude.{Result, ◌≡◌, ◌-◌, ◌/◌, ◌%◌};
ghost use Rattle.base_value.specs.declared.Unread.{Unread};
ghost use Rattle.base_value.specs.declared.Value.{Value};
ghost use Rattle.value_number.specs.packed.Shapes.{size_of};
ghost use Rattle.header_check.specs.forms.Cards.{byte_in};
ghost use Rattle.tie_rules.specs.Ties.{has_vessel};
ghost use Rattle.tie_rules.specs.Keys.{between, whole_in, paired, in_part};
ghost use Rattle.tie_rules.specs.Offered.{whole_offered};
ghost use Rattle.tie_rules.specs.packed.Numbers.{packed};
ghost use Rattle.tie_rules.specs.packed.Rows.{class_in, column_in, definition_in, reference_in, own_in, counted_in, only_defines, found_in, vessel_by, marked, mark_of};

use crate::{packing, rows};
use value_number::shapes;
use value_text::text;

// Stands for a code that has no vessel digit.
pub const NO_VESSEL: u16 = 10;

// The parts of a row: its column; the line of its definition and of its reference; what its column states.
const COLUMN: u64 = 0x1_00;

const LINE: u64 = 0x1_000000;

const DEFINITION: u64 = 0x1_00;

const REFERENCE: u64 = 0x1_000000_00;

const OWN: u64 = 0x1_000000_000000_00;

const COUNT: u64 = 0x2_000000_000000_00;

// The parts of a line: the class; how its key is found; the first and the last column of the key.
const CLASS: u64 = 0x1_0_00_00;

const HOW: u64 = 0x1_00_00;

const FIRST: u64 = 0x1_00;

// How a key is found: nowhere; it is the last digit of the code; a whole number or a text in some columns; a whole number behind the
// vessel in column 7; the one key 0, which stands nowhere; from here on a whole number in some columns, where it is one of a part of
// its range.
const NOTHING: u64 = 0;

const DIGIT: u64 = 1;

const WHOLE: u64 = 2;

const SERIAL: u64 = 3;

const WAYPOINT: u64 = 4;

const ONLY: u64 = 5;

const PART: u64 = 6;

// The least number of a part stands above its greatest.
const LEAST: u64 = 0x1_0000;

// The column that a row is about.
pub fn column_of(row: u64) -> usize
    ensures { result ≡ column_in row }
{
    (row % COLUMN) as usize
}

// The class of the keys that it defines, 0 where it defines none.
pub fn defined_class(row: u64) -> u64
    ensures { result ≡ class_in (definition_in row) }
{
    row / DEFINITION % LINE / CLASS
}

// Whether a card states its own vessel there.
pub fn states_own(row: u64) -> bool
    ensures { result ≡ own_in row }
{
    row / OWN % 2 == 1
}

// Whether it states a count there.
pub fn states_count(row: u64) -> bool
    ensures { result ≡ counted_in row }
{
    row / COUNT % 2 == 1
}

// Whether the column does no more than define: it refers to nothing, and states nothing.
pub fn only_defines(row: u64) -> bool
    ensures { result ≡ only_defines row }
{
    row < REFERENCE
}

// The columns of a card from one to another, as far as it has them.
fn columns(card: &[u8], first: usize, last: usize) -> &[u8]
    ensures { result.now ≡ between first last card.now }
{
    let from = first.saturating_sub(1);
    if card.len() <= from {
        return &card[..0];
    }
    if last <= from {
        return &card[..0];
    }
    if card.len() <= last {
        return &card[from..];
    }
    &card[from..last]
}

// A number counted from 1, by its size; 0 where there is none. Below zero there is no key.
fn mark_by(size: u64) -> u64
    ensures { (n : Result Value Unread) → size ≡ size_of n → result ≡ mark_of n }
{
    if size < shapes::ZERO {
        return 0;
    }
    size - shapes::ZERO + 1
}

// The whole number in some columns, counted from 1; 0 where there is none.
pub fn whole_in(card: &[u8], first: usize, last: usize) -> u64
    ensures { result ≡ marked (whole_in first last card.now) }
{
    mark_by(shapes::whole_size(text::stretch(columns(card, first, last))))
}

// The digit in a column.
#[tactic(auto, unfolding(header_check::specs::forms::Cards::byte_in))]
fn digit_in(card: &[u8], column: usize) -> u16
    ensures { result ≡ byte_in card.now column - 48 }
{
    let byte = base_lists::byte_at(card, column.saturating_sub(1));
    u16::from(byte.saturating_sub(b'0'))
}

// Whether a layout's code has a vessel digit.
fn has_vessel(layout: usize) -> bool
    ensures { result ≡ has_vessel layout }
{
    crate::tie_of(layout, 0) == 1
}

// The vessel digit in the code of a card that a layout reads, 10 where it has none.
pub fn vessel_of(card: &[u8], layout: usize) -> u16
    ensures { result ≡ vessel_by layout card.now }
{
    if has_vessel(layout) {
        return digit_in(card, 4);
    }
    NO_VESSEL
}

fn number_key(card: &[u8], class: u64, first: usize, last: usize) -> u64
    ensures { result ≡ packed class (whole_offered class (whole_in first last card.now)) }
{
    let number = whole_in(card, first, last);
    if number == 0 {
        return packing::NONE;
    }
    packing::packed_number(class, number - 1)
}

fn pair_key(card: &[u8], first: usize, last: usize) -> u64
    ensures { result ≡ packed 7 (paired (whole_in 7 7 card.now) (whole_in first last card.now)) }
{
    let vessel = whole_in(card, 7, 7);
    if vessel == 0 {
        return packing::NONE;
    }
    let number = whole_in(card, first, last);
    if number == 0 {
        return packing::NONE;
    }
    packing::packed_both(vessel - 1, number - 1)
}

// The whole number in some columns as a key, where it is one of a part of its range.
fn part_key(card: &[u8], class: u64, first: usize, last: usize, part: u64) -> u64
    ensures { result ≡ packed class (whole_offered class (in_part (part / 65536) (part % 65536) (whole_in first last card.now))) }
{
    let number = whole_in(card, first, last);
    if number <= part / LEAST {
        return packing::NONE;
    }
    if part % LEAST < number - 1 {
        return packing::NONE;
    }
    packing::packed_number(class, number - 1)
}

// The key that a line finds on a card.
fn key_by(card: &[u8], line: u64) -> u64
    ensures { result ≡ found_in line card.now }
{
    let class = line / CLASS;
    let first = (line / FIRST % 256) as usize;
    let last = (line % 256) as usize;
    let how = line / HOW % 16;
    match how {
        NOTHING => packing::NONE,
        DIGIT => packing::packed_number(class, digit_in(card, 5) as u64),
        WHOLE => number_key(card, class, first, last),
        SERIAL => packing::packed_columns(columns(card, first, last)),
        WAYPOINT => pair_key(card, first, last),
        ONLY => packing::packed_number(class, 0),
        _ => part_key(card, class, first, last, rows::part_of(how - PART)),
    }
}

// The key that a row's column of a card defines.
pub fn defined_by(card: &[u8], row: u64) -> u64
    ensures { result ≡ found_in (definition_in row) card.now }
{
    key_by(card, row / DEFINITION % LINE)
}

// The key that it refers to.
pub fn referred_by(card: &[u8], row: u64) -> u64
    ensures { result ≡ found_in (reference_in row) card.now }
{
    key_by(card, row / REFERENCE % LINE)
}
