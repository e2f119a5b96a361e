// A key of a class as one number, so that two keys are compared as two numbers: the class above 56 bits, and below it a number, a
// pair as first * 1000 + second, or a text of seven bits a byte.
ghost use Rattle.std.specs.Prelude.{◌≡◌, [], ◌∷◌, ◌<◌, ◌≤◌, length};
ghost use Rattle.value_text.specs.text.Texts.{text_of};
ghost use Rattle.tie_rules.specs.Offered.{is_whole, whole_offered};
ghost use Rattle.tie_rules.specs.packed.Numbers.{bits_in, packed, vessel_in};

use crate::{CLASSES, SERIALS, WAYPOINTS};
use format_layout::BLANK;
use value_text::printable::LAST;
use value_text::text;

// How many numbers each class has: those of eight bytes of seven bits; and how many of them a vessel's waypoints have.
pub const ROOM: u64 = 72057594037927936;

pub const EACH: u64 = 1000;

// The first number of a waypoint, and how many vessels there are.
const FIRST_WAYPOINT: u64 = WAYPOINTS * ROOM;

const DIGITS: u64 = 10;

const LONGEST: usize = 8;

// Stands for no key, and for one that no card can bear.
pub const NONE: u64 = 0;

fn is_whole(class: u64) -> bool
    ensures { result ≡ is_whole class }
{
    (1 <= class) & (class <= CLASSES) & (class != SERIALS) & (class != WAYPOINTS)
}

// A whole number as a key of a class.
pub fn packed_number(class: u64, number: u64) -> u64
    ensures { result ≡ packed class (whole_offered class (number ∷ [])) }
{
    if !is_whole(class) {
        return NONE;
    }
    if 10000 <= number {
        return NONE;
    }
    class * ROOM + number
}

// A pair of whole numbers as a key.
pub fn packed_both(first: u64, second: u64) -> u64
    ensures { result ≡ packed 7 (first ∷ second ∷ []) }
{
    if DIGITS <= first {
        return NONE;
    }
    if EACH <= second {
        return NONE;
    }
    WAYPOINTS * ROOM + first * EACH + second
}

// The bytes of a text, seven bits each; 0 where one is not printable.
fn bits_in(t: &[u8]) -> u64
    requires { length t.now ≤ 8 }
    ensures bits { result ≡ bits_in t.now }
{
    let mut bits: u64 = 0;
    for b in t.iter().rev() {
        if *b < BLANK {
            return NONE;
        }
        if LAST < *b {
            return NONE;
        }
        bits = bits * 128 + u64::from(*b);
    }
    bits
}

// The text in some columns as a key.
pub fn packed_columns(columns: &[u8]) -> u64
    ensures { result ≡ packed 4 (text_of columns.now) }
{
    let t = text::stretch(columns);
    if LONGEST < t.len() {
        return NONE;
    }
    let bits = bits_in(t);
    if bits == 0 {
        return NONE;
    }
    SERIALS * ROOM + bits
}

// The vessel of a number that is a waypoint's, 10 for any other number.
pub fn vessel_in(number: u64) -> usize
    ensures { (result ≡ vessel_in number) × (result < 11) }
{
    if number < FIRST_WAYPOINT {
        return DIGITS as usize;
    }
    if number >= FIRST_WAYPOINT + DIGITS * EACH {
        return DIGITS as usize;
    }
    ((number - FIRST_WAYPOINT) / EACH) as usize
}
