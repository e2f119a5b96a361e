// What a caller in another language offers as numbers: a value for a field, a key.
ghost use Rattle.std.specs.Prelude.{◌≡◌};
ghost use Rattle.p294.specs.offered.Offers.{part_of, year_of, offered_of, key_of, key_text_of};

use base_digits::signs;
use base_value::{Columns, Date, Decimal, Value};
use tie_lookup::questions::Key;

// The kinds of key.
const KEY_WHOLE: usize = 1;

const KEY_PAIR: usize = 2;

const KEY_TEXT: usize = 3;

// A part of a date.
#[tactic(auto, unfolding(crate::specs::offered::Offers::part_of))]
fn part_of(n: u64) -> u32
    ensures { result ≡ part_of n }
{
    u32::try_from(n).unwrap_or(0)
}

// A year.
fn year_of(z: i64) -> u32
    ensures { result ≡ year_of z }
{
    if signs::below_zero(z) {
        return 0;
    }
    part_of(signs::magnitude(z))
}

// The value that a kind and three numbers offer.
#[tactic(auto, unfolding(crate::specs::offered::Offers::offered_of))]
pub fn offered(kind: usize, a: i64, b: usize, c: usize) -> Value
    ensures { result ≡ offered_of kind a b c }
{
    match kind {
        0 => Value::Absent,
        1 => Value::Whole(a),
        2 => Value::Decimal(Decimal {
            units: a,
            places: b,
        }),
        3 => Value::Angle(a),
        4 => Value::Date(Date {
            year: year_of(a),
            month: part_of(b as u64),
            day: part_of(c as u64),
        }),
        _ => Value::Text(Columns { first: 0, last: 0 }),
    }
}

// The key that a kind and two numbers offer.
#[tactic(auto, unfolding(crate::specs::offered::Offers::key_of))]
pub fn key_of(kind: usize, a: i64, b: i64) -> Key
    ensures { result ≡ key_of kind a b }
{
    match kind {
        KEY_WHOLE => Key::Whole(a),
        KEY_PAIR => Key::Pair(a, b),
        _ => Key::Text,
    }
}

// The text of a key: none where its kind is another.
pub fn key_text(kind: usize, text: &[u8]) -> &[u8]
    ensures { result.now ≡ key_text_of kind text.now }
{
    if kind == KEY_TEXT {
        return text;
    }
    &text[..0]
}
