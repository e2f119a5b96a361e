// Whole numbers and decimals in columns of any width: read to the last digit.
ghost use Rattle.std.specs.Prelude.{◌≡◌, ◌≤◌};
ghost use Rattle.value_number.specs.number.Reading.{counted_of, figures_of, held_of, sign_at, number_of};

use base_digits::{digits, signs};
use base_value::{Decimal, Unread, Value};

const PLUS: u8 = b'+';

pub const MINUS: u8 = b'-';

pub const POINT: u8 = b'.';

// What the digits of an unsigned number are worth: units, of which so many digits stand behind the point.
#[derive(Clone, Copy)]
pub struct Figures {
    pub units: u64,
    pub places: usize,
}

// An unsigned number whose digits are counted.
fn counted(count: usize, units: u64, places: usize) -> Option<Figures>
    ensures { result ≡ counted_of count units places }
{
    if count == 0 {
        return None;
    }
    Some(Figures { units, places })
}

// Reads an unsigned number that fills t; pointed says whether a point may stand in it.
fn figures_in(t: &[u8], pointed: bool) -> Option<Figures>
    ensures { result ≡ figures_of pointed t.now }
{
    let whole = digits::read_run(t, 0);
    let a = whole.count;
    let n = whole.number;
    if a == t.len() {
        return counted(a, n, 0);
    }
    if !pointed {
        return None;
    }
    if t[a] != POINT {
        return None;
    }
    let rest = &t[a + 1..];
    let broken = digits::read_run(rest, n);
    let b = broken.count;
    if b != rest.len() {
        return None;
    }
    counted(a + b, broken.number, b)
}

// An unsigned number with its sign.
fn held(minus: bool, figures: Option<Figures>) -> Result<Value, Unread>
    ensures { result ≡ held_of minus figures }
{
    match figures {
        None => Err(Unread::Malformed),
        Some(Figures { units: n, places }) => {
            if n < digits::LIMIT {
                return Ok(Value::Decimal(Decimal {
                    units: signs::signed(minus, n),
                    places,
                }));
            }
            Err(Unread::OutOfRange)
        }
    }
}

// The columns that a byte takes as a sign.
#[tactic(auto, unfolding(crate::specs::number::Reading::sign_at))]
pub fn sign_at(b: u8) -> usize
    ensures { (result ≡ sign_at b) × (result ≤ 1) }
{
    usize::from(matches!(b, PLUS | MINUS))
}

// Reads the number that stands right adjusted in s; pointed says whether a point may stand in it.
pub fn read_number(s: &[u8], pointed: bool) -> Result<Value, Unread>
    ensures { result ≡ number_of pointed s.now }
{
    let at = digits::padding(s);
    if at == s.len() {
        return Ok(Value::Absent);
    }
    let b = s[at];
    let from = at + sign_at(b);
    held(b == MINUS, figures_in(&s[from..], pointed))
}
