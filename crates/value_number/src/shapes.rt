// What the columns of a number hold, told by one number: whether there is a number at all, and how large a whole one is.
// A number and not an enum, which would be copied through memory; it tells what reading would.
ghost use Rattle.std.specs.Prelude.{◌≡◌, true, false, ◌+◌, ◌≤◌, length};
ghost use Rattle.base_digits.specs.digits.Figures.{leading, limit};
ghost use Rattle.value_number.specs.number.Reading.{figures_of, number_of};
ghost use Rattle.value_number.specs.packed.Shapes.{is_units, mark_in, size_by, size_of};
ghost use Rattle.base_value.specs.Reading.{offence_of};

use crate::number::{self, MINUS, POINT};
use base_digits::digits;
use base_refusal::{MALFORMED, MISSING};

// The shape of a number; what is none has the number of its refusal.
const FINE: usize = 0;

// Sizes that are none: blanks, no number, one that is too large, one below zero. From ZERO on it is the number's own.
pub const BLANK: u64 = 0;

pub const ODD: u64 = 1;

pub const LARGE: u64 = 2;

pub const BELOW: u64 = 3;

pub const ZERO: u64 = 4;

// How many digits stand at the front of t.
fn run_of(t: &[u8]) -> usize
    ensures found { result ≡ length (leading t.now) }
    ensures within { result ≤ length t.now }
{
    t.iter().take_while(|b| b.is_ascii_digit()).count()
}

// Whether an unsigned decimal fills t.
fn is_decimal(t: &[u8]) -> bool
    ensures { result ≡ is_units (figures_of true t.now) }
{
    let a = run_of(t);
    if a == t.len() {
        return a != 0;
    }
    if t[a] != POINT {
        return false;
    }
    let rest = &t[a + 1..];
    let b = run_of(rest);
    b == rest.len() && a + b != 0
}

// The whole number that fills t, counted from 1; 0 where there is none.
fn mark_of(t: &[u8]) -> u64
    ensures mark { result ≡ mark_in (figures_of false t.now) }
    ensures within { result ≤ limit + 1 }
{
    let mut n = 0;
    for &b in t {
        if !b.is_ascii_digit() {
            return 0;
        }
        n = digits::cap(n * 10 + u64::from(b - b'0'));
    }
    if t.is_empty() {
        return 0;
    }
    n + 1
}

// A size by the number counted from 1, and whether a minus stands before it.
#[tactic(auto, unfolding(crate::specs::packed::Shapes::size_by))]
fn size_by(minus: bool, mark: u64) -> u64
    ensures { (result ≡ size_by minus mark) × (result ≤ limit + 3) }
{
    if mark == 0 {
        return ODD;
    }
    if digits::LIMIT < mark {
        return LARGE;
    }
    if minus && mark != 1 {
        return BELOW;
    }
    mark + 3
}

// What stands in the columns of a decimal: 0 for a number, 9 for none, 11 for blanks. In up to eighteen columns no number is too
// large, so its digits are only looked at.
pub fn decimal_shape(s: &[u8]) -> usize
    requires { length s.now ≤ 18 }
    ensures { result ≡ offence_of (number_of true s.now) }
{
    let at = digits::padding(s);
    if at == s.len() {
        return MISSING;
    }
    let from = at + number::sign_at(s[at]);
    if is_decimal(&s[from..]) {
        return FINE;
    }
    MALFORMED
}

// How large the whole number in some columns is, counted from 4; below that 0 for blanks, 1 for no number, 2 for one that is too
// large, 3 for one below zero.
pub fn whole_size(s: &[u8]) -> u64
    ensures size { result ≡ size_of (number_of false s.now) }
    ensures within { result ≤ limit + 3 }
{
    let at = digits::padding(s);
    if at == s.len() {
        return BLANK;
    }
    let b = s[at];
    let from = at + number::sign_at(b);
    size_by(b == MINUS, mark_of(&s[from..]))
}
