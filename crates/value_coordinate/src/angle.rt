// Coordinates in columns in form 0: angles in degrees, minutes and seconds, read.
ghost use Rattle.std.specs.Prelude.{◌≡◌, [], ◌∷◌, false, cond, ◌<◌, length, eqb};
ghost use Rattle.base_digits.specs.digits.Figures.{is_digit, blanks};
ghost use Rattle.value_number.specs.number.Reading.{figures_of};
ghost use Rattle.base_value.specs.declared.Value.TheVariants.{Absent};
ghost use Rattle.value_coordinate.specs.angle.Angles.{padded_of, is_number, units_of, parts_of, is_spelled, angled_of, angle_of};

use crate::axes;
use crate::axes::Axis;
use base_digits::{digits, signs};
use base_value::{Unread, Value};
use format_layout::BLANK;
use value_number::number::{Figures, POINT};

// The columns of an angle.
pub const WIDTH: usize = 12;

// The place of its letter, with the number's columns before it.
pub const LAST: usize = 11;

// The parts of an angle, as they stand in its columns.
#[derive(Clone, Copy)]
pub struct Parts {
    pub degrees: Option<Figures>,
    pub minutes: Option<Figures>,
    pub seconds: Option<Figures>,
    pub thousandths: Option<Figures>,
}

// Whether there are digits.
fn is_number(figures: Option<Figures>) -> bool
    ensures { result ≡ is_number figures }
{
    match figures {
        None => false,
        Some(_) => true,
    }
}

// What the digits are worth.
fn units(figures: Option<Figures>) -> u64
    ensures { result ≡ units_of figures }
{
    match figures {
        None => 0,
        Some(figures) => figures.units,
    }
}

// Whether a byte is a digit.
fn is_digit(b: u8) -> bool
    ensures { result ≡ is_digit b }
{
    b.is_ascii_digit()
}

// Reads two columns that blanks may pad on the left.
fn two_columns(a: u8, b: u8) -> Option<Figures>
    ensures { result ≡ padded_of (a ∷ b ∷ []) }
{
    if !is_digit(b) {
        return None;
    }
    if a == BLANK {
        return Some(Figures {
            units: (b - 48) as u64,
            places: 0,
        });
    }
    if !is_digit(a) {
        return None;
    }
    Some(Figures {
        units: (a - 48) as u64 * 10 + (b - 48) as u64,
        places: 0,
    })
}

// Reads three columns that nothing pads.
fn three_digits(a: u8, b: u8, c: u8) -> Option<Figures>
    ensures { result ≡ figures_of false (a ∷ b ∷ c ∷ []) }
{
    if !((is_digit(a) & is_digit(b)) & is_digit(c)) {
        return None;
    }
    Some(Figures {
        units: ((a - 48) as u64 * 10 + (b - 48) as u64) * 10 + (c - 48) as u64,
        places: 0,
    })
}

// Reads three columns that blanks may pad on the left.
fn three_columns(a: u8, b: u8, c: u8) -> Option<Figures>
    ensures { result ≡ padded_of (a ∷ b ∷ c ∷ []) }
{
    if a == BLANK {
        return two_columns(b, c);
    }
    three_digits(a, b, c)
}

// Reads the parts of an angle, byte by byte: in so few columns a walk costs more than the digits.
fn parts_in(s: &[u8]) -> Parts
    requires { length s.now ≡ 12 }
    ensures { result ≡ parts_of s.now }
{
    let degrees = three_columns(s[0], s[1], s[2]);
    let minutes = two_columns(s[3], s[4]);
    let seconds = two_columns(s[5], s[6]);
    let thousandths = three_digits(s[8], s[9], s[10]);
    Parts {
        degrees,
        minutes,
        seconds,
        thousandths,
    }
}

// Whether all parts are there, the point and the letter.
fn is_spelled(axis: Axis, p: Parts, point: u8, last: u8) -> bool
    ensures { result ≡ is_spelled axis p point last }
{
    let degrees = p.degrees;
    let minutes = p.minutes;
    let seconds = p.seconds;
    let thousandths = p.thousandths;
    let whole = is_number(degrees) & is_number(minutes);
    let broken = is_number(seconds) & is_number(thousandths);
    let lettered = (last == axes::letter(axis, false)) | (last == axes::letter(axis, true));
    (whole & broken) & ((point == POINT) & lettered)
}

// The angle that the parts make.
fn judged(axis: Axis, minus: bool, p: Parts) -> Result<Value, Unread>
    requires { (units_of p.degrees < 1000) × (units_of p.thousandths < 1000) }
    ensures { result ≡ angled_of axis minus p }
{
    let d = p.degrees;
    let m = p.minutes;
    let s = p.seconds;
    let t = p.thousandths;
    let minutes = units(m);
    let seconds = units(s);
    if 60 <= minutes {
        return Err(Unread::OutOfRange);
    }
    if 60 <= seconds {
        return Err(Unread::OutOfRange);
    }
    let n = ((units(d) * 60 + minutes) * 60 + seconds) * 1000 + units(t);
    if axes::bound(axis) < n {
        return Err(Unread::OutOfRange);
    }
    Ok(Value::Angle(signs::signed(minus, n)))
}

// What columns hold that are no angle.
fn unspelled(s: &[u8]) -> Result<Value, Unread>
    ensures { result ≡ cond (eqb (blanks s.now) (length s.now)) (Ok Absent) (Err Unread.Malformed) }
{
    if digits::padding(s) == s.len() {
        return Ok(Value::Absent);
    }
    Err(Unread::Malformed)
}

// Reads the angle that fills s; whether it is blank is asked only where there is none.
pub fn read_angle(s: &[u8], axis: Axis) -> Result<Value, Unread>
    ensures { result ≡ angle_of axis s.now }
{
    if s.len() != WIDTH {
        return unspelled(s);
    }
    let p = parts_in(s);
    let last = s[LAST];
    if !is_spelled(axis, p, s[7], last) {
        return unspelled(s);
    }
    judged(axis, last == axes::letter(axis, true), p)
}
