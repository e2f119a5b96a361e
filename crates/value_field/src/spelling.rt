// One field's columns: what stands there, by each of the paper's spellings.
ghost use Rattle.std.specs.Prelude.{◌≡◌};
ghost use Rattle.value_field.specs.spelling.Reading.{text_reading, number_in, pushed_left, whole_reading, reading_of, misplaced_in, text_read};

use base_value::{Columns, Unread, Value};
use value_coordinate::axes::Axis;
use value_coordinate::{angle, grid};
use value_number::number;
use value_text::text;

// How a field is spelled. A comment's text may begin with blanks; Y is a latitude in form 0 and a northing in
// form 1, X a longitude and an easting. So columns are read without looking elsewhere, and no form can be guessed.
#[derive(Clone, Copy)]
pub enum Spelling {
    Text,
    Comment,
    Whole,
    Decimal,
    Date,
    Latitude,
    Longitude,
    Northing,
    Easting,
}

// Reads a text; lead says whether it may begin with a blank.
#[tactic(auto, unfolding(crate::specs::spelling::Reading::text_reading))]
fn text_in(s: &[u8], lead: bool) -> Result<Value, Unread>
    ensures { result ≡ text_reading lead s.now }
{
    let last = text::text_end(s);
    if last == 0 {
        return Ok(Value::Absent);
    }
    if lead | !text::begins_blank(s) {
        return Ok(Value::Text(Columns { first: 1, last }));
    }
    Err(Unread::Malformed)
}

// Reads a number, which blanks may follow; pointed says whether a point may stand in it.
#[tactic(auto, unfolding(crate::specs::spelling::Reading::number_in))]
fn number_in(s: &[u8], pointed: bool) -> Result<Value, Unread>
    ensures { result ≡ number_in pointed s.now }
{
    number::read_number(text::stretch(s), pointed)
}

// Whether blanks follow what stands in some columns.
#[tactic(auto, unfolding(crate::specs::spelling::Reading::pushed_left))]
pub fn pushed_left(s: &[u8]) -> bool
    ensures { result ≡ pushed_left s.now }
{
    let end = text::text_end(s);
    0 < end && end < s.len()
}

// A number as a whole number; what is no number stays as it is.
#[tactic(auto, unfolding(crate::specs::spelling::Reading::whole_reading))]
fn whole_of(r: Result<Value, Unread>) -> Result<Value, Unread>
    ensures { result ≡ whole_reading r }
{
    match r {
        Ok(Value::Decimal(d)) => Ok(Value::Whole(d.units)),
        _ => r,
    }
}

// Reads what stands in a field's columns.
#[tactic(auto, unfolding(crate::specs::spelling::Reading::reading_of))]
pub fn read(s: &[u8], spelling: Spelling) -> Result<Value, Unread>
    ensures { result ≡ reading_of spelling s.now }
{
    match spelling {
        Spelling::Text => text_in(s, false),
        Spelling::Comment => text_in(s, true),
        Spelling::Whole => whole_of(number_in(s, false)),
        Spelling::Decimal => number_in(s, true),
        Spelling::Date => value_date::read_date(s),
        Spelling::Latitude => angle::read_angle(s, Axis::Y),
        Spelling::Longitude => angle::read_angle(s, Axis::X),
        Spelling::Northing => grid::read_grid(s, Axis::Y),
        Spelling::Easting => grid::read_grid(s, Axis::X),
    }
}

// Whether a field's columns hold a number that is misplaced.
#[tactic(auto, unfolding(crate::specs::spelling::Reading::misplaced_in))]
pub fn is_misplaced(s: &[u8], spelling: Spelling) -> bool
    ensures { result ≡ misplaced_in spelling s.now }
{
    matches!(spelling, Spelling::Whole | Spelling::Decimal) && pushed_left(s)
}

// The text in a field's columns as the caller's own memory, empty where there is none.
#[tactic(auto, unfolding(crate::specs::spelling::Reading::text_read, crate::specs::spelling::Reading::is_text))]
pub fn text_of(s: &[u8], spelling: Spelling) -> &[u8]
    ensures { result.now ≡ text_read spelling s.now }
{
    if matches!(read(s, spelling), Ok(Value::Text(_))) {
        return text::stretch(s);
    }
    &s[..0]
}
