// The number of a field's offence, found without its value: what the judging of a whole card asks of each field.
ghost use Rattle.std.specs.Prelude.{◌≡◌, List, false, cond, ℕ, ◌+◌, ◌≤◌, T, length};
ghost use Rattle.value_text.specs.text.Texts.{text_of};
ghost use Rattle.value_field.specs.spelling.Reading.{text_reading, whole_reading, reading_of};
ghost use Rattle.base_digits.specs.digits.Figures.{limit};
ghost use Rattle.value_number.specs.number.Reading.{number_of as strict_of};
ghost use Rattle.value_number.specs.packed.Shapes.{size_of};
ghost use Rattle.format_layout.specs.ranges.Ranges.{in_range};
ghost use Rattle.format_layout.specs.packed.Rows.{unpack};
ghost use Rattle.format_layout.specs.Columns.{width, wide_as};
ghost use Rattle.card_field.specs.judging.Fields.{spelling_of, judged_of, number_of};
ghost use Rattle.card_check.specs.packed.Offences.{offence_in, coordinate_reading};
ghost use Rattle.base_value.specs.Reading.{offence_of};

use base_refusal::{MALFORMED, MISSING, OUTSIDE};
use base_value::{Unread, Value};
use card_field::needing;
use format_layout::{BLANK, Form, Kind, fields, ranges};
use value_coordinate::axes::Axis;
use value_coordinate::{angle, grid};
use value_number::shapes;
use value_text::text;

// No offence.
const FINE: usize = 0;

// The offence of a text that is needed; lead says whether it may begin with a blank.
#[tactic(auto, unfolding(value_field::specs::spelling::Reading::text_reading))]
fn text_offence(s: &[u8], lead: bool) -> usize
    requires { 1 ≤ length s.now }
    ensures { result ≡ offence_of (text_reading lead s.now) }
{
    if s[0] != BLANK {
        return FINE;
    }
    if text::text_end(s) == 0 {
        return MISSING;
    }
    if lead {
        return FINE;
    }
    MALFORMED
}

// The offence of a value that is there, by the range in its field's row.
fn range_offence(row: u64, value: i64) -> usize
    ensures { result ≡ cond (in_range (unpack row).range value) 0 10 }
{
    if ranges::in_range(fields::range_of(row), value) {
        return FINE;
    }
    OUTSIDE
}

// The offence of a whole number that is needed, by its size.
fn whole_offence(size: u64, row: u64) -> usize
    requires { size ≤ limit + 3 }
    ensures { (s : List ℕ) → size ≡ size_of (strict_of false s) → result ≡ offence_in (unpack row) (whole_reading (strict_of false s)) }
{
    if shapes::ZERO <= size {
        return range_offence(row, (size - shapes::ZERO) as i64);
    }
    if size == shapes::BLANK {
        return MISSING;
    }
    if size == shapes::ODD {
        return MALFORMED;
    }
    if size == shapes::LARGE {
        return OUTSIDE;
    }
    range_offence(row, -1)
}

// The offence of a field that is needed and has no range, by what its columns read as.
fn read_offence(read: Result<Value, Unread>) -> usize
    ensures { result ≡ offence_of read }
{
    match read {
        Err(Unread::Malformed) => MALFORMED,
        Err(Unread::OutOfRange) => OUTSIDE,
        Ok(Value::Absent) => MISSING,
        Ok(_) => FINE,
    }
}

// The offence of a coordinate that is needed, in a form.
fn coordinate_offence(s: &[u8], axis: Axis, form: Form) -> usize
    ensures { result ≡ offence_of (coordinate_reading axis form s.now) }
{
    if format_layout::is_grid(form) {
        return read_offence(grid::read_grid(s, axis));
    }
    read_offence(angle::read_angle(s, axis))
}

// The columns of a number without the blanks behind it: mostly there are none, which its last column tells.
fn number_in(s: &[u8]) -> &[u8]
    requires { 1 ≤ length s.now }
    ensures { result.now ≡ text_of s.now }
{
    if s[s.len() - 1] != BLANK {
        return s;
    }
    text::stretch(s)
}

// The offence of a field that is needed, by its columns and its row.
fn offence_in(s: &[u8], row: u64, form: Form) -> usize
    requires { (1 ≤ length s.now) × T (wide_as (unpack row).kind (length s.now)) }
    ensures { result ≡ offence_in (unpack row) (reading_of (spelling_of (unpack row).kind form) s.now) }
{
    match fields::kind_of(row) {
        Kind::Text => text_offence(s, false),
        Kind::Comment => text_offence(s, true),
        Kind::Whole => whole_offence(shapes::whole_size(number_in(s)), row),
        Kind::Decimal => shapes::decimal_shape(number_in(s)),
        Kind::Date => read_offence(value_date::read_date(s)),
        Kind::Latitude => coordinate_offence(s, Axis::Y, form),
        Kind::Longitude => coordinate_offence(s, Axis::X, form),
    }
}

// The number of the offence, on a card, of the field that a row holds, 0 for none.
pub fn offence(card: &[u8], layout: usize, row: u64, form: Form) -> usize
    requires { (length card.now ≡ 80) × (1 ≤ (unpack row).first) × ((unpack row).first ≤ (unpack row).last) × ((unpack row).last ≤ 80)
        × T (wide_as (unpack row).kind (width (unpack row))) }
    ensures { result ≡ number_of (judged_of layout card.now (unpack row) form) }
{
    let first = fields::first_of(row);
    let last = fields::last_of(row);
    let number = offence_in(&card[first - 1..last], row, form);
    if number != MISSING {
        return number;
    }
    if needing::needed_on(card, layout, row) {
        return MISSING;
    }
    FINE
}
