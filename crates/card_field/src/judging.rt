// One field of a card, judged: its columns read by its spelling, and held against its need and its range.
ghost use Rattle.std.specs.Prelude.{◌≡◌, ◌≤◌, length};
ghost use Rattle.format_layout.specs.packed.Rows.{unpack};
ghost use Rattle.card_field.specs.needing.Needs.{needed_on};
ghost use Rattle.card_field.specs.judging.Fields.{spelling_of, text_last, read_last, value_of, held_of, judged_of, misplaced_on};

use crate::needing;
use base_refusal::{MALFORMED, MISSING, OUTSIDE};
use base_value::{Columns, Unread, Value};
use format_layout::{Form, Kind, fields, ranges};
use value_field::spelling;
use value_field::spelling::Spelling;

// The spelling of a kind in a form.
#[tactic(auto, unfolding(crate::specs::judging::Fields::spelling_of))]
pub fn spelling_of(kind: Kind, form: Form) -> Spelling
    ensures { result ≡ spelling_of kind form }
{
    match kind {
        Kind::Text => Spelling::Text,
        Kind::Comment => Spelling::Comment,
        Kind::Whole => Spelling::Whole,
        Kind::Decimal => Spelling::Decimal,
        Kind::Date => Spelling::Date,
        Kind::Latitude if format_layout::is_grid(form) => Spelling::Northing,
        Kind::Latitude => Spelling::Latitude,
        Kind::Longitude if format_layout::is_grid(form) => Spelling::Easting,
        Kind::Longitude => Spelling::Longitude,
    }
}

// A value held against its field's need and range; only of one that is absent is it asked whether it is needed.
fn value_of(card: &[u8], layout: usize, row: u64, v: Value) -> Result<Value, usize>
    requires { (length card.now ≡ 80) × (1 ≤ (unpack row).first) × ((unpack row).first ≤ 80) × (text_last v ≤ 80) }
    ensures { result ≡ value_of (needed_on layout card.now (unpack row)) (unpack row) v }
{
    match v {
        Value::Absent => {
            if needing::needed_on(card, layout, row) {
                return Err(MISSING);
            }
            Ok(Value::Absent)
        }
        Value::Whole(z) => {
            if ranges::in_range(fields::range_of(row), z) {
                return Ok(Value::Whole(z));
            }
            Err(OUTSIDE)
        }
        Value::Decimal(d) => Ok(Value::Decimal(d)),
        Value::Angle(z) => Ok(Value::Angle(z)),
        Value::Date(d) => Ok(Value::Date(d)),
        Value::Text(c) => {
            let first = fields::first_of(row);
            let last = first - 1 + c.last;
            Ok(Value::Text(Columns { first, last }))
        }
    }
}

// A reading held against its field's need and range.
#[tactic(auto, unfolding(crate::specs::judging::Fields::held_of))]
fn held_of(card: &[u8], layout: usize, row: u64, r: Result<Value, Unread>) -> Result<Value, usize>
    requires { (length card.now ≡ 80) × (1 ≤ (unpack row).first) × ((unpack row).first ≤ 80) × (read_last r ≤ 80) }
    ensures { result ≡ held_of (needed_on layout card.now (unpack row)) (unpack row) r }
{
    match r {
        Ok(v) => value_of(card, layout, row, v),
        Err(Unread::Malformed) => Err(MALFORMED),
        Err(Unread::OutOfRange) => Err(OUTSIDE),
    }
}

// What the field that a row holds says on a card, or the number of its offence.
pub fn judge(card: &[u8], layout: usize, row: u64, form: Form) -> Result<Value, usize>
    requires { (length card.now ≡ 80) × (1 ≤ (unpack row).first) × ((unpack row).first ≤ (unpack row).last) × ((unpack row).last ≤ 80) }
    ensures { result ≡ judged_of layout card.now (unpack row) form }
{
    let columns = needing::columns(card, fields::first_of(row), fields::last_of(row));
    let reading = spelling::read(columns, spelling_of(fields::kind_of(row), form));
    held_of(card, layout, row, reading)
}

// Whether the field that a row holds has a misplaced number on a card.
pub fn is_misplaced(card: &[u8], row: u64, form: Form) -> bool
    requires { (length card.now ≡ 80) × (1 ≤ (unpack row).first) × ((unpack row).first ≤ (unpack row).last) × ((unpack row).last ≤ 80) }
    ensures { result ≡ misplaced_on card.now (unpack row) form }
{
    let columns = needing::columns(card, fields::first_of(row), fields::last_of(row));
    spelling::is_misplaced(columns, spelling_of(fields::kind_of(row), form))
}
