// Entering a value or a text into a field of a card: into its columns alone, or not at all.
#![tactic(auto)]

pub mod opening;

ghost use Rattle.std.specs.Prelude.{◌≡◌, ◌≤◌, ◌-◌, length, [], T};
ghost use Rattle.format_layout.specs.Columns.{ranged};
ghost use Rattle.format_layout.specs.packed.Rows.{unpack};
ghost use Rattle.card_field.specs.judging.Fields.{spelling_of};
ghost use Rattle.value_field.specs.writing.Writing.{entry_of, text_entry_of};
ghost use Rattle.card_put.specs.Putting.{came_of, answer_of, left_by, is_absent, within, by_entry, value_put, putting_of, putting_text_of};
ghost use Rattle.format_layout.specs.Columns.{width};

use base_refusal::{
    MALFORMED, MISSING, NO_ROOM, OTHER_KIND, OUTSIDE, Refusal, UNPRINTABLE, Unwritten, refuse,
};
use base_value::Value;
use card_field::{judging, needing, seeking};
use format_layout::{Form, fields, ranges};
use value_field::writing;

// What came of writing a field's columns, as the answer for its card.
#[tactic(auto, unfolding(crate::specs::Putting::came_of))]
fn answer_for(written: Result<(), Unwritten>) -> Result<(), Refusal>
    ensures { result ≡ answer_of (came_of [] written) }
{
    match written {
        Ok(()) => Ok(()),
        Err(Unwritten::Unprintable) => Err(refuse(UNPRINTABLE, 1, 0)),
        Err(Unwritten::Malformed) => Err(refuse(MALFORMED, 1, 0)),
        Err(Unwritten::OutOfRange) => Err(refuse(OUTSIDE, 1, 0)),
        Err(Unwritten::OtherKind) => Err(refuse(OTHER_KIND, 1, 0)),
        Err(Unwritten::NoRoom) => Err(refuse(NO_ROOM, 1, 0)),
    }
}

// Whether a value is none.
fn is_absent(v: Value) -> bool
    ensures { result ≡ is_absent v }
{
    matches!(v, Value::Absent)
}

// Whether a value lies in its field's range.
fn is_within(row: u64, v: Value) -> bool
    ensures { result ≡ within (unpack row) v }
{
    match v {
        Value::Whole(z) => ranges::in_range(fields::range_of(row), z),
        _ => true,
    }
}

// Writes a value into its field's columns.
fn write_value(card: &mut [u8], row: u64, form: Form, v: Value) -> Result<(), Refusal>
    requires { (1 ≤ (unpack row).first) × ((unpack row).first ≤ (unpack row).last) × ((unpack row).last ≤ length card.old) }
    ensures answer { result ≡ answer_of (by_entry (unpack row) card.old (entry_of (spelling_of (unpack row).kind form) (width (unpack row)) v)) }
    ensures card { card.new ≡ left_by (by_entry (unpack row) card.old (entry_of (spelling_of (unpack row).kind form) (width (unpack row)) v)) card.old }
{
    let at = fields::first_of(row) - 1;
    let last = fields::last_of(row);
    let spelling = judging::spelling_of(fields::kind_of(row), form);
    answer_for(writing::write(&mut card[at..last], spelling, v))
}

// Writes a text into its field's columns. What is written is lent a part of the card, so no closure stands for the two.
fn write_text(card: &mut [u8], row: u64, form: Form, text: &[u8]) -> Result<(), Refusal>
    requires { (1 ≤ (unpack row).first) × ((unpack row).first ≤ (unpack row).last) × ((unpack row).last ≤ length card.old) }
    ensures answer { result ≡ answer_of (by_entry (unpack row) card.old (text_entry_of (spelling_of (unpack row).kind form) (width (unpack row)) text.now)) }
    ensures card { card.new ≡ left_by (by_entry (unpack row) card.old (text_entry_of (spelling_of (unpack row).kind form) (width (unpack row)) text.now)) card.old }
{
    let at = fields::first_of(row) - 1;
    let last = fields::last_of(row);
    let spelling = judging::spelling_of(fields::kind_of(row), form);
    answer_for(writing::write_text(&mut card[at..last], spelling, text))
}

// Enters a value into a field that was found.
fn enter(
    card: &mut [u8],
    layout: usize,
    number: usize,
    row: u64,
    form: Form,
    v: Value,
) -> Result<(), Refusal>
    requires { (length card.old ≡ 80) × (1 ≤ (unpack row).first) × ((unpack row).first ≤ (unpack row).last) × ((unpack row).last ≤ 80)
        × T (ranged (unpack row).kind (unpack row).range) }
    ensures answer { result ≡ answer_of (value_put layout card.old number (unpack row) form v) }
    ensures card { card.new ≡ left_by (value_put layout card.old number (unpack row) form v) card.old }
{
    if !is_within(row, v) {
        return Err(refuse(OUTSIDE, 1, 0));
    }
    if is_absent(v) & needing::needed_after(card, layout, number, row) {
        return Err(refuse(MISSING, 1, fields::first_of(row)));
    }
    write_value(card, row, form, v)
}

// Puts a value into the field with a number of a card, its coordinates in the form that is given.
pub fn put(card: &mut [u8], number: usize, form: usize, v: Value) -> Result<(), Refusal>
    ensures answer { result ≡ answer_of (putting_of card.old number form v) }
    ensures card { card.new ≡ left_by (putting_of card.old number form v) card.old }
{
    let found = seeking::seek(card, number, form)?;
    enter(
        card,
        found.layout,
        number,
        found.row,
        format_layout::form_numbered(form),
        v,
    )
}

// Puts a text into the field with a number of a card.
pub fn put_text(card: &mut [u8], number: usize, form: usize, text: &[u8]) -> Result<(), Refusal>
    ensures answer { result ≡ answer_of (putting_text_of card.old number form text.now) }
    ensures card { card.new ≡ left_by (putting_text_of card.old number form text.now) card.old }
{
    let found = seeking::seek(card, number, form)?;
    write_text(card, found.row, format_layout::form_numbered(form), text)
}
