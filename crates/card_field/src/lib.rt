// One field of one card, read by its number: its value, or its text.
#![tactic(auto)]

pub mod judging;
pub mod needing;
pub mod seeking;

ghost use Rattle.std.specs.Prelude.{◌≡◌};
ghost use Rattle.format_layout.specs.packed.Rows.{unpack};
ghost use Rattle.card_field.specs.Reading.{answered_of, field_reading, holds_text, field_text};

use base_refusal::Refusal;
use base_value::Value;
use format_layout::fields;
use value_text::text;

// A field that was read: its value, and whether that is a misplaced number, one with blanks behind it.
#[derive(Clone, Copy)]
pub struct FieldRead {
    pub value: Value,
    pub misplaced: bool,
}

// The answer for the field that a row holds: its value, or its offence at its first column.
fn answered(row: u64, misplaced: bool, j: Result<Value, usize>) -> Result<FieldRead, Refusal>
    ensures { result ≡ answered_of (unpack row) misplaced j }
{
    match j {
        Ok(v) => Ok(FieldRead {
            value: v,
            misplaced,
        }),
        Err(number) => {
            let column = fields::first_of(row);
            Err(Refusal {
                number,
                card: 1,
                column,
            })
        }
    }
}

// Reads the field with a number of a card, its coordinates in the form that is given.
pub fn read_field(card: &[u8], number: usize, form: usize) -> Result<FieldRead, Refusal>
    ensures { result ≡ field_reading card.now number form }
{
    let found = seeking::seek(card, number, form)?;
    let form = format_layout::form_numbered(form);
    let misplaced = judging::is_misplaced(card, found.row, form);
    answered(
        found.row,
        misplaced,
        judging::judge(card, found.layout, found.row, form),
    )
}

// Whether a field says a text.
#[tactic(auto, unfolding(crate::specs::Reading::holds_text))]
fn holds_text(j: Result<Value, usize>) -> bool
    ensures { result ≡ holds_text j }
{
    matches!(j, Ok(Value::Text(_)))
}

// The text in the field with a number, as a part of the caller's own card; empty where there is none.
pub fn read_text(card: &[u8], number: usize, form: usize) -> &[u8]
    ensures { result.now ≡ field_text card.now number form }
{
    let Ok(found) = seeking::seek(card, number, form) else {
        return &card[..0];
    };
    if !holds_text(judging::judge(
        card,
        found.layout,
        found.row,
        format_layout::form_numbered(form),
    )) {
        return &card[..0];
    }
    let first = fields::first_of(found.row);
    let last = fields::last_of(found.row);
    text::stretch(needing::columns(card, first, last))
}
