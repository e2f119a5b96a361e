// A card's field found by its number: length, bytes and code of the card come first.
ghost use Rattle.std.specs.Prelude.{◌≡◌};
ghost use Rattle.format_layout.specs.Layouts.{field_of};
ghost use Rattle.card_field.specs.seeking.Card.{under_form, sought_of, way_for};

use base_refusal::{EMPTY, NO_SUCH, ODD_LENGTH, OUTSIDE, Refusal, UNKNOWN, UNPRINTABLE, refuse};
use format_code::Code;
use format_layout::{CARD, CODE};
use value_text::printable;

// A field that was found: its layout, and the row that holds it, one number, so that no field is copied on the way.
#[derive(Clone, Copy)]
pub struct FieldRow {
    pub layout: usize,
    pub row: u64,
}

// The field with a number in a layout, under a form.
fn under_form(layout: usize, number: usize, form: usize) -> Result<FieldRow, Refusal>
    ensures { result ≡ way_for number (under_form layout form (field_of layout number)) }
{
    if number == 0 {
        return Err(refuse(NO_SUCH, 0, 0));
    }
    let row = format_layout::row_of(layout, number);
    if row == 0 {
        return Err(refuse(NO_SUCH, 0, 0));
    }
    if 1 < form {
        return Err(refuse(OUTSIDE, 0, 0));
    }
    Ok(FieldRow { layout, row })
}

// The field with a number on a card, or the first refusal on the way to it.
pub fn seek(card: &[u8], number: usize, form: usize) -> Result<FieldRow, Refusal>
    ensures { result ≡ way_for number (sought_of card.now number form) }
{
    if card.len() == 0 {
        return Err(refuse(EMPTY, 0, 0));
    }
    if card.len() != CARD {
        return Err(refuse(ODD_LENGTH, 0, 0));
    }
    let bad = printable::first_bad(card);
    if bad < CARD {
        return Err(refuse(UNPRINTABLE, 1, bad + 1));
    }
    let code = format_code::code_of(&card[..CODE]);
    match code {
        Code::Unknown => Err(refuse(UNKNOWN, 1, 1)),
        Code::Passed => Err(refuse(NO_SUCH, 0, 0)),
        Code::Read(k) => under_form(k, number, form),
    }
}
