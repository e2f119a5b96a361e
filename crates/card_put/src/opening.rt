// A new card: its code, its label and blanks.
ghost use Rattle.std.specs.Prelude.{◌≡◌, ◌++◌, [], ◌≤◌, length, drop};
ghost use Rattle.format_layout.specs.Layouts.{label_of};
ghost use Rattle.card_put.specs.opening.Opening.{labelled, new_card, opened_of, opened_card};

use base_digits::filling;
use base_refusal::{EMPTY, ODD_LENGTH, Refusal, UNKNOWN, refuse};
use format_code::Code;
use format_layout::{CARD, CODE, label};

// Writes a code to the front of a card.
fn lay_code(card: &mut [u8], code: &[u8])
    requires { length code.now ≤ length card.old }
    ensures { card.new ≡ code.now ++ drop (length code.now) card.old }
{
    // A copy of slices would want memmove of the C library.
    for (i, b) in code.iter().enumerate() {
        card[i] = *b;
    }
}

// Writes a layout's label, and blanks behind it.
fn lay_label(columns: &mut [u8], layout: usize)
    requires { length (label_of layout) ≤ length columns.old }
    ensures { columns.new ≡ labelled (label_of layout) (length columns.old) }
{
    for (i, column) in columns.iter_mut().enumerate() {
        *column = label::label_byte(layout, i);
    }
}

// Writes a new card of a read code.
fn lay_read(card: &mut [u8], code: &[u8], layout: usize)
    requires { (length card.old ≡ 80) × (length code.now ≡ 5) }
    ensures { card.new ≡ new_card code.now (label_of layout) }
{
    lay_code(card, code);
    lay_label(&mut card[CODE..], layout);
}

// Writes a new card of a passed code.
fn lay_passed(card: &mut [u8], code: &[u8])
    requires { (length card.old ≡ 80) × (length code.now ≡ 5) }
    ensures { card.new ≡ new_card code.now [] }
{
    lay_code(card, code);
    filling::fill_blanks(&mut card[CODE..]);
}

// Opens a card: its code, the label of a read code, and blanks, whatever stood there.
pub fn open(card: &mut [u8], code: &[u8]) -> Result<(), Refusal>
    ensures answer { result ≡ opened_of code.now (length card.old) }
    ensures card { card.new ≡ opened_card code.now card.old }
{
    if card.len() == 0 {
        return Err(refuse(EMPTY, 0, 0));
    }
    if card.len() != CARD {
        return Err(refuse(ODD_LENGTH, 0, 0));
    }
    let known = format_code::code_of(code);
    match known {
        Code::Unknown => Err(refuse(UNKNOWN, 1, 1)),
        Code::Passed => {
            lay_passed(card, code);
            Ok(())
        }
        Code::Read(k) => {
            lay_read(card, code, k);
            Ok(())
        }
    }
}
