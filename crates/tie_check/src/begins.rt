// The columns of a card where a fault can stand: the last of its code, which can define a datum, and those where its fields begin.
ghost use Rattle.std.specs.Prelude.{◌≡◌, ◌≤◌, length, get_or};
ghost use Rattle.format_layout.specs.Layouts.{fields_of};
ghost use Rattle.card_screen.specs.Roles.{sure as is_sure_of};
ghost use Rattle.tie_rules.specs.Faults.{misplaced_among};
ghost use Rattle.tie_rules.specs.packed.Rows.{row_at};
ghost use Rattle.tie_check.specs.packed.Begins.{begins, walked, any_left};

use card_field::judging;
use format_layout::{CARD, Form, fields};
use tie_rules::{SLOTS, keys};

// The last column of a code.
const CODE_END: usize = 5;

// Such a column of a layout, by its number from 0; 0 behind the last.
fn column_at(layout: usize, i: usize) -> usize
    ensures { result ≡ get_or (begins layout) i 0 }
{
    if i == 0 {
        return CODE_END;
    }
    fields::first_of(format_layout::row_of(layout, i))
}

// Whether a misplaced number stands there.
fn left_at(card: &[u8], layout: usize, i: usize) -> bool
    requires { length card.now ≡ 80 }
    ensures { result ≡ misplaced_among (fields_of layout) card.now (get_or (begins layout) i 0) }
{
    if i == 0 {
        return false;
    }
    let row = format_layout::row_of(layout, i);
    row != 0 && judging::is_misplaced(card, row, Form::Angles)
}

// Whether a card has a misplaced number, field by field.
fn some_left(card: &[u8], layout: usize) -> bool
    requires { length card.now ≡ 80 }
    ensures { result ≡ any_left card.now (fields_of layout) }
{
    // A loop: only a row before the first 0 may be asked. No layout has more fields than a card has columns.
    for number in 0..CARD {
        let row = format_layout::row_of(layout, number + 1);
        if row == 0 {
            return false;
        }
        if judging::is_misplaced(card, row, Form::Angles) {
            return true;
        }
    }
    false
}

// Whether a card has a misplaced number at all: none that the screen is sure of has.
pub fn any_left(card: &[u8], layout: usize, sure: bool) -> bool
    requires { (length card.now ≡ 80) × (sure ≡ is_sure_of layout card.now) }
    ensures { result ≡ any_left card.now (fields_of layout) }
{
    !sure && some_left(card, layout)
}

// The row of a column in the table of ties: the column alone where it carries none.
fn row_for(layout: usize, column: usize) -> u64
    requires { column ≤ 80 }
    ensures { result ≡ row_at layout column }
{
    (0..SLOTS)
        .map(|slot| tie_rules::tie_of(layout, slot + 1))
        .find(|row| keys::column_of(*row) == column)
        .unwrap_or(column as u64)
}

// The row of a step of the walk over a card, by its number from 0: over all these columns if the card has a misplaced number, and
// only over those that can carry a tie if it has none. 0 behind the last.
pub fn step_of(left: bool, layout: usize, i: usize) -> u64
    requires { i ≤ 81 }
    ensures { result ≡ row_at layout (get_or (walked left layout) i 0) }
{
    if left {
        return row_for(layout, column_at(layout, i));
    }
    tie_rules::tie_of(layout, i + 1)
}

// Whether a misplaced number stands at a step: nowhere if the card has none.
pub fn step_left(left: bool, card: &[u8], layout: usize, i: usize) -> bool
    requires card_len { length card.now ≡ 80 }
    requires left_value { left ≡ any_left card.now (fields_of layout) }
    ensures { result ≡ misplaced_among (fields_of layout) card.now (get_or (walked left layout) i 0) }
{
    left && left_at(card, layout, i)
}
