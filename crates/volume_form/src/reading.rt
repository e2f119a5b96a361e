// What stands on a card, whatever stands there: numbers read leniently.
ghost use Rattle.std.specs.Prelude.{◌≡◌, ◌+◌, ◌-◌, ◌≤◌, length, take, drop};
ghost use Rattle.volume_form.specs.Spelled.{standing};
ghost use Rattle.volume_form.specs.Rows.{row_of};
ghost use Rattle.volume_form.specs.Marked.{count_on, start_on, first_on};

use crate::{FIRST, Form, NUMBERS};

// The number that stands in some columns; a byte below the digits counts as nothing.
fn standing_in(columns: &[u8]) -> u64
    requires { length columns.now ≤ 9 }
    ensures { result ≡ standing columns.now }
{
    let mut n = 0u64;
    for b in columns {
        n = 10 * n + u64::from(b.saturating_sub(b'0'));
    }
    n
}

// The number that stands on a card from a column on.
fn number_on(form: Form, card: &[u8], from: usize) -> u64
    requires { (length card.now ≡ 80) × (from ≤ 40) }
    ensures { result ≡ standing (take (row_of form).width (drop from card.now)) }
{
    let to = from + crate::width_of(form);
    standing_in(&card[from..to])
}

// The number of cards that stands on a directory card.
pub fn count_on(form: Form, card: &[u8]) -> u64
    requires { length card.now ≡ 80 }
    ensures { result ≡ count_on (row_of form) card.now }
{
    let from = NUMBERS + crate::width_of(form) + 1;
    number_on(form, card, from)
}

// The first card that stands on a directory card.
pub fn start_on(form: Form, card: &[u8]) -> u64
    requires { length card.now ≡ 80 }
    ensures { result ≡ start_on (row_of form) card.now }
{
    number_on(form, card, NUMBERS)
}

// The first directory card that stands on a trailer.
pub fn first_on(form: Form, card: &[u8]) -> u64
    requires { length card.now ≡ 80 }
    ensures { result ≡ first_on (row_of form) card.now }
{
    number_on(form, card, FIRST)
}
