// The cards of a volume that are no header's, built whole: writing lays them into the buffer, and judging compares them with what
// stands there.
ghost use Rattle.std.specs.Prelude.{◌≡◌, ◌+◌, ◌≤◌, ◌<◌, ◌^◌, length};
ghost use Rattle.base_digits.specs.digits.Digits.{size};
ghost use Rattle.volume_form.specs.Moved.{laid_at};
ghost use Rattle.volume_form.specs.Spelled.{spelled};
ghost use Rattle.volume_form.specs.Rows.{row_of};
ghost use Rattle.volume_form.specs.Marked.{name_of, sequence_of, padded, entry_card, trailer_card};

use crate::{FIRST, Form, NAME, NAME_END, NUMBERS, SECOND, SEQUENCE, SEQUENCE_END, moving};
use base_digits::filling;
use format_layout::{BLANK, CARD, CODE};

// Lays a number into columns of a card.
fn lay_number(card: &mut [u8], at: usize, width: usize, n: u64)
    requires { (at + width ≤ length card.old) × (size n ≤ width) }
    ensures { card.new ≡ laid_at card.old at (spelled width n) }
{
    let digits = filling::size_of(n);
    let from = at + (width - digits);
    let to = at + width;
    moving::blank(card, at, from);
    filling::fill_digits(&mut card[from..to], n);
}

// A blank card with a code.
fn coded(code: [u8; CODE]) -> [u8; CARD]
    ensures { result ≡ padded code }
{
    let mut card = [BLANK; CARD];
    moving::lay(&mut card, 0, &code);
    card
}

// The card with a header's name and sequence number.
fn named(mut card: [u8; CARD], header: &[u8]) -> [u8; CARD]
    requires { 80 ≤ length header.now }
    ensures { result ≡ laid_at (laid_at card 6 (name_of header.now)) 23 (sequence_of header.now) }
{
    moving::lay(&mut card, FIRST, &header[NAME..NAME_END]);
    moving::lay(&mut card, SECOND, &header[SEQUENCE..SEQUENCE_END]);
    card
}

// The card with two numbers from a column on, a blank between them.
fn numbered(mut card: [u8; CARD], from: usize, width: usize, at: u64, n: u64) -> [u8; CARD]
    requires { (from ≤ 28) × (width ≤ 5) × (size at ≤ width) × (size n ≤ width) }
    ensures { result ≡ laid_at (laid_at card from (spelled width at)) (from + width + 1) (spelled width n) }
{
    lay_number(&mut card, from, width, at);
    lay_number(&mut card, from + width + 1, width, n);
    card
}

// The directory card of a header whose first card is the card `at` of the volume.
pub fn entry_card(form: Form, header: &[u8], at: u64, n: u64) -> [u8; CARD]
    requires { (80 ≤ length header.now) × (at < 10 ^ (row_of form).width) × (n < 10 ^ (row_of form).width) }
    ensures { result ≡ entry_card (row_of form) header.now at n }
{
    let width = crate::width_of(form);
    let card = coded(crate::entry_code(form));
    numbered(named(card, header), NUMBERS, width, at, n)
}

// The trailer of a volume whose first directory card is the card `at`.
pub fn trailer_card(form: Form, at: u64, n: u64) -> [u8; CARD]
    requires { (at < 10 ^ (row_of form).width) × (n < 10 ^ (row_of form).width) }
    ensures { result ≡ trailer_card (row_of form) at n }
{
    let width = crate::width_of(form);
    let card = coded(crate::trailer_code(form));
    numbered(card, FIRST, width, at, n)
}
