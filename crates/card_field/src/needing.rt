// Whether a field of a card is needed: one of a second set is where that set is present.
ghost use Rattle.std.specs.Prelude.{◌≡◌, ◌≤◌, ◌-◌, length, take, drop};
ghost use Rattle.format_layout.specs.Layouts.{fields_of, field_of};
ghost use Rattle.format_layout.specs.packed.Rows.{unpack};
ghost use Rattle.card_field.specs.needing.Needs.{second_at, second_by, other_second, needed_on, needed_after};

use format_layout::{Field, fields};
use value_text::text;

// The columns of a field, as a part of the card.
pub fn columns(card: &[u8], first: usize, last: usize) -> &[u8]
    requires { (1 ≤ first) × (first ≤ last) × (last ≤ length card.now) }
    ensures { result.now ≡ take (last - (first - 1)) (drop (first - 1) card.now) }
{
    &card[first - 1..last]
}

// Whether a field belongs to the second set and is not blank.
#[tactic(auto, unfolding(crate::specs::needing::Needs::is_blank, crate::specs::needing::Needs::columns_of))]
fn second_at(card: &[u8], f: Field) -> bool
    requires { (1 ≤ f.first) × (f.first ≤ f.last) × (f.last ≤ length card.now) }
    ensures { result ≡ second_at card.now f }
{
    f.second && text::text_end(columns(card, f.first, f.last)) != 0
}

// The same of the field with a number; false where there is none.
fn second_by(card: &[u8], layout: usize, number: usize) -> bool
    requires { length card.now ≡ 80 }
    ensures { result ≡ second_by card.now (field_of layout number) }
{
    match fields::field_of(layout, number) {
        Some(f) => second_at(card, f),
        None => false,
    }
}

// Whether the second set has a field that is not blank, other than the one with a number: its own columns would be blank.
fn other_second(card: &[u8], layout: usize, number: usize) -> bool
    requires { length card.now ≡ 80 }
    ensures { result ≡ other_second card.now number 1 (fields_of layout) }
{
    (1..=fields::fields_in(layout)).any(|n| n != number && second_by(card, layout, n))
}

// Whether the field that a row holds, with its number, is needed on the card once it is blank.
#[tactic(auto, unfolding(crate::specs::needing::Needs::needed_after))]
pub fn needed_after(card: &[u8], layout: usize, number: usize, row: u64) -> bool
    requires { length card.now ≡ 80 }
    ensures { result ≡ needed_after layout card.now number (unpack row) }
{
    fields::is_needed(row) && (!fields::is_second(row) || other_second(card, layout, number))
}

// Whether it is needed on the card as it stands: no field has the number 0, so all columns count.
pub fn needed_on(card: &[u8], layout: usize, row: u64) -> bool
    requires { length card.now ≡ 80 }
    ensures { result ≡ needed_on layout card.now (unpack row) }
{
    needed_after(card, layout, 0, row)
}
