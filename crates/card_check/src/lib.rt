// One card judged by itself: its first offence and where it stands.
#![tactic(auto)]

pub mod offences;

ghost use Rattle.std.specs.Prelude.{◌≡◌, ◌≤◌, ◌<◌, ◌-◌, ◌+◌, length, T, ltb, MatchOption};
ghost use Rattle.base_lists.specs.Count.{first_from};
ghost use Rattle.format_layout.specs.Layouts.{label_of, fields_of};
ghost use Rattle.format_layout.specs.packed.Rows.{unpack};
ghost use Rattle.format_layout.specs.Columns.{width, wide_as};
ghost use Rattle.format_layout.specs.Forms.{is_open};
ghost use Rattle.card_check.specs.Judging.{is_coordinate, field_offence, filled_at, gap_offence, column_offence, next_verdict, label_stands, offence_at, verdict_from, code_verdict, verdict_of};

use base_refusal::{EMPTY, MISLABELLED, ODD_LENGTH, STRAY, UNKNOWN, UNPRINTABLE};
use format_code::Code;
use format_layout::{BLANK, CARD, CODE, Form, Kind, fields, label};
use value_text::printable;

// A card's first offence: its number, and the column where it stands, 0 for that of a length.
#[derive(Clone, Copy, Debug, PartialEq, Eq)]
pub struct Offence {
    pub number: usize,
    pub column: usize,
}

fn is_coordinate(kind: Kind) -> bool
    ensures { result ≡ is_coordinate kind }
{
    matches!(kind, Kind::Latitude | Kind::Longitude)
}

fn is_open(form: Form) -> bool
    ensures { result ≡ is_open form }
{
    matches!(form, Form::Unknown)
}

// The number of a field's offence on a card, 0 for none; none of a coordinate whose form is not known, which is asked only where
// there is an offence.
#[tactic(auto, unfolding(crate::specs::Judging::field_offence))]
fn field_offence(card: &[u8], layout: usize, row: u64, form: Form) -> usize
    requires { (length card.now ≡ 80) × (1 ≤ (unpack row).first) × ((unpack row).first ≤ (unpack row).last) × ((unpack row).last ≤ 80)
        × T (wide_as (unpack row).kind (width (unpack row))) }
    ensures { result ≡ field_offence layout form card.now (unpack row) }
{
    let number = offences::offence(card, layout, row, form);
    if number == 0 {
        return 0;
    }
    if is_open(form) & is_coordinate(fields::kind_of(row)) {
        return 0;
    }
    number
}

// The first column that is not blank, from one up to but not with another, if there is one.
fn first_filled(card: &[u8], from: usize, to: usize) -> Option<usize>
    requires { (length card.now ≡ 80) × (1 ≤ from) × (from ≤ to) × (to ≤ 81) }
    ensures { MatchOption result (first_from (filled_at card.now) (to - from) from ≡ to)
        (λ c. (first_from (filled_at card.now) (to - from) from ≡ c) × (c < to)) }
{
    for column in from..to {
        if card[column - 1] != BLANK {
            return Some(column);
        }
    }
    None
}

// Whether all columns from one on are blank: none ends the loop early, so that it takes many at a time.
fn is_blank(card: &[u8], from: usize) -> bool
    requires { (length card.now ≡ 80) × (1 ≤ from) × (from ≤ 81) }
    ensures { result ≡ ltb 80 (first_from (filled_at card.now) (81 - from) from) }
{
    let mut blank = true;
    for b in &card[from - 1..] {
        blank &= *b == BLANK;
    }
    blank
}

// Whether a layout's label stands in its columns.
fn label_stands(card: &[u8], layout: usize) -> bool
    requires { (length card.now ≡ 80) × (length (label_of layout) ≤ 75) }
    ensures { result ≡ label_stands layout card.now }
{
    (0..label::label_length(layout)).all(|i| card[CODE + i] == label::label_byte(layout, i))
}

// The columns from one up to a field, and then the field.
fn judge_next(card: &[u8], layout: usize, row: u64, form: Form, from: usize) -> Result<(), Offence>
    requires { (length card.now ≡ 80) × (1 ≤ from) × (from ≤ (unpack row).first) × ((unpack row).first ≤ (unpack row).last) × ((unpack row).last ≤ 80)
        × T (wide_as (unpack row).kind (width (unpack row))) }
    ensures { result ≡ next_verdict layout form card.now (unpack row) from }
{
    let first = fields::first_of(row);
    if let Some(filled) = first_filled(card, from, first) {
        return Err(Offence {
            number: STRAY,
            column: filled,
        });
    }
    let number = field_offence(card, layout, row, form);
    if number == 0 {
        return Ok(());
    }
    Err(Offence {
        number: number,
        column: first,
    })
}

// The columns behind the last field.
fn judge_rest(card: &[u8], from: usize) -> Result<(), Offence>
    requires { (length card.now ≡ 80) × (1 ≤ from) × (from ≤ 81) }
    ensures { result ≡ verdict_from (gap_offence card.now) from }
{
    if is_blank(card, from) {
        return Ok(());
    }
    match first_filled(card, from, CARD + 1) {
        Some(column) => Err(Offence {
            number: STRAY,
            column,
        }),
        None => Ok(()),
    }
}

// The columns behind the label: field by field, each with the columns before it, and then the rest.
fn judge_columns(card: &[u8], layout: usize, form: Form, from: usize) -> Result<(), Offence>
    requires { (length card.now ≡ 80) × (from ≡ 6 + length (label_of layout)) }
    ensures { result ≡ verdict_from (column_offence layout form card.now (fields_of layout)) from }
{
    let mut column = from;
    // No layout has more fields than a card has columns.
    for number in 0..CARD {
        let row = format_layout::row_of(layout, number + 1);
        if row == 0 {
            break;
        }
        let next = judge_next(card, layout, row, form, column);
        let Ok(()) = next else {
            return next;
        };
        column = fields::last_of(row) + 1;
    }
    judge_rest(card, column)
}

// A card of a read code: its label, and then its columns.
fn judge_read(card: &[u8], layout: usize, form: Form) -> Result<(), Offence>
    requires { length card.now ≡ 80 }
    ensures { result ≡ verdict_from (offence_at layout form card.now) 6 }
{
    if !label_stands(card, layout) {
        return Err(Offence {
            number: MISLABELLED,
            column: 6,
        });
    }
    let from = 6 + label::label_length(layout);
    judge_columns(card, layout, form, from)
}

// A card of 80 printable columns by its code: the caller has found the code.
#[tactic(auto, unfolding(crate::specs::Judging::code_verdict))]
pub fn judge_by(card: &[u8], code: Code, form: Form) -> Result<(), Offence>
    requires { length card.now ≡ 80 }
    ensures { result ≡ code_verdict code form card.now }
{
    match code {
        Code::Unknown => Err(Offence {
            number: UNKNOWN,
            column: 1,
        }),
        Code::Passed => Ok(()),
        Code::Read(k) => judge_read(card, k, form),
    }
}

// A card by itself: its first offence and its column. Its place among other cards is not looked at.
#[tactic(auto, unfolding(crate::specs::Judging::verdict_of))]
pub fn judge_card(card: &[u8], form: Form) -> Result<(), Offence>
    ensures { result ≡ verdict_of card.now form }
{
    if card.is_empty() {
        return Err(Offence {
            number: EMPTY,
            column: 0,
        });
    }
    if card.len() != CARD {
        return Err(Offence {
            number: ODD_LENGTH,
            column: 0,
        });
    }
    let bad = printable::first_bad(card);
    if bad < CARD {
        return Err(Offence {
            number: UNPRINTABLE,
            column: bad + 1,
        });
    }
    let code = format_code::code_of(&card[..CODE]);
    judge_by(card, code, form)
}
