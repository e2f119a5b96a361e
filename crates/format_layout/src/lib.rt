// The layout table: what a field is, and the row of each field of each code.
#![tactic(auto)]

pub mod fields;
pub mod label;
pub mod names;
pub mod ranges;
mod rows;

ghost use Rattle.std.specs.Prelude.{◌≡◌};
ghost use Rattle.format_layout.specs.Forms.{is_grid, form_numbered};

pub use rows::row_of;

// The columns of a card and of its code, what stands in a column that holds nothing, and the most cards of a header.
pub const CARD: usize = 80;

pub const CODE: usize = 5;

pub const BLANK: u8 = b' ';

pub const CARDS: usize = 4096;

// The most cards that a diskette file and the crew's programs take.
pub const FEW_CARDS: usize = 800;

// How a field is spelled. A comment is a text that may begin with blanks.
#[derive(Clone, Copy)]
pub enum Kind {
    Text,
    Comment,
    Whole,
    Decimal,
    Date,
    Latitude,
    Longitude,
}

// The values that a whole number may have: any; from a number up; from one to another; one of three.
#[derive(Clone, Copy)]
pub enum Range {
    Any,
    AtLeast(u64),
    Between(u64, u64),
    OneOf(u64, u64, u64),
}

// A field: its columns count from 1. One of a second set is needed only where that set is present.
#[derive(Clone, Copy)]
pub struct Field {
    pub kind: Kind,
    pub first: usize,
    pub last: usize,
    pub needed: bool,
    pub second: bool,
    pub range: Range,
}

// How a card's coordinates are spelled: form 0, form 1, or it cannot be known.
#[derive(Clone, Copy)]
pub enum Form {
    Angles,
    Grid,
    Unknown,
}

// Whether coordinates are spelled in form 1.
pub fn is_grid(form: Form) -> bool
    ensures { result ≡ is_grid form }
{
    matches!(form, Form::Grid)
}

// The form that a caller's number names.
#[tactic(auto, unfolding(crate::specs::Forms::form_numbered))]
pub fn form_numbered(form: usize) -> Form
    ensures { result ≡ form_numbered form }
{
    match form {
        0 => Form::Angles,
        1 => Form::Grid,
        _ => Form::Unknown,
    }
}
