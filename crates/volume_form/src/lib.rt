// The forms of a volume, one row of a table each, and the cards that are no header's.
#![tactic(auto)]

pub mod building;
pub mod moving;
pub mod reading;

ghost use Rattle.std.specs.Prelude.{◌≡◌, ◌≤◌};
ghost use Rattle.volume_form.specs.Rows.{row_of};

// The columns of a line's name and sequence number on its first card, from 0.
pub const NAME: usize = 28;

pub const NAME_END: usize = 44;

pub const SEQUENCE: usize = 45;

pub const SEQUENCE_END: usize = 49;

// Where the first field of a directory card or trailer begins, where a directory card has the sequence number, and where its numbers
// begin.
pub const FIRST: usize = 6;

pub const SECOND: usize = 23;

pub const NUMBERS: usize = 28;

// The forms of a volume.
#[derive(Clone, Copy)]
pub enum Form {
    Old,
    Wide,
}

// How many columns a number has.
pub fn width_of(form: Form) -> usize
    ensures width { result ≡ (row_of form).width }
    ensures within { (1 ≤ result) × (result ≤ 5) }
{
    match form {
        Form::Old => 3,
        Form::Wide => 5,
    }
}

// The most cards of a volume.
pub fn most_of(form: Form) -> usize
    ensures most { result ≡ (row_of form).most }
    ensures within { result ≤ 20000 }
{
    match form {
        Form::Old => 999,
        Form::Wide => 20000,
    }
}

// The most cards of a header in a volume.
pub fn largest_of(form: Form) -> usize
    ensures { result ≡ (row_of form).largest }
{
    match form {
        Form::Old => 800,
        Form::Wide => 4096,
    }
}

// The code of a directory card.
pub fn entry_code(form: Form) -> [u8; 5]
    ensures { result ≡ (row_of form).entry }
{
    match form {
        Form::Old => *b"X0001",
        Form::Wide => *b"X0011",
    }
}

// The code of the trailer.
pub fn trailer_code(form: Form) -> [u8; 5]
    ensures { result ≡ (row_of form).trailer }
{
    match form {
        Form::Old => *b"X0009",
        Form::Wide => *b"X0019",
    }
}

// The code of a directory card of the other form.
pub fn other_code(form: Form) -> [u8; 5]
    ensures { result ≡ (row_of form).other }
{
    match form {
        Form::Old => *b"X0011",
        Form::Wide => *b"X0001",
    }
}
