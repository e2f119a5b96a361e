// The labels that stand in columns 6 and on of the opening cards. The check compares all of them with the specification.
ghost use Rattle.std.specs.Prelude.{◌≡◌, length, get_or};
ghost use Rattle.format_layout.specs.Layouts.{label_of};
ghost use Rattle.format_layout.specs.packed.Rows.{label_row};

use crate::BLANK;

// The columns of the longest label.
const LABEL: usize = 23;

// A label with the blanks behind it, and how many columns it fills.
#[derive(Clone, Copy)]
struct Label {
    text: [u8; LABEL],
    width: usize,
}

fn words(text: [u8; LABEL], width: usize) -> Label
    ensures { (result.text ≡ text) × (result.width ≡ width) }
{
    Label { text, width }
}

// A layout's label, a line each.
fn label_row(layout: usize) -> Label
    ensures { (result.text ≡ label_row layout) × (result.width ≡ length (label_of layout)) }
{
    match layout {
        0 => words(*b"Line Name:             ", 10),
        1 => words(*b"Project Name:          ", 13),
        2 => words(*b"Project Description:   ", 20),
        3 => words(*b"Media Specification:   ", 20),
        4 => words(*b"Client:                ", 7),
        5 => words(*b"Geophysical Contractor:", 23),
        6 => words(*b"Positioning Contractor:", 23),
        7 => words(*b"Processing Contractor: ", 22),
        8 => words(*b"Line Parameters Vessel:", 23),
        _ => words([BLANK; LABEL], 0),
    }
}

// How many columns, from 6 on, a layout's label fills; 0 where it has none.
pub fn label_length(layout: usize) -> usize
    ensures { result ≡ length (label_of layout) }
{
    label_row(layout).width
}

// What a new card has in column 6 + place: the label's byte, and a blank past the label.
pub fn label_byte(layout: usize, place: usize) -> u8
    ensures { result ≡ get_or (label_of layout) place 32 }
{
    if LABEL <= place {
        return BLANK;
    }
    label_row(layout).text[place]
}
