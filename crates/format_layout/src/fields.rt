// The parts of a field's row, and the fields of a layout by their numbers. A field goes by its row, one number, so that none is
// made and copied on the way.
ghost use Rattle.std.specs.Prelude.{◌≡◌, length};
ghost use Rattle.format_layout.specs.Layouts.{fields_of, field_of};
ghost use Rattle.format_layout.specs.packed.Rows.{kind_of, range_of, unpack};

use crate::{Field, Kind, Range};

// The first column of the field that a row holds.
pub fn first_of(row: u64) -> usize
    ensures { result ≡ (unpack row).first }
{
    (row / 0x1_00 % 256) as usize
}

// Its last column.
pub fn last_of(row: u64) -> usize
    ensures { result ≡ (unpack row).last }
{
    (row % 256) as usize
}

// Whether it is needed.
pub fn is_needed(row: u64) -> bool
    ensures { result ≡ (unpack row).needed }
{
    row / 0x1_00_00 % 2 == 1
}

// Whether it belongs to a second set.
pub fn is_second(row: u64) -> bool
    ensures { result ≡ (unpack row).second }
{
    row / 0x2_00_00 % 2 == 1
}

fn kind_by(number: u64) -> Kind
    ensures { result ≡ kind_of number }
{
    match number {
        0xa => Kind::Text,
        0xc => Kind::Comment,
        1 => Kind::Whole,
        2 => Kind::Decimal,
        0xd => Kind::Date,
        0xe => Kind::Latitude,
        _ => Kind::Longitude,
    }
}

// How it is spelled.
pub fn kind_of(row: u64) -> Kind
    ensures { result ≡ (unpack row).kind }
{
    kind_by(row / 0x1_0_00_00 % 16)
}

fn range_by(number: u64) -> Range
    ensures { result ≡ range_of number }
{
    if number == 0 {
        return Range::Any;
    }
    let low = number / 0x1_000_000 % 0x1_000;
    let high = number / 0x1_000 % 0x1_000;
    let other = number % 0x1_000;
    match number / 0x1_000_000_000 {
        0 => Range::Any,
        1 => Range::AtLeast(low),
        2 => Range::Between(low, high),
        _ => Range::OneOf(low, high, other),
    }
}

// The values that it may have.
pub fn range_of(row: u64) -> Range
    ensures { result ≡ (unpack row).range }
{
    range_by(row / 0x1_0_0_00_00)
}

// The field that a row holds.
fn field_in(row: u64) -> Field
    ensures { result ≡ unpack row }
{
    Field {
        kind: kind_of(row),
        first: first_of(row),
        last: last_of(row),
        needed: is_needed(row),
        second: is_second(row),
        range: range_of(row),
    }
}

// The field with a number, counted from 1, of a layout.
pub fn field_of(layout: usize, number: usize) -> Option<Field>
    ensures { result ≡ field_of layout number }
{
    if number == 0 {
        return None;
    }
    let row = crate::row_of(layout, number);
    if row == 0 {
        return None;
    }
    Some(field_in(row))
}

// The number of fields of a layout, 0 past the last layout.
pub fn fields_in(layout: usize) -> usize
    ensures { result ≡ length (fields_of layout) }
{
    // Counted by hand: the rows end at the first 0, and nowhere is it said how many they are.
    let mut count = 0;
    while crate::row_of(layout, count + 1) != 0 {
        count += 1;
    }
    count
}
