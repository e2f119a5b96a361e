// One field's columns: what an entry leaves there, in each of the paper's spellings.
ghost use Rattle.std.specs.Prelude.{◌≡◌, length};
ghost use Rattle.base_digits.specs.digits.Columns.{answer_of, entered_in, room_of};
ghost use Rattle.value_number.specs.number_entry.Spelling.{decimal_in};
ghost use Rattle.value_field.specs.writing.Writing.{entry_of, text_entry_of};

use crate::spelling::Spelling;
use base_digits::filling;
use base_refusal::Unwritten;
use base_value::{Decimal, Value};
use value_coordinate::axes::Axis;
use value_coordinate::coordinate_entry::{write_angle, write_grid};
use value_date::write_date;
use value_number::number_entry;
use value_text::text_entry;

// Writes a decimal, if it has room.
fn write_units(columns: &mut [u8], d: Decimal) -> Result<(), Unwritten>
    ensures answer { result ≡ answer_of (room_of (decimal_in (length columns.old) d)) }
    ensures columns { columns.new ≡ entered_in (room_of (decimal_in (length columns.old) d)) columns.old }
{
    if number_entry::write_decimal(columns, d) {
        Ok(())
    } else {
        Err(Unwritten::NoRoom)
    }
}

// Writes a value in the one agreed spelling, or changes nothing. An absent value blanks any field; a text goes in as
// bytes.
#[tactic(auto, unfolding(crate::specs::writing::Writing::entry_of, crate::specs::writing::Writing::no_value_in, crate::specs::writing::Writing::whole_in, crate::specs::writing::Writing::units_in, crate::specs::writing::Writing::day_in, crate::specs::writing::Writing::arc_in, crate::specs::writing::Writing::grid_entry_in))]
pub fn write(columns: &mut [u8], spelling: Spelling, v: Value) -> Result<(), Unwritten>
    ensures answer { result ≡ answer_of (entry_of spelling (length columns.old) v) }
    ensures columns { columns.new ≡ entered_in (entry_of spelling (length columns.old) v) columns.old }
{
    match (spelling, v) {
        (_, Value::Absent) => {
            filling::fill_blanks(columns);
            Ok(())
        }
        (Spelling::Whole, Value::Whole(units)) => {
            write_units(columns, Decimal { units, places: 0 })
        }
        (Spelling::Decimal, Value::Decimal(d)) => write_units(columns, d),
        (Spelling::Date, Value::Date(d)) => write_date(columns, d),
        (Spelling::Latitude, Value::Angle(z)) => write_angle(columns, Axis::Y, z),
        (Spelling::Longitude, Value::Angle(z)) => write_angle(columns, Axis::X, z),
        (Spelling::Northing, Value::Decimal(d)) => write_grid(columns, Axis::Y, d),
        (Spelling::Easting, Value::Decimal(d)) => write_grid(columns, Axis::X, d),
        _ => Err(Unwritten::OtherKind),
    }
}

// Writes a text left adjusted, or changes nothing.
#[tactic(auto, unfolding(crate::specs::writing::Writing::text_entry_of))]
pub fn write_text(columns: &mut [u8], spelling: Spelling, text: &[u8]) -> Result<(), Unwritten>
    ensures answer { result ≡ answer_of (text_entry_of spelling (length columns.old) text.now) }
    ensures columns { columns.new ≡ entered_in (text_entry_of spelling (length columns.old) text.now) columns.old }
{
    match spelling {
        Spelling::Text => text_entry::write_text(columns, text, false),
        Spelling::Comment => text_entry::write_text(columns, text, true),
        _ => Err(Unwritten::OtherKind),
    }
}
