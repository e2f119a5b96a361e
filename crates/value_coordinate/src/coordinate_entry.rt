// Coordinates written into columns: angles in form 0, a number and a letter in form 1.
ghost use Rattle.std.specs.Prelude.{◌≡◌, ◌≤◌, length};
ghost use Rattle.base_digits.specs.digits.Columns.{answer_of, entered_in};
ghost use Rattle.value_coordinate.specs.coordinate_entry.Plotting.{figures_in, angle_in, grid_in};

use crate::angle::{LAST, WIDTH};
use crate::axes;
use crate::axes::Axis;
use base_digits::signs;
use base_refusal::Unwritten;
use base_value::Decimal;
use value_number::number_entry;

// The digits of n thousandths of a second, as one number.
fn figures(n: u64) -> u64
    requires { n ≤ 648000000 }
    ensures { result ≡ figures_in n }
{
    n / 3600000 * 10000000 + n / 60000 % 60 * 100000 + n % 60000
}

// Writes an angle, or changes nothing where it goes too far or the columns are not twelve.
pub fn write_angle(columns: &mut [u8], axis: Axis, angle: i64) -> Result<(), Unwritten>
    ensures answer { result ≡ answer_of (angle_in axis (length columns.old) angle) }
    ensures columns { columns.new ≡ entered_in (angle_in axis (length columns.old) angle) columns.old }
{
    let n = signs::magnitude(angle);
    if axes::bound(axis) < n {
        return Err(Unwritten::OutOfRange);
    }
    if columns.len() != WIDTH {
        return Err(Unwritten::NoRoom);
    }
    number_entry::write_plain(&mut columns[..LAST], figures(n), 3);
    columns[LAST] = axes::letter(axis, signs::below_zero(angle));
    Ok(())
}

// Writes a grid coordinate, or changes nothing where it has no room.
pub fn write_grid(columns: &mut [u8], axis: Axis, d: Decimal) -> Result<(), Unwritten>
    ensures answer { result ≡ answer_of (grid_in axis (length columns.old) d) }
    ensures columns { columns.new ≡ entered_in (grid_in axis (length columns.old) d) columns.old }
{
    if columns.len() == 0 {
        return Err(Unwritten::NoRoom);
    }
    let last = columns.len() - 1;
    if !number_entry::write_decimal(&mut columns[..last], d) {
        return Err(Unwritten::NoRoom);
    }
    columns[last] = axes::letter(axis, false);
    Ok(())
}
