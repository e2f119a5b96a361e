// Coordinates in columns in form 1: a number, and the letter of its axis, read.
ghost use Rattle.std.specs.Prelude.{◌≡◌};
ghost use Rattle.value_coordinate.specs.grid.Grid.{present_of, grid_of};

use crate::axes;
use crate::axes::Axis;
use base_digits::digits;
use base_value::{Unread, Value};
use value_number::number;

// A number that has to be there.
#[tactic(auto, unfolding(crate::specs::grid::Grid::present_of))]
fn present(found: Result<Value, Unread>) -> Result<Value, Unread>
    ensures { result ≡ present_of found }
{
    match found {
        Ok(Value::Absent) => Err(Unread::Malformed),
        _ => found,
    }
}

// Reads the grid coordinate that fills s.
pub fn read_grid(s: &[u8], axis: Axis) -> Result<Value, Unread>
    ensures { result ≡ grid_of axis s.now }
{
    if digits::padding(s) == s.len() {
        return Ok(Value::Absent);
    }
    let last = s.len() - 1;
    if s[last] != axes::letter(axis, false) {
        return Err(Unread::Malformed);
    }
    present(number::read_number(&s[..last], true))
}
