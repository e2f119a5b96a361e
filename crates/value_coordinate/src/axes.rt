// The two axes of a coordinate: how far an angle goes on each, and the letters that say which way.
ghost use Rattle.std.specs.Prelude.{◌≡◌, ◌≤◌};
ghost use Rattle.value_coordinate.specs.axes.Axes.{bound_of, letter_of};

const EAST: u8 = b'E';

const NORTH: u8 = b'N';

const SOUTH: u8 = b'S';

const WEST: u8 = b'W';

// 90 and 180 degrees, in thousandths of a second of arc.
const QUARTER: u64 = 324000000;

const HALF: u64 = 648000000;

// Y goes north and south, X east and west.
#[derive(Clone, Copy)]
pub enum Axis {
    Y,
    X,
}

// How far an angle goes on its axis.
#[tactic(auto, unfolding(crate::specs::axes::Axes::bound_of))]
pub fn bound(axis: Axis) -> u64
    ensures found { result ≡ bound_of axis }
    ensures within { result ≤ 648000000 }
{
    match axis {
        Axis::Y => QUARTER,
        Axis::X => HALF,
    }
}

// The letter of an axis for what is not below zero, or is.
#[tactic(auto, unfolding(crate::specs::axes::Axes::letter_of))]
pub fn letter(axis: Axis, minus: bool) -> u8
    ensures { result ≡ letter_of axis minus }
{
    match (axis, minus) {
        (Axis::Y, false) => NORTH,
        (Axis::Y, true) => SOUTH,
        (Axis::X, false) => EAST,
        (Axis::X, true) => WEST,
    }
}
