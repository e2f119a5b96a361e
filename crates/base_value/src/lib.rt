// What is read from the columns of a field: the values of the paper's kinds, and the two ways in which columns hold none.
#![tactic(auto)]

ghost use Rattle.std.specs.Prelude.{◌≡◌, ◌*◌, ◌^◌, ◌≤◌, min, max, nat_abs};
ghost use Rattle.base_value.specs.Sums.{decimal, largest, raised_of, sum_of};

use base_digits::{digits, signs};

// Units, and how many of their digits stand behind the point: 1.5 and 1.50 differ.
#[derive(Clone, Copy)]
pub struct Decimal {
    pub units: i64,
    pub places: usize,
}

impl Decimal {
    // Nothing, without places: added to a decimal it changes neither units nor places.
    pub const ZERO: Decimal = Decimal {
        units: 0,
        places: 0,
    };

    // The largest size of a decimal in units: no columns of the paper hold a larger one.
    pub const LARGEST: u64 = digits::LIMIT - 1;

    // So many units, of which so many digits stand behind the point.
    pub fn new(units: i64, places: usize) -> Decimal
        ensures { result ≡ decimal units places }
    {
        Decimal { units, places }
    }

    // The sum with the larger number of places: exact, unless one of the two grows over the largest size on the way.
    pub fn plus(self, other: Decimal) -> Decimal
        ensures { result ≡ sum_of self other }
    {
        let places = self.places.max(other.places);
        let units = raised(self.units, places - self.places)
            + raised(other.units, places - other.places);
        Decimal::new(units, places)
    }
}

// So many places more make any size but 0 larger than the largest.
const MANY: usize = 18;

// A size with more places, or the largest.
fn grown(size: u64, more: usize) -> u64
    ensures { result ≡ min largest (size * 10 ^ more) }
{
    size.saturating_mul(10u64.pow(more.min(MANY) as u32))
        .min(Decimal::LARGEST)
}

// Units with more places; where the size would be over the largest, the largest.
fn raised(units: i64, more: usize) -> i64
    ensures raised { result ≡ raised_of units more }
    ensures within { nat_abs result ≤ largest }
{
    signs::signed(units < 0, grown(units.unsigned_abs(), more))
}

// Year, month and day; not all such numbers are a day of the calendar.
#[derive(Clone, Copy)]
pub struct Date {
    pub year: u32,
    pub month: u32,
    pub day: u32,
}

// The columns that a text takes, counted from 1.
#[derive(Clone, Copy)]
pub struct Columns {
    pub first: usize,
    pub last: usize,
}

// A value read: a whole number, units with places, thousandths of a second of arc, a day or a text's columns.
#[derive(Clone, Copy)]
pub enum Value {
    Absent,
    Whole(i64),
    Decimal(Decimal),
    Angle(i64),
    Date(Date),
    Text(Columns),
}

// Why columns hold no value.
#[derive(Clone, Copy, Debug, PartialEq, Eq)]
pub enum Unread {
    Malformed,
    OutOfRange,
}
