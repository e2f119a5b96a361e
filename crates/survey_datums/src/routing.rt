// Routes to datum 1 over a nine by nine table of cards: the fewest shifts of each datum, and the cards of one such
// route. Datums are counted from 0, so datum 1 is 0. It knows nothing of headers.
ghost use Rattle.std.specs.Prelude.{◌≡◌, ◌<◌, IfSome, unwrap_or};
ghost use Rattle.survey_datums.specs.routing.Tables.{distances, card_of, cards_of, next_in};
ghost use Rattle.survey_datums.specs.routing.Tables.{further_by, further, length_in};

use std::array;

// How many datums there can be; the most shifts of a route; the numbers of the cards of all routes.
pub const DATUMS: usize = 9;

pub const SHIFTS: usize = 8;

pub const CARDS: usize = 72;

// As a number of shifts: there is no route.
pub const NO_ROUTE: u8 = 9;

// Of the datums that a row joins, the lowest with a number of shifts.
fn next_datum(row: [u32; DATUMS], shifts: [u8; DATUMS], number: u8) -> Option<usize>
    ensures value { unwrap_or result 9 ≡ next_in row shifts number }
    ensures within { IfSome result (λ datum. datum < 9) }
{
    (0..DATUMS).find(|datum| 0 < row[*datum] && shifts[*datum] == number)
}

// The shifts of a datum that a row joins, once those of the datums with some number of shifts are known.
#[tactic(auto, using(crate::proofs::routing::Steps::further_as), unfolding(crate::specs::routing::Tables::further_by))]
fn further_by(row: [u32; DATUMS], shifts: [u8; DATUMS], number: u8, old: u8) -> u8
    requires { number < 9 }
    ensures { result ≡ further_by row shifts number old }
{
    if old == NO_ROUTE && next_datum(row, shifts, number).is_some() {
        return 1 + number;
    }
    old
}

// The same of all datums.
fn go_further(table: [[u32; DATUMS]; DATUMS], shifts: [u8; DATUMS], number: u8) -> [u8; DATUMS]
    requires { number < 9 }
    ensures { result ≡ further table shifts number }
{
    array::from_fn(|datum| further_by(table[datum], shifts, number, shifts[datum]))
}

// The fewest shifts of every datum, 9 where there is no route: first those of datum 1, then those of the datums joined
// to them.
pub fn distances(table: [[u32; DATUMS]; DATUMS]) -> [u8; DATUMS]
    ensures { result ≡ distances table }
{
    let mut shifts = [NO_ROUTE; DATUMS];
    shifts[0] = 0;
    for number in 0..NO_ROUTE - 1 {
        shifts = go_further(table, shifts, number);
    }
    shifts
}

// How many shifts a route from a datum has, 0 where there is none.
#[tactic(auto, unfolding(crate::specs::routing::Tables::length_in))]
fn length_from(shifts: [u8; DATUMS], datum: usize) -> u8
    requires { datum < 9 }
    ensures { result ≡ length_in shifts datum }
{
    let number = shifts[datum];
    if number < NO_ROUTE { number } else { 0 }
}

// A card of the route from a datum, by its place from 0: where it has none there, 0.
fn card_of(table: [[u32; DATUMS]; DATUMS], shifts: [u8; DATUMS], from: usize, place: usize) -> u32
    requires { (shifts ≡ distances table) × (from < 9) }
    ensures { result ≡ card_of table from place }
{
    let mut datum = from;
    for (step, left) in (0..length_from(shifts, from)).rev().enumerate() {
        // With this shift and so many left behind it, there is a next datum.
        let next = next_datum(table[datum], shifts, left).unwrap();
        if step == place {
            return table[datum][next];
        }
        datum = next;
    }
    0
}

// The cards of all routes, eight to a datum, once its distances are known.
pub fn cards_of(table: [[u32; DATUMS]; DATUMS], shifts: [u8; DATUMS]) -> [u32; CARDS]
    requires { shifts ≡ distances table }
    ensures { result ≡ cards_of table }
{
    array::from_fn(|i| card_of(table, shifts, i / SHIFTS, i % SHIFTS))
}
