// The routes as a list of numbers: nine to a datum, its number of shifts and then eight cards.
ghost use Rattle.std.specs.Prelude.{◌≡◌, map, ◌<◌, ◌≤◌};
ghost use Rattle.base_lists.specs.Laid.{laid};
ghost use Rattle.base_lists.specs.Parts.{up_to};
ghost use Rattle.survey_datums.specs.Answer.{routes_of};
ghost use Rattle.survey_datums.specs.Listing.{number_at, routed, listed_of, list_for};
ghost use Rattle.survey_datums.specs.packed.Room.{room_in};

use crate::routing::{CARDS, DATUMS, NO_ROUTE, SHIFTS};
use base_refusal::Refusal;
use std::array;

// How many numbers a datum has, and how many there are of all.
pub const ROW: usize = 9;

const NUMBERS: usize = 81;

// One of the 81 numbers.
#[tactic(auto, unfolding(crate::specs::Listing::number_at))]
fn number_at(shifts: [u8; DATUMS], cards: [u32; CARDS], i: usize) -> u32
    requires { i < 81 }
    ensures { result ≡ number_at shifts cards i }
{
    let datum = i / ROW;
    match i % ROW {
        0 => u32::from(shifts[datum]),
        place => cards[datum * SHIFTS + (place - 1)],
    }
}

// How much of a list is written: as many whole datums as fit.
#[tactic(auto, unfolding(crate::specs::packed::Room::room_in))]
fn room_in(length: usize) -> usize
    ensures value { result ≡ room_in length }
    ensures fits { result ≤ length }
    ensures all { result ≤ 81 }
{
    NUMBERS.min(length) / ROW * ROW
}

// Writes the numbers into a list from its front, as many whole datums as fit.
fn lay(list: &mut [u32], shifts: [u8; DATUMS], cards: [u32; CARDS])
    ensures { list.new ≡ laid 9 list.old (map (number_at shifts cards) (up_to 81)) }
{
    let numbers: [u32; NUMBERS] = array::from_fn(|i| number_at(shifts, cards, i));
    let room = room_in(list.len());
    list[..room].copy_from_slice(&numbers[..room]);
}

// How many datums have a route.
fn count_routed(shifts: [u8; DATUMS]) -> usize
    ensures { result ≡ routed shifts }
{
    shifts.iter().filter(|number| **number < NO_ROUTE).count()
}

// The routes of a header in a lent list, as far as they fit; or the refusal, and the list as it was.
pub fn list_routes(header: &[u8], list: &mut [u32]) -> Result<usize, Refusal>
    ensures answer { result ≡ listed_of (routes_of header.now) }
    ensures list { list.new ≡ list_for (routes_of header.now) list.old }
{
    let routes = crate::find_routes(header);
    routes.answer?;
    lay(list, routes.shifts, routes.cards);
    Ok(count_routed(routes.shifts))
}
