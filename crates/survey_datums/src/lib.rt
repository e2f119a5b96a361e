// The routes by which a survey's datums are brought to datum 1: for each of the nine datums the fewest shifts, and the
// cards of one such route.

#![tactic(auto)]

pub mod joining;
pub mod listing;
pub mod routing;

ghost use Rattle.base_refusal.specs.Refusals.{no_refusal};
ghost use Rattle.std.specs.Prelude.{◌≡◌};
ghost use Rattle.header_check.specs.Refusing.{refusal_of};
ghost use Rattle.survey_datums.specs.Answer.{refused_with, routes_of, way_for, way_of};
ghost use Rattle.survey_datums.specs.packed.Ends.{told_by};

use crate::routing::{CARDS, DATUMS, NO_ROUTE};
use base_refusal::{DATUM_TWICE, Refusal, refuse};
use std::array;

// As a number of shifts: the datum is not defined.
pub const UNDEFINED: u8 = 10;

// Of each datum from 1 on the number of shifts (9: no route, 10: not defined), and eight cards, 0 behind the last of
// its route.
#[derive(Clone, Copy)]
pub struct Routes {
    pub answer: Result<(), Refusal>,
    pub shifts: [u8; DATUMS],
    pub cards: [u32; CARDS],
}

// What is told of one datum.
#[derive(Clone, Copy)]
pub enum Way {
    Undefined,
    NoRoute,
    Shifts(usize),
}

// The numbers of shifts as they are told: of a datum that is not defined, 10.
fn told(times: [usize; DATUMS], shifts: [u8; DATUMS]) -> [u8; DATUMS]
    ensures { result ≡ told_by times shifts }
{
    array::from_fn(|datum| if times[datum] == 0 {
        UNDEFINED
    } else {
        shifts[datum]
    })
}

// The answer where nothing can be told.
#[tactic(auto, unfolding(crate::specs::Answer::refused_with))]
fn refused(refusal: Refusal) -> Routes
    ensures { result ≡ refused_with refusal }
{
    Routes {
        answer: Err(refusal),
        shifts: [UNDEFINED; DATUMS],
        cards: [0; CARDS],
    }
}

// The routes of an accepted header, or 22 where a datum is defined more than once.
fn routes_in(header: &[u8]) -> Routes
    requires { refusal_of header.now ≡ no_refusal }
    ensures { result ≡ routes_of header.now }
{
    let times = joining::all_times(header);
    if joining::some_twice(times) {
        return refused(refuse(DATUM_TWICE, 0, 0));
    }
    let table = joining::table_of(header, times);
    let shifts = routing::distances(table);
    let cards = routing::cards_of(table, shifts);
    Routes {
        answer: Ok(()),
        shifts: told(times, shifts),
        cards,
    }
}

// The routes of a header: the header's refusal first, then 22.
pub fn find_routes(header: &[u8]) -> Routes
    ensures { result ≡ routes_of header.now }
{
    let checked = header_check::check(header);
    match checked {
        Ok(()) => routes_in(header),
        Err(refusal) => refused(refusal),
    }
}

// What a number of shifts says.
fn way_for(shifts: u8) -> Way
    ensures { result ≡ way_for shifts }
{
    if shifts < NO_ROUTE {
        return Way::Shifts(shifts as usize);
    }
    if shifts == NO_ROUTE {
        return Way::NoRoute;
    }
    Way::Undefined
}

// What is told of the datum with a number: one outside 1 to 9 is not defined.
pub fn way_of(routes: Routes, datum: usize) -> Way
    ensures { result ≡ way_of routes datum }
{
    if datum == 0 {
        return Way::Undefined;
    }
    if DATUMS < datum {
        return Way::Undefined;
    }
    let shifts = routes.shifts;
    way_for(shifts[datum - 1])
}
