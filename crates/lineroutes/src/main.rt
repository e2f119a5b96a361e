// The crew's program for datums: how each datum that is defined is brought to datum 1, shift by shift.
#![tactic(auto)]

ghost use Rattle.std.specs.Prelude.{◌<◌};

use base_refusal::{DATUM_TWICE, Refusal};
use crew_io::page::Page;
use crew_io::{failure, input, page};
use std::fmt::Write;
use survey_datums::UNDEFINED;
use survey_datums::routing::{CARDS, DATUMS, NO_ROUTE, SHIFTS};

const PAGE: usize = 4096;

// Shows why no routes are told.
fn show_refused(out: &mut Page<'_>, header: &[u8], refusal: Refusal) {
    let Refusal {
        number,
        card,
        column,
    } = refusal;
    let _ = writeln!(out, "refused {number} {card} {column}");
    if number == DATUM_TWICE {
        out.push_all(b"  A datum is defined more than once, so no route can be told.\n");
    } else {
        crew_refusal::tell_refusal(out, header, refusal, format_layout::CARDS);
    }
}

// The datum at the other end of a shift, both as the digits that stand on its card.
fn far_end(card: &[u8], datum: u8) -> u8 {
    let from = base_lists::byte_at(card, 6);
    if from == datum {
        base_lists::byte_at(card, 8)
    } else {
        from
    }
}

// Puts the steps of the route from a datum: each card, and the datum that it leads to.
fn push_route(out: &mut Page<'_>, header: &[u8], cards: [u32; CARDS], datum: usize)
    requires { datum < 9 }
{
    let mut at = b'1' + datum as u8;
    let route = &cards[datum * SHIFTS..(datum + 1) * SHIFTS];
    for card in route.iter().take_while(|card| **card != 0) {
        at = far_end(page::card_in(header, *card as usize), at);
        let _ = write!(out, " ={card}=> ");
        out.push(at);
    }
}

// Puts what is told of a datum that is defined.
fn push_datum(out: &mut Page<'_>, header: &[u8], shifts: u8, cards: [u32; CARDS], datum: usize)
    requires { datum < 9 }
{
    let number = datum + 1;
    match shifts {
        UNDEFINED => {}
        NO_ROUTE => {
            let _ = writeln!(out, "datum {number}: no route");
        }
        _ => {
            let _ = write!(out, "datum {number}: shifts {shifts}, {number}");
            push_route(out, header, cards, datum);
            out.push(b'\n');
        }
    }
}

// Shows the routes of all datums.
fn show_routes(out: &mut Page<'_>, header: &[u8], shifts: [u8; DATUMS], cards: [u32; CARDS]) {
    for (datum, number) in shifts.iter().enumerate() {
        push_datum(out, header, *number, cards, datum);
    }
}

// Finds a header's routes, and shows them.
fn show(out: &mut Page<'_>, header: &[u8]) {
    let routes = survey_datums::find_routes(header);
    let shifts = routes.shifts;
    let cards = routes.cards;
    match routes.answer {
        Ok(()) => show_routes(out, header, shifts, cards),
        Err(refusal) => show_refused(out, header, refusal),
    }
}

// Shows a header's routes on standard output.
fn reply(rt: &HostRuntime, header: &[u8]) {
    let mut bytes = [0u8; PAGE];
    let mut out = page::on(rt.stdout(), &mut bytes);
    show(&mut out, header);
    if let Err(why) = out.finish() {
        failure::tell(rt.stderr(), b"lineroutes: standard output", why);
    }
}

fn main(rt: HostRuntime) {
    let mut buf = input::room();
    match input::read_all(&mut rt.stdin(), &mut buf) {
        Ok(n) => reply(&rt, &buf[..n]),
        Err(why) => failure::tell(rt.stderr(), b"lineroutes: standard input", why),
    }
}
