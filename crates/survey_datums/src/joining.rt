// The lowest cards that join the datums of a header, two by two.
ghost use Rattle.base_refusal.specs.Refusals.{no_refusal};
ghost use Rattle.std.specs.Prelude.{◌≡◌, map, ℕ, ◌<◌, get_or, IfSome, unwrap_or};
ghost use Rattle.base_lists.specs.Parts.{up_to};
ghost use Rattle.header_check.specs.Refusing.{refusal_of};
ghost use Rattle.survey_datums.specs.Datums.{times_defined, number_in, joining, joining_table};
ghost use Rattle.survey_datums.specs.packed.Ends.{place_of, other_of, far_end, notable, noted, twice_in};

use crate::routing::DATUMS;
use format_layout::CARD;
use format_layout::names::H0120;
use header_check::forms;
use std::array;
use tie_lookup::search;
use tie_rules::{keys, packing};

// The last number of a datum.
const LAST: u64 = 9;

// How often a datum is defined.
fn times_defined(header: &[u8], datum: usize) -> usize
    requires { (refusal_of header.now ≡ no_refusal) × (datum < 9) }
    ensures { result ≡ times_defined header.now datum }
{
    let found = search::in_header(
        header,
        packing::packed_number(tie_rules::DATUMS, datum as u64 + 1),
    );
    found.number
}

// The same of all datums.
pub fn all_times(header: &[u8]) -> [usize; DATUMS]
    requires { refusal_of header.now ≡ no_refusal }
    ensures { result ≡ map (times_defined header.now) (up_to 9) }
{
    array::from_fn(|datum| times_defined(header, datum))
}

// Whether one of them is defined more than once.
pub fn some_twice(times: [usize; DATUMS]) -> bool
    ensures { result ≡ twice_in times }
{
    times.iter().any(|number| 1 < *number)
}

// The number in a column of a card, 0 where there is none.
#[tactic(auto, using(crate::proofs::Placing::the_number), unfolding(crate::specs::Datums::number_in))]
fn number_in(card: &[u8], column: usize) -> u64
    ensures { result ≡ number_in card.now column }
{
    keys::whole_in(card, column, column).saturating_sub(1)
}

// The datum with a number.
#[tactic(auto, unfolding(crate::specs::packed::Ends::place_of))]
fn place_of(number: u64) -> Option<usize>
    ensures value { unwrap_or result 9 ≡ place_of number }
    ensures within { IfSome result (λ datum. datum < 9) }
{
    (1..=LAST).contains(&number).then(|| (number - 1) as usize)
}

// Of two numbers the other one's datum, where one is a datum's.
#[tactic(auto, unfolding(crate::specs::packed::Ends::other_of))]
fn other_of(from: u64, to: u64, datum: usize) -> Option<usize>
    requires { datum < 9 }
    ensures value { unwrap_or result 9 ≡ other_of from to datum }
    ensures within { IfSome result (λ end. end < 9) }
{
    let number = datum as u64 + 1;
    if from == number {
        return place_of(to);
    }
    if to == number {
        return place_of(from);
    }
    None
}

// The datum at the other end of a shift of a datum.
#[tactic(auto, unfolding(crate::specs::packed::Ends::far_end))]
fn far_end(card: &[u8], datum: usize) -> Option<usize>
    requires { datum < 9 }
    ensures value { unwrap_or result 9 ≡ far_end card.now datum }
    ensures within { IfSome result (λ end. end < 9) }
{
    if forms::layout_of(card) != H0120 {
        return None;
    }
    other_of(number_in(card, 7), number_in(card, 9), datum)
}

// Notes a card in a datum's row: the lowest card stays, and a datum is never joined to itself.
fn note(row: &mut [u32; DATUMS], times: [usize; DATUMS], datum: usize, end: usize, card: u32)
    requires { end < 9 }
    ensures { (b : ℕ) → b < 9 → get_or row.new b 0 ≡ noted (get_or row.old b 0) (notable times datum end b) card }
{
    if end != datum && times[end] != 0 && row[end] == 0 {
        row[end] = card;
    }
}

// The lowest cards that join a datum to each.
fn row_of(header: &[u8], times: [usize; DATUMS], datum: usize) -> [u32; DATUMS]
    requires accepted { refusal_of header.now ≡ no_refusal }
    requires counted { times ≡ map (times_defined header.now) (up_to 9) }
    requires there { datum < 9 }
    ensures { result ≡ map (joining header.now datum) (up_to 9) }
{
    let mut row = [0; DATUMS];
    if times[datum] == 0 {
        return row;
    }
    for (place, card) in header.chunks_exact(CARD).enumerate() {
        if let Some(end) = far_end(card, datum) {
            note(&mut row, times, datum, end, place as u32 + 1);
        }
    }
    row
}

// The same of all datums.
pub fn table_of(header: &[u8], times: [usize; DATUMS]) -> [[u32; DATUMS]; DATUMS]
    requires { (refusal_of header.now ≡ no_refusal) × (times ≡ map (times_defined header.now) (up_to 9)) }
    ensures { result ≡ joining_table header.now }
{
    array::from_fn(
        |datum|
            requires accepted { refusal_of header.now ≡ no_refusal }
            requires counted { times ≡ map (times_defined header.now) (up_to 9) }
            requires there { datum < 9 }
            ensures { result ≡ map (joining header.entry.now datum) (up_to 9) }
        { row_of(header, times, datum) },
    )
}
