// Corrected compass headings: a raw reading with the fixed correction and that for the nearest listed direction, exactly.
#![tactic(auto)]

mod corrections;
mod directions;
mod serials;

ghost use Rattle.std.specs.Prelude.{◌≡◌, length};
ghost use Rattle.base_refusal.specs.Refusals.{refusal};
ghost use Rattle.survey_compass.specs.Headings.{off_circle, bad_reading, heading_on, heading_for, heading_of};

use base_refusal::{NO_COMPASS, NO_CORRECTIONS, NO_DIRECTION, NO_READING, Refusal, refuse};
use base_value::Decimal;
use format_layout::CARD;
use tie_lookup::questions::{Defined, Key};
use tie_rules::SERIALS;
use value_text::text;

// The largest direction of a line, and the most places of a raw reading.
const FULL: i64 = 360;

const PLACES: usize = 11;

// A refusal with a number: it has no card and no column.
fn refused(number: usize) -> Result<Decimal, Refusal>
    ensures { result ≡ Err (refusal number 0 0) }
{
    Err(refuse(number, 0, 0))
}

// Whether a direction lies outside 0 to 360.
fn off_circle(direction: i64) -> bool
    ensures { result ≡ off_circle direction }
{
    !(0..=FULL).contains(&direction)
}

// Whether a raw reading lies outside 0 to under 360, or has too many places.
fn bad_reading(raw: Decimal) -> bool
    ensures { result ≡ bad_reading raw }
{
    PLACES < raw.places || !(0..corrections::whole_turn(raw.places) as i64).contains(&raw.units)
}

// By the card with the corrections.
fn on_card(card: &[u8], raw: Decimal, direction: i64) -> Result<Decimal, Refusal>
    requires { length card.now ≡ 80 }
    ensures { result ≡ heading_on card.now raw direction }
{
    if off_circle(direction) || directions::listed_twice(card) {
        return refused(NO_DIRECTION);
    }
    if bad_reading(raw) {
        return refused(NO_READING);
    }
    let asked = direction.unsigned_abs() % directions::CIRCLE;
    Ok(corrections::corrected(card, raw, asked))
}

// By the cards for a serial that is defined once.
fn for_serial(
    header: &[u8],
    serial: &[u8],
    raw: Decimal,
    direction: i64,
) -> Result<Decimal, Refusal>
    ensures { result ≡ heading_for header.now serial.now raw direction }
{
    if serials::cards_for(header, serial) != 1 {
        return refused(NO_CORRECTIONS);
    }
    let from = serials::place_for(header, serial) * CARD;
    on_card(&header[from..from + CARD], raw, direction)
}

// The heading of the compass with a serial, by its raw reading and the direction of the line in whole degrees.
pub fn find_heading(
    header: &[u8],
    serial: &[u8],
    raw: Decimal,
    direction: i64,
) -> Result<Decimal, Refusal>
    ensures { result ≡ heading_of header.now serial.now raw direction }
{
    let defined = tie_lookup::find_key(header, SERIALS, Key::Text, serial)?;
    match defined {
        Defined::None => refused(NO_COMPASS),
        Defined::Several(_) => refused(NO_COMPASS),
        Defined::Only(_, _) => for_serial(header, text::stretch(serial), raw, direction),
    }
}
