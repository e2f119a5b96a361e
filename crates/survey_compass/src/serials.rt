// The cards of a header with the corrections of a compass: how many there are for a serial, and where the first stands.
ghost use Rattle.std.specs.Prelude.{◌≡◌, ◌≤◌, length};
ghost use Rattle.header_check.specs.forms.Cards.{cards_in};
ghost use Rattle.survey_compass.specs.Serials.{is_for, cards_for, place_for};

use card_field::needing;
use format_layout::CARD;
use header_check::forms;
use value_text::text;

// H23@0 among the layouts, and the columns of its serial.
const CORRECTIONS: usize = 24;

const FIRST: usize = 7;

const LAST: usize = 14;

// Whether a card has the corrections of the compass with a serial.
fn is_for(serial: &[u8], card: &[u8]) -> bool
    requires { length card.now ≡ 80 }
    ensures { result ≡ is_for serial.now card.now }
{
    forms::layout_of(card) == CORRECTIONS
        && text::stretch(needing::columns(card, FIRST, LAST)) == serial
}

// How many cards have them.
pub fn cards_for(header: &[u8], serial: &[u8]) -> usize
    ensures { result ≡ cards_for header.now serial.now }
{
    header
        .chunks_exact(CARD)
        .filter(|card| is_for(serial, card))
        .count()
}

// The place of the first of them, from 0; behind all cards where there is none.
pub fn place_for(header: &[u8], serial: &[u8]) -> usize
    ensures place { result ≡ place_for header.now serial.now }
    ensures within { result ≤ cards_in header.now }
{
    header
        .chunks_exact(CARD)
        .position(|card| is_for(serial, card))
        .unwrap_or(header.len() / CARD)
}
