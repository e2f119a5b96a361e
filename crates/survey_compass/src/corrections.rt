// The corrections on a card, their exact sum with a raw reading, and the sum taken into 0 to under 360 degrees.
ghost use Rattle.std.specs.Prelude.{◌≡◌, false, ◌≤◌, ◌<◌, length};
ghost use Rattle.survey_compass.specs.Directions.{pairs};
ghost use Rattle.survey_compass.specs.Corrections.{correction_of, correction_in, correction_at, nearest_on, turn, summed_on, turned};
ghost use Rattle.survey_compass.specs.Headings.{bad_reading};

use crate::directions;
use crate::directions::{STEP, UNLISTED};
use base_value::{Decimal, Unread, Value};
use card_field::needing;
use value_field::spelling;
use value_field::spelling::Spelling;

// The columns of the fixed correction, and of that of the first pair.
const FIXED_FIRST: usize = 15;

const FIXED_LAST: usize = 20;

const FIRST: usize = 24;

const LAST: usize = 27;

// A correction that was read; one that is absent adds nothing.
#[tactic(auto, unfolding(crate::specs::Corrections::correction_of, base_value::specs::Sums::nothing))]
fn correction_of(reading: Result<Value, Unread>) -> Decimal
    ensures { result ≡ correction_of reading }
{
    match reading {
        Ok(Value::Decimal(d)) => d,
        _ => Decimal::ZERO,
    }
}

// The correction in some columns.
#[tactic(auto, unfolding(crate::specs::Corrections::correction_in, tie_rules::specs::Keys::between))]
fn correction_in(card: &[u8], first: usize, last: usize) -> Decimal
    requires { (1 ≤ first) × (first ≤ last) × (last ≤ length card.now) }
    ensures { result ≡ correction_in first last card.now }
{
    let columns = needing::columns(card, first, last);
    correction_of(spelling::read(columns, Spelling::Decimal))
}

// The correction of a pair.
#[tactic(auto, unfolding(crate::specs::Corrections::correction_at))]
fn correction_at(card: &[u8], pair: usize) -> Decimal
    requires { (length card.now ≡ 80) × (pair < pairs) }
    ensures { result ≡ correction_at card.now pair }
{
    correction_in(card, FIRST + STEP * pair, LAST + STEP * pair)
}

// The correction for the nearest listed direction.
fn nearest_on(card: &[u8], asked: u64) -> Decimal
    requires { (length card.now ≡ 80) × (asked < 360) }
    ensures { result ≡ nearest_on card.now asked }
{
    let least = directions::least_rank(card, asked);
    if least == UNLISTED {
        return Decimal::ZERO;
    }
    correction_at(card, directions::nearest_to(card, asked, least))
}

// The units of a whole turn with so many places.
pub fn whole_turn(places: usize) -> u64
    requires { places ≤ 11 }
    ensures { result ≡ turn places }
{
    360 * 10u64.pow(places as u32)
}

// A sum taken into 0 to under 360 degrees.
fn into_circle(sum: Decimal) -> Decimal
    requires { sum.places ≤ 11 }
    ensures { result ≡ turned sum }
{
    let turn = whole_turn(sum.places) as i64;
    Decimal::new(sum.units.rem_euclid(turn), sum.places)
}

// A raw reading with the fixed correction and the one for the nearest listed direction.
pub fn corrected(card: &[u8], raw: Decimal, asked: u64) -> Decimal
    requires { (length card.now ≡ 80) × (bad_reading raw ≡ false) × (asked < 360) }
    ensures { result ≡ turned (summed_on card.now raw asked) }
{
    let fixed = correction_in(card, FIXED_FIRST, FIXED_LAST);
    let used = nearest_on(card, asked);
    into_circle(raw.plus(fixed).plus(used))
}
