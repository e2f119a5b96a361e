// What is counted of a header's definitions: the waypoints of each vessel and the points of the variation grid.
ghost use Rattle.std.specs.Prelude.{◌≡◌, ◌≤◌};
ghost use Rattle.header_check.specs.forms.Cards.{cards_in};
ghost use Rattle.header_check.specs.Refusing.{largest};
ghost use Rattle.header_check.specs.packed.Noted.{Noted};
ghost use Rattle.tie_store.specs.Store.{room};
ghost use Rattle.tie_check.specs.packed.Gathered.{gathered};
ghost use Rattle.tie_check.specs.packed.Totals.{waypoints_to, points_to, totals_of};

use format_layout::names::H0101;
use format_layout::{CARD, CARDS};
use header_check::forms;
use tie_rules::packing;
use tie_store::{LINKS, ROOM};

// A count for each vessel, and one for all other numbers.
pub const VESSELS: usize = 11;

#[derive(Clone, Copy)]
pub struct Totals {
    pub waypoints: [usize; VESSELS],
    pub points: usize,
}

// How many of the first n numbers are waypoints of each vessel.
fn count_waypoints(numbers: &[u64; ROOM], n: usize) -> [usize; VESSELS]
    requires { n ≤ room }
    ensures { result ≡ waypoints_to numbers.now n }
{
    let mut waypoints = [0usize; VESSELS];
    for number in &numbers[..n] {
        waypoints[packing::vessel_in(*number)] += 1;
    }
    waypoints
}

// How many cards have a point of the variation grid.
fn points_in(header: &[u8], cards: &[u8; CARDS]) -> usize
    requires header_bound { cards_in header.now ≤ largest }
    requires noted { Noted header.now (cards_in header.now) cards.now }
    ensures { result ≡ points_to header.now (cards_in header.now) }
{
    let count = header.len() / CARD;
    cards[..count]
        .iter()
        .filter(|note| forms::layout_in(**note) == H0101)
        .count()
}

// The totals of a header with its cards noted and its definitions gathered.
pub fn totals_of(
    header: &[u8],
    cards: &[u8; CARDS],
    keys: &[u64; ROOM],
    links: &[u16; LINKS],
) -> Totals
    requires header_bound { cards_in header.now ≤ largest }
    requires noted { Noted header.now (cards_in header.now) cards.now }
    requires keys_value { keys.now ≡ (gathered header.now).keys }
    requires links_value { links.now ≡ (gathered header.now).links }
    ensures { result ≡ totals_of header.now }
{
    let waypoints = count_waypoints(keys, tie_store::entries_in(links));
    let points = points_in(header, cards);
    Totals { waypoints, points }
}
