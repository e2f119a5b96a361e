// How often the key with a number is defined in a header, and where if once: one pass over the cards, without a store, since the
// header is judged first and that costs more.
ghost use Rattle.std.specs.Prelude.{◌≡◌, ◌+◌, ◌^◌, ◌≤◌, ◌<◌};
ghost use Rattle.tie_lookup.specs.packed.Borne.{bears_by, only_with, found_on, found_over};

use format_layout::CARD;
use header_check::forms;
use tie_rules::{SLOTS, keys};

// How many places define a key, and the only one, counted from 1; 0 where they are not exactly one.
#[derive(Clone, Copy)]
pub struct Found {
    pub number: usize,
    pub only: usize,
}

impl Found {
    // No place.
    const NONE: Found = Found { number: 0, only: 0 };

    // With more of them: the only one is as it was where there are none, here where this is the first, and else none.
    #[tactic(auto, unfolding(crate::specs::packed::Borne::only_with))]
    fn with(self, more: usize, here: usize) -> Found
        requires { self.number + more < 2 ^ 64 }
        ensures number { result.number ≡ self.number + more }
        ensures only { result.only ≡ only_with self.number self.only more here }
    {
        let only = match (self.number, more) {
            (_, 0) => self.only,
            (0, 1) => here,
            _ => 0,
        };
        Found {
            number: self.number + more,
            only,
        }
    }
}

// Whether the column of a row defines the key with a number on a card; 0 is the number of none.
#[tactic(auto, unfolding(crate::specs::packed::Borne::bears_by))]
fn bears_key(card: &[u8], row: u64, number: u64) -> bool
    ensures { result ≡ bears_by card.now number row }
{
    let defined = keys::defined_by(card, row);
    0 < defined && defined == number
}

// The columns of a card that define the key.
fn on_card(card: &[u8], number: u64) -> Found
    ensures { (result ≡ found_on card.now number) × (result.number ≤ 80) × (result.only ≤ 80) }
{
    let layout = forms::layout_of(card);
    let mut found = Found::NONE;
    // A loop: `with` may be called only while the number stays small.
    for slot in 0..SLOTS {
        let row = tie_rules::tie_of(layout, slot + 1);
        let more = usize::from(bears_key(card, row, number));
        found = found.with(more, keys::column_of(row));
    }
    found
}

// The places of a header that define it, 80 to a card.
pub fn in_header(header: &[u8], number: u64) -> Found
    ensures { result ≡ found_over header.now number }
{
    let mut found = Found::NONE;
    for (place, card) in header.chunks_exact(CARD).enumerate() {
        let here = on_card(card, number);
        found = found.with(here.number, place * CARD + here.only);
    }
    found
}
